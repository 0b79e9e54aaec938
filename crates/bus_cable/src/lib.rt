//! A bus on a cable: where its terminals are and when they wake, the cable text, and what each terminal hears of a list.
//!
//! - [`Cable`] has the places and the wakes that a cable text names.
//! - [`read_cable`] gives a cable and the items of a text, or the line that is refused and why, and [`write_cable`] writes their canonical
//!   text.
//! - [`observe_on`] is what the senders of a table do on a cable.
//! - [`write_heard`] writes what each terminal of a table hears of a list, when, and what is garbled there.
//!
//! [`laws`] has the order on a cable whose layout a text gives: what the senders of a table do where its terminals are at these places and
//! wake at these moments, and what each terminal of the table hears of it (`specs/OrderLaws.antt`, `Layouts.antt`).
//!
//! The definitions are in `specs/`: `Cables`, and for the cable text `Grammar` (which texts stand for which cables and items), `Reading`
//! (what a text reads as, or which line is refused) and `Canonical`; `Hearing`,
//! `HearingLaws` and `HeardTexts` for the heard text.
#![tactic(auto)]

mod cable;
mod heard;
mod hearing;
pub mod laws;
mod observing;
mod reading;
mod spots;
mod writing;

pub use cable::{Cable, MOST_WAKE, Named};
pub use heard::write_heard;
pub use observing::observe_on;
pub use reading::{CableError, read_cable};
pub use writing::write_cable;
