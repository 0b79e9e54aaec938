//! What the senders of a table have to send: the items of a messages text, dealt out.
//!
//! - [`fits`] holds the items to the lines of their senders, and [`hands`] deals them out: one [`bus_table::Hand`] for each sender.
//! - [`read_hands`] does both as it reads a messages text, and keeps no list of items.
//!
//! Which items fit and which hands they give is defined in bus_table (`specs/Fits`, `specs/Hands`), what a text gives in `specs/Dealt`, and
//! what hands hold, as the HOLD lines of a trace say it, in `specs/Holds`.
#![tactic(auto)]

mod dealing;
mod error;
mod fitting;
mod places;
mod reading;

pub use dealing::hands;
pub use error::HandsError;
pub use fitting::fits;
pub use reading::read_hands;
