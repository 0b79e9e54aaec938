//! What all pictures of a trace share: what is told of the trace around them, and of each of its transmissions.
//!
//! - [`put_frame`] and [`put_tail`] put what stands around a picture. [`Told`] is what is told of the trace there, [`Counts`] how much of it
//!   is shown.
//! - [`Sents`] goes over a list and tells of each transmission what a picture says of it, a [`Sent`]; [`all_sents`] has them all, and
//!   [`put_sent`] puts the words of one.
//! - [`held`] tells how many messages a terminal held.
//! - [`laws`] has what follows of what is told of a list.
//!
//! What draws is bus_pen. The definitions are in `specs/`: `Sayings` (the words), `Sending` (what is told of a list), `Later` (late starts),
//! `Headings` and `Frames`. No call but [`all_sents`] takes memory.
#![tactic(auto)]

mod counts;
mod frame;
mod heading;
mod holds;
mod later;
pub mod laws;
mod on_cable;
mod sent;
mod sents;
mod told;

pub use counts::Counts;
pub use frame::{put_frame, put_tail};
pub use holds::held;
pub use sent::{Sent, put_garbled, put_sent};
pub use sents::{Sents, all_sents};
pub use told::Told;
