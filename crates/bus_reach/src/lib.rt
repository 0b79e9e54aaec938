//! How long a cable a table bears, what its senders do on one that it bears, and what they do that were powered up when they liked.
//!
//! On a cable with length each terminal hears a transmission later than it is sent, and one that is powered up late has heard
//! nothing before; what the senders do then is the lawful list on the cable (`bus_medium`). What a planner writes down in its
//! place, without any timer, is in `specs/Schedule.antt`, and where senders join one after the other in `specs/Joining.antt`.
//!
//! - [`tolerance`] is the greatest delay that a table bears, [`bears`] whether it bears one (`specs/Bearing.antt`), and [`limits`] what
//!   limits it, condition by condition (`specs/Limits.antt`).
//! - `specs/Settling.antt` says what order comes about, whenever its terminals are powered up, of an aperiodic table that starts itself
//!   (`bus_regime::starts_itself`).
//! - [`latency`] is how old data are at most when they have been received (`specs/Latency.antt`).
//! - [`laws`] has what holds on a cable that a table bears, and what fails on one that it doesn't.
#![tactic(auto)]

mod aperiodic;
mod bearing;
pub mod laws;
mod limit;
mod limiting;
mod periodic;
mod waiting;

pub use bearing::{bears, tolerance};
pub use limit::{Limit, Rule};
pub use limiting::limits;
pub use waiting::{latency, longest_wait};
