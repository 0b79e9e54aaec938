//! The planner of periodic tables: the least transmit interval, and offsets for it.
//!
//! - [`least_interval`] tells from which transmit interval on some choice of offsets is accepted.
//! - [`plan`] chooses the offsets of a table anew, or says that no choice is accepted.
//!
//! `specs/Plans.antt` says what the least interval, the planned order and the planned offsets are, `specs/Answers.antt` what an answer
//! means, and [`laws`] what callers may use of them. Interval and offsets are chosen for the verdict of `bus_regime`; the age of data
//! isn't looked at. All of this is this project's profile.
#![tactic(auto)]

mod interval;
pub mod laws;
mod planning;
mod walk;

pub use interval::least_interval;
pub use planning::{PlanAnswer, plan};
