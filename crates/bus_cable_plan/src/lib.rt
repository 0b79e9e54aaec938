//! Plans of periodic tables for a cable: from which transmit interval on some choice of offsets bears a delay, and offsets for it.
//!
//! - [`plan_for`] chooses the offsets of a table so that it bears a delay, or says that none do, or that neither is known.
//! - [`plan_best`] does so for the greatest delay that any offsets bear.
//! - [`most_borne`] is that delay, where it is known.
//! - [`least_interval_for`] and [`turns_for`] tell the intervals that this is decided by.
//!
//! `specs/Shapes.antt` says how long the gaps of a plan are, `specs/Plans.antt` what the least interval and the planned offsets are,
//! `specs/Known.antt` for which delays the least interval is proved to be the least in which any offsets do, `specs/Answers.antt` what an
//! answer is, and [`laws`] what callers may use of them. All of this is this project's profile.
#![tactic(auto)]

mod given;
mod interval;
pub mod laws;
mod laying;
mod order;
mod planning;
mod shape;

pub use interval::{MOST_DELAY, least_interval_for, turns_for};
pub use planning::{CablePlan, most_borne, plan_best, plan_for};
