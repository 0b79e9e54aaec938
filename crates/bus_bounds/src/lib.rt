//! How exact a bus is: within which bounds its delays and its clocks keep, and between which bounds its lengths so lie.
#![tactic(auto)]

mod bounds;

pub use bounds::{Bounds, MOST_CLOCKS, MOST_DELAY, MOST_JITTER};
