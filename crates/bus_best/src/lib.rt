//! The best gaps of an aperiodic bus, or the rule that is to blame where there are none.
#![tactic(auto)]

mod blame;
mod chain;
pub mod laws;
mod times;

pub use blame::{Blame, Needed, Rule, to_blame};
