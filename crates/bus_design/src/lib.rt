//! The design of an aperiodic table: the gaps with which the same senders, in the same order, come into order from any start, and the
//! longest cycle is the least.
//!
//! - [`design`] tells these gaps, and [`design_any`] makes the table; [`speakers_of`] tells how long its senders speak,
//!   [`with_gap`] and [`listeners_of`] give equal terminals.
//! - [`laws`] has what the gaps of `bus_gaps` are for the level and the longest cycle of a table.
//!
//! The definitions are in `specs/`: `Others` (tables of the same senders in the same order) and `Bests` (what a design means for tables).
#![tactic(auto)]

mod designing;
pub mod laws;
mod making;

pub use designing::{design, speakers_of};
pub use making::{design_any, listeners_of, with_gap};
