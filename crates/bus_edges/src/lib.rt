//! The edges of a line, and the half bits that they show.
//!
//! - [`Burst`] gathers the half bits of a burst, which is what stands between two stretches of quiet.
//! - [`count`] rounds a run, the stretch between two edges, to whole half bits; [`ends_burst`] tells where a burst is over.
//! - [`laws`] say that these are the half bits that the line carries, where edges are seen well enough, and what noise leaves.
//!
//! The definitions are in `specs/`: `Lines` (runs, halves and bursts), `Bursts`, and `Laws` (what is seen of what a line carries).
#![tactic(auto)]

mod burst;
pub mod laws;
mod run;

pub use burst::Burst;
pub use run::{QUIET, Run, count, ends_burst};
