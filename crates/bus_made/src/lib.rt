//! What `design` answers of an aperiodic table: the table that is made for real clocks, or why there is none.
//!
//! - [`design`] makes the table of `bus_design`, in its own order or in the free one, or tells what is to blame as `bus_best` does, or which
//!   wish is lacking.
//! - [`write_design`] writes it: the canonical text of the table, or one line.
//!
//! The definitions are in `specs/`: `Designs` (the made table, by computation), `Orders`, `Wishes`, `Answers` (with what they mean) and
//! `Texts`. That the answer is told by
//! computation is since there is one made table (`proofs/One`): whatever is the best of `bus_design` is what `bus_best` computes.
#![tactic(auto)]

mod answer;
pub mod laws;
mod order;
mod wish;
mod writing;

pub use answer::{Answer, design};
pub use order::Order;
pub use wish::{Lack, Wish};
pub use writing::write_design;
