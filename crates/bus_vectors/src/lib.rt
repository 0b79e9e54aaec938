//! Inputs for trying the commands: a large one that is made from a number, and stored rows of small ones.
//!
//! - [`make`] gives the table and the messages of a number, which are accepted and fit. [`make_hands`] gives the same messages dealt to
//!   the senders: a drill runs them. [`sender_count`] and [`round_count`] say how many senders there are, and how many messages each has.
//! - [`row`] gives a command, its texts, and all that has to come of it.
//! - [`laws`] has what holds of every made table and its messages.
//!
//! The definitions are in `specs/`: `Made` (what a number makes, field by field), `MadeLaws`, and `Rows` (which rows are stored). All of
//! this is this project's own.
#![tactic(auto)]

mod hands;
mod items;
pub mod laws;
mod making;
mod rows;
mod tables;
mod texts;

pub use items::round_count;
pub use making::{make, make_hands};
pub use rows::{StoredRow, row};
pub use tables::sender_count;
