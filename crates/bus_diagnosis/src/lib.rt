//! What is wrong with a text that stands beside a table, in plain sentences: messages, a cable, or a trace. Its first line tells which.
//!
//! - [`diagnose`] finds what is wrong with a text for an accepted table, or what is right about it: a [`Diagnosis`].
//! - [`write_diagnosis`] tells it, a sentence a line.
//! - [`laws`] says what the sentences mean: that a table runs with messages of which nothing is wrong, and takes turns on a cable that it
//!   bears; that the item that is named is the first that does not fit, and why.
//!
//! The definitions are in `specs/`: `Kinds` (which text it is), `Misfits` (why an item doesn't fit its sender), `Reaches` (how far a cable
//! reaches), `Diagnoses` (what is found) and `Sentences` with `Lines` (what is said of it, by the texts of `src/wordings.rt` and
//! `src/faults.rt`).
#![tactic(auto)]

mod cables;
mod diagnosing;
mod diagnosis;
mod faults;
mod kind;
pub mod laws;
mod lines;
mod misfit;
mod reach;
mod sentences;
mod unfits;
mod wordings;

pub use diagnosing::diagnose;
pub use diagnosis::Diagnosis;
pub use kind::Kind;
pub use misfit::{Misfit, Unfit};
pub use reach::{Pair, Reach};
pub use sentences::write_diagnosis;
