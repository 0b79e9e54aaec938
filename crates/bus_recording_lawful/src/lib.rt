//! What an audit finds to be lawful is recorded without a finding, in both modes.
//!
//! # How lawful lists are recordings
//!
//! This crate writes a list of transmissions as what happens on such a bus, where ticks are bit times from the quiet before the settled
//! start on (`proofs/Ticks`), or moments (`Local`), so that its past is what a terminal heard there. `Whole` has the other way: where
//! nobody has a finding, what is lawful hangs on first starts and on hands alone; `Audited` has it of traces.
#![tactic(auto)]

pub mod laws;
