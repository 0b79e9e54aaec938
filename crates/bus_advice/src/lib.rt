//! Advices on a table: what single number to change so that a refused one is accepted, or so that an accepted aperiodic one starts itself,
//! by the least such change.
//!
//! - [`advices`] finds all of them by closed forms, in one pass over the senders for each kind.
//! - [`periodic_table`] is the planned table that the advice to make an aperiodic table periodic makes of it.
//! - [`lacks_start`] tells whether a table is aperiodic and doesn't start itself.
//! - [`laws`] says what they are good for: the table with one of them is valid and accepted, and with no number nearer to its own is it.
//!
//! `specs/Changes.antt` says what a changed table is, `specs/Advices.antt` which advices there are, and in which order, by a search over
//! all numbers of a kind. All of this is this project's profile.
#![tactic(auto)]

mod advice;
mod advising;
mod cycles;
mod gaps;
pub mod laws;
mod plans;
mod starting;

pub use advice::Advice;
pub use advising::advices;
pub use plans::periodic_table;
pub use starting::lacks_start;
