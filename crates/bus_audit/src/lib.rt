//! The auditor of traces: whether each terminal of a trace started exactly when its timers allowed it.
//!
//! [`audit`] goes over the pairs of a moment and a terminal, by moment and then by number, and names the first at which
//! something is wrong, and what ([`BreachKind`]); or it says that nothing is, with the number of garbled transmissions.
//! Which kinds there are and in which order they are told is this project's profile; when a terminal may start is what
//! [`bus_timers`] says of ARINC 629.
//!
//! It keeps three numbers of each sender, and goes from entry to entry and over whole intervals between changes of the
//! carrier: its time goes with the entries times the senders, its memory with the senders, and neither with the horizon.
//!
//! `specs/Breaches.antt` says what is wrong at a pair and what the answer is, `specs/Lines.antt` how it is told, and
//! `specs/Meaning.antt` what it means that a trace has no breach, which [`laws`] tells. `specs/inside/Watches.antt` has the numbers that
//! are kept of a sender, `specs/inside/Standing.antt` what they stand for, and `specs/inside/Keeping.antt` how they follow from what all
//! have heard, so that a message changes the numbers of its own sender alone.
#![tactic(auto)]

mod answer;
mod auditing;
mod check;
mod entry;
mod finding;
pub mod laws;
mod lazy_timers;
mod line;
mod progress;
mod settle;
mod walk;
mod watch;

pub use answer::{AuditAnswer, BreachKind};
pub use auditing::{audit, count_garbled};
pub use line::{put_answer, write_answer};
