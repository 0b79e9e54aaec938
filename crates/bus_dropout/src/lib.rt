//! Uneven counts in aperiodic mode: senders fall silent when their messages are spent, and the others keep their order.
//!
//! The drop-out schedule (`specs/DropOut.antt`) is rounds of the senders that have a message left. It knows no timers. Where the last
//! cycle, of the senders with the most messages, is at least the transmit interval, it is what the bus does
//! ([`laws::dropout_is_lawful`]): fewer senders make shorter cycles, so that the last bounds them all. Nothing is claimed of the bus
//! where it is below the interval.
//!
//! - [`last_cycle`] is that cycle, where some sender has two messages or more.
//! - [`drop_end`] is the moment at which the schedule ends.
//! - [`run_dropout`] observes the bus up to there. What its run is stands in `specs/Runs.antt`.
//!
//! ```
//! if last_cycle(&table, &hands).is_none_or(|least| least >= u64::from(table.ti())) {
//!     let list = run_dropout(alloc, &table, hands)?;
//! }
//! ```
#![tactic(auto)]

mod cycle;
mod end;
pub mod laws;
mod left;
mod run;

pub use cycle::last_cycle;
pub use end::drop_end;
pub use run::run_dropout;
