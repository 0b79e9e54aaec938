//! The closed schedule of a table and even hands, and the run that follows it.
//!
//! Hands are even where there is one hand for each sender in the order of the table, each message fits, and all hands have
//! the same number of messages (`specs/Even.antt`). The closed schedule (`specs/Closed.antt`) says who starts when, as sums of
//! gaps and messages in aperiodic mode and as offsets in intervals in periodic mode, and knows no timers. For a table that the
//! checker accepts and even hands it is what the bus does ([`laws::accepted_is_closed`]), and [`run_settled`] runs a bus that
//! does it.
//!
//! - [`find_uneven`] tells whether the hands of a table are even. All else asks that they are.
//! - [`closed_end`] is the moment at which the closed schedule ends, and [`closed`] its list, which is given where it
//!   ends at [`LONGEST_END`] or before (`specs/Limits.antt`), which [`within_limit`] asks.
//! - [`run_settled`] observes the bus up to the closed end, over any [`bus_timers::JumpCore`]. What a run is stands in
//!   `specs/Runs.antt`: the closed schedule in whole, the one lawful list, without overlaps, each sender once a cycle.
//! - [`laws`] has what holds of closed schedules of any length: with them, the verdict accepts exactly the settled tables
//!   (`specs/Settled.antt`), and a refused table fails with the hands of its witness.
//!
//! ```
//! if find_uneven(&table, &hands).is_none() && verdict(&table).is_accepted() {
//!     let ran = run_settled::<DeadlineCore>(alloc, &table, hands)?;
//! }
//! ```
#![tactic(auto)]

mod dealt;
mod end;
mod error;
pub mod laws;
mod order;
mod run;
mod schedule;
mod uneven;

pub use end::{closed_end, within_limit};
pub use error::{LONGEST_END, ScheduleError};
pub use run::{Ran, run_settled};
pub use schedule::closed;
pub use uneven::{Uneven, find_uneven};
