//! The table of a bus: which terminals stand on it, when each may start, and what each sends and takes.
//!
//! - [`Table`] with its [`Sender`]s, its [`Listener`]s and their [`SendLine`]s and [`TakeLine`]s keeps that it is
//!   valid: every number is in its range, and none of the [`WholeReason`]s applies.
//! - [`read_table`] reads a text, and [`write_table`] writes the canonical one. [`read_or_stop`] tells where a reading stops too, and a
//!   [`Stop`] what may stand there.
//! - [`shortest`] and [`longest`] tell the lengths of a sender's messages, [`place`] who speaks after whom, [`greatest_gap`] the greatest
//!   terminal gap.
//! - [`with_offsets`] gives the senders of a periodic table other offsets, and [`as_periodic`] makes a periodic table of an aperiodic one.
//! - [`message_fits`] holds a message to the lines of its sender. A [`Hand`] is what a terminal has to send; bus_hands deals items out.
//!
//! The gaps and intervals of a bus, and that each terminal has a gap of its own which is shorter than the
//! synchronization gap, are facts of ARINC 629. All ranges, the lines, the text and the order of reasons are this
//! project's profile.
//!
//! The definitions are in `specs/`: `Tables` (a table as plain numbers and lists), `Ranges`, `Whole` and `Valid` (which
//! tables are valid), `Text` (which texts stand for which tables), `Forms`, `Drafts` and `Reading` (what a text reads as,
//! line by line, and where and why it is refused), `Canonical` (the text that is written), `Lengths`, `Turns`, `Offsets`,
//! `Periodic`, `Fits` and `Hands`. What callers may use of them beside the contracts are the `pub` modules of `proofs/`, and what
//! they state in `specs/inside/Facts`.
#![tactic(auto)]

mod draft;
mod error;
mod fit;
mod forms;
mod gaps;
mod hand;
mod head;
mod keyword;
pub mod laws;
mod lengths;
mod line;
mod listener;
mod mode;
mod offsets;
mod periodic;
pub mod ranges;
mod reading;
mod saying;
mod sender;
mod stage;
mod stop;
mod table;
mod turns;
mod whole;
mod writing;

pub use error::{TableError, WholeReason};
pub use fit::{FitError, allows, message_fits, place_of, sender_of};
pub use gaps::greatest_gap;
pub use hand::Hand;
pub use keyword::Keyword;
pub use lengths::{longest, shortest};
pub use line::{SendLine, TakeLine};
pub use listener::Listener;
pub use mode::Mode;
pub use offsets::with_offsets;
pub use periodic::as_periodic;
pub use reading::{Unread, read_or_stop, read_table};
pub use saying::{put_fit_error, put_numbered, put_whole};
pub use sender::Sender;
pub use stop::Stop;
pub use table::Table;
pub use turns::{MOST_SENDERS, place, turn_at, turn_places};
pub use writing::{put_mode, put_table, write_table};
