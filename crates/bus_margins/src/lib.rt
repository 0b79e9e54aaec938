//! The margins of an aperiodic table on a bus whose clocks aren't exact.
//!
//! - [`margins`] tells the level of a table within bounds and the room that each rule leaves, [`level_of`] the level alone.
//! - [`bears`] tells how great each bound may be, alone, before the level is lower.
//! - [`write_aperiodic`] writes all of it.
//! - [`with_part`], [`part_of`] and [`most_part`] take the bounds one by one, and [`put_bears`] puts what is borne: for tables of any mode.
//!
//! [`laws`] has what a level says of the bus of the table, in the words of `bus_clocks`.
//!
//! The definitions are in `specs/`: `Times` and `Buses` (the bus of a table), `Rooms` and `Least` (the rules and the levels), `Bearing`
//! with `Greatest`, `Texts`, and `Laws`.
//!
//! # How a table within bounds is judged
//!
//! The courses of bus_clocks are tied to tables within bounds here, a nanosecond a tick. `specs/Rooms` has the room that a rule leaves at
//! each terminal, or at each two, that it speaks of, and the least of these, the first in turn order where several are as little. All
//! senders of a table share one synchronization gap and one transmit interval, and terminal gaps rise in turn order. So neighbours tell the
//! least room of *turns*, *opening* and *joining*, and each sender with the first that of *waiting* (`proofs/LeastLemmas`,
//! `TellingLemmas`): the code goes through the senders once for each rule. `FactLemmas` reads rooms as inequalities, and `Roomy` has that
//! these are room in the words of bus_clocks, both ways.
//!
//! With a shorter delay or less jitter no rule leaves less room than it needs that did before (`WiderLemmas`), so the greatest of each is
//! found by halving (`Greatest`). Of clocks all values are tried: each length is rounded up by itself, so a level that is lost at 359
//! millionths may be back at 360.
#![tactic(auto)]

mod bearing;
pub mod laws;
mod level;
mod part;
mod room;
mod rule;
mod speaking;
mod telling;
mod times;
mod writing;

pub use bearing::bears;
pub use level::{Level, Margins};
pub use part::{Borne, Part, most_part, part_of, with_part};
pub use room::{Room, Rooms};
pub use telling::{level_of, margins};
pub use writing::{put_bears, write_aperiodic};
