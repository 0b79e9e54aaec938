//! The margins of a periodic table on a bus whose clocks aren't exact.
//!
//! - [`margins`] tells the level of a table within bounds and the room that each rule leaves, [`level_of`] the level alone.
//! - [`bears`] tells how great each bound may be, alone, before the level is lower.
//! - [`write_periodic`] writes all of it, [`write_drifting`] in a sentence what comes of clocks that are 50 millionths off,
//!   the bounds that [`drifting`] has.
//!
//! [`laws`] has what a level says of the bus of the table, in the words of `bus_drift`.
//!
//! The definitions are in `specs/`: `Buses` (when the senders of a table are due for the first time), `Rooms` and `Least` (the rules),
//! `Margins` (the levels), `Bearing`, `Texts`, `Sentences`, and `Laws`.
//!
//! # How a periodic table within bounds is judged
//!
//! bus_margins_periodic takes the bus of a table from bus_margins, has its first dues (`specs/Buses`), and for each rule the least room
//! among all to which the rule applies, in the order of turns (`specs/Rooms`): so that a rule holds is that its least room does
//! (`proofs/LeastLemmas`, `RoomLemmas`, `LeadLemmas`).
//!
//! Of the rule of order the loops keep how long it takes from the late turn on, at most and at least, so that each of its cases is one sum
//! more. Of all turns that are due behind one that is held back the first of which there is a rule leaves the least room (`ahead`,
//! `AheadLemmas`): so K squared of K cubed cases are looked at. No memory is taken. Where it is only asked whether the rule holds
//! (`keeping`), a turn that is due late enough ends the walk over those behind it, as all of these are then.
//!
//! With wider bounds no rule holds that didn't with narrower ones, but for those in which a long transmit interval is what there is
//! (`WiderLemmas`). Where clocks are as exact it grows by as much as what the rule needs, at least: so delay and jitter are found by
//! halving. Of clocks the greatest with which order may be kept is, and from there on down each value is tried (`BearLemmas`).
#![tactic(auto)]

mod ahead;
mod bearing;
mod begin;
mod keeping;
pub mod laws;
mod leading;
mod level;
mod order;
mod room;
mod rounds;
mod rules;
mod sentences;
mod telling;
mod times;
mod wordings;
mod writing;

pub use bearing::bears;
pub use level::{Level, Margins};
pub use room::{Room, Rooms, holds};
pub use sentences::{drifting, write_drifting};
pub use telling::{level_of, margins};
pub use writing::write_periodic;
