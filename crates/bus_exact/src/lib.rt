//! Exact clocks are a case of clocks that aren't: what the senders of an aperiodic table do on a cable, by the rules of `bus_medium`, is a
//! course by those of `bus_clocks`. So the order of such a table comes about by itself on a cable too.
//!
//! - `specs/Exact.antt` says which bus and which course, and that it is one.
//! - `specs/Settling.antt` says what order comes about with delays, whenever the terminals are powered up, of a table that starts itself.
//!
//! # How tables and courses are tied
//!
//! The courses of bus_clocks are tied to tables here, with exact clocks. `specs/Exact` writes the senders of a table as a bus by their
//! places in turn order (`proofs/Places`), and a list of transmissions as a course, one tick a bit time (`Ticks`). What a sender has heard,
//! when it started last and how many messages it has sent is the same told either way (`Pasts`), so that the rule of bus_timers and that of
//! courses let it start at the same moments (`Courses`). `Rooms` has what a borne delay leaves, and `Returning` reads the rounds of the
//! course in the table's words.
#![tactic(auto)]

pub mod laws;
