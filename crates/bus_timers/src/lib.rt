//! The timers of one terminal: transmit interval, synchronization gap and terminal gap.
//!
//! [`Timing`] has the numbers by which they run. [`Core`] is what any representation of the timers answers, by its
//! relation to a past and a last own start; [`CounterCore`] keeps them as counters, bit time by bit time.
//! [`JumpCore`] tells how long it waits on a quiet bus, and is passed a whole stretch in one move, or a whole
//! [`History`]; [`DeadlineCore`] keeps moments for that. `specs/MayStart.antt` says when a terminal may start,
//! `specs/Wait.antt` how long it waits, `specs/Histories.antt` of which bit times a history tells, and
//! `specs/GapPlace.antt` the one place that tells how far the two gaps have come; [`laws`] says how it moves.
//! [`plain`] computes the definition.
#![tactic(auto)]

mod cores;
mod counter;
mod deadline;
mod history;
mod jumps;
pub mod laws;
mod plain;
mod timing;

pub use cores::Core;
pub use counter::CounterCore;
pub use deadline::DeadlineCore;
pub use history::History;
pub use jumps::JumpCore;
pub use plain::may_start;
pub use timing::Timing;
