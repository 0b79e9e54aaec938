//! A trace as a Value Change Dump (IEEE 1364), which wave viewers read: what each terminal does at each bit time, and what is on the bus.
//!
//! - [`write_dump`] writes the dump of a trace; [`Dump`] says which signals it has.
//! - [`write_save_file`] writes a save file of GTKWave, with which the viewer shows all signals of a dump.
//! - [`laws`] has what follows of the definitions.
//! - [`doubled`] tells the first transmission that starts before an earlier one of its terminal has ended: of a list with one there is no
//!   dump.
//!
//! The definitions are in `specs/`, by bit times: `OnBus` (what a message has on the bus), `Seen` (what is seen of a list at a bit
//! time), `Timers` (what the timers of a sender tell), `Scenes` (both), `Signals` (the value of each signal of that), `Lanes` (the
//! terminals that have signals), `Doubled`, `DumpTexts` (the text), `Reading` (what a reader of such a text finds), `Stamps` (the times
//! of its lines), `SaveFiles`, and `Laws`, `TimerLaws` and `SaveLaws` (what follows of all these).
//! No call takes memory.
//!
//! # How a dump is written
//!
//! A dump is defined bit time by bit time: `scene_at` has what is seen of the list there, what the timers of each sender tell, and whether
//! the breach is there, `value` each signal's value in a scene, and the text has a stamp wherever a value changes. The writer goes from
//! change to change: a `Walk` keeps the live transmissions, a `TimerWalk` over it the timers of each sender, and each says until when
//! nothing changes; that nothing does in between is the one induction. Most changes are those of words while carrier stays. Of these the
//! timers needn't know: they are left behind, and passed on and asked only where carrier turns, somebody begins, or one of their timers
//! does.
//!
//! Two scenes are kept, of which the later takes over what is in the other before it is looked at anew; what may have changed is told once
//! a change, by terminal, and a lane of which nothing may have changed costs one test. Where the timers weren't asked, what they tell is
//! neither copied nor compared. After a failed write nothing more is looked for.
//!
//! That a dump without overlaps tells its list is proved backwards from what a reader finds. The declarations tell the signals, and so the
//! lanes. The message number of a terminal tells which bit times are those of one transmission; in these the label words and the words on
//! the bus tell its wordstrings, each of which ends where there is no label. Two lists in order with the same entries are one.
#![tactic(auto)]

mod all_timers;
mod binary;
mod breach;
mod change;
mod comment;
mod declaration;
mod doubling;
mod dump;
mod head;
mod lane;
mod lanes;
pub mod laws;
mod layout;
mod live;
mod look;
mod opening;
mod save_file;
mod scene;
mod sender_timers;
mod shown;
mod shown_stretch;
mod signal;
mod timer_walk;
mod touched;
mod value;
mod walk;
mod writing;

pub use breach::FirstBreach;
pub use doubling::doubled;
pub use dump::Dump;
pub use lane::Lane;
pub use lanes::{MOST_LANES, lanes_of};
pub use save_file::write_save_file;
pub use writing::write_dump;
