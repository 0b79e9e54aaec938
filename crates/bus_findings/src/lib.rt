//! What a recording of a real bus shows: which terminal is at fault, by which timer, and by how much.
//!
//! [`write_findings`] goes over a trace once, as a recording by a monitor on a bus within [`Bounds`](bus_bounds::Bounds), here in bit
//! times, and writes what can't have been: starts that are too early or too late by a timer, whatever the delays were and whatever the
//! other terminals did. [`Judgement`] is what is found at one transmission, and [`judgements`] lists it of each, for those who draw them.
//! [`Live`] is a recording that grows, for those who want to know what is found at a transmission as soon as it has come.
//!
//! The definitions are in `specs/`: `Recorded` (a trace and a table in the words of `bus_recording`), `Lacks` and `Dues` (by how much a
//! start is too early, and when a terminal was due), `Judging`, `Silences` and `Terminals` (what is found), and `Texts`. [`laws`] ties
//! them to the relations of `bus_recording`, of which it is proved that a terminal that keeps its bounds has no finding.
//!
//! # How findings are computed
//!
//! What bus_recording says of a recording is computed here of a table and a trace, and written.
//!
//! - `specs/Recorded` has the bounds of a table's timers, and the trace as a list of what the monitor has seen, in the words of
//!   bus_recording. `Amounts` tells the greatest amount of which a finding is so; `Lacks` and `Dues` compute what is missing of a timer at
//!   a start, and when a terminal was due; `Judging`, `Silences`, `Terminals` and `Texts` make findings, lines and the text of these. No
//!   definition is a loop over the trace that keeps states: each speaks of one start, the last one of its sender, and the whole list.
//! - The code goes over the trace once. Of each sender it keeps a watch (`src/watch`): its last start and its numbers; of all what is heard
//!   so far (`src/heard`). `specs/inside/Standing` says what they are behind so many transmissions, and `Walked` what a walk over those
//!   between two starts finds, which `bus_recording::laws::walks_find` ties to the definitions.
//! - Most starts need no walk: `src/quiet` keeps the last long stretch in which nobody was heard, and the longest behind it. Where it
//!   stands behind a sender's last start and has room for its synchronization gap, the walk would find that room; where it is the only long
//!   one, ended before the interval was over or has no room for both gaps, and none behind it has room for the terminal gap, the walk would
//!   find nothing due (`specs/inside/Calm`, `proofs/PlainLemmas`).
//! - `specs/inside/Sound` is why the walk may begin at the last start: a transmission that began before it, and is heard 2 D late, has been
//!   heard out before the sender's own message ends, as long as 2 D is less than a word.
//! - `src/live` is the same walk over a list that grows: what is kept of the transmissions so far stays that of them where one more comes
//!   behind (`proofs/GrownLemmas`), since nothing that is found at one depends on those behind it. `specs/Growing` says what is answered.
//! - `specs/Laws` says in the words of bus_recording what a line means; from its law that findings are just follows that there is no false
//!   alarm.
#![tactic(auto)]

mod dues;
mod fault_words;
mod heard;
mod judgement;
mod judging;
mod lacks;
mod lateness;
pub mod laws;
mod lengths;
mod lines;
mod listing;
mod live;
mod numbers;
mod quiet;
mod rooms;
mod silences;
mod timers;
mod totals;
mod watch;
mod within;
mod writing;

pub use fault_words::{is_faulty, put_fault_title, put_fault_words};
pub use judgement::{Due, Judgement, Late, Timer};
pub use lines::put_timer;
pub use listing::{fault_sum, judgements};
pub use live::Live;
pub use within::put_within;
pub use writing::write_findings;
