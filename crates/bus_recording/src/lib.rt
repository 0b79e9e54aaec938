//! A recording of a real bus: what is found in it, and that each finding is a fault of the terminal that it names.
//!
//! # Recordings of a real bus, in layers
//!
//! bus_recording speaks of one terminal at a time: what it hears, and what it sends. `specs/Findings` tells by the recording alone what
//! such a terminal can't have done, and `specs/Keeping` by its hearing alone what it is that it keeps its bounds: the two are told in the
//! same words, three timers that are over behind the last start. `specs/Recordings` stands between them: with the terminal's clock set
//! ahead by its distance from the monitor, its own starts are those of the recording, and it hears everybody else no earlier than recorded,
//! and up to the way there and back later. No other terminal's timers are spoken of anywhere.
//!
//! - `proofs/Amounts` carries each finding over to what the terminal heard, with its amount. That findings are just (`Just`) is the amount
//!   1 of that: who keeps its bounds lacks nothing.
//! - `Recorded` and `Straight` have that monitors make such recordings, at places on a cable or with any delays. `Finer` and `Rounded` have
//!   that a recording in whole bit times is one in ticks, whose delays sway by less than a bit time more; so rounding adds to what there
//!   is, whatever that is. `Noted` puts the two together; `Shifted`, `Unshifted` and `Names` have that neither the beginning of the count
//!   nor the numbers matter. `Until` has that a terminal keeps its bounds by what is heard before the monitor stops, and `Filed` puts all
//!   of this into one law of files.
//! - `Courses` and `Admissible` have that the senders of bus_clocks keep their bounds. Behind an own start a sender has heard itself, so
//!   each of its timers was begun behind its power-up: so nothing hangs on the state in which it began, nor on its first due. Of a first
//!   start a terminal gap is asked only where something had been heard, and then its timer wasn't begun before anything was sent.
//! - `Found` goes the other way, from what was heard to a finding, with the margins that this costs, and `Exact` both ways where there are
//!   none; there a stretch that nobody disturbs is looked for (`Search`).
//! - `specs/Walk` has the walks from start to start as functions of lists. `SyncWalk` and `LateWalk` (over `Stretches`) have that these
//!   give what is found, and all of it: each run of quiet lies in one of the stretches between the recorded transmissions.
#![tactic(auto)]

pub mod laws;
