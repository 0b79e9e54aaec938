//! The time line of a trace as an SVG picture: what is on the bus, and a lane for each terminal that sends.
//!
//! [`write_time_line`] writes it, and [`laws`] has what follows of its definitions. These are in `specs/`: `Boxes` (which transmissions
//! share a box), `Strings` (the wordstrings of a message, and their words where these have room), `Takings` (who takes words of them),
//! `Rows` (what is drawn of the transmissions of a row), `OverlapBands` (where several are sent at once), `Lanes` (which lanes are drawn),
//! `Gaps`, `Intervals` and `Timers` (the gaps in each quiet, and the transmit intervals), `Offsets` (where senders should start), `Marks`
//! (the first breach), `Faults` (the faults that are found), `Paces` (how far starts lie apart), `Loads`, `Kinds` and `Legends` (which
//! kinds of marks there are, and what they mean), and `TimeLines` (which rows there are, and the whole text). What draws is `bus_pen`, and what
//! all pictures tell of a trace is in `bus_shapes`. No call takes memory.
//!
//! # How a picture is written
//!
//! A picture is defined over the list as `Sents` gives it, each transmission with its message number, its end, the greatest end before it,
//! and whether it is garbled: a row of a time line is the transmissions of a terminal that meet the window and are garbled, or those that
//! aren't, cut into boxes by a relation to what a box has so far; the rows of cycles are cut by where a transmission begins a new one.
//!
//! The moments at which these rows begin are counted from a synchronization gap before the settled start in aperiodic mode, so that the
//! first cycle, to which that quiet belongs, is as long as the others, and no number is below 0.
//!
//! A writer keeps the box or the row that is not yet complete, and takes no memory but the stack; a time line walks over what is told of
//! each transmission, which is found once, twice for each place, and over the list some four times more for whether it has any, its timers,
//! its load and how far its starts lie apart, or for counts, overlap bands and what its legend lists; cycles twice for all rows, so that
//! what is garbled lies over what is plain, once for their loads, and once for the marks of faults. Only when its rows are all told of is
//! the row of the first breach known, and with it how long the picture has to be.
//!
//! Only two kinds of elements are drawn, boxes and words, so that the text of an element is defined once, in bus_pen.
//!
//! A terminal gap is defined by one fold over the transmissions before a moment: from which place on the bus is quiet, and whether the
//! synchronization gap has elapsed since the terminal's own last start. The writer goes over the list once for each sender. It keeps what
//! is heard of all so far, and of those before the moment of the last, since what begins at a moment isn't heard before it; and the last
//! start, whose interval is drawn when the next is known. That this is where the terminal gap of the timers counts from holds of lists in
//! which transmissions overlap as they like: within a transmission no synchronization gap fits.
//!
//! Texts that crates above only pass on are `unfoldable`: with `time_line_text` and `cycles_text` open, a check of bus_view took minutes in
//! place of seconds.
#![tactic(auto)]

mod boxes;
mod canvas;
mod choosing;
mod cluster;
mod counting;
mod drawn_lines;
mod fault;
mod faults;
mod heard;
mod intervals;
mod kinds;
mod lane_timings;
mod lanes;
pub mod laws;
mod legend;
mod lines;
mod load;
mod marks;
mod measures;
mod names;
mod offsets;
mod overlap_bands;
mod pace;
mod places;
mod receivers;
mod row;
mod rows;
mod starts;
mod strings;
mod strokes;
mod subject;
mod terminal_gaps;
mod timer_marks;
mod timers;
mod words;
mod writing;

pub use writing::write_time_line;
