//! A trace as an SVG picture that has a row for each of its cycles, one below the other: the form for long traces.
//!
//! - [`write_cycles`] writes the picture of a window of a trace.
//! - [`laws`] has what follows of the definitions.
//!
//! The definitions are in `specs/`: `Sents` (the transmissions that begin in a window), `Rows` (where the rows begin, and which
//! transmissions each has), `Cuts` (which are whole), `Surveys` (what is told of all rows before they are drawn), `Lanes` (by which shades
//! go), `Pages` (what all rows go by), `RowTexts` (the text of a row), `Loads` (how busy a row is), `Faults` (the marks of faults), `Dues`
//! (the lines of offsets), `Listings` (what the legend lists), `Legends` (its text) and `CyclesTexts` (the text of the picture). No call
//! takes memory.
#![tactic(auto)]

mod areas;
mod begins;
mod boxes;
mod breach;
mod counting;
mod cut;
mod cycle;
mod due;
mod faults;
pub mod laws;
mod legend;
mod listing;
mod load;
mod marked;
mod measures;
mod one_row_more;
mod open;
mod page;
mod plot;
mod row_words;
mod shown;
mod survey;
mod table_marks;
mod writing;

pub use writing::write_cycles;
