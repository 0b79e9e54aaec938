//! A page on a table for who reviews it: one HTML text, without any trace, without scripts, for light and dark schemes and for print.
//!
//! - [`find`] gathers what is told of a table, its [`Findings`], and [`write_page`] writes the page.
//! - [`write_unread_page`] and [`write_whole_page`] write the page of a text that gives no valid table.
//! - [`laws`] has what holds of its pictures and numbers.
//!
//! The definitions are in `specs/`: `Pages` (the whole page), `Heads` (the verdict and the figures), `Messages`, `Turns` and `Cycles` (the
//! shortest and the longest cycle), `Slots` and `Intervals` (the interval of a periodic table), `Bars` (what each rule bears), `Rooms` (the
//! room of the margins), `Waits` and `Latencies`, `Feet` (the text, and what stands behind the page) with `Checksums`, `Rows`, `Styles`,
//! `Paints`. Measures stand once, as constants that these definitions cite.
#![tactic(auto)]

mod bare;
mod bars;
mod checksum;
mod cycles;
mod finding;
mod foot;
mod heading;
mod interval;
mod latencies;
pub mod laws;
mod measures;
mod message;
mod page;
mod paint;
mod refused;
mod room;
mod rooms;
mod sentences;
mod slot;
mod style;
mod turn;
mod waits;

pub use bare::{write_unread_page, write_whole_page};
pub use finding::{Figures, Findings, Refusal, find};
pub use page::write_page;
pub use room::Span;
pub use slot::{Slot, Synced};
pub use turn::{Stretch, Turn};
