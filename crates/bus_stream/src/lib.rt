//! Streams: what a recorder tells of a bus line by line while it runs, of which there may be no end.
//!
//! - [`read_line`] takes the next line of a source, and no byte behind it; it keeps no more of a stream than that line.
//! - [`read_item`] reads a line as an [`Item`]: a transmission, a moment up to which all is told, or a stretch of which anything may lack.
//! - [`Place`] keeps the order of items.
//!
//! The first line is `STREAM 1` ([`is_head`]). A line behind it is split at single spaces; numbers are plain decimals, moments are
//! nanoseconds. A line that isn't right is refused with the first [`StreamReason`] that applies to it. There is no last line: a stream ends
//! where its source does, and what stands behind the last line feed is no line.
//!
//! The definitions are in `specs/`: `Lines` (what is taken of a source), `Items` (what a line says), and `Places` (which item may come).
#![tactic(auto)]

mod fields;
mod item;
mod lines;
mod message;
mod place;
mod reason;

pub use item::{Item, MOST_TIME, is_head, read_item};
pub use lines::{LINE_LIMIT, LineRead, read_line};
pub use place::{Place, bit_of};
pub use reason::StreamReason;
