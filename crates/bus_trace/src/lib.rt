//! Traces of the bus: what each terminal held, and what was sent up to a horizon, as a value and as a text.
//!
//! - [`Trace`] keeps in its type what every trace has: its order and its ranges.
//! - [`write_trace`] writes the text of a trace in format 2 to a sink, as does [`write_clear_trace`] where nothing overlaps, and
//!   [`read_trace`] reads a text of either format back from a source, of which it takes exactly the bytes of the trace text. A text that
//!   is none is refused at the byte at which its first offending line begins, with the [`TraceReason`].
//!
//! - [`Window`] is a stretch of a trace, of which alone something is shown.
//! - [`TraceReader`] reads a trace text that comes in pieces, and tells with each piece whether it ends there or is refused.
//! - [`stop_behind`] says what may stand behind lines of a trace text.
//!
//! The text is this project's own: `TRACE f`, `HORIZON h`, a `HOLD n c` for each terminal that held messages, then for each
//! transmission `TX m n`, a `WS` line of words for each wordstring and, in format 2, a `TE e c` with its end and the mark of a
//! collision, and `END`. The definitions are in `specs/`: `Traces` has the lines of a trace and the grammar, `States` what one line
//! more gives and why it is refused, `Runs` what a stream reads as, `Windows` which stretches there are.
//!
//! # How a trace is read
//!
//! `TraceReader` takes a trace text in pieces, however they are cut, and keeps the values that it has read and no more of the text than the
//! line that is begun: a value has one text in its format, so all that was fed follows from what the reader holds (`stream` in
//! `specs/Pieces`). A line is first recognized as it is written, in one pass without its fields (`quick`): what is recognized is exactly
//! that spelling. Any other line is judged by its fields, which alone gives refusals.
//!
//! `read_trace` takes lines where the source has them at hand (`Source::at_hand`), as long as they are recognized, since such a line
//! decides nothing; the next other line, or a part of one, is pulled (`Source::pull_line`), so that no byte behind the deciding one is
//! taken. A file has up to 16 KiB at hand, so that two or three pulls come for each of them.
//!
//! A line as it is written takes no memory of its own where it is short: a wordstring keeps up to nine data words in itself, and more of
//! them in one block of memory or a box, and a message keeps one wordstring in itself and several in a `Vec` (`Kept` in
//! `bus_strings/src/wordstring.rt`, `Strings` in `message.rt`). So a transmission of one short wordstring is 48 bytes of the list and
//! nothing else. How long a message is follows from the one wordstring's count, and of several it is kept beside them, so that `bits`,
//! `Transmission::end` and each pass over a list for marks walk no wordstrings. Contracts see none of this: the types are their wordstrings
//! and words.
#![tactic(auto)]

mod draft;
mod fault;
mod fields;
mod format;
mod hold;
mod keyword;
pub mod laws;
pub mod limits;
mod list;
mod mark;
mod position;
mod quick;
mod reader;
mod reading;
mod reason;
mod stage;
mod stop;
mod trace;
mod valid;
mod walk;
mod window;
mod words;
mod writing;

pub use fault::TraceError;
pub use hold::Hold;
pub use keyword::Keyword;
pub use reader::TraceReader;
pub use reading::read_trace;
pub use reason::TraceReason;
pub use stage::Fed;
pub use stop::{Stop, stop_behind};
pub use trace::Trace;
pub use window::Window;
pub use writing::{write_clear_trace, write_trace};
