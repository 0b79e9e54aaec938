//! The wave of a trace, in a line code of this project's own, half bit for half bit, and the one text of it.
//!
//! - [`spaced`] says whether a trace is spaced for a table, one whose transmissions and horizon are read again from its wave text, or
//!   names the first entry with which something is wrong. The trace of a run is spaced.
//! - [`write_wave`] writes the text to a sink; [`read_wave`] reads a text back to its trace, and refuses each other text at its first
//!   offending line, with the [`WaveReason`].
//!
//! The definitions are in `specs/`: `Code` for the half bits of a word, `Waves` for the wave of a trace, `WaveTexts` for its text,
//! `Spacing` for spaced traces, and `Symbols`, `Judging` and `Reading` for what a text reads as, line by line.
//!
//! # How a wave is read and written
//!
//! `write_wave` goes over the transmissions once: a Q line for the quiet before each, and a line for each word, whose thirteen bytes are
//! made in a fixed array, a digit for each two bits, and put into the text's buffer in one step. It takes no memory.
//!
//! `read_wave` goes over the text once, line by line, and keeps what the state of the definition has (`specs/Judging.antt`): the bit times
//! so far, the complete transmissions, and where the lines stand in a message; beside it the least bit times of the SEND lines that are
//! left, which are added up once for each message. A W line that is spelled as it is written is taken in one look: its first two digits
//! tell its kind and its highest bit, each other digit two bits, by a table of all bytes, and then the parity bit is held to that of the
//! value.
//!
//! The digits of a Q line are added up until its line feed comes. Every other line, and so each that is refused, is cut into fields and
//! judged reason by reason: the order of the reasons costs a right text nothing. The data words of a wordstring are gathered in room that
//! is used again; a wordstring of up to nine keeps them in itself, and a message of one wordstring takes no memory. The HOLDs are counted
//! in one pass over the list, in a table by number. The sender of a message is found by its first label word, in a table of 64 KiB that is
//! made before the second line.
#![tactic(auto)]

mod beginners;
mod code;
mod draft;
mod fault;
mod holds;
pub mod laws;
mod making;
mod phase;
mod pieces;
mod quick;
mod reading;
mod saying;
mod spacing;
mod symbol;
mod writing;

pub use fault::{WaveError, WaveFault, WaveReason};
pub use reading::read_wave;
pub use saying::put_fault;
pub use spacing::{LEAST_GAP, spaced};
pub use writing::write_wave;
