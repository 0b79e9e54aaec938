//! The words of the bus: what one is, how it is framed with its parity bit, how a label and an extension make a label
//! word, and the text that the project writes for a word.
//!
//! - [`Label`] and [`Ext`] keep their ranges, twelve and four bits, in their types.
//! - [`Word`] is a kind and sixteen bits, [`FramedWord`] has the parity bit too; [`frame`] and
//!   [`unframe`] go between them, [`label_word`] and [`split_label`] between a label word and its
//!   parts.
//! - [`word_text`] writes a word in six bytes, and [`read_word`] reads it back:
//!   `read_word(&word_text(word))` is `Ok(word)`. [`read_frame`] reads it whatever its parity digit, for a reader that
//!   judges the form of all words before their parity.
//!
//! No call takes memory. The definitions are in `specs/`: `Words` and `WordTexts`; `WordTextLaws` in `proofs/` is what callers may use of
//! them beside the contracts.
#![tactic(auto)]

mod label;
mod text;
mod word;

pub use label::{Ext, Label};
pub use text::{bit_digit, letter, read_frame, read_word, word_text};
pub use word::{
    FramedWord, Kind, Word, WordError, data_word, frame, label_word, parity, split_label, unframe,
};
