//! Words: their kind, their value, and their parity bit.
ghost use Rattle.std.specs.Prelude.{◌≡◌, ◌≢◌, ◌+◌, ◌*◌, ◌%◌, ◌<◌, ◌↔◌, ℕ, IsTrue, IfOk, IfErr, Ok, count_ones};
ghost use Rattle.bus_words.specs.Words.{parity as parity_of, frame as frame_of, unframe as unframed};
ghost use Rattle.bus_words.specs.Words.{label_word as word_of, data_word as data_of};

use crate::label::{Ext, Label};

/// What a word of a wordstring is.
#[derive(Clone, Copy, Debug, PartialEq, Eq)]
pub enum Kind {
    /// The label word, which is the first of its wordstring.
    Label,
    /// A data word.
    Plain,
}

/// A word: its kind and its sixteen bits.
#[derive(Clone, Copy, Debug, PartialEq, Eq)]
pub struct Word {
    /// What the word is in its wordstring.
    pub kind: Kind,
    /// The sixteen bits as a number.
    pub value: u16,
}

/// A word as it goes over the bus, with its parity bit.
#[derive(Clone, Copy, Debug, PartialEq, Eq)]
pub struct FramedWord {
    /// What the word is in its wordstring.
    pub kind: Kind,
    /// The sixteen bits as a number.
    pub value: u16,
    /// The bit that makes the number of ones, its own included, odd.
    pub parity: bool,
}

/// Why a frame or a text isn't that of a word.
#[derive(Clone, Copy, Debug, PartialEq, Eq)]
pub enum WordError {
    /// The text isn't of the form of a word text. The number is the length of the longest front of the text that begins
    /// some text of that form.
    Shape(usize),
    /// The parity bit isn't that of the value.
    Parity,
}

/// The parity bit of a value: true exactly where the value has an even number of ones, so that value and bit together
/// have an odd number of them. Odd parity is what ARINC 629 gives a word.
pub fn parity(value: u16) -> bool
    ensures even { IsTrue result ↔ (count_ones value % 2 ≡ 0) }
    ensures value { result ≡ parity_of value }
{
    value.count_ones() % 2 == 0
}

/// The word with its parity bit.
pub fn frame(word: Word) -> FramedWord
    ensures { result ≡ frame_of word }
{
    FramedWord {
        kind: word.kind,
        value: word.value,
        parity: parity(word.value),
    }
}

/// The word of a frame, or [`WordError::Parity`] where the parity bit isn't that of the value.
pub fn unframe(frame: FramedWord) -> Result<Word, WordError>
    // Only the frame of a word is taken.
    ensures found { IfOk result (λ word. frame ≡ frame_of word) }
    // The frame of each word is.
    ensures only { (word : Word) → frame ≡ frame_of word → result ≡ Ok word }
    ensures value { result ≡ unframed frame }
    ensures parity { IfErr result (λ error. (error ≡ WordError.Parity) × (frame.parity ≢ parity_of frame.value)) }
{
    if frame.parity != parity(frame.value) {
        return Err(WordError::Parity);
    }
    Ok(Word {
        kind: frame.kind,
        value: frame.value,
    })
}

/// The label word of a wordstring: the label in the upper twelve bits, the extension in the lower four.
pub fn label_word(label: Label, ext: Ext) -> Word
    ensures { result ≡ word_of label ext }
{
    Word {
        kind: Kind::Label,
        value: 16 * label.value() + u16::from(ext.value()),
    }
}

/// The data word of a value.
pub fn data_word(value: u16) -> Word
    ensures { result ≡ data_of value }
{
    Word {
        kind: Kind::Plain,
        value,
    }
}

/// The label and the extension that a label word's value has.
pub fn split_label(value: u16) -> (Label, Ext)
    ensures joined { 16 * result.0 + result.1 ≡ value }
    // Whatever label and extension the value was made of are given back.
    ensures parts { (label ext : ℕ) → ext < 16 → value ≡ 16 * label + ext → (result.0 ≡ label) × (result.1 ≡ ext) }
{
    (Label::upper(value), Ext::lower(value))
}
