//! Sentences with holes.
ghost use Rattle.std.specs.Prelude.{◌≡◌, ◌-◌, slice_index_or};
ghost use Rattle.bus_outer.specs.Texts.{Adds};
ghost use Rattle.bus_say.specs.Sentences as sentences;

use crate::labels::{put_extension, put_label};
use crate::times::{put_about, put_time};
use bus_outer::{Sink, TextBuffer};

/// What the byte before opens, for the digit behind it.
#[derive(Clone, Copy)]
pub(crate) enum Hole {
    /// Nothing: the next byte is one of the words, or opens a hole.
    Closed,
    /// The place of a number.
    Number,
    /// The end of a word for so many things.
    Plural,
    /// The place of a time.
    Time,
    /// The place of about such a time.
    About,
    /// The place of a label.
    Label,
    /// The place of an extension.
    Extension,
}

/// What a byte opens that opens nothing of numbers and times.
fn label_by(byte: u8) -> Hole
    ensures { result ≡ sentences.label_by byte }
{
    if byte == b'^' {
        Hole::Label
    } else if byte == b'_' {
        Hole::Extension
    } else {
        Hole::Closed
    }
}

/// What a byte opens.
fn opened_by(byte: u8) -> Hole
    ensures { result ≡ sentences.opened_by byte }
{
    if byte == b'#' {
        Hole::Number
    } else if byte == b'$' {
        Hole::Plural
    } else if byte == b'@' {
        Hole::Time
    } else if byte == b'~' {
        Hole::About
    } else {
        label_by(byte)
    }
}

/// What is open behind a byte.
fn behind(hole: Hole, byte: u8) -> Hole
    ensures { result ≡ sentences.behind hole byte }
{
    match hole {
        Hole::Closed => opened_by(byte),
        Hole::Number | Hole::Plural | Hole::Time | Hole::About | Hole::Label | Hole::Extension =>
            Hole::Closed,
    }
}

/// The number that a digit names; 0 where there is none.
fn named_by(numbers: &[u128], digit: u8) -> u128
    ensures { result ≡ sentences.named_by numbers.now digit }
{
    match numbers.get(digit.saturating_sub(b'0') as usize) {
        Some(number) => *number,
        None => 0,
    }
}

/// Puts a byte outside of a hole, unless it opens one.
fn put_letter<K: Sink>(text: &mut TextBuffer, sink: &mut K, byte: u8)
    ensures { Adds K.held K.faults sink.old sink.new text.old text.new (sentences.letter_text byte) }
{
    match opened_by(byte) {
        Hole::Closed => text.put_byte(sink, byte),
        Hole::Number | Hole::Plural | Hole::Time | Hole::About | Hole::Label | Hole::Extension =>
            text.put(sink, b""),
    }
}

/// Puts the end of a word for so many things.
fn put_plural<K: Sink>(text: &mut TextBuffer, sink: &mut K, number: u128)
    ensures { Adds K.held K.faults sink.old sink.new text.old text.new (sentences.plural_text number) }
{
    if number == 1 {
        text.put(sink, b"");
    } else {
        text.put(sink, b"s");
    }
}

/// Puts what a byte tells where this is open.
fn put_told<K: Sink>(text: &mut TextBuffer, sink: &mut K, numbers: &[u128], hole: Hole, byte: u8)
    ensures { Adds K.held K.faults sink.old sink.new text.old text.new (sentences.told_text numbers.now hole byte) }
{
    match hole {
        Hole::Closed => put_letter(text, sink, byte),
        Hole::Number => text.put_number(sink, named_by(numbers, byte)),
        Hole::Plural => put_plural(text, sink, named_by(numbers, byte)),
        Hole::Time => put_time(text, sink, named_by(numbers, byte)),
        Hole::About => put_about(text, sink, named_by(numbers, byte)),
        Hole::Label => put_label(text, sink, named_by(numbers, byte)),
        Hole::Extension => put_extension(text, sink, named_by(numbers, byte)),
    }
}

/// Puts a sentence that tells these numbers.
pub fn say<K: Sink>(text: &mut TextBuffer, sink: &mut K, sentence: &[u8], numbers: &[u128])
    ensures { Adds K.held K.faults sink.old sink.new text.old text.new (sentences.said sentence.now numbers.now) }
{
    let mut hole = Hole::Closed;
    for byte in sentence {
        put_told(text, sink, numbers, hole, *byte);
        hole = behind(hole, *byte);
    }
}
