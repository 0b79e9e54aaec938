//! The words of the reasons for which a table is refused as a whole, and for which an item doesn't fit.
ghost use Rattle.std.specs.Prelude.{◌++◌, decimal, [], ◌∷◌};
ghost use Rattle.bus_outer.specs.Texts.{Adds};
ghost use Rattle.bus_table.specs.Reasons.{fit_words, pair_words, whole_words};
ghost use Rattle.bus_text.specs.Digits.{hex_digit, hexadecimal};

use crate::error::WholeReason;
use crate::fit::FitError;
use bus_outer::{Sink, TextBuffer};
use bus_text::{hex_digit as digit, three_digits};
use bus_words::{Ext, Label};

/// Puts a word and a number.
pub fn put_numbered<K: Sink>(text: &mut TextBuffer, sink: &mut K, word: &[u8], number: u64)
    ensures { Adds K.held K.faults sink.old sink.new text.old text.new (word.now ++ decimal number) }
{
    text.put(sink, word);
    text.put_number(sink, number);
}

/// Puts a number and a word.
fn put_item<K: Sink>(text: &mut TextBuffer, sink: &mut K, number: u64, word: &[u8])
    ensures { Adds K.held K.faults sink.old sink.new text.old text.new (decimal number ++ word.now) }
{
    text.put_number(sink, number);
    text.put(sink, word);
}

/// Puts a label in three digits.
fn put_label<K: Sink>(text: &mut TextBuffer, sink: &mut K, label: Label)
    ensures { Adds K.held K.faults sink.old sink.new text.old text.new (hexadecimal 3 label) }
{
    text.put(sink, &three_digits(label.value()))
}

/// Puts an extension in one digit.
fn put_ext<K: Sink>(text: &mut TextBuffer, sink: &mut K, ext: Ext)
    ensures { Adds K.held K.faults sink.old sink.new text.old text.new (hex_digit ext ∷ []) }
{
    text.put_byte(sink, digit(ext.value()))
}

/// Puts the label and the extension that stand twice.
fn put_pair<K: Sink>(text: &mut TextBuffer, sink: &mut K, label: Label, ext: Ext)
    ensures { Adds K.held K.faults sink.old sink.new text.old text.new (pair_words label ext) }
{
    text.put(sink, b"PairTwice ");
    put_label(text, sink, label);
    text.put_byte(sink, b' ');
    put_ext(text, sink, ext);
}

/// Puts the words of a whole reason.
pub fn put_whole<K: Sink>(text: &mut TextBuffer, sink: &mut K, reason: WholeReason)
    ensures { Adds K.held K.faults sink.old sink.new text.old text.new (whole_words reason) }
{
    match reason {
        WholeReason::NoSender => text.put(sink, b"NoSender"),
        WholeReason::NumberTwice(number) => put_numbered(
            text,
            sink,
            b"NumberTwice ",
            u64::from(number),
        ),
        WholeReason::GapTwice(number) => put_numbered(text, sink, b"GapTwice ", u64::from(number)),
        WholeReason::GapNotShort(number) => put_numbered(
            text,
            sink,
            b"GapNotShort ",
            u64::from(number),
        ),
        WholeReason::PairTwice(label, ext) => put_pair(text, sink, label, ext),
        WholeReason::OffsetRange(number) => put_numbered(
            text,
            sink,
            b"OffsetRange ",
            u64::from(number),
        ),
    }
}

/// Puts the number of an item that doesn't fit, and why.
pub fn put_fit_error<K: Sink>(text: &mut TextBuffer, sink: &mut K, error: FitError)
    ensures { Adds K.held K.faults sink.old sink.new text.old text.new (fit_words error) }
{
    match error {
        FitError::Stranger(item) => put_item(text, sink, item, b" Stranger"),
        FitError::Shape(item) => put_item(text, sink, item, b" Shape"),
    }
}
