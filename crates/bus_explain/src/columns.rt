//! Columns of fixed widths, in which fields stand at the right.
ghost use Rattle.bus_outer.specs.Texts.{Adds};
ghost use Rattle.bus_explain.specs.Columns as columns;
ghost use Rattle.std.specs.Prelude.{replicate};

use bus_outer::{Sink, TextBuffer};
use itoa::{Buffer, Integer};

/// Puts so many spaces.
fn put_spaces<K: Sink>(text: &mut TextBuffer, sink: &mut K, count: usize)
    ensures { Adds K.held K.faults sink.old sink.new text.old text.new (replicate count 32) }
{
    for _k in 0..count {
        text.put_byte(sink, b' ');
    }
}

/// Puts a number at the right of a column.
fn put_digits<K: Sink, I: Integer>(text: &mut TextBuffer, sink: &mut K, width: usize, number: I)
    ensures { Adds K.held K.faults sink.old sink.new text.old text.new (columns.column width (I.text number)) }
{
    let mut buffer = Buffer::new();
    let digits = buffer.format(number).as_bytes();
    put_spaces(text, sink, width.saturating_sub(digits.len()));
    text.put(sink, digits);
}

/// Puts the number of a terminal.
pub(crate) fn put_number<K: Sink>(text: &mut TextBuffer, sink: &mut K, number: u8)
    ensures { Adds K.held K.faults sink.old sink.new text.old text.new (columns.number_column number) }
{
    put_digits(text, sink, 8, number);
}

/// Puts the half of a microsecond in so many bit times, or none.
fn put_half<K: Sink>(text: &mut TextBuffer, sink: &mut K, n: u64)
    ensures { Adds K.held K.faults sink.old sink.new text.old text.new (columns.half_digit n) }
{
    if n % 2 == 1 {
        text.put(sink, b".5");
    } else {
        text.put(sink, b".0");
    }
}

/// Puts a time in bit times, and in the next column in microseconds.
pub(crate) fn put_time_columns<K: Sink>(text: &mut TextBuffer, sink: &mut K, n: u64)
    ensures { Adds K.held K.faults sink.old sink.new text.old text.new (columns.time_columns n) }
{
    put_digits(text, sink, 11, n);
    put_digits(text, sink, 7, n / 2);
    put_half(text, sink, n);
}
