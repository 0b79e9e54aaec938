//! Times in words.
ghost use Rattle.bus_outer.specs.Texts.{Adds};
ghost use Rattle.bus_say.specs.Times.{about_text, bit_times, time_text};

use bus_outer::{Sink, TextBuffer};
use bus_strings::{put_microseconds, put_microseconds_unit};

/// Puts the unit of a time, which is one bit time or several.
fn put_bit_times<K: Sink>(text: &mut TextBuffer, sink: &mut K, n: u128)
    ensures { Adds K.held K.faults sink.old sink.new text.old text.new (bit_times n) }
{
    if n == 1 {
        text.put(sink, b" bit time");
    } else {
        text.put(sink, b" bit times");
    }
}

/// Puts a time in bit times, and behind it in microseconds: `1030 bit times (515 µs)`.
pub fn put_time<K: Sink>(text: &mut TextBuffer, sink: &mut K, n: u128)
    ensures { Adds K.held K.faults sink.old sink.new text.old text.new (time_text n) }
{
    text.put_number(sink, n);
    put_bit_times(text, sink, n);
    text.put(sink, b" (");
    put_microseconds(text, sink, n);
    put_microseconds_unit(text, sink);
    text.put(sink, b")");
}

/// Puts about so many bit times.
pub(crate) fn put_about<K: Sink>(text: &mut TextBuffer, sink: &mut K, n: u128)
    ensures { Adds K.held K.faults sink.old sink.new text.old text.new (about_text n) }
{
    text.put(sink, b"about ");
    text.put_number(sink, n);
    put_bit_times(text, sink, n);
}
