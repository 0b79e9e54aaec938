//! A transmission, as a picture tells of it, and its words.
ghost use Rattle.std.specs.Prelude.{◌≤◌};
ghost use Rattle.bus_outer.specs.Texts.{Adds};
ghost use Rattle.bus_shapes.specs.Sayings as definition;

use bus_outer::{Sink, TextBuffer};

/// A transmission of a list, as a picture tells of it. All moments are bit times from the settled start.
#[derive(Clone, Copy, Debug, PartialEq, Eq)]
pub struct Sent {
    /// Which entry of the list it is, from 0.
    pub at: usize,
    /// The terminal that sends it.
    pub terminal: u8,
    /// Which transmission of its terminal it is, from 1.
    pub number: u64,
    /// The moment at which it begins.
    pub moment: u64,
    /// The moment at which it has ended.
    pub end: u64,
    /// The moment at which all entries before it have ended; 0 where there is none.
    pub before: u64,
    /// Whether it is garbled.
    pub garbled: bool,
}

/// Puts a moment in microseconds, with one decimal.
fn put_decimal_microseconds<K: Sink>(text: &mut TextBuffer, sink: &mut K, t: u64)
    ensures { Adds K.held K.faults sink.old sink.new text.old text.new (definition.decimal_microseconds t) }
{
    text.put_number(sink, t / 2);
    text.put_byte(sink, b'.');
    text.put_number(sink, t % 2 * 5);
}

/// Puts whether something is garbled, behind other words.
pub fn put_garbled<K: Sink>(text: &mut TextBuffer, sink: &mut K, garbled: bool)
    ensures { Adds K.held K.faults sink.old sink.new text.old text.new (definition.garbled_words garbled) }
{
    if garbled {
        text.put(sink, b", garbled");
    }
}

/// Puts who sends what when, and whether it is garbled.
pub fn put_sent<K: Sink>(text: &mut TextBuffer, sink: &mut K, sent: &Sent)
    requires { sent.now.moment ≤ sent.now.end }
    ensures { Adds K.held K.faults sink.old sink.new text.old text.new (definition.sent_words sent.now) }
{
    text.put_byte(sink, b'T');
    text.put_number(sink, sent.terminal);
    text.put(sink, b" message ");
    text.put_number(sink, sent.number);
    text.put(sink, b": moments ");
    text.put_number(sink, sent.moment);
    text.put(sink, b" to ");
    text.put_number(sink, sent.end);
    text.put(sink, b", ");
    text.put_number(sink, sent.end - sent.moment);
    text.put(sink, b" bit times, ");
    put_decimal_microseconds(text, sink, sent.moment);
    text.put(sink, b" to ");
    put_decimal_microseconds(text, sink, sent.end);
    text.put(sink, b" microseconds");
    put_garbled(text, sink, sent.garbled);
}
