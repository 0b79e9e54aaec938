//! The bounds of a recording, in words.
ghost use Rattle.std.specs.Prelude.{decimal};
ghost use Rattle.bus_outer.specs.Texts.{Adds};
ghost use Rattle.bus_findings.specs.Texts as texts;

use bus_bounds::Bounds;
use bus_outer::{Sink, TextBuffer};

/// Puts the delay of bounds.
fn put_delay<K: Sink>(text: &mut TextBuffer, sink: &mut K, bounds: Bounds)
    ensures { Adds K.held K.faults sink.old sink.new text.old text.new (decimal bounds.delay) }
{
    text.put_number(sink, bounds.delay())
}

/// Puts their jitter.
fn put_jitter<K: Sink>(text: &mut TextBuffer, sink: &mut K, bounds: Bounds)
    ensures { Adds K.held K.faults sink.old sink.new text.old text.new (decimal bounds.jitter) }
{
    text.put_number(sink, bounds.jitter())
}

/// Puts by how much their clocks are off.
fn put_clocks<K: Sink>(text: &mut TextBuffer, sink: &mut K, bounds: Bounds)
    ensures { Adds K.held K.faults sink.old sink.new text.old text.new (decimal bounds.clocks) }
{
    text.put_number(sink, bounds.clocks())
}

/// Puts within which bounds a bus is said to be: `WITHIN`, and the three numbers.
pub fn put_within<K: Sink>(text: &mut TextBuffer, sink: &mut K, bounds: Bounds)
    ensures { Adds K.held K.faults sink.old sink.new text.old text.new (texts.within_words bounds) }
{
    text.put(sink, b"WITHIN ");
    put_delay(text, sink, bounds);
    text.put_byte(sink, b' ');
    put_jitter(text, sink, bounds);
    text.put_byte(sink, b' ');
    put_clocks(text, sink, bounds);
}

/// Puts the first two lines.
pub(crate) fn put_head<K: Sink>(text: &mut TextBuffer, sink: &mut K, bounds: Bounds)
    ensures { Adds K.held K.faults sink.old sink.new text.old text.new (texts.head_lines bounds) }
{
    text.put(sink, b"FINDINGS 1\n");
    put_within(text, sink, bounds);
    text.put_byte(sink, b'\n');
}
