//! Times in microseconds, of which a bit time is a half.
ghost use Rattle.bus_outer.specs.Texts.{Adds};
ghost use Rattle.bus_strings.specs.Microseconds as definition;

use bus_outer::{Sink, TextBuffer};

/// Puts what an odd number of bit times is beyond whole microseconds.
fn put_half<K: Sink>(text: &mut TextBuffer, sink: &mut K, bit_times: u128)
    ensures { Adds K.held K.faults sink.old sink.new text.old text.new (definition.half_text bit_times) }
{
    if bit_times % 2 == 1 {
        text.put(sink, b".5");
    }
}

/// Puts so many bit times in microseconds: `515`, or `62.5`.
pub fn put_microseconds<K: Sink>(text: &mut TextBuffer, sink: &mut K, bit_times: u128)
    ensures { Adds K.held K.faults sink.old sink.new text.old text.new (definition.microseconds bit_times) }
{
    text.put_number(sink, bit_times / 2);
    put_half(text, sink, bit_times);
}

/// Puts the unit of microseconds behind their number, with its space.
pub fn put_microseconds_unit<K: Sink>(text: &mut TextBuffer, sink: &mut K)
    ensures { Adds K.held K.faults sink.old sink.new text.old text.new definition.microseconds_unit }
{
    text.put(sink, &[b' ', 194, 181, b's']);
}
