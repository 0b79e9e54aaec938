//! Writing the canonical text of a cable and items.
ghost use Rattle.std.specs.List.{flat_map};
ghost use Rattle.bus_outer.specs.Sinks.{WritesText};
ghost use Rattle.bus_outer.specs.Texts.{Adds};
ghost use Rattle.bus_cable.specs.Grammar.{IsCableText};
ghost use Rattle.bus_cable.specs.Canonical.{cable_text};
ghost use Rattle.bus_cable.specs.inside.Puts.{named_bytes};

use crate::cable::{Cable, Named};
use bus_outer::{Sink, TextBuffer, WriteFault};
use bus_strings::{Payloads, put_payloads};

/// Puts a line of this keyword.
fn put_named<K: Sink>(text: &mut TextBuffer, sink: &mut K, word: &[u8], named: Named)
    ensures { Adds K.held K.faults sink.old sink.new text.old text.new (named_bytes word.now named) }
{
    text.put(sink, word);
    text.put_byte(sink, b' ');
    text.put_number(sink, named.terminal);
    text.put_byte(sink, b' ');
    text.put_number(sink, named.bits);
    text.put_byte(sink, b'\n');
}

/// Puts a line of this keyword for each of these.
fn put_all<K: Sink>(text: &mut TextBuffer, sink: &mut K, word: &[u8], named: &[Named])
    ensures { Adds K.held K.faults sink.old sink.new text.old text.new (flat_map (named_bytes word.now) named.now) }
{
    for one in named {
        put_named(text, sink, word, *one);
    }
}

/// Writes the canonical text of a cable and items: one line for each that is named, a zero too, and each item, one space between fields,
/// hexadecimal digits in capitals. It takes no memory. [`WriteFault`] comes only where the sink failed, which then has taken a front of the
/// text.
pub fn write_cable<K: Sink>(
    cable: &Cable,
    payloads: &Payloads,
    sink: &mut K,
) -> Result<(), WriteFault>
    ensures written { WritesText K.held K.faults sink.old sink.new result (cable_text cable.now payloads.now) }
    // What is written stands for this cable and these items.
    ensures again { IsCableText cable.now payloads.now (cable_text cable.now payloads.now) }
{
    // A look at the items, of which nothing is left in the built program, makes their ranges known.
    let _ranges = payloads.items.len();
    let mut text = TextBuffer::new();
    text.put(sink, b"CABLE 1\n");
    put_all(&mut text, sink, b"PLACE", cable.places());
    put_all(&mut text, sink, b"WAKE", cable.wakes());
    put_payloads(&mut text, sink, payloads);
    text.finish(sink)
}
