//! What is told of a trace that was recorded on a cable.
ghost use Rattle.std.specs.Prelude.{◌≡◌};
ghost use Rattle.bus_outer.specs.Texts.{Adds};
ghost use Rattle.bus_shapes.specs.Headings as definition;

use crate::told::Told;
use bus_outer::{Sink, TextBuffer};
use bus_pen::put_counted;

/// Puts how many receptions are garbled.
fn put_receptions<K: Sink>(text: &mut TextBuffer, sink: &mut K, garbled: u64)
    ensures { Adds K.held K.faults sink.old sink.new text.old text.new (definition.receptions_words garbled) }
{
    put_counted(text, sink, garbled, b"reception");
    text.put(sink, b" garbled at terminals");
}

/// Puts that a trace was recorded on a cable.
pub(crate) fn put_on_cable<K: Sink>(text: &mut TextBuffer, sink: &mut K, garbled: u64)
    ensures { Adds K.held K.faults sink.old sink.new text.old text.new (definition.cable_heading garbled) }
{
    text.put(sink, b"recorded on a cable, ");
    put_receptions(text, sink, garbled);
    text.put(sink, b": see diagnose");
}

/// Puts, behind other words, how many receptions are garbled, where that is known.
pub(crate) fn put_known<K: Sink>(text: &mut TextBuffer, sink: &mut K, garbled: Option<u64>)
    ensures { Adds K.held K.faults sink.old sink.new text.old text.new (definition.known_words garbled) }
{
    if let Some(garbled) = garbled {
        text.put(sink, b", ");
        put_receptions(text, sink, garbled);
    }
}

/// Whether it is known what terminals hear of a trace of which this is told.
fn is_heard(told: &Told) -> bool
    ensures { result ≡ definition.is_heard told.now }
{
    match told {
        Told::Audit(_) => false,
        Told::OnCable { .. } => true,
        Told::Findings { garbled, .. } => garbled.is_some(),
    }
}

/// Puts, behind a count of what is garbled, that it is so as it was sent, where it is known what terminals hear of it.
pub(crate) fn put_as_sent<K: Sink>(text: &mut TextBuffer, sink: &mut K, told: &Told)
    ensures { Adds K.held K.faults sink.old sink.new text.old text.new (definition.sending_words told.now) }
{
    if is_heard(told) {
        text.put(sink, b" as sent");
    }
}
