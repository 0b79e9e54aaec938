//! Identifiers and declarations of signals.
ghost use Rattle.std.specs.Prelude.{◌≡◌, ◌∷◌, decimal};
ghost use Rattle.std.specs.List.{flat_map};
ghost use Rattle.bus_outer.specs.Texts.{Adds};
ghost use Rattle.bus_dump.specs.DumpTexts as texts;

use crate::signal::Signal;
use bus_outer::{Sink, TextBuffer};

/// A letter and the number of a terminal.
fn put_lane_id<K: Sink>(text: &mut TextBuffer, sink: &mut K, letter: u8, terminal: u8)
    ensures { Adds K.held K.faults sink.old sink.new text.old text.new (letter ∷ decimal terminal) }
{
    text.put_byte(sink, letter);
    text.put_number(sink, terminal);
}

/// The identifier of a signal.
pub(crate) fn put_id<K: Sink>(text: &mut TextBuffer, sink: &mut K, signal: Signal)
    ensures { Adds K.held K.faults sink.old sink.new text.old text.new (texts.id_text signal) }
{
    match signal {
        Signal::Carrier => text.put_byte(sink, b'c'),
        Signal::Overlap => text.put_byte(sink, b'o'),
        Signal::Sync => text.put_byte(sink, b's'),
        Signal::Breach => text.put_byte(sink, b'b'),
        Signal::Word => text.put_byte(sink, b'w'),
        Signal::Pulse(terminal) => put_lane_id(text, sink, b'p', terminal),
        Signal::Garbled(terminal) => put_lane_id(text, sink, b'g', terminal),
        Signal::Label(terminal) => put_lane_id(text, sink, b'l', terminal),
        Signal::Message(terminal) => put_lane_id(text, sink, b'm', terminal),
        Signal::Interval(terminal) => put_lane_id(text, sink, b'i', terminal),
        Signal::Synchronization(terminal) => put_lane_id(text, sink, b'y', terminal),
        Signal::Gap(terminal) => put_lane_id(text, sink, b'h', terminal),
        Signal::May(terminal) => put_lane_id(text, sink, b'r', terminal),
    }
}

/// The name of a signal of a lane.
fn put_lane_name<K: Sink>(text: &mut TextBuffer, sink: &mut K, terminal: u8, name: &[u8])
    ensures { Adds K.held K.faults sink.old sink.new text.old text.new (texts.lane_name terminal name.now) }
{
    text.put_byte(sink, b't');
    text.put_number(sink, terminal);
    text.put(sink, name);
}

/// The name of a signal.
pub(crate) fn put_name<K: Sink>(text: &mut TextBuffer, sink: &mut K, signal: Signal)
    ensures { Adds K.held K.faults sink.old sink.new text.old text.new (texts.name_text signal) }
{
    match signal {
        Signal::Carrier => text.put(sink, b"carrier"),
        Signal::Overlap => text.put(sink, b"overlap"),
        Signal::Sync => text.put(sink, b"sync"),
        Signal::Breach => text.put(sink, b"breach"),
        Signal::Word => text.put(sink, b"word"),
        Signal::Pulse(terminal) => put_lane_name(text, sink, terminal, b"_pulse"),
        Signal::Garbled(terminal) => put_lane_name(text, sink, terminal, b"_garbled"),
        Signal::Label(terminal) => put_lane_name(text, sink, terminal, b"_label"),
        Signal::Message(terminal) => put_lane_name(text, sink, terminal, b"_message"),
        Signal::Interval(terminal) => put_lane_name(text, sink, terminal, b"_ti"),
        Signal::Synchronization(terminal) => put_lane_name(text, sink, terminal, b"_sg"),
        Signal::Gap(terminal) => put_lane_name(text, sink, terminal, b"_tg"),
        Signal::May(terminal) => put_lane_name(text, sink, terminal, b"_may"),
    }
}

/// How many bits a signal has, and a space.
fn width_of(signal: Signal) -> &'static [u8]
    ensures { result.now ≡ texts.width_text signal }
{
    match signal {
        Signal::Carrier | Signal::Overlap | Signal::Sync | Signal::Breach => b"1 ",
        Signal::Pulse(_) | Signal::Garbled(_) => b"1 ",
        Signal::Interval(_) | Signal::Synchronization(_) | Signal::Gap(_) | Signal::May(_) => b"1 ",
        Signal::Word | Signal::Label(_) => b"16 ",
        Signal::Message(_) => b"32 ",
    }
}

/// Which bits a signal has, where they are several.
pub(crate) fn bits_of(signal: Signal) -> &'static [u8]
    ensures { result.now ≡ texts.bits_text signal }
{
    match signal {
        Signal::Carrier | Signal::Overlap | Signal::Sync | Signal::Breach => b"",
        Signal::Pulse(_) | Signal::Garbled(_) => b"",
        Signal::Interval(_) | Signal::Synchronization(_) | Signal::Gap(_) | Signal::May(_) => b"",
        Signal::Word | Signal::Label(_) => b" [15:0]",
        Signal::Message(_) => b" [31:0]",
    }
}

/// The declaration of a signal.
fn put_declaration<K: Sink>(text: &mut TextBuffer, sink: &mut K, signal: Signal)
    ensures { Adds K.held K.faults sink.old sink.new text.old text.new (texts.declaration signal) }
{
    text.put(sink, b"$var wire ");
    text.put(sink, width_of(signal));
    put_id(text, sink, signal);
    text.put_byte(sink, b' ');
    put_name(text, sink, signal);
    text.put(sink, bits_of(signal));
    text.put(sink, b" $end\n");
}

/// The declarations of signals.
pub(crate) fn put_declarations<K: Sink>(text: &mut TextBuffer, sink: &mut K, signals: &[Signal])
    ensures { Adds K.held K.faults sink.old sink.new text.old text.new (flat_map texts.declaration signals.now) }
{
    for signal in signals {
        put_declaration(text, sink, *signal);
    }
}
