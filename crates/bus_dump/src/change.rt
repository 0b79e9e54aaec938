//! The lines of the values of signals, and of what changes.
ghost use Rattle.std.specs.Prelude.{◌≡◌, ◌*◌, ◌<◌, ◌^◌, ◌++◌, codes};
ghost use Rattle.std.specs.List.{flat_map, list_any};
ghost use Rattle.bus_outer.specs.Texts.{Adds};
ghost use Rattle.bus_dump.specs.DumpTexts as texts;
ghost use Rattle.bus_dump.specs.declared.value.Value.TheVariants as values;
ghost use Rattle.bus_dump.specs.inside.Walks.{change_put};
ghost use Rattle.bus_dump.specs.inside.TimerWalks.{scene_of};

use crate::binary::put_binary;
use crate::declaration::put_id;
use crate::scene::Scene;
use crate::signal::Signal;
use crate::value::{Value, value_of};
use bus_outer::{Sink, TextBuffer};

/// How many units of 100 ns a bit time has.
const UNITS: u64 = 5;

/// A number, before the identifier of its signal.
fn put_count<K: Sink>(text: &mut TextBuffer, sink: &mut K, number: u64)
    ensures { Adds K.held K.faults sink.old sink.new text.old text.new (texts.value_text (values.Number number)) }
{
    text.put_byte(sink, b'b');
    put_binary(text, sink, number);
    text.put_byte(sink, b' ');
}

/// A value, before the identifier of its signal.
fn put_value<K: Sink>(text: &mut TextBuffer, sink: &mut K, value: Value)
    ensures { Adds K.held K.faults sink.old sink.new text.old text.new (texts.value_text value) }
{
    match value {
        Value::Bit(true) => text.put_byte(sink, b'1'),
        Value::Bit(false) => text.put_byte(sink, b'0'),
        Value::Number(number) => put_count(text, sink, number),
        Value::Floating => text.put(sink, b"bz "),
        Value::Unknown => text.put(sink, b"bx "),
    }
}

/// The line of a value of a signal.
fn put_line<K: Sink>(text: &mut TextBuffer, sink: &mut K, value: Value, signal: Signal)
    ensures { Adds K.held K.faults sink.old sink.new text.old text.new (texts.value_text value ++ texts.id_text signal ++ codes "\n") }
{
    put_value(text, sink, value);
    put_id(text, sink, signal);
    text.put_byte(sink, b'\n');
}

/// The lines of the values that signals have in a scene.
pub(crate) fn put_lines<K: Sink>(
    text: &mut TextBuffer,
    sink: &mut K,
    signals: &[Signal],
    scene: &Scene,
)
    ensures { Adds K.held K.faults sink.old sink.new text.old text.new (flat_map (texts.value_line (scene_of scene.now)) signals.now) }
{
    for signal in signals {
        put_line(text, sink, value_of(*signal, scene), *signal);
    }
}

/// Whether a signal has another value in the scene now than in the one before.
fn is_changed(before: &Scene, now: &Scene, signal: Signal) -> bool
    ensures { result ≡ texts.changes (scene_of before.now) (scene_of now.now) signal }
{
    !value_of(signal, before).is_same(value_of(signal, now))
}

/// The line of a signal, where it changes.
fn put_change<K: Sink>(
    text: &mut TextBuffer,
    sink: &mut K,
    before: &Scene,
    now: &Scene,
    signal: Signal,
)
    ensures { Adds K.held K.faults sink.old sink.new text.old text.new (change_put (scene_of before.now) (scene_of now.now) signal) }
{
    let value = value_of(signal, now);
    if !value_of(signal, before).is_same(value) {
        put_line(text, sink, value, signal);
    }
}

/// The lines of the signals that change.
pub(crate) fn put_changed<K: Sink>(
    text: &mut TextBuffer,
    sink: &mut K,
    signals: &[Signal],
    before: &Scene,
    now: &Scene,
)
    ensures { Adds K.held K.faults sink.old sink.new text.old text.new
        (flat_map (change_put (scene_of before.now) (scene_of now.now)) signals.now) }
{
    for signal in signals {
        put_change(text, sink, before, now, *signal);
    }
}

/// The stamp of a bit time, which is at most 2^60.
pub(crate) fn put_stamp<K: Sink>(text: &mut TextBuffer, sink: &mut K, t: u64)
    requires { t < 2 ^ 60 }
    ensures { Adds K.held K.faults sink.old sink.new text.old text.new (texts.stamp t) }
{
    text.put_byte(sink, b'#');
    text.put_number(sink, UNITS * t);
    text.put_byte(sink, b'\n');
}

/// Whether any of these signals changes.
pub(crate) fn any_changed(signals: &[Signal], before: &Scene, now: &Scene) -> bool
    ensures { result ≡ list_any (texts.changes (scene_of before.now) (scene_of now.now)) signals.now }
{
    signals
        .iter()
        .any(|signal| is_changed(before, now, *signal))
}
