//! The wordstrings of a message.
ghost use Rattle.std.specs.Prelude.{◌≡◌, ◌<◌, ◌≤◌, ◌^◌, ◌+◌, [], Some, codes, decimal, slice_get, length};
ghost use Rattle.std.specs.Option.{option_map_or};
ghost use Rattle.bus_outer.specs.Texts.{Adds};
ghost use Rattle.bus_strings.specs.Pulses.{pulse_length, pulse_start};
ghost use Rattle.bus_pen.specs.Numbers.{counted};
ghost use Rattle.bus_pen.specs.Scales.{IsScale};
ghost use Rattle.bus_picture.specs.Strings as definition;

use crate::canvas::Canvas;
use crate::measures::{LONG_ROOM, NAME_ROOM, STRING_LINE};
use crate::names::put_name;
use crate::places::{meets, string_area};
use crate::receivers::Receivers;
use crate::words::{has_room, put_each_word};
use bus_outer::{Sink, TextBuffer};
use bus_pen::{
    Area, Class, Scale, begin_titled, begin_words, digits_class, end_titled, end_words, put_counted,
};
use bus_shapes::Sent;
use bus_strings::{Transmission, Wordstring, pulse, pulse_count};

/// How many data words a wordstring has.
fn data_count(string: &Wordstring) -> usize
    ensures { result ≡ length string.now.words }
{
    string.words().len()
}

/// The number of the data words of a wordstring.
fn put_count<K: Sink>(text: &mut TextBuffer, sink: &mut K, string: &Wordstring)
    ensures { Adds K.held K.faults sink.old sink.new text.old text.new (decimal (length string.now.words)) }
{
    let count = data_count(string);
    text.put_number(sink, count);
}

/// Its name, and how many data words it has.
fn put_long<K: Sink>(text: &mut TextBuffer, sink: &mut K, string: &Wordstring)
    ensures { Adds K.held K.faults sink.old sink.new text.old text.new (definition.long_words string.now) }
{
    put_name(text, sink, string);
    text.put(sink, b" +");
    put_count(text, sink, string);
}

/// How many data words it has, in words.
fn put_data_words<K: Sink>(text: &mut TextBuffer, sink: &mut K, string: &Wordstring)
    ensures { Adds K.held K.faults sink.old sink.new text.old text.new (counted (length string.now.words) (codes "data word")) }
{
    let count = data_count(string);
    put_counted(text, sink, count as u64, b"data word");
}

/// Its name, its moments, and how many data words it has.
fn put_string_words<K: Sink>(
    text: &mut TextBuffer,
    sink: &mut K,
    from: u64,
    to: u64,
    string: &Wordstring,
)
    ensures { Adds K.held K.faults sink.old sink.new text.old text.new (definition.string_words from to string.now) }
{
    put_name(text, sink, string);
    text.put(sink, b": moments ");
    text.put_number(sink, from);
    text.put(sink, b" to ");
    text.put_number(sink, to);
    text.put(sink, b", ");
    put_data_words(text, sink, string);
}

/// These words, and which terminals take words of it.
fn put_titled_words<K: Sink>(
    text: &mut TextBuffer,
    sink: &mut K,
    receivers: &Receivers<'_>,
    sent: &Sent,
    from: u64,
    to: u64,
    string: &Wordstring,
)
    ensures { Adds K.held K.faults sink.old sink.new text.old text.new
        (definition.titled_words receivers.now sent.now from to string.now) }
{
    put_string_words(text, sink, from, to, string);
    receivers.put_words(text, sink, sent, string);
}

/// How a wordstring looks.
fn string_class(garbled: bool) -> Class
    ensures { result ≡ definition.string_class garbled }
{
    if garbled {
        Class::Noise
    } else {
        Class::Wordstring
    }
}

/// The words in the box of a wordstring, where it has room for them.
fn put_words_in<K: Sink>(
    text: &mut TextBuffer,
    sink: &mut K,
    garbled: bool,
    area: Area,
    string: &Wordstring,
)
    requires left { area.left < 2 ^ 22 }
    requires width { area.width < 2 ^ 22 }
    requires top { area.top < 2 ^ 41 }
    ensures { Adds K.held K.faults sink.old sink.new text.old text.new (definition.label_text garbled area string.now) }
{
    if area.width < NAME_ROOM {
        return;
    }
    begin_words(
        text,
        sink,
        digits_class(garbled),
        area.left + area.width / 2,
        area.top + STRING_LINE,
    );
    if area.width < LONG_ROOM {
        put_name(text, sink, string);
    } else {
        put_long(text, sink, string);
    }
    end_words(text, sink);
}

/// What stands in the box of a wordstring.
fn put_inside<K: Sink>(
    text: &mut TextBuffer,
    sink: &mut K,
    scale: &Scale,
    top: u64,
    garbled: bool,
    from: u64,
    area: Area,
    string: &Wordstring,
)
    requires scale { IsScale scale.now }
    requires top { top < 2 ^ 40 }
    requires from { from < 2 ^ 42 }
    requires left { area.left < 2 ^ 22 }
    requires width { area.width < 2 ^ 22 }
    requires line { area.top < 2 ^ 41 }
    ensures { Adds K.held K.faults sink.old sink.new text.old text.new
        (definition.inside_text scale.now top garbled from area string.now) }
{
    if has_room(scale) {
        put_each_word(text, sink, scale, top, garbled, from, string);
    } else {
        put_words_in(text, sink, garbled, area, string);
    }
}

/// A wordstring from one moment to another.
fn put_drawn<K: Sink>(
    text: &mut TextBuffer,
    sink: &mut K,
    canvas: &Canvas<'_>,
    top: u64,
    sent: &Sent,
    from: u64,
    to: u64,
    string: &Wordstring,
)
    requires scale { IsScale canvas.now.scale }
    requires order { from ≤ to }
    requires low { from < 2 ^ 42 }
    requires top { top < 2 ^ 40 }
    ensures { Adds K.held K.faults sink.old sink.new text.old text.new
        (definition.drawn_text canvas.now.scale canvas.now.receivers.now top sent.now from to string.now) }
{
    let area = string_area(&canvas.scale, top, from, to);
    begin_titled(text, sink, string_class(sent.garbled), area);
    put_titled_words(text, sink, canvas.receivers, sent, from, to, string);
    end_titled(text, sink);
    put_inside(
        text,
        sink,
        &canvas.scale,
        top,
        sent.garbled,
        from,
        area,
        string,
    );
}

/// The same, where it meets the moments of the scale.
fn put_string<K: Sink>(
    text: &mut TextBuffer,
    sink: &mut K,
    canvas: &Canvas<'_>,
    top: u64,
    sent: &Sent,
    from: u64,
    to: u64,
    string: &Wordstring,
)
    requires scale { IsScale canvas.now.scale }
    requires order { from ≤ to }
    requires low { from < 2 ^ 42 }
    requires top { top < 2 ^ 40 }
    ensures { Adds K.held K.faults sink.old sink.new text.old text.new
        (definition.string_text canvas.now.scale canvas.now.receivers.now top sent.now from to string.now) }
{
    if meets(&canvas.scale, from, to) {
        put_drawn(text, sink, canvas, top, sent, from, to, string);
    }
}

/// The moments of pulse `k` of a transmission.
fn pulse_moments(x: &Transmission, k: u32) -> (u64, u64)
    requires { k < length x.now.message }
    ensures from { result.0 ≡ x.now.moment + pulse_start x.now.message k }
    ensures to { result.1 ≡ x.now.moment + pulse_start x.now.message k + pulse_length x.now.message k }
    ensures order { result.0 ≤ result.1 }
    ensures low { result.0 < 2 ^ 42 }
{
    let (first, length) = pulse(&x.message, k);
    let from = x.moment + u64::from(first);
    (from, from + u64::from(length))
}

/// Wordstring `k` of a transmission.
pub(crate) fn string_of(x: &Transmission, k: u32) -> &Wordstring
    requires { k < length x.now.message }
    ensures { slice_get x.now.message k ≡ Some result.now }
{
    &x.message.strings()[k as usize]
}

/// What is drawn of wordstring `k` of a transmission.
fn put_pulse<K: Sink>(
    text: &mut TextBuffer,
    sink: &mut K,
    canvas: &Canvas<'_>,
    top: u64,
    sent: &Sent,
    x: &Transmission,
    k: u32,
)
    requires scale { IsScale canvas.now.scale }
    requires top { top < 2 ^ 40 }
    requires within { k < length x.now.message }
    ensures { Adds K.held K.faults sink.old sink.new text.old text.new
        (option_map_or (definition.pulse_text canvas.now.scale canvas.now.receivers.now top sent.now x.now k)
        (slice_get x.now.message k) []) }
{
    let moments = pulse_moments(x, k);
    let string = string_of(x, k);
    put_string(text, sink, canvas, top, sent, moments.0, moments.1, string);
}

/// The wordstrings of a transmission, with what is told of it, in a row with this upper edge.
pub(crate) fn put_strings<K: Sink>(
    text: &mut TextBuffer,
    sink: &mut K,
    canvas: &Canvas<'_>,
    top: u64,
    sent: &Sent,
    x: &Transmission,
)
    requires scale { IsScale canvas.now.scale }
    requires top { top < 2 ^ 40 }
    ensures { Adds K.held K.faults sink.old sink.new text.old text.new
        (definition.strings_text canvas.now.scale canvas.now.receivers.now top sent.now x.now) }
{
    for k in 0..pulse_count(&x.message) {
        put_pulse(text, sink, canvas, top, sent, x, k);
    }
}
