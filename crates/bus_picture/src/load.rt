//! The loads of a window.
ghost use Rattle.std.specs.Prelude.{◌≡◌, ◌<◌, ◌≤◌, ◌^◌, length};
ghost use Rattle.bus_load.specs.Loads.{IsCarrierOf};
ghost use Rattle.bus_outer.specs.Texts.{Adds};
ghost use Rattle.bus_strings.specs.Marking.{greatest_end};
ghost use Rattle.bus_strings.specs.Pulses.{pulse_length};
ghost use Rattle.bus_pen.specs.Scales.{IsScale};
ghost use Rattle.bus_shapes.specs.Sending as sending;
ghost use Rattle.bus_picture.specs.Lanes.{each_lane};
ghost use Rattle.bus_picture.specs.Loads as definition;

use crate::lanes::lane_top;
use crate::measures::{BUS_LINE, LOAD_LEFT, PLOT_TOP, TAIL_LINE, TERMINAL_LINE};
use crate::strings::string_of;
use bus_dump::Lane;
use bus_load::{Stretch, bits_within};
use bus_outer::{Sink, TextBuffer};
use bus_pen::measures::{ANSWER_LINE, RIGHT_MARGIN};
use bus_pen::{Class, Scale, begin_words, end_words, put_load_share};
use bus_strings::laws::pulses_cover;
use bus_strings::limits::{INNER_GAP, WORD_BITS};
use bus_strings::{Transmission, pulse_count};

/// How many bit times a stretch has in common with the scale.
fn common(scale: &Scale, begin: u64, end: u64) -> u64
    requires { IsScale scale.now }
    ensures value { result ≡ definition.common scale.now begin end }
    ensures few { result ≤ 2 ^ 41 }
{
    scale.to.min(end).saturating_sub(scale.from.max(begin))
}

/// How many bit times pulse `k` of a transmission lasts.
fn pulse_length(x: &Transmission, k: u32) -> u64
    requires { k < length x.now.message }
    ensures value { result ≡ pulse_length x.now.message k }
    ensures few { result < 2 ^ 13 }
{
    u64::from(WORD_BITS * string_of(x, k).word_count())
}

/// For how many bit times of the scale a transmission sends, the quiet between its pulses left out.
fn sent_bits(scale: &Scale, x: &Transmission) -> u64
    requires { IsScale scale.now }
    ensures value { result ≡ definition.sent_bits scale.now x.now }
    ensures few { result ≤ 2 ^ 46 }
{
    pulses_cover();
    let mut bits = 0;
    let mut begin = x.moment;
    for k in 0..pulse_count(&x.message) {
        let end = begin + pulse_length(x, k);
        bits += common(scale, begin, end);
        begin = end + u64::from(INNER_GAP);
    }
    bits
}

/// Whether a transmission is of this terminal.
fn is_of(terminal: u8, x: &Transmission) -> bool
    ensures { result ≡ sending.is_of terminal x.now }
{
    x.terminal == terminal
}

/// For how many bit times of the scale a terminal sends. It goes over the list once.
fn terminal_bits(scale: &Scale, terminal: u8, list: &[Transmission]) -> u128
    requires { IsScale scale.now }
    ensures value { result ≡ definition.terminal_bits scale.now terminal list.now }
    ensures few { result < 2 ^ 111 }
{
    let mut bits = 0;
    for k in 0..list.len() {
        if is_of(terminal, &list[k]) {
            bits += u128::from(sent_bits(scale, &list[k]));
        }
    }
    bits
}

/// So many bit times of the scale in words.
fn put_load_words<K: Sink>(text: &mut TextBuffer, sink: &mut K, scale: &Scale, bits: u128)
    requires scale { IsScale scale.now }
    requires few { bits < 2 ^ 111 }
    ensures { Adds K.held K.faults sink.old sink.new text.old text.new (definition.load_words scale.now bits) }
{
    put_load_share(text, sink, bits, scale.to - scale.from);
}

/// For how many bit times of the scale the bus has carrier.
fn bus_bits(scale: &Scale, list: &[Transmission], carrier: &[Stretch]) -> u128
    requires carrier { IsCarrierOf carrier.now list.now }
    ensures value { result ≡ definition.bus_bits scale.now list.now }
    ensures few { result < 2 ^ 111 }
{
    u128::from(bits_within(carrier, scale.from, scale.to))
}

/// When all transmissions of a list have ended.
fn last_end(list: &[Transmission]) -> u64
    ensures { result ≡ greatest_end list.now }
{
    let mut end = 0;
    for x in list {
        end = end.max(x.end());
    }
    end
}

/// The load of the bus in the scale.
fn put_share_to<K: Sink>(
    text: &mut TextBuffer,
    sink: &mut K,
    scale: &Scale,
    list: &[Transmission],
    carrier: &[Stretch],
)
    requires scale { IsScale scale.now }
    requires carrier { IsCarrierOf carrier.now list.now }
    ensures { Adds K.held K.faults sink.old sink.new text.old text.new
        (definition.load_words scale.now (definition.bus_bits scale.now list.now)) }
{
    let bits = bus_bits(scale, list, carrier);
    put_load_words(text, sink, scale, bits);
}

/// The load of the bus in a scale that ends with the last transmission.
fn put_front_load<K: Sink>(
    text: &mut TextBuffer,
    sink: &mut K,
    front: &Scale,
    list: &[Transmission],
    carrier: &[Stretch],
)
    requires scale { IsScale front.now }
    requires carrier { IsCarrierOf carrier.now list.now }
    ensures { Adds K.held K.faults sink.old sink.new text.old text.new (definition.front_load front.now list.now) }
{
    begin_words(text, sink, Class::Detail, RIGHT_MARGIN, TAIL_LINE);
    put_share_to(text, sink, front, list, carrier);
    text.put(sink, b" up to the last end");
    end_words(text, sink);
}

/// A scale up to a moment that it has.
fn up_to(scale: &Scale, end: u64) -> Scale
    requires scale { IsScale scale.now }
    requires some { scale.now.from < end }
    requires within { end < scale.now.to }
    ensures value { result ≡ definition.up_to scale.now end }
    ensures scale { IsScale result }
{
    Scale {
        from: scale.from,
        to: end,
        left: scale.left,
        width: scale.width,
    }
}

/// That up to the last end, where the scale goes on behind it.
fn put_tail<K: Sink>(
    text: &mut TextBuffer,
    sink: &mut K,
    scale: &Scale,
    list: &[Transmission],
    carrier: &[Stretch],
)
    requires scale { IsScale scale.now }
    requires carrier { IsCarrierOf carrier.now list.now }
    ensures { Adds K.held K.faults sink.old sink.new text.old text.new (definition.tail_heading scale.now list.now) }
{
    let end = last_end(list);
    if scale.from < end && end < scale.to {
        put_front_load(text, sink, &up_to(scale, end), list, carrier);
    }
}

/// The load of the bus in the heading.
fn put_load_heading<K: Sink>(
    text: &mut TextBuffer,
    sink: &mut K,
    scale: &Scale,
    list: &[Transmission],
    carrier: &[Stretch],
)
    requires scale { IsScale scale.now }
    requires carrier { IsCarrierOf carrier.now list.now }
    ensures { Adds K.held K.faults sink.old sink.new text.old text.new (definition.load_heading scale.now list.now) }
{
    begin_words(text, sink, Class::Counts, RIGHT_MARGIN, ANSWER_LINE);
    text.put(sink, b"load ");
    put_share_to(text, sink, scale, list, carrier);
    end_words(text, sink);
}

/// A load right of a row.
fn put_load<K: Sink>(text: &mut TextBuffer, sink: &mut K, scale: &Scale, line: u64, bits: u128)
    requires scale { IsScale scale.now }
    requires few { bits < 2 ^ 111 }
    ensures { Adds K.held K.faults sink.old sink.new text.old text.new (definition.load_text scale.now line bits) }
{
    begin_words(text, sink, Class::Small, LOAD_LEFT, line);
    put_load_words(text, sink, scale, bits);
    end_words(text, sink);
}

/// The load of lane `k`.
fn put_lane_load<K: Sink>(
    text: &mut TextBuffer,
    sink: &mut K,
    scale: &Scale,
    list: &[Transmission],
    k: usize,
    lane: Lane,
)
    requires scale { IsScale scale.now }
    requires few { k ≤ 256 }
    ensures { Adds K.held K.faults sink.old sink.new text.old text.new
        (definition.lane_load scale.now list.now k lane) }
{
    let bits = terminal_bits(scale, lane.terminal, list);
    put_load(text, sink, scale, lane_top(k) + TERMINAL_LINE, bits);
}

/// The load of each lane.
fn put_lane_loads<K: Sink>(
    text: &mut TextBuffer,
    sink: &mut K,
    scale: &Scale,
    list: &[Transmission],
    lanes: &[Lane],
)
    requires scale { IsScale scale.now }
    requires few { length lanes.now ≤ 256 }
    ensures { Adds K.held K.faults sink.old sink.new text.old text.new
        (each_lane (definition.lane_load scale.now list.now) 0 lanes.now) }
{
    for k in 0..lanes.len() {
        put_lane_load(text, sink, scale, list, k, lanes[k]);
    }
}

/// The load of the bus.
fn put_bus_load<K: Sink>(
    text: &mut TextBuffer,
    sink: &mut K,
    scale: &Scale,
    list: &[Transmission],
    carrier: &[Stretch],
)
    requires scale { IsScale scale.now }
    requires carrier { IsCarrierOf carrier.now list.now }
    ensures { Adds K.held K.faults sink.old sink.new text.old text.new (definition.bus_load scale.now list.now) }
{
    put_load_heading(text, sink, scale, list, carrier);
    put_tail(text, sink, scale, list, carrier);
    let bits = bus_bits(scale, list, carrier);
    put_load(text, sink, scale, PLOT_TOP + BUS_LINE, bits);
}

/// The load of the bus, from its carrier, and of each lane. It goes over the list once, and once for each lane.
pub(crate) fn put_loads<K: Sink>(
    text: &mut TextBuffer,
    sink: &mut K,
    scale: &Scale,
    lanes: &[Lane],
    list: &[Transmission],
    carrier: &[Stretch],
)
    requires scale { IsScale scale.now }
    requires few { length lanes.now ≤ 256 }
    requires carrier { IsCarrierOf carrier.now list.now }
    ensures { Adds K.held K.faults sink.old sink.new text.old text.new
        (definition.loads_text scale.now lanes.now list.now) }
{
    put_bus_load(text, sink, scale, list, carrier);
    put_lane_loads(text, sink, scale, list, lanes);
}
