//! Messages and gaps as boxes of a picture, and what stands around these: the axes, and the name of a cycle.
ghost use Rattle.std.specs.Prelude.{◌≡◌, ◌<◌, ◌^◌};
ghost use Rattle.bus_outer.specs.Texts.{Adds};
ghost use Rattle.bus_pen.specs.Scales.{IsScale};
ghost use Rattle.bus_page.specs.Messages as definition;

use crate::measures::{
    BOX_HEIGHT, BOX_LINE, GAP_BELOW, GAP_HEIGHT, NARROW_BOX, WIDE_BOX, WORDS_RIGHT,
};
use crate::paint::{Paint, begin_painted, end_painted, put_plain};
use crate::turn::Stretch;
use bus_outer::{Sink, TextBuffer};
use bus_pen::measures::PIXEL;
use bus_pen::{Area, Axis, Class, Scale, Unit, begin_words, end_words, put_axis, put_words};
use bus_say::put_time;

/// The box of what lies between two moments.
pub(crate) fn area_of(scale: &Scale, from: u64, to: u64, top: u64, height: u64) -> Area
    requires { IsScale scale.now }
    ensures value { result ≡ definition.area_of scale.now from to top height }
    ensures left { result.left < 2 ^ 21 }
    ensures width { result.width < 2 ^ 21 }
{
    let left = scale.place(from);
    Area {
        left,
        top,
        width: scale.place(to).saturating_sub(left).max(PIXEL),
        height,
    }
}

/// Puts a terminal.
pub(crate) fn put_terminal<K: Sink>(text: &mut TextBuffer, sink: &mut K, number: u8)
    ensures { Adds K.held K.faults sink.old sink.new text.old text.new (definition.terminal_name number) }
{
    text.put(sink, b"T");
    text.put_number(sink, number);
}

/// Puts from when to when.
fn put_moments<K: Sink>(text: &mut TextBuffer, sink: &mut K, stretch: Stretch)
    ensures { Adds K.held K.faults sink.old sink.new text.old text.new (definition.moments_words stretch) }
{
    text.put(sink, b", from ");
    text.put_number(sink, stretch.from);
    text.put(sink, b" to ");
    text.put_number(sink, stretch.to);
}

/// Puts who sends, from when to when.
fn put_sent<K: Sink>(text: &mut TextBuffer, sink: &mut K, number: u8, stretch: Stretch)
    ensures { Adds K.held K.faults sink.old sink.new text.old text.new (definition.sent_words number stretch) }
{
    put_terminal(text, sink, number);
    text.put(sink, b": ");
    put_time(text, sink, stretch.to.saturating_sub(stretch.from) as u128);
    put_moments(text, sink, stretch);
}

/// Puts a terminal and how many bit times.
fn put_both<K: Sink>(text: &mut TextBuffer, sink: &mut K, number: u8, bits: u64)
    ensures { Adds K.held K.faults sink.old sink.new text.old text.new (definition.both_words number bits) }
{
    put_terminal(text, sink, number);
    text.put(sink, b" ");
    text.put_number(sink, bits);
}

/// Puts what stands in a box of this width.
fn put_inside_words<K: Sink>(text: &mut TextBuffer, sink: &mut K, width: u64, number: u8, bits: u64)
    ensures { Adds K.held K.faults sink.old sink.new text.old text.new (definition.inside_words width number bits) }
{
    if width >= WIDE_BOX {
        put_both(text, sink, number, bits);
    } else if width >= NARROW_BOX {
        put_terminal(text, sink, number);
    } else {
        text.put(sink, b"");
    }
}

/// Puts the words in a box.
fn put_inside<K: Sink>(text: &mut TextBuffer, sink: &mut K, area: Area, number: u8, bits: u64)
    requires left { area.left < 2 ^ 21 }
    requires width { area.width < 2 ^ 21 }
    requires top { area.top < 2 ^ 40 }
    ensures { Adds K.held K.faults sink.old sink.new text.old text.new (definition.inside_text area number bits) }
{
    let middle = area.left + area.width / 2;
    begin_words(text, sink, Class::Digits, middle, area.top + BOX_LINE);
    put_inside_words(text, sink, area.width, number, bits);
    end_words(text, sink);
}

/// Puts the box of a message.
fn put_box<K: Sink>(text: &mut TextBuffer, sink: &mut K, area: Area, number: u8, stretch: Stretch)
    ensures { Adds K.held K.faults sink.old sink.new text.old text.new (definition.box_text area number stretch) }
{
    begin_painted(text, sink, Paint::Sent, area);
    put_sent(text, sink, number, stretch);
    end_painted(text, sink);
}

/// Puts the box of a message, and the words in it.
pub(crate) fn put_message<K: Sink>(
    text: &mut TextBuffer,
    sink: &mut K,
    scale: &Scale,
    top: u64,
    number: u8,
    stretch: Stretch,
)
    requires scale { IsScale scale.now }
    requires top { top < 2 ^ 20 }
    ensures { Adds K.held K.faults sink.old sink.new text.old text.new (definition.message_text scale.now top number stretch) }
{
    let area = area_of(scale, stretch.from, stretch.to, top, BOX_HEIGHT);
    put_box(text, sink, area, number, stretch);
    let bits = stretch.to.saturating_sub(stretch.from);
    put_inside(text, sink, area, number, bits);
}

/// Puts a gap between two moments.
pub(crate) fn put_gap<K: Sink>(
    text: &mut TextBuffer,
    sink: &mut K,
    scale: &Scale,
    top: u64,
    from: u64,
    to: u64,
)
    requires scale { IsScale scale.now }
    requires top { top < 2 ^ 20 }
    ensures { Adds K.held K.faults sink.old sink.new text.old text.new (definition.gap_text scale.now top from to) }
{
    let area = area_of(scale, from, to, top + GAP_BELOW, GAP_HEIGHT);
    put_plain(text, sink, Paint::Gap, area);
}

/// Puts a message behind its gap.
pub(crate) fn put_stretch<K: Sink>(
    text: &mut TextBuffer,
    sink: &mut K,
    scale: &Scale,
    top: u64,
    number: u8,
    stretch: Stretch,
)
    requires scale { IsScale scale.now }
    requires top { top < 2 ^ 20 }
    ensures { Adds K.held K.faults sink.old sink.new text.old text.new (definition.stretch_text scale.now top number stretch) }
{
    put_gap(text, sink, scale, top, stretch.gap, stretch.from);
    put_message(text, sink, scale, top, number, stretch);
}

/// Puts the axes of a picture whose plot has this height.
pub(crate) fn put_axes<K: Sink>(text: &mut TextBuffer, sink: &mut K, scale: &Scale, height: u64)
    requires scale { IsScale scale.now }
    requires height { height < 2 ^ 20 }
    ensures { Adds K.held K.faults sink.old sink.new text.old text.new (definition.axes_text scale.now height) }
{
    let upper = Axis {
        unit: Unit::Microseconds,
        words: 130,
        class: Class::Tick,
        top: 160,
        height: 50,
    };
    let lower = Axis {
        unit: Unit::BitTimes,
        words: 230 + height + 130,
        class: Class::Grid,
        top: 230,
        height,
    };
    put_axis(text, sink, scale, &upper);
    put_axis(text, sink, scale, &lower);
}

/// Puts the name of a cycle at the left, and its length.
pub(crate) fn put_lane<K: Sink>(
    text: &mut TextBuffer,
    sink: &mut K,
    top: u64,
    name: &[u8],
    bits: u64,
)
    requires { top < 2 ^ 20 }
    ensures { Adds K.held K.faults sink.old sink.new text.old text.new (definition.lane_text top name.now bits) }
{
    put_words(text, sink, Class::Counts, WORDS_RIGHT, top + 120, name);
    begin_words(text, sink, Class::Detail, WORDS_RIGHT, top + 250);
    text.put_number(sink, bits);
    end_words(text, sink);
}
