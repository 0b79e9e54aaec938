//! The lines of terminal gaps, and their words.
ghost use Rattle.std.specs.Prelude.{◌≡◌, ◌<◌, ◌≤◌, ◌^◌};
ghost use Rattle.bus_outer.specs.Texts.{Adds};
ghost use Rattle.bus_pen.specs.Scales.{IsScale};
ghost use Rattle.bus_picture.specs.Timers as definition;
ghost use Rattle.bus_picture.specs.inside.Starting as working;

use crate::heard::Gap;
use crate::lines::{has_words, is_drawn, line_area};
use crate::measures::{GAP_BELOW, GAP_LINE, GAP_ROOM, NARROW};
use bus_outer::{Sink, TextBuffer};
use bus_pen::{Area, Class, Scale, begin_words, end_words, put_box};

/// How much of a terminal gap there is, and of how much, where it isn't whole.
fn put_gap_size<K: Sink>(text: &mut TextBuffer, sink: &mut K, tg: u32, gap: Gap)
    requires { gap.from ≤ gap.to }
    ensures { Adds K.held K.faults sink.old sink.new text.old text.new (definition.gap_size tg gap) }
{
    let size = gap.to - gap.from;
    if size != u64::from(tg) {
        text.put_number(sink, size);
        text.put(sink, b" of ");
    }
    text.put_number(sink, tg);
}

/// The room that is asked for its words.
fn size_room(tg: u32, gap: Gap) -> u64
    requires { gap.from ≤ gap.to }
    ensures { result ≡ definition.size_room tg gap }
{
    if gap.to - gap.from == u64::from(tg) {
        GAP_ROOM
    } else {
        NARROW
    }
}

/// The line of a terminal gap, where it takes a pixel.
pub(crate) fn put_terminal_gap<K: Sink>(
    text: &mut TextBuffer,
    sink: &mut K,
    scale: &Scale,
    top: u64,
    gap: Gap,
)
    requires scale { IsScale scale.now }
    requires top { top < 100000 }
    ensures { Adds K.held K.faults sink.old sink.new text.old text.new (definition.terminal_gap scale.now top gap) }
{
    if is_drawn(scale, gap.from, gap.to) {
        let area = line_area(scale, top + GAP_BELOW, gap.from, gap.to);
        put_box(text, sink, Class::Gap, area);
    }
}

/// Its words above its line, where they have room.
fn put_words_over<K: Sink>(
    text: &mut TextBuffer,
    sink: &mut K,
    area: Area,
    top: u64,
    tg: u32,
    gap: Gap,
)
    requires order { gap.from ≤ gap.to }
    requires left { area.left < 2 ^ 22 }
    requires width { area.width < 2 ^ 22 }
    requires top { top < 100000 }
    ensures { Adds K.held K.faults sink.old sink.new text.old text.new
        (working.words_over area top tg gap) }
{
    if has_words(size_room(tg, gap), area) {
        let end = area.left + area.width;
        begin_words(text, sink, Class::GapWords, end, top + GAP_LINE);
        text.put(sink, b"TG ");
        put_gap_size(text, sink, tg, gap);
        end_words(text, sink);
    }
}

/// Its words, where its line takes a pixel.
pub(crate) fn put_gap_words<K: Sink>(
    text: &mut TextBuffer,
    sink: &mut K,
    scale: &Scale,
    top: u64,
    tg: u32,
    gap: Gap,
)
    requires scale { IsScale scale.now }
    requires top { top < 100000 }
    ensures { Adds K.held K.faults sink.old sink.new text.old text.new (definition.gap_words scale.now top tg gap) }
{
    if is_drawn(scale, gap.from, gap.to) {
        let area = line_area(scale, top + GAP_BELOW, gap.from, gap.to);
        put_words_over(text, sink, area, top, tg, gap);
    }
}
