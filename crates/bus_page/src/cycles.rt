//! The shortest above the longest cycle of an accepted aperiodic table, on one axis.
ghost use Rattle.std.specs.Prelude.{◌≡◌, ◌<◌, ◌≤◌, ◌^◌};
ghost use Rattle.std.specs.List.{flat_map};
ghost use Rattle.bus_outer.specs.Texts.{Adds};
ghost use Rattle.bus_pen.specs.Scales.{IsScale};
ghost use Rattle.bus_page.specs.Cycles as definition;
ghost use Rattle.bus_page.specs.inside.Bounds.{AreTimes};

use crate::measures::{BOX_HEIGHT, LONG_TOP, PLOT_LEFT, PLOT_WIDTH, SHORT_TOP};
use crate::message::{put_axes, put_gap, put_lane, put_stretch};
use crate::paint::{Paint, begin_painted, begin_picture, end_painted, end_picture, put_plain};
use crate::turn::Turn;
use bus_outer::{Sink, TextBuffer};
use bus_pen::{Area, Class, Scale, begin_words, end_words};
use bus_say::put_time;

/// The times of a table that its cycles are drawn by, in bit times.
#[derive(Clone, Copy)]
pub(crate) struct Times {
    /// The transmit interval.
    pub(crate) ti: u64,
    /// The synchronization gap.
    pub(crate) sg: u64,
    /// The shortest cycle.
    pub(crate) least: u64,
    /// The longest cycle.
    pub(crate) most: u64,
}

/// From the beginning of a cycle to the end of the longest.
fn scale_of(most: u64) -> Scale
    requires some { 0 < most }
    requires short { most ≤ 2 ^ 40 }
    ensures value { result ≡ definition.scale_of most }
    ensures scale { IsScale result }
{
    Scale {
        from: 0,
        to: most,
        left: PLOT_LEFT,
        width: PLOT_WIDTH,
    }
}

/// Puts a corner of a join.
fn put_corner<K: Sink>(text: &mut TextBuffer, sink: &mut K, left: u64, top: u64)
    ensures { Adds K.held K.faults sink.old sink.new text.old text.new (definition.corner left top) }
{
    text.put_number(sink, left);
    text.put(sink, b" ");
    text.put_number(sink, top);
}

/// Puts the two corners of a join below the shortest cycle.
fn put_upper_corners<K: Sink>(text: &mut TextBuffer, sink: &mut K, scale: &Scale, turn: Turn)
    requires { IsScale scale.now }
    ensures { Adds K.held K.faults sink.old sink.new text.old text.new (definition.upper_corners scale.now turn) }
{
    put_corner(
        text,
        sink,
        scale.place(turn.short.from),
        SHORT_TOP + BOX_HEIGHT,
    );
    text.put(sink, b"L");
    put_corner(
        text,
        sink,
        scale.place(turn.short.to),
        SHORT_TOP + BOX_HEIGHT,
    );
}

/// Puts those above the longest.
fn put_lower_corners<K: Sink>(text: &mut TextBuffer, sink: &mut K, scale: &Scale, turn: Turn)
    requires { IsScale scale.now }
    ensures { Adds K.held K.faults sink.old sink.new text.old text.new (definition.lower_corners scale.now turn) }
{
    put_corner(text, sink, scale.place(turn.long.to), LONG_TOP);
    text.put(sink, b"L");
    put_corner(text, sink, scale.place(turn.long.from), LONG_TOP);
}

/// Puts the join between the boxes of a turn.
fn put_join<K: Sink>(text: &mut TextBuffer, sink: &mut K, scale: &Scale, turn: Turn)
    requires { IsScale scale.now }
    ensures { Adds K.held K.faults sink.old sink.new text.old text.new (definition.join_text scale.now turn) }
{
    text.put(sink, b"<path class=\"join\" d=\"M");
    put_upper_corners(text, sink, scale, turn);
    text.put(sink, b"L");
    put_lower_corners(text, sink, scale, turn);
    text.put(sink, b"Z\"/>\n");
}

/// Puts the joins of all turns.
fn put_joins<K: Sink>(text: &mut TextBuffer, sink: &mut K, scale: &Scale, turns: &[Turn])
    requires { IsScale scale.now }
    ensures { Adds K.held K.faults sink.old sink.new text.old text.new (flat_map (definition.join_text scale.now) turns.now) }
{
    for turn in turns {
        put_join(text, sink, scale, *turn);
    }
}

/// Puts all turns in the shortest cycle.
fn put_short<K: Sink>(text: &mut TextBuffer, sink: &mut K, scale: &Scale, turns: &[Turn])
    requires { IsScale scale.now }
    ensures { Adds K.held K.faults sink.old sink.new text.old text.new (flat_map (definition.short_text scale.now) turns.now) }
{
    for turn in turns {
        put_stretch(text, sink, scale, SHORT_TOP, turn.number, turn.short);
    }
}

/// Puts all turns in the longest cycle.
fn put_long<K: Sink>(text: &mut TextBuffer, sink: &mut K, scale: &Scale, turns: &[Turn])
    requires { IsScale scale.now }
    ensures { Adds K.held K.faults sink.old sink.new text.old text.new (flat_map (definition.long_text scale.now) turns.now) }
{
    for turn in turns {
        put_stretch(text, sink, scale, LONG_TOP, turn.number, turn.long);
    }
}

/// The box of the spare.
fn spare_area(scale: &Scale, ti: u64, least: u64) -> Area
    requires scale { IsScale scale.now }
    ensures { result ≡ definition.spare_area scale.now ti least }
{
    let left = scale.place(ti);
    Area {
        left,
        top: 270,
        width: scale.place(least).saturating_sub(left),
        height: 50,
    }
}

/// Puts the spare.
fn put_spare<K: Sink>(text: &mut TextBuffer, sink: &mut K, scale: &Scale, ti: u64, least: u64)
    requires { IsScale scale.now }
    ensures { Adds K.held K.faults sink.old sink.new text.old text.new (definition.spare_text scale.now ti least) }
{
    begin_painted(text, sink, Paint::Spare, spare_area(scale, ti, least));
    text.put(sink, b"spare ");
    put_time(text, sink, least.saturating_sub(ti) as u128);
    end_painted(text, sink);
}

/// Puts words and a number behind them.
fn put_number_words<K: Sink>(
    text: &mut TextBuffer,
    sink: &mut K,
    class: Class,
    left: u64,
    line: u64,
    name: &[u8],
    number: u64,
)
    ensures { Adds K.held K.faults sink.old sink.new text.old text.new (definition.number_words class left line name.now number) }
{
    begin_words(text, sink, class, left, line);
    text.put(sink, name);
    text.put_number(sink, number);
    end_words(text, sink);
}

/// Puts the transmit interval.
fn put_interval<K: Sink>(text: &mut TextBuffer, sink: &mut K, scale: &Scale, ti: u64)
    requires scale { IsScale scale.now }
    requires behind { 1500 ≤ scale.now.left }
    ensures { Adds K.held K.faults sink.old sink.new text.old text.new (definition.interval_text scale.now ti) }
{
    let left = scale.place(ti);
    let area = Area {
        left,
        top: 270,
        width: 15,
        height: 1320,
    };
    put_plain(text, sink, Paint::Interval, area);
    put_number_words(text, sink, Class::IntervalWords, left - 60, 900, b"TI ", ti);
}

/// Puts how much longer the longest cycle is.
fn put_more<K: Sink>(text: &mut TextBuffer, sink: &mut K, scale: &Scale, least: u64, most: u64)
    requires { IsScale scale.now }
    ensures { Adds K.held K.faults sink.old sink.new text.old text.new (definition.more_words scale.now least most) }
{
    begin_words(text, sink, Class::Detail, scale.place(most), LONG_TOP - 50);
    text.put(sink, b"up to ");
    text.put_number(sink, most.saturating_sub(least));
    text.put(sink, b" more");
    end_words(text, sink);
}

/// Puts the words of the spare.
fn put_spare_words<K: Sink>(text: &mut TextBuffer, sink: &mut K, scale: &Scale, ti: u64, least: u64)
    requires scale { IsScale scale.now }
    requires behind { 1500 ≤ scale.now.left }
    ensures { Adds K.held K.faults sink.old sink.new text.old text.new (definition.spare_words scale.now ti least) }
{
    let right = scale.place(ti) - 60;
    let spare = least.saturating_sub(ti);
    put_number_words(
        text,
        sink,
        Class::IntervalWords,
        right,
        315,
        b"spare ",
        spare,
    );
}

/// Puts the words of the synchronization gap.
fn put_gap_words<K: Sink>(text: &mut TextBuffer, sink: &mut K, scale: &Scale, sg: u64)
    requires scale { IsScale scale.now }
    ensures { Adds K.held K.faults sink.old sink.new text.old text.new (definition.gap_words scale.now sg) }
{
    put_number_words(text, sink, Class::GapWords, scale.place(0), 770, b"SG ", sg);
}

/// Puts all that lies behind the messages: the axes, the spare, the joins, and the transmit interval.
fn put_behind<K: Sink>(
    text: &mut TextBuffer,
    sink: &mut K,
    scale: &Scale,
    times: Times,
    turns: &[Turn],
)
    requires scale { IsScale scale.now }
    requires behind { 1500 ≤ scale.now.left }
    ensures { Adds K.held K.faults sink.old sink.new text.old text.new (definition.behind_text scale.now times turns.now) }
{
    put_axes(text, sink, scale, 1430);
    put_spare(text, sink, scale, times.ti, times.least);
    put_joins(text, sink, scale, turns);
    put_interval(text, sink, scale, times.ti);
}

/// Puts the shortest cycle.
fn put_short_lane<K: Sink>(
    text: &mut TextBuffer,
    sink: &mut K,
    scale: &Scale,
    times: Times,
    turns: &[Turn],
)
    requires { IsScale scale.now }
    ensures { Adds K.held K.faults sink.old sink.new text.old text.new (definition.short_lane scale.now times turns.now) }
{
    put_lane(text, sink, SHORT_TOP, b"shortest", times.least);
    put_gap(text, sink, scale, SHORT_TOP, 0, times.sg);
    put_short(text, sink, scale, turns);
}

/// Puts the longest cycle.
fn put_long_lane<K: Sink>(
    text: &mut TextBuffer,
    sink: &mut K,
    scale: &Scale,
    times: Times,
    turns: &[Turn],
)
    requires { IsScale scale.now }
    ensures { Adds K.held K.faults sink.old sink.new text.old text.new (definition.long_lane scale.now times turns.now) }
{
    put_lane(text, sink, LONG_TOP, b"longest", times.most);
    put_gap(text, sink, scale, LONG_TOP, 0, times.sg);
    put_long(text, sink, scale, turns);
}

/// Puts the words between the cycles.
fn put_marks<K: Sink>(text: &mut TextBuffer, sink: &mut K, scale: &Scale, times: Times)
    requires scale { IsScale scale.now }
    requires behind { 1500 ≤ scale.now.left }
    ensures { Adds K.held K.faults sink.old sink.new text.old text.new (definition.marks_text scale.now times) }
{
    put_spare_words(text, sink, scale, times.ti, times.least);
    put_gap_words(text, sink, scale, times.sg);
    put_more(text, sink, scale, times.least, times.most);
}

/// Puts the picture of these turns of a table with these times.
pub(crate) fn put_cycles<K: Sink>(text: &mut TextBuffer, sink: &mut K, times: Times, turns: &[Turn])
    requires { AreTimes times }
    ensures { Adds K.held K.faults sink.old sink.new text.old text.new (definition.cycles_text times turns.now) }
{
    let scale = scale_of(times.most);
    begin_picture(text, sink, 1850, b"The shortest and the longest cycle");
    put_behind(text, sink, &scale, times, turns);
    put_short_lane(text, sink, &scale, times, turns);
    put_long_lane(text, sink, &scale, times, turns);
    put_marks(text, sink, &scale, times);
    end_picture(text, sink);
}
