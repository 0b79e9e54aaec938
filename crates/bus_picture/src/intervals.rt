//! The lines of transmit intervals, and their words.
ghost use Rattle.std.specs.Prelude.{◌≡◌, ◌<◌, ◌≤◌, ◌^◌};
ghost use Rattle.bus_outer.specs.Texts.{Adds};
ghost use Rattle.bus_pen.specs.Scales.{IsScale};
ghost use Rattle.bus_picture.specs.Intervals as intervals;
ghost use Rattle.bus_picture.specs.Timers as definition;
ghost use Rattle.bus_picture.specs.inside.Starting as working;

use crate::lane_timings::LaneTimings;
use crate::lines::{is_drawn, line_area};
use crate::measures::{
    INTERVAL_BELOW, INTERVAL_LINE, INTERVAL_ROOM, LINE_HEIGHT, STROKE_BELOW, STROKE_HEIGHT,
};
use bus_outer::{Sink, TextBuffer};
use bus_pen::{Area, Class, Scale, begin_words, end_words, put_box};

/// Where the transmit interval from a start ends, given the next start.
pub(crate) fn interval_to(ti: u32, moment: u64, next: Option<u64>) -> u64
    requires { moment ≤ 2 ^ 41 }
    ensures { result ≡ intervals.interval_to ti moment next }
{
    let over = moment + u64::from(ti);
    match next {
        None => over,
        Some(next) => over.min(next),
    }
}

/// The line of a transmit interval from one moment to another.
fn put_interval<K: Sink>(
    text: &mut TextBuffer,
    sink: &mut K,
    scale: &Scale,
    top: u64,
    from: u64,
    to: u64,
)
    requires scale { IsScale scale.now }
    requires top { top < 100000 }
    requires order { from ≤ to }
    ensures { Adds K.held K.faults sink.old sink.new text.old text.new (definition.interval_text scale.now top from to) }
{
    let area = line_area(scale, top + INTERVAL_BELOW, from, to);
    put_box(text, sink, Class::Interval, area);
}

/// The stroke at its end, where it is over there and the scale has that.
fn put_interval_end<K: Sink>(
    text: &mut TextBuffer,
    sink: &mut K,
    scale: &Scale,
    top: u64,
    ti: u32,
    from: u64,
    to: u64,
)
    requires scale { IsScale scale.now }
    requires top { top < 100000 }
    requires low { from ≤ 2 ^ 41 }
    ensures { Adds K.held K.faults sink.old sink.new text.old text.new
        (definition.interval_end scale.now top ti from to) }
{
    if to == from + u64::from(ti) && to <= scale.to {
        let area = Area {
            left: scale.place(to).saturating_sub(LINE_HEIGHT),
            top: top + STROKE_BELOW,
            width: LINE_HEIGHT,
            height: STROKE_HEIGHT,
        };
        put_box(text, sink, Class::Interval, area);
    }
}

/// Its words, in the first lane alone, where no start cuts it and they have room.
fn put_interval_words<K: Sink>(
    text: &mut TextBuffer,
    sink: &mut K,
    scale: &Scale,
    timings: LaneTimings,
    from: u64,
    to: u64,
)
    requires scale { IsScale scale.now }
    requires top { timings.top < 100000 }
    requires order { from ≤ to }
    requires low { from ≤ 2 ^ 41 }
    ensures { Adds K.held K.faults sink.old sink.new text.old text.new
        (definition.interval_words scale.now timings.k timings.top timings.ti from to) }
{
    if timings.k == 0
        && to == from + u64::from(timings.ti)
        && INTERVAL_ROOM <= scale.extent(from, to)
    {
        begin_words(
            text,
            sink,
            Class::IntervalWords,
            scale.place(to),
            timings.top + INTERVAL_LINE,
        );
        text.put(sink, b"TI ");
        text.put_number(sink, timings.ti);
        end_words(text, sink);
    }
}

/// A transmit interval from a start to its end, where it takes a pixel.
fn put_interval_at<K: Sink>(
    text: &mut TextBuffer,
    sink: &mut K,
    scale: &Scale,
    timings: LaneTimings,
    from: u64,
    to: u64,
)
    requires scale { IsScale scale.now }
    requires top { timings.top < 100000 }
    requires low { from ≤ 2 ^ 41 }
    ensures { Adds K.held K.faults sink.old sink.new text.old text.new
        (definition.interval_at scale.now timings from to) }
{
    if is_drawn(scale, from, to) {
        put_interval(text, sink, scale, timings.top, from, to);
        put_interval_end(text, sink, scale, timings.top, timings.ti, from, to);
        put_interval_words(text, sink, scale, timings, from, to);
    }
}

/// The transmit interval behind the last start, where there is one, given the next.
pub(crate) fn put_last<K: Sink>(
    text: &mut TextBuffer,
    sink: &mut K,
    scale: &Scale,
    timings: LaneTimings,
    last: Option<u64>,
    next: Option<u64>,
)
    requires scale { IsScale scale.now }
    requires top { timings.top < 100000 }
    requires early { working.IsEarly last }
    ensures { Adds K.held K.faults sink.old sink.new text.old text.new
        (definition.interval_behind scale.now timings last next) }
{
    if let Some(moment) = last {
        let to = interval_to(timings.ti, moment, next);
        put_interval_at(text, sink, scale, timings, moment, to);
    }
}
