//! The timers of a sender, from start to start.
ghost use Rattle.std.specs.Prelude.{◌≡◌, ◌<◌, ◌≤◌, ◌^◌};
ghost use Rattle.bus_outer.specs.Texts.{Adds};
ghost use Rattle.bus_strings.specs.Transmissions.{IsByMoment};
ghost use Rattle.bus_pen.specs.Scales.{IsScale};
ghost use Rattle.bus_picture.specs.Intervals as intervals;
ghost use Rattle.bus_picture.specs.Timers as definition;
ghost use Rattle.bus_picture.specs.inside.Starting as working;

use crate::heard::{Gap, Heard, Hearing, deaf, gap_from, hear};
use crate::intervals::put_last;
use crate::lane_timings::LaneTimings;
use crate::terminal_gaps::{put_gap_words, put_terminal_gap};
use bus_outer::{Sink, TextBuffer};
use bus_pen::Scale;
use bus_strings::Transmission;

/// The line of the terminal gap that ends by a transmission, where that is the first that begins at its moment.
fn put_line<K: Sink>(
    text: &mut TextBuffer,
    sink: &mut K,
    scale: &Scale,
    timings: LaneTimings,
    first: bool,
    gap: Gap,
)
    requires scale { IsScale scale.now }
    requires top { timings.top < 100000 }
    ensures { Adds K.held K.faults sink.old sink.new text.old text.new (working.line_text scale.now timings first gap) }
{
    if first {
        put_terminal_gap(text, sink, scale, timings.top, gap);
    }
}

/// At a start the transmit interval behind the last one, and the words of the terminal gap before this one.
fn put_start<K: Sink>(
    text: &mut TextBuffer,
    sink: &mut K,
    scale: &Scale,
    timings: LaneTimings,
    last: Option<u64>,
    gap: Gap,
    moment: u64,
)
    requires scale { IsScale scale.now }
    requires top { timings.top < 100000 }
    requires early { working.IsEarly last }
    ensures { Adds K.held K.faults sink.old sink.new text.old text.new
        (working.start_text scale.now timings last gap moment) }
{
    put_last(text, sink, scale, timings, last, Some(moment));
    put_gap_words(text, sink, scale, timings.top, timings.tg, gap);
}

/// The same at a transmission, where that is a start of the sender: what is then its last start.
fn put_own<K: Sink>(
    text: &mut TextBuffer,
    sink: &mut K,
    scale: &Scale,
    timings: LaneTimings,
    last: Option<u64>,
    gap: Gap,
    x: &Transmission,
) -> Option<u64>
    requires scale { IsScale scale.now }
    requires top { timings.top < 100000 }
    requires early { working.IsEarly last }
    ensures adds { Adds K.held K.faults sink.old sink.new text.old text.new
        (working.own_text scale.now timings last gap x.now) }
    ensures last { result ≡ intervals.next_start timings.terminal last x.now }
    ensures early { working.IsEarly result }
{
    if x.terminal != timings.terminal {
        return last;
    }
    put_start(text, sink, scale, timings, last, gap, x.moment);
    Some(x.moment)
}

/// Takes the next transmission of the list, which is heard: what is then the last start.
fn take<K: Sink>(
    text: &mut TextBuffer,
    sink: &mut K,
    scale: &Scale,
    timings: LaneTimings,
    last: Option<u64>,
    hearing: Hearing,
    x: &Transmission,
) -> Option<u64>
    requires scale { IsScale scale.now }
    requires top { timings.top < 100000 }
    requires early { working.IsEarly last }
    requires heard { hearing.before.quiet_from ≤ 2 ^ 42 }
    ensures adds { Adds K.held K.faults sink.old sink.new text.old text.new
        (working.next_text scale.now timings last hearing.first hearing.before x.now) }
    ensures last { result ≡ intervals.next_start timings.terminal last x.now }
    ensures early { working.IsEarly result }
{
    let gap = gap_from(timings, hearing.before, x.moment);
    put_line(text, sink, scale, timings, hearing.first, gap);
    put_own(text, sink, scale, timings, last, gap, x)
}

/// What is drawn behind all transmissions: the terminal gap, as far as the horizon, and the transmit interval behind the last start.
fn put_behind<K: Sink>(
    text: &mut TextBuffer,
    sink: &mut K,
    scale: &Scale,
    timings: LaneTimings,
    last: Option<u64>,
    heard: Heard,
)
    requires scale { IsScale scale.now }
    requires top { timings.top < 100000 }
    requires early { working.IsEarly last }
    requires heard { heard.quiet_from ≤ 2 ^ 42 }
    ensures { Adds K.held K.faults sink.old sink.new text.old text.new (working.last_text scale.now timings last heard) }
{
    let gap = gap_from(timings, heard, timings.horizon);
    put_terminal_gap(text, sink, scale, timings.top, gap);
    put_last(text, sink, scale, timings, last, None);
}

/// The timers of a sender: at each transmission, and behind all. It goes over the list once.
pub(crate) fn put_starts<K: Sink>(
    text: &mut TextBuffer,
    sink: &mut K,
    scale: &Scale,
    list: &[Transmission],
    timings: LaneTimings,
)
    requires scale { IsScale scale.now }
    requires by_moment { IsByMoment list.now }
    requires top { timings.top < 100000 }
    ensures { Adds K.held K.faults sink.old sink.new text.old text.new
        (definition.sender_timers scale.now list.now timings) }
{
    let mut last = None;
    let mut hearing = deaf(timings.sg);
    for k in 0..list.len() {
        let x = &list[k];
        hearing = hear(timings, hearing, x);
        last = take(text, sink, scale, timings, last, hearing, x);
    }
    put_behind(text, sink, scale, timings, last, hearing.all);
}
