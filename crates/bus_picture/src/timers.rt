//! The timers of a table.
ghost use Rattle.std.specs.Prelude.{◌≡◌, ◌<◌, ◌≤◌, ◌+◌, ◌^◌, ◌++◌, true, codes, decimal, length};
ghost use Rattle.bus_outer.specs.Texts.{Adds};
ghost use Rattle.bus_strings.specs.Transmissions.{IsByMoment};
ghost use Rattle.bus_pen.specs.Scales.{IsScale};
ghost use Rattle.bus_picture.specs.declared.measures.TheConstants.{GAP_LINE as gap_line, GAP_ROOM as gap_room};
ghost use Rattle.bus_picture.specs.Timers as definition;
ghost use Rattle.bus_picture.specs.TimeLines as whole;

use crate::lane_timings::LaneTimings;
use crate::lanes::lane_top;
use crate::lines::{has_words, is_drawn, line_area};
use crate::measures::{GAP_BELOW, GAP_LINE, GAP_ROOM, NEAR_ROOM, PLOT_TOP};
use crate::offsets::put_offsets;
use crate::starts::put_starts;
use bus_dump::Lane;
use bus_medium::quiet;
use bus_outer::{Sink, TextBuffer};
use bus_pen::{Area, Class, Scale, begin_words, end_words, put_box};
use bus_shapes::{Sent, Sents, held};
use bus_strings::Transmission;
use bus_strings::laws::neighbours_tell;
use bus_table::{Sender, Table, sender_of};
use bus_trace::Trace;

/// Whether timers are drawn.
pub(crate) fn is_near(scale: &Scale, ti: u32) -> bool
    requires { IsScale scale.now }
    ensures { result ≡ definition.is_near scale.now ti }
{
    NEAR_ROOM * (scale.to - scale.from) <= u64::from(ti) * scale.width
}

/// Whether a transmission comes a synchronization gap or more behind all before it, and the scale has that gap.
pub(crate) fn is_behind_gap(scale: &Scale, sg: u32, sent: &Sent) -> bool
    requires { IsScale scale.now }
    ensures value { result ≡ definition.is_behind_gap scale.now sg sent.now }
    ensures low { (result ≡ true) → sent.now.before ≤ scale.now.to }
{
    0 < sent.before
        && scale.from <= sent.before
        && sent.before < scale.to
        && sent.before + u64::from(sg) <= scale.to
        && sent.before + u64::from(sg) <= sent.moment
}

/// Its words above its line, where they have room.
fn put_sync_words<K: Sink>(text: &mut TextBuffer, sink: &mut K, area: Area, top: u64, sg: u32)
    requires left { area.left < 2 ^ 22 }
    requires width { area.width < 2 ^ 22 }
    requires top { top < 100000 }
    ensures { Adds K.held K.faults sink.old sink.new text.old text.new
        (definition.words_above gap_room area (top + gap_line) (codes "SG " ++ decimal sg)) }
{
    if has_words(GAP_ROOM, area) {
        let end = area.left + area.width;
        begin_words(text, sink, Class::GapWords, end, top + GAP_LINE);
        text.put(sink, b"SG ");
        text.put_number(sink, sg);
        end_words(text, sink);
    }
}

/// A synchronization gap from one moment to another, where it takes a pixel.
fn put_sync_from<K: Sink>(
    text: &mut TextBuffer,
    sink: &mut K,
    scale: &Scale,
    top: u64,
    sg: u32,
    from: u64,
    to: u64,
)
    requires scale { IsScale scale.now }
    requires top { top < 100000 }
    ensures { Adds K.held K.faults sink.old sink.new text.old text.new (definition.sync_gap scale.now top sg from to) }
{
    if is_drawn(scale, from, to) {
        let area = line_area(scale, top + GAP_BELOW, from, to);
        put_box(text, sink, Class::Gap, area);
        put_sync_words(text, sink, area, top, sg);
    }
}

/// The synchronization gap before a transmission, where there is one.
fn put_sync_before<K: Sink>(
    text: &mut TextBuffer,
    sink: &mut K,
    scale: &Scale,
    top: u64,
    sg: u32,
    sent: &Sent,
)
    requires scale { IsScale scale.now }
    requires top { top < 100000 }
    ensures { Adds K.held K.faults sink.old sink.new text.old text.new
        (definition.sync_before scale.now top sg sent.now) }
{
    if is_behind_gap(scale, sg, sent) {
        put_sync_from(
            text,
            sink,
            scale,
            top,
            sg,
            sent.before,
            sent.before + u64::from(sg),
        );
    }
}

/// All of them.
fn put_bus_timer<K: Sink>(
    text: &mut TextBuffer,
    sink: &mut K,
    scale: &Scale,
    top: u64,
    sg: u32,
    list: &[Transmission],
)
    requires scale { IsScale scale.now }
    requires top { top < 100000 }
    requires by_moment { IsByMoment list.now }
    ensures { Adds K.held K.faults sink.old sink.new text.old text.new
        (definition.bus_timer scale.now top sg list.now) }
{
    for sent in Sents::new(list) {
        put_sync_before(text, sink, scale, top, sg, &sent);
    }
}

/// What is the same all along lane `k` of a trace with this horizon, of a sender with this terminal and this terminal gap.
pub(crate) fn timings_of(
    table: &Table,
    horizon: u64,
    k: usize,
    terminal: u8,
    tg: u32,
) -> LaneTimings
    requires { k ≤ 256 }
    ensures value { result ≡ definition.timings_of table.now horizon k terminal tg }
    ensures low { result.top < 100000 }
{
    LaneTimings {
        k,
        top: lane_top(k),
        terminal,
        tg,
        sg: table.sg(),
        ti: table.ti(),
        quiet: quiet(table),
        horizon,
    }
}

/// The timers of a sender in lane `k`, and where it should start.
fn put_lane_sender<K: Sink>(
    text: &mut TextBuffer,
    sink: &mut K,
    scale: &Scale,
    table: &Table,
    trace: &Trace,
    k: usize,
    lane: Lane,
    sender: &Sender,
)
    requires scale { IsScale scale.now }
    requires by_moment { IsByMoment trace.now.list }
    requires few { k ≤ 256 }
    ensures { Adds K.held K.faults sink.old sink.new text.old text.new
        (whole.lane_sender scale.now table.now trace.now k lane sender.now) }
{
    let tg = sender.tg();
    let horizon = trace.horizon();
    let timings = timings_of(table, horizon, k, lane.terminal, tg);
    let list = trace.list();
    put_starts(text, sink, scale, list, timings);
    let mode = table.mode();
    let top = lane_top(k);
    let ti = table.ti();
    let at = sender.at();
    let held = held(trace.holds(), lane.terminal);
    put_offsets(text, sink, mode, scale, top, ti, at, held);
}

/// The timers of lane `k`, where its terminal is a sender.
fn put_lane_timers<K: Sink>(
    text: &mut TextBuffer,
    sink: &mut K,
    scale: &Scale,
    table: &Table,
    trace: &Trace,
    k: usize,
    lane: Lane,
)
    requires scale { IsScale scale.now }
    requires by_moment { IsByMoment trace.now.list }
    requires few { k ≤ 256 }
    ensures { Adds K.held K.faults sink.old sink.new text.old text.new
        (whole.lane_timers scale.now table.now trace.now k lane) }
{
    if let Some(sender) = sender_of(table.senders(), lane.terminal) {
        put_lane_sender(text, sink, scale, table, trace, k, lane, sender);
    }
}

/// The timers of each lane.
fn put_each<K: Sink>(
    text: &mut TextBuffer,
    sink: &mut K,
    scale: &Scale,
    table: &Table,
    trace: &Trace,
    lanes: &[Lane],
)
    requires scale { IsScale scale.now }
    requires by_moment { IsByMoment trace.now.list }
    requires few { length lanes.now ≤ 256 }
    ensures { Adds K.held K.faults sink.old sink.new text.old text.new
        (whole.each_lane (whole.lane_timers scale.now table.now trace.now) 0 lanes.now) }
{
    for k in 0..lanes.len() {
        put_lane_timers(text, sink, scale, table, trace, k, lanes[k]);
    }
}

/// The timers of the bus and of the lanes.
fn put_all<K: Sink>(
    text: &mut TextBuffer,
    sink: &mut K,
    scale: &Scale,
    lanes: &[Lane],
    table: &Table,
    trace: &Trace,
)
    requires scale { IsScale scale.now }
    requires by_moment { IsByMoment trace.now.list }
    requires few { length lanes.now ≤ 256 }
    ensures { Adds K.held K.faults sink.old sink.new text.old text.new
        (whole.timers_text scale.now lanes.now table.now trace.now) }
{
    let ti = table.ti();
    if is_near(scale, ti) {
        let sg = table.sg();
        let list = trace.list();
        put_bus_timer(text, sink, scale, PLOT_TOP, sg, list);
        put_each(text, sink, scale, table, trace, lanes);
    }
}

/// The timers of a table in a trace, where the scale is near enough. It goes over the trace once for the bus, and once for each sender.
pub(crate) fn put_timers<K: Sink>(
    text: &mut TextBuffer,
    sink: &mut K,
    scale: &Scale,
    lanes: &[Lane],
    table: &Table,
    trace: &Trace,
)
    requires scale { IsScale scale.now }
    requires few { length lanes.now ≤ 256 }
    ensures { Adds K.held K.faults sink.old sink.new text.old text.new
        (whole.timers_text scale.now lanes.now table.now trace.now) }
{
    neighbours_tell();
    let _list = trace.list();
    put_all(text, sink, scale, lanes, table, trace);
}
