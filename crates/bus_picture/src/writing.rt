//! The text of a time line.
ghost use Rattle.std.specs.Prelude.{◌≡◌, ◌<◌, ◌≤◌, length};
ghost use Rattle.bus_load.specs.Loads.{IsCarrierOf};
ghost use Rattle.bus_outer.specs.Sinks.{WritesText};
ghost use Rattle.bus_outer.specs.Texts.{Adds};
ghost use Rattle.bus_pen.specs.Scales.{IsScale};
ghost use Rattle.bus_shapes.specs.Sending.{sents as sents_of};
ghost use Rattle.bus_picture.specs.TimeLines.{time_line_text};
ghost use Rattle.bus_picture.specs.TimeLines as definition;

use crate::choosing::drawn_lanes;
use crate::counting::counts;
use crate::faults::put_told;
use crate::kinds::{Kinds, kinds_of};
use crate::lanes::{lane_top, put_fronts};
use crate::legend::put_legend;
use crate::load::put_loads;
use crate::measures::{
    BUS_LINE, FOOT_HEIGHT, LEFT_OUT_LINE, LEGEND_BELOW, LOWER_WORDS, NAMES_RIGHT, PLOT_LEFT,
    PLOT_TOP, PLOT_WIDTH, TICK_HEIGHT, UPPER_TICKS, UPPER_WORDS,
};
use crate::overlap_bands::put_overlap_bands;
use crate::pace::put_paces;
use crate::rows::put_rows;
use crate::subject::Subject;
use crate::timers::put_timers;
use arrayvec::ArrayVec;
use bus_dump::{Lane, MOST_LANES, lanes_of};
use bus_load::Stretch;
use bus_outer::{Sink, TextBuffer, WriteFault};
use bus_pen::{
    Area, Axis, Class, Scale, Unit, begin_titled, begin_words, end_titled, end_words, put_axis,
    put_words,
};
use bus_regime::TableVerdict;
use bus_shapes::{Sent, Told, put_frame, put_tail};
use bus_table::Table;
use bus_trace::{Trace, Window};

/// The scale of a window.
fn scale_of(window: &Window) -> Scale
    ensures value { result ≡ definition.scale_of window.now }
    ensures scale { IsScale result }
{
    Scale {
        from: window.from(),
        to: window.to(),
        left: PLOT_LEFT,
        width: PLOT_WIDTH,
    }
}

/// What lies behind the horizon.
fn put_unobserved<K: Sink>(
    text: &mut TextBuffer,
    sink: &mut K,
    scale: &Scale,
    bottom: u64,
    horizon: u64,
)
    requires scale { IsScale scale.now }
    requires bottom { 1170 ≤ bottom }
    ensures { Adds K.held K.faults sink.old sink.new text.old text.new
        (definition.unobserved_text scale.now bottom horizon) }
{
    if horizon < scale.to {
        let area = Area {
            left: scale.place(horizon),
            top: PLOT_TOP,
            width: scale.extent(horizon, scale.to),
            height: bottom - PLOT_TOP,
        };
        begin_titled(text, sink, Class::Unobserved, area);
        text.put(sink, b"not observed: the horizon is ");
        text.put_number(sink, horizon);
        end_titled(text, sink);
    }
}

/// The axes.
fn put_axes<K: Sink>(text: &mut TextBuffer, sink: &mut K, scale: &Scale, bottom: u64)
    requires scale { IsScale scale.now }
    requires least { 1170 ≤ bottom }
    requires most { bottom < 100000 }
    ensures { Adds K.held K.faults sink.old sink.new text.old text.new (definition.axes_text scale.now bottom) }
{
    let upper = Axis {
        unit: Unit::Microseconds,
        words: UPPER_WORDS,
        class: Class::Tick,
        top: UPPER_TICKS,
        height: TICK_HEIGHT,
    };
    put_axis(text, sink, scale, &upper);
    let lower = Axis {
        unit: Unit::BitTimes,
        words: bottom + LOWER_WORDS,
        class: Class::Grid,
        top: PLOT_TOP,
        height: bottom - PLOT_TOP,
    };
    put_axis(text, sink, scale, &lower);
}

/// The plot, above a lower edge.
fn put_plot<K: Sink>(
    text: &mut TextBuffer,
    sink: &mut K,
    scale: &Scale,
    bottom: u64,
    lanes: &[Lane],
    subject: &Subject<'_>,
)
    requires scale { IsScale scale.now }
    requires few { length lanes.now ≤ 256 }
    requires bottom { bottom ≡ definition.lane_top (length lanes.now) }
    requires carrier { IsCarrierOf subject.now.carrier.now subject.now.trace.now.list }
    requires all { subject.now.sents.now ≡ sents_of subject.now.trace.now.list }
    ensures { Adds K.held K.faults sink.old sink.new text.old text.new
        (definition.plot_text scale.now bottom lanes.now subject.now.told.now subject.now.table.now subject.now.trace.now) }
{
    put_words(
        text,
        sink,
        Class::Counts,
        NAMES_RIGHT,
        PLOT_TOP + BUS_LINE,
        b"bus",
    );
    let list = subject.trace.list();
    put_paces(text, sink, scale, lanes, list);
    put_loads(text, sink, scale, lanes, list, subject.carrier);
    put_fronts(text, sink, subject.table, lanes);
    put_axes(text, sink, scale, bottom);
    let horizon = subject.trace.horizon();
    put_unobserved(text, sink, scale, bottom, horizon);
    put_overlap_bands(text, sink, scale, bottom, subject.trace);
    put_rows(text, sink, scale, lanes, subject);
    put_timers(text, sink, scale, lanes, subject.table, subject.trace);
    let ti = subject.table.ti();
    put_told(text, sink, scale, ti, lanes, subject.told, list);
}

/// How many lanes are left out.
fn put_left_out<K: Sink>(text: &mut TextBuffer, sink: &mut K, bottom: u64, count: usize)
    requires { bottom < 100000 }
    ensures { Adds K.held K.faults sink.old sink.new text.old text.new (definition.left_out_text bottom count) }
{
    if count != 0 {
        begin_words(text, sink, Class::Small, PLOT_LEFT, bottom + LEFT_OUT_LINE);
        text.put_number(sink, count);
        text.put(sink, b" more terminals send nothing in this window");
        end_words(text, sink);
    }
}

/// What stands below the plot of a picture with these kinds of marks.
fn put_foot<K: Sink>(
    text: &mut TextBuffer,
    sink: &mut K,
    bottom: u64,
    left_out: usize,
    kinds: Kinds,
)
    requires { bottom < 100000 }
    ensures { Adds K.held K.faults sink.old sink.new text.old text.new
        (definition.foot_text bottom left_out kinds) }
{
    put_left_out(text, sink, bottom, left_out);
    put_legend(text, sink, kinds, bottom + LEGEND_BELOW);
}

/// A picture with these lanes, and with so many left out.
fn put_picture<K: Sink>(
    text: &mut TextBuffer,
    sink: &mut K,
    scale: &Scale,
    lanes: &[Lane],
    left_out: usize,
    subject: &Subject<'_>,
)
    requires scale { IsScale scale.now }
    requires few { length lanes.now ≤ 256 }
    requires carrier { IsCarrierOf subject.now.carrier.now subject.now.trace.now.list }
    requires all { subject.now.sents.now ≡ sents_of subject.now.trace.now.list }
    ensures { Adds K.held K.faults sink.old sink.new text.old text.new
        (definition.picture_text scale.now lanes.now left_out subject.now.verdict.now subject.now.told.now subject.now.table.now
        subject.now.trace.now) }
{
    let bottom = lane_top(lanes.len());
    let counts = counts(scale, subject.trace);
    let list = subject.trace.list();
    put_frame(
        text,
        sink,
        bottom + FOOT_HEIGHT,
        subject.verdict,
        subject.told,
        subject.table,
        list,
        &counts,
    );
    put_plot(text, sink, scale, bottom, lanes, subject);
    let kinds = kinds_of(scale, lanes, subject.table, subject.trace, &counts);
    put_foot(text, sink, bottom, left_out, kinds);
    put_tail(text, sink);
}

/// A picture with those of these lanes that are drawn.
fn put_drawn<K: Sink>(
    text: &mut TextBuffer,
    sink: &mut K,
    scale: &Scale,
    all: ArrayVec<Lane, MOST_LANES>,
    subject: &Subject<'_>,
)
    requires scale { IsScale scale.now }
    requires carrier { IsCarrierOf subject.now.carrier.now subject.now.trace.now.list }
    requires all { subject.now.sents.now ≡ sents_of subject.now.trace.now.list }
    ensures { Adds K.held K.faults sink.old sink.new text.old text.new
        (definition.drawn_text scale.now all.items subject.now.verdict.now subject.now.told.now subject.now.table.now
        subject.now.trace.now) }
{
    let count = all.len();
    let list = subject.trace.list();
    let lanes = drawn_lanes(scale, subject.told, list, all);
    let left_out = count.saturating_sub(lanes.len());
    put_picture(text, sink, scale, lanes.as_slice(), left_out, subject);
}

/// Writes the time line of a trace in a window, with the words of the verdict on the table and what is told of the trace, with the load by
/// `carrier`, that of the trace, and with `sents`, what is told of each of its transmissions. It goes over these twice for each lane,
/// over the trace up to six times for each lane, and over the lanes once for each fault, and takes no memory but half a megabyte of the
/// stack. Findings are those of the trace, one for each transmission: what is beyond either is not marked.
///
/// At `WriteFault` the sink has taken a front of the text, and its count of faults rose.
pub fn write_time_line<K: Sink>(
    window: &Window,
    verdict: &TableVerdict,
    told: &Told,
    table: &Table,
    trace: &Trace,
    carrier: &[Stretch],
    sents: &[Sent],
    sink: &mut K,
) -> Result<(), WriteFault>
    requires carrier { IsCarrierOf carrier.now trace.now.list }
    requires all { sents.now ≡ sents_of trace.now.list }
    ensures { WritesText K.held K.faults sink.old sink.new result
        (time_line_text window.now verdict.now told.now table.now trace.now) }
{
    let scale = scale_of(window);
    let lanes = lanes_of(table, trace.list());
    let mut text = TextBuffer::new();
    let subject = Subject {
        verdict,
        told,
        table,
        trace,
        carrier,
        sents,
    };
    put_drawn(&mut text, sink, &scale, lanes, &subject);
    text.finish(sink)
}
