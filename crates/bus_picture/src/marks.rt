//! The mark of the first breach.
ghost use Rattle.std.specs.Prelude.{◌≡◌, ◌<◌, ◌≤◌, length};
ghost use Rattle.bus_outer.specs.Texts.{Adds};
ghost use Rattle.bus_pen.specs.declared.class.Class.TheVariants.{Breach};
ghost use Rattle.bus_pen.specs.Scales.{IsScale, place};
ghost use Rattle.bus_pen.specs.Shapes.{box_text};
ghost use Rattle.bus_picture.specs.Lanes.{each_lane};
ghost use Rattle.bus_picture.specs.Marks as definition;

use crate::lanes::lane_top;
use crate::measures::{
    BOX_BELOW, BOX_HEIGHT, BREACH_LINE, BREACH_WIDTH, HEAD_HEIGHT, HEAD_TOP, LINE_WIDTH, PLOT_TOP,
    ROW_HEIGHT, WORDS_LEAST, WORDS_MOST,
};
use crate::places::has_moment;
use bus_audit::{AuditAnswer, put_answer};
use bus_dump::Lane;
use bus_outer::{Sink, TextBuffer};
use bus_pen::{Area, Class, Scale, begin_words, end_words, put_box};

/// The dash above the boxes of a row with this upper edge.
pub(crate) fn upper_dash(left: u64, width: u64, top: u64) -> Area
    ensures { result ≡ definition.upper_dash left width top }
{
    Area {
        left,
        top,
        width,
        height: BOX_BELOW,
    }
}

/// The dash below them.
pub(crate) fn lower_dash(left: u64, width: u64, top: u64) -> Area
    requires { top < 100000 }
    ensures { result ≡ definition.lower_dash left width top }
{
    Area {
        left,
        top: top + (BOX_BELOW + BOX_HEIGHT),
        width,
        height: ROW_HEIGHT - (BOX_BELOW + BOX_HEIGHT),
    }
}

/// Both of them.
pub(crate) fn put_dashes<K: Sink>(
    text: &mut TextBuffer,
    sink: &mut K,
    left: u64,
    width: u64,
    top: u64,
)
    requires { top < 100000 }
    ensures { Adds K.held K.faults sink.old sink.new text.old text.new (definition.dashes_text left width top) }
{
    let upper = upper_dash(left, width, top);
    put_box(text, sink, Class::Breach, upper);
    let lower = lower_dash(left, width, top);
    put_box(text, sink, Class::Breach, lower);
}

/// The dash above the plot.
pub(crate) fn put_head<K: Sink>(text: &mut TextBuffer, sink: &mut K, left: u64)
    ensures { Adds K.held K.faults sink.old sink.new text.old text.new
        (box_text Breach (definition.head_dash left)) }
{
    let area = Area {
        left,
        top: HEAD_TOP,
        width: LINE_WIDTH,
        height: HEAD_HEIGHT,
    };
    put_box(text, sink, Class::Breach, area);
}

/// The dashes of lane `k`: wider where it is that of the terminal.
fn put_lane_dashes<K: Sink>(
    text: &mut TextBuffer,
    sink: &mut K,
    left: u64,
    terminal: u8,
    k: usize,
    lane: Lane,
)
    requires { k ≤ 256 }
    ensures { Adds K.held K.faults sink.old sink.new text.old text.new
        (definition.lane_dashes left terminal k lane) }
{
    let width = if lane.terminal == terminal {
        BREACH_WIDTH
    } else {
        LINE_WIDTH
    };
    put_dashes(text, sink, left, width, lane_top(k));
}

/// Those of all lanes.
fn put_all_dashes<K: Sink>(
    text: &mut TextBuffer,
    sink: &mut K,
    left: u64,
    terminal: u8,
    lanes: &[Lane],
)
    requires { length lanes.now ≤ 256 }
    ensures { Adds K.held K.faults sink.old sink.new text.old text.new
        (each_lane (definition.lane_dashes left terminal) 0 lanes.now) }
{
    for k in 0..lanes.len() {
        put_lane_dashes(text, sink, left, terminal, k, lanes[k]);
    }
}

/// The middle of the words: at the line, and so far from the right edge that they have room. Left of the plot they have.
pub(crate) fn words_middle(left: u64) -> u64
    ensures { result ≡ definition.words_middle left }
{
    left.min(WORDS_MOST)
}

/// The line at a place, and the words above it.
fn put_mark_at<K: Sink>(
    text: &mut TextBuffer,
    sink: &mut K,
    left: u64,
    terminal: u8,
    lanes: &[Lane],
    answer: &AuditAnswer,
)
    requires { length lanes.now ≤ 256 }
    ensures { Adds K.held K.faults sink.old sink.new text.old text.new
        (definition.mark_text left terminal lanes.now answer.now) }
{
    put_head(text, sink, left);
    put_dashes(text, sink, left, LINE_WIDTH, PLOT_TOP);
    put_all_dashes(text, sink, left, terminal, lanes);
    let middle = words_middle(left);
    begin_words(text, sink, Class::BreachWords, middle, BREACH_LINE);
    put_answer(text, sink, answer);
    end_words(text, sink);
}

/// The same at the place of a moment.
fn put_mark<K: Sink>(
    text: &mut TextBuffer,
    sink: &mut K,
    scale: &Scale,
    moment: u64,
    terminal: u8,
    lanes: &[Lane],
    answer: &AuditAnswer,
)
    requires scale { IsScale scale.now }
    requires few { length lanes.now ≤ 256 }
    ensures { Adds K.held K.faults sink.old sink.new text.old text.new
        (definition.mark_text (place scale.now moment) terminal lanes.now answer.now) }
{
    let left = scale.place(moment);
    put_mark_at(text, sink, left, terminal, lanes, answer);
}

/// An arrow at the edge that is nearest to the breach, with its words.
fn put_arrow<K: Sink>(text: &mut TextBuffer, sink: &mut K, earlier: bool, answer: &AuditAnswer)
    ensures { Adds K.held K.faults sink.old sink.new text.old text.new (definition.arrow_text earlier answer.now) }
{
    if earlier {
        begin_words(text, sink, Class::BreachWords, WORDS_LEAST, BREACH_LINE);
        text.put(sink, &[226, 134, 144, 32]);
        put_answer(text, sink, answer);
    } else {
        begin_words(text, sink, Class::BreachWords, WORDS_MOST, BREACH_LINE);
        put_answer(text, sink, answer);
        text.put(sink, &[32, 226, 134, 146]);
    }
    end_words(text, sink);
}

/// A breach of this terminal at a moment.
fn put_breach_at<K: Sink>(
    text: &mut TextBuffer,
    sink: &mut K,
    scale: &Scale,
    lanes: &[Lane],
    moment: u64,
    terminal: u8,
    answer: &AuditAnswer,
)
    requires scale { IsScale scale.now }
    requires few { length lanes.now ≤ 256 }
    ensures { Adds K.held K.faults sink.old sink.new text.old text.new
        (definition.breach_at scale.now lanes.now moment terminal answer.now) }
{
    let within = has_moment(scale, moment);
    if within {
        put_mark(text, sink, scale, moment, terminal, lanes, answer);
    } else {
        put_arrow(text, sink, moment < scale.from, answer);
    }
}

/// The first breach.
pub(crate) fn put_breach<K: Sink>(
    text: &mut TextBuffer,
    sink: &mut K,
    scale: &Scale,
    lanes: &[Lane],
    answer: &AuditAnswer,
)
    requires scale { IsScale scale.now }
    requires few { length lanes.now ≤ 256 }
    ensures { Adds K.held K.faults sink.old sink.new text.old text.new
        (definition.breach_text scale.now lanes.now answer.now) }
{
    if let AuditAnswer::Breach {
        moment,
        terminal,
        ..
    } = *answer
    {
        put_breach_at(text, sink, scale, lanes, moment, terminal, answer);
    }
}
