//! The marks of the faults that are found in a recording.
ghost use Rattle.std.specs.Prelude.{◌≡◌, ◌<◌, ◌≤◌, ◌^◌, [], length, slice_get};
ghost use Rattle.std.specs.List.{flat_map};
ghost use Rattle.std.specs.Option.{option_map_or, option_to_list};
ghost use Rattle.bus_outer.specs.Texts.{Adds};
ghost use Rattle.bus_pen.specs.declared.class.Class.TheVariants as classes;
ghost use Rattle.bus_pen.specs.Scales.{IsScale};
ghost use Rattle.bus_pen.specs.Shapes.{titled_text};
ghost use Rattle.bus_picture.specs.Faults as definition;
ghost use Rattle.bus_picture.specs.Lanes.{each_lane};
ghost use Rattle.bus_picture.specs.inside.Marking.{marked_at};

use crate::fault::Fault;
use crate::lanes::lane_top;
use crate::marks::{lower_dash, put_breach, put_dashes, put_head, upper_dash, words_middle};
use crate::measures::{
    BREACH_LINE, BREACH_WIDTH, FAULT_BESIDE, FAULT_LINE, FAULT_MOST, LINE_WIDTH, PLOT_TOP,
};
use crate::places::has_moment;
use crate::timers::is_near;
use bus_dump::Lane;
use bus_findings::{Judgement, is_faulty, put_fault_title, put_fault_words};
use bus_outer::{Sink, TextBuffer};
use bus_pen::{Area, Class, Scale, begin_titled, begin_words, end_titled, end_words};
use bus_shapes::Told;
use bus_strings::Transmission;

/// A dash with these words, which are shown under the pointer.
fn put_titled<K: Sink>(text: &mut TextBuffer, sink: &mut K, area: Area, fault: &Fault)
    ensures { Adds K.held K.faults sink.old sink.new text.old text.new
        (titled_text classes.Fault area (definition.title fault.now)) }
{
    begin_titled(text, sink, Class::Fault, area);
    put_fault_title(text, sink, fault.moment, fault.terminal, &fault.found);
    end_titled(text, sink);
}

/// The wide dashes of a row with this upper edge, with these words.
fn put_titled_dashes<K: Sink>(
    text: &mut TextBuffer,
    sink: &mut K,
    left: u64,
    top: u64,
    fault: &Fault,
)
    requires { top < 100000 }
    ensures { Adds K.held K.faults sink.old sink.new text.old text.new
        (definition.titled_dashes left top (definition.title fault.now)) }
{
    let upper = upper_dash(left, BREACH_WIDTH, top);
    put_titled(text, sink, upper, fault);
    let lower = lower_dash(left, BREACH_WIDTH, top);
    put_titled(text, sink, lower, fault);
}

/// Where the words in a lane begin: beside the dash, and so far from the right edge that most have room.
fn words_left(left: u64) -> u64
    requires { left < 2 ^ 22 }
    ensures { result ≡ definition.words_left left }
{
    (left + FAULT_BESIDE).min(FAULT_MOST)
}

/// What is found, in words in a lane with this upper edge, where the scale is near.
fn put_near_words<K: Sink>(
    text: &mut TextBuffer,
    sink: &mut K,
    near: bool,
    left: u64,
    top: u64,
    found: &Judgement,
)
    requires left { left < 2 ^ 22 }
    requires top { top < 100000 }
    ensures { Adds K.held K.faults sink.old sink.new text.old text.new
        (definition.near_words near left top found.now) }
{
    if near {
        let begin = words_left(left);
        begin_words(text, sink, Class::Note, begin, top + FAULT_LINE);
        put_fault_words(text, sink, found);
        end_words(text, sink);
    }
}

/// What lane `k` has of a fault.
fn put_fault_lane<K: Sink>(
    text: &mut TextBuffer,
    sink: &mut K,
    near: bool,
    left: u64,
    fault: &Fault,
    k: usize,
    lane: Lane,
)
    requires left { left < 2 ^ 22 }
    requires few { k ≤ 256 }
    ensures { Adds K.held K.faults sink.old sink.new text.old text.new
        (definition.fault_lane near left fault.now k lane) }
{
    if lane.terminal == fault.terminal {
        let top = lane_top(k);
        put_titled_dashes(text, sink, left, top, fault);
        put_near_words(text, sink, near, left, top, &fault.found);
    }
}

/// What all lanes have of it.
fn put_fault_lanes<K: Sink>(
    text: &mut TextBuffer,
    sink: &mut K,
    near: bool,
    left: u64,
    fault: &Fault,
    lanes: &[Lane],
)
    requires left { left < 2 ^ 22 }
    requires few { length lanes.now ≤ 256 }
    ensures { Adds K.held K.faults sink.old sink.new text.old text.new
        (each_lane (definition.fault_lane near left fault.now) 0 lanes.now) }
{
    for k in 0..lanes.len() {
        put_fault_lane(text, sink, near, left, fault, k, lanes[k]);
    }
}

/// The mark of a fault.
fn put_fault<K: Sink>(
    text: &mut TextBuffer,
    sink: &mut K,
    scale: &Scale,
    near: bool,
    lanes: &[Lane],
    fault: &Fault,
)
    requires scale { IsScale scale.now }
    requires few { length lanes.now ≤ 256 }
    ensures { Adds K.held K.faults sink.old sink.new text.old text.new
        (definition.fault_text scale.now near lanes.now fault.now) }
{
    let left = scale.place(fault.moment);
    put_head(text, sink, left);
    put_dashes(text, sink, left, LINE_WIDTH, PLOT_TOP);
    put_fault_lanes(text, sink, near, left, fault, lanes);
}

/// The fault that is marked of transmission `i` of a list, where there is one.
fn marked_at(
    scale: &Scale,
    list: &[Transmission],
    judgements: &[Judgement],
    i: usize,
) -> Option<Fault>
    requires { i < length list.now }
    ensures { result ≡ marked_at scale.now list.now judgements.now i }
{
    let x = &list[i];
    let found = judgements.get(i)?;
    if is_faulty(found) && has_moment(scale, x.moment) {
        Some(Fault {
            moment: x.moment,
            terminal: x.terminal,
            found: *found,
        })
    } else {
        None
    }
}

/// The mark of that.
fn put_marked_at<K: Sink>(
    text: &mut TextBuffer,
    sink: &mut K,
    scale: &Scale,
    near: bool,
    lanes: &[Lane],
    list: &[Transmission],
    judgements: &[Judgement],
    i: usize,
)
    requires scale { IsScale scale.now }
    requires few { length lanes.now ≤ 256 }
    requires there { i < length list.now }
    ensures { Adds K.held K.faults sink.old sink.new text.old text.new
        (flat_map (definition.fault_text scale.now near lanes.now) (option_to_list (marked_at scale.now list.now judgements.now i))) }
{
    if let Some(fault) = marked_at(scale, list, judgements, i) {
        put_fault(text, sink, scale, near, lanes, &fault);
    }
}

/// The marks of all faults.
fn put_each<K: Sink>(
    text: &mut TextBuffer,
    sink: &mut K,
    scale: &Scale,
    near: bool,
    lanes: &[Lane],
    list: &[Transmission],
    judgements: &[Judgement],
)
    requires scale { IsScale scale.now }
    requires few { length lanes.now ≤ 256 }
    ensures { Adds K.held K.faults sink.old sink.new text.old text.new
        (flat_map (definition.fault_text scale.now near lanes.now) (definition.faults scale.now list.now judgements.now)) }
{
    for i in 0..list.len() {
        put_marked_at(text, sink, scale, near, lanes, list, judgements, i);
    }
}

/// The first fault that is marked.
fn first_marked(scale: &Scale, list: &[Transmission], judgements: &[Judgement]) -> Option<Fault>
    ensures { result ≡ slice_get (definition.faults scale.now list.now judgements.now) 0 }
{
    for i in 0..list.len() {
        if let Some(fault) = marked_at(scale, list, judgements, i) {
            return Some(fault);
        }
    }
    None
}

/// The words of a fault above the plot.
fn put_above<K: Sink>(text: &mut TextBuffer, sink: &mut K, scale: &Scale, fault: &Fault)
    requires { IsScale scale.now }
    ensures { Adds K.held K.faults sink.old sink.new text.old text.new
        (definition.title_text scale.now fault.now) }
{
    let left = scale.place(fault.moment);
    let middle = words_middle(left);
    begin_words(text, sink, Class::BreachWords, middle, BREACH_LINE);
    put_fault_title(text, sink, fault.moment, fault.terminal, &fault.found);
    end_words(text, sink);
}

/// Those of the first.
fn put_first<K: Sink>(
    text: &mut TextBuffer,
    sink: &mut K,
    scale: &Scale,
    list: &[Transmission],
    judgements: &[Judgement],
)
    requires { IsScale scale.now }
    ensures { Adds K.held K.faults sink.old sink.new text.old text.new
        (option_map_or (definition.title_text scale.now) (slice_get (definition.faults scale.now list.now judgements.now) 0) []) }
{
    if let Some(fault) = first_marked(scale, list, judgements) {
        put_above(text, sink, scale, &fault);
    }
}

/// The marks of the faults that are found, with the words of the first.
fn put_faults<K: Sink>(
    text: &mut TextBuffer,
    sink: &mut K,
    scale: &Scale,
    near: bool,
    lanes: &[Lane],
    list: &[Transmission],
    judgements: &[Judgement],
)
    requires scale { IsScale scale.now }
    requires few { length lanes.now ≤ 256 }
    ensures { Adds K.held K.faults sink.old sink.new text.old text.new
        (definition.faults_text scale.now near lanes.now (definition.faults scale.now list.now judgements.now)) }
{
    put_each(text, sink, scale, near, lanes, list, judgements);
    put_first(text, sink, scale, list, judgements);
}

/// The marks of what is told of a trace, of a table with this transmit interval: of the first breach, or of the faults of the list; none of
/// one that was recorded on a cable.
pub(crate) fn put_told<K: Sink>(
    text: &mut TextBuffer,
    sink: &mut K,
    scale: &Scale,
    ti: u32,
    lanes: &[Lane],
    told: &Told,
    list: &[Transmission],
)
    requires scale { IsScale scale.now }
    requires few { length lanes.now ≤ 256 }
    ensures { Adds K.held K.faults sink.old sink.new text.old text.new
        (definition.told_text scale.now ti lanes.now told.now list.now) }
{
    match told {
        Told::Audit(answer) => put_breach(text, sink, scale, lanes, answer),
        Told::OnCable { .. } => {}
        Told::Findings { judgements, .. } => {
            let near = is_near(scale, ti);
            put_faults(text, sink, scale, near, lanes, list, judgements);
        }
    }
}
