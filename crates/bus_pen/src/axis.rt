//! Axes: marks at round numbers of microseconds, numbered in units of time or in bit times.
ghost use Rattle.std.specs.Prelude.{◌≡◌, ◌<◌, ◌≤◌, ◌+◌, ◌*◌, ◌^◌, ◌/◌, ◌-◌};
ghost use Rattle.std.specs.List.{find};
ghost use Rattle.bus_outer.specs.Texts.{Adds};
ghost use Rattle.bus_pen.specs.Axes as definition;
ghost use Rattle.bus_pen.specs.Scales.{IsScale};

use crate::area::Area;
use crate::class::Class;
use crate::measures::{LEFT_MARGIN, MARK_ROOM, MARK_WIDTH};
use crate::number::put_parted;
use crate::scale::Scale;
use crate::shapes::{begin_words, end_words, put_box};
use bus_outer::{Sink, TextBuffer};

/// What an axis counts.
#[derive(Clone, Copy, Debug, PartialEq, Eq)]
pub enum Unit {
    /// Microseconds, of two bit times each; milliseconds or seconds, where the marks are so far apart.
    Microseconds,
    /// Bit times.
    BitTimes,
}

/// An axis of a picture.
#[derive(Clone, Copy, Debug, PartialEq, Eq)]
pub struct Axis {
    /// What it counts.
    pub unit: Unit,
    /// The line on which its name and the numbers of its marks stand.
    pub words: u64,
    /// What its marks are: ticks, or lines of a grid.
    pub class: Class,
    /// The upper edge of its marks.
    pub top: u64,
    /// The height of its marks.
    pub height: u64,
}

/// The round numbers.
const ROUNDS: [u64; 39] = [
    1,
    2,
    5,
    10,
    20,
    50,
    100,
    200,
    500,
    1_000,
    2_000,
    5_000,
    10_000,
    20_000,
    50_000,
    100_000,
    200_000,
    500_000,
    1_000_000,
    2_000_000,
    5_000_000,
    10_000_000,
    20_000_000,
    50_000_000,
    100_000_000,
    200_000_000,
    500_000_000,
    1_000_000_000,
    2_000_000_000,
    5_000_000_000,
    10_000_000_000,
    20_000_000_000,
    50_000_000_000,
    100_000_000_000,
    200_000_000_000,
    500_000_000_000,
    1_000_000_000_000,
    2_000_000_000_000,
    5_000_000_000_000,
];

/// The microseconds from mark to mark, where no round number is enough.
const MOST_APART: u64 = 10_000_000_000_000;

/// The microseconds of a millisecond.
const MILLISECOND: u64 = 1000;

/// The microseconds of a second.
const SECOND: u64 = 1_000_000;

/// The bit times of a millisecond.
const MILLISECOND_BITS: u64 = 2000;

/// The bit times of a second.
const SECOND_BITS: u64 = 2_000_000;

/// By how many microseconds an axis of time counts whose marks are so many microseconds apart.
fn time_unit(apart: u64) -> u64
    ensures value { result ≡ definition.time_unit apart }
    ensures some { 0 < result }
    ensures few { result ≤ definition.second }
{
    if apart >= SECOND {
        SECOND
    } else if apart >= MILLISECOND {
        MILLISECOND
    } else {
        1
    }
}

impl Unit {
    /// How many bit times it has, where the marks are so many bit times apart.
    pub fn bits(self, step: u64) -> u64
        ensures value { result ≡ definition.unit_bits self step }
        ensures some { 0 < result }
        ensures few { result ≤ definition.second_bits }
    {
        match self {
            Unit::Microseconds => 2 * time_unit(step / 2),
            Unit::BitTimes => 1,
        }
    }
}

/// Whether marks so many microseconds apart are 120 pixels apart.
fn is_wide(scale: &Scale, number: u64) -> bool
    requires { IsScale scale.now }
    ensures { result ≡ definition.is_wide scale.now number }
{
    let wide = u128::from(number) * 2 * u128::from(scale.width);
    u128::from(MARK_ROOM * (scale.to - scale.from)) <= wide
}

/// The least round number of microseconds that is so wide.
fn wide_apart(scale: &Scale) -> Option<u64>
    requires { IsScale scale.now }
    ensures { result ≡ find (definition.is_wide scale.now) definition.rounds }
{
    ROUNDS
        .iter()
        .copied()
        .find(|number| is_wide(scale, *number))
}

/// The bit times from mark to mark.
fn step(scale: &Scale) -> u64
    requires { IsScale scale.now }
    ensures value { result ≡ definition.step scale.now }
    ensures some { 0 < result }
    ensures low { result ≤ 2 ^ 45 }
{
    wide_apart(scale).unwrap_or(MOST_APART) * 2
}

/// A mark at a place: its line, and its number.
fn put_mark_at<K: Sink>(text: &mut TextBuffer, sink: &mut K, axis: &Axis, left: u64, number: u64)
    ensures { Adds K.held K.faults sink.old sink.new text.old text.new (definition.mark_at axis.now left number) }
{
    let area = Area {
        left,
        top: axis.top,
        width: MARK_WIDTH,
        height: axis.height,
    };
    put_box(text, sink, axis.class, area);
    begin_words(text, sink, Class::Number, left, axis.words);
    put_parted(text, sink, number);
    end_words(text, sink);
}

/// The mark of a moment, where the marks are a step apart.
fn put_mark<K: Sink>(
    text: &mut TextBuffer,
    sink: &mut K,
    scale: &Scale,
    axis: &Axis,
    step: u64,
    t: u64,
)
    requires { IsScale scale.now }
    ensures { Adds K.held K.faults sink.old sink.new text.old text.new (definition.mark_text scale.now axis.now step t) }
{
    let left = scale.place(t);
    let bits = axis.unit.bits(step);
    put_mark_at(text, sink, axis, left, t / bits);
}

/// The marks of an axis, a step apart.
fn put_marks<K: Sink>(text: &mut TextBuffer, sink: &mut K, scale: &Scale, axis: &Axis, step: u64)
    requires scale { IsScale scale.now }
    requires some { 0 < step }
    requires low { step ≤ 2 ^ 45 }
    ensures { Adds K.held K.faults sink.old sink.new text.old text.new (definition.marks_text scale.now axis.now step) }
{
    let first = (scale.from + step - 1) / step;
    let count = scale.to / step + 1 - first;
    for k in 0..count {
        put_mark(text, sink, scale, axis, step, (first + k) * step);
    }
}

/// What a unit is called, where the marks are a step apart.
fn put_unit<K: Sink>(text: &mut TextBuffer, sink: &mut K, unit: Unit, step: u64)
    ensures { Adds K.held K.faults sink.old sink.new text.old text.new (definition.unit_name unit step) }
{
    match unit {
        Unit::Microseconds if step >= SECOND_BITS => text.put(sink, b"seconds"),
        Unit::Microseconds if step >= MILLISECOND_BITS => text.put(sink, b"milliseconds"),
        Unit::Microseconds => text.put(sink, b"microseconds"),
        Unit::BitTimes => text.put(sink, b"bit times"),
    }
}

/// The name of an axis whose marks are a step apart.
fn put_name<K: Sink>(text: &mut TextBuffer, sink: &mut K, axis: &Axis, step: u64)
    ensures { Adds K.held K.faults sink.old sink.new text.old text.new (definition.name_text axis.now step) }
{
    begin_words(text, sink, Class::Small, LEFT_MARGIN, axis.words);
    put_unit(text, sink, axis.unit, step);
    end_words(text, sink);
}

/// Puts an axis: its name at the left, and its marks, at least 120 pixels apart, where `scale` has their moments. Those of both units are
/// at the same moments.
pub fn put_axis<K: Sink>(text: &mut TextBuffer, sink: &mut K, scale: &Scale, axis: &Axis)
    requires { IsScale scale.now }
    ensures { Adds K.held K.faults sink.old sink.new text.old text.new (definition.axis_text scale.now axis.now) }
{
    let step = step(scale);
    put_name(text, sink, axis, step);
    put_marks(text, sink, scale, axis, step);
}
