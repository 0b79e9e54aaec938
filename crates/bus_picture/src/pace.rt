//! How far the starts of a terminal lie apart.
ghost use Rattle.std.specs.Prelude.{◌≡◌, ◌≤◌, length};
ghost use Rattle.bus_outer.specs.Texts.{Adds};
ghost use Rattle.bus_picture.specs.Lanes.{each_lane};
ghost use Rattle.bus_picture.specs.Paces as definition;
ghost use Rattle.bus_picture.specs.inside.Pacing as working;

use crate::lanes::lane_top;
use crate::measures::{BUS_LINE, PACE_LEFT, PLOT_TOP, TERMINAL_LINE};
use crate::places::has_moment;
use bus_dump::Lane;
use bus_outer::{Sink, TextBuffer};
use bus_pen::{Class, Scale, begin_words, end_words, put_words};
use bus_strings::Transmission;

/// The least and the greatest time between two starts, in bit times.
#[derive(Clone, Copy, Debug, PartialEq, Eq)]
pub struct Pace {
    /// The least.
    pub least: u64,
    /// The greatest.
    pub greatest: u64,
}

/// What a walk over a list keeps.
#[derive(Clone, Copy, Debug, PartialEq, Eq)]
pub struct Pacing {
    /// The moment of the last start.
    pub last: Option<u64>,
    /// How far the starts so far lie apart, where there are two or more.
    pub pace: Option<Pace>,
}

/// Whether a transmission is of this terminal and begins in the scale.
fn starts(scale: &Scale, terminal: u8, x: &Transmission) -> bool
    ensures { result ≡ definition.starts scale.now terminal x.now }
{
    x.terminal == terminal && has_moment(scale, x.moment)
}

/// The pace with one time more.
fn widened(pace: Option<Pace>, time: u64) -> Pace
    ensures { result ≡ working.widened pace time }
{
    let pace = pace.unwrap_or(Pace {
        least: time,
        greatest: time,
    });
    Pace {
        least: pace.least.min(time),
        greatest: pace.greatest.max(time),
    }
}

/// The same where a start is the next behind the last one.
fn pace_behind(pace: Option<Pace>, last: Option<u64>, moment: u64) -> Option<Pace>
    ensures { result ≡ working.pace_behind pace last moment }
{
    match last {
        None => pace,
        Some(before) => Some(widened(pace, moment.saturating_sub(before))),
    }
}

/// What is kept with one transmission more.
fn paced(scale: &Scale, terminal: u8, pacing: Pacing, x: &Transmission) -> Pacing
    ensures { result ≡ working.paced scale.now terminal pacing x.now }
{
    if !starts(scale, terminal, x) {
        return pacing;
    }
    Pacing {
        last: Some(x.moment),
        pace: pace_behind(pacing.pace, pacing.last, x.moment),
    }
}

/// How far the starts of a terminal in the scale lie apart, where there are two or more. It goes over the list once.
fn pace_in(scale: &Scale, terminal: u8, list: &[Transmission]) -> Option<Pace>
    ensures { result ≡ definition.pace scale.now terminal list.now }
{
    let mut pacing = Pacing {
        last: None,
        pace: None,
    };
    for k in 0..list.len() {
        pacing = paced(scale, terminal, pacing, &list[k]);
    }
    pacing.pace
}

/// A pace in words.
fn put_pace<K: Sink>(text: &mut TextBuffer, sink: &mut K, pace: Pace)
    ensures { Adds K.held K.faults sink.old sink.new text.old text.new (definition.pace_words pace) }
{
    text.put_number(sink, pace.least);
    text.put(sink, b" to ");
    text.put_number(sink, pace.greatest);
}

/// How far the starts of lane `k` lie apart, beside the lane.
fn put_lane_pace<K: Sink>(
    text: &mut TextBuffer,
    sink: &mut K,
    scale: &Scale,
    list: &[Transmission],
    k: usize,
    lane: Lane,
)
    requires { k ≤ 256 }
    ensures { Adds K.held K.faults sink.old sink.new text.old text.new
        (definition.lane_pace scale.now list.now k lane) }
{
    if let Some(pace) = pace_in(scale, lane.terminal, list) {
        begin_words(
            text,
            sink,
            Class::Small,
            PACE_LEFT,
            lane_top(k) + TERMINAL_LINE,
        );
        put_pace(text, sink, pace);
        end_words(text, sink);
    }
}

/// The same of each lane.
fn put_each_pace<K: Sink>(
    text: &mut TextBuffer,
    sink: &mut K,
    scale: &Scale,
    list: &[Transmission],
    lanes: &[Lane],
)
    requires { length lanes.now ≤ 256 }
    ensures { Adds K.held K.faults sink.old sink.new text.old text.new
        (each_lane (definition.lane_pace scale.now list.now) 0 lanes.now) }
{
    for k in 0..lanes.len() {
        put_lane_pace(text, sink, scale, list, k, lanes[k]);
    }
}

/// How far the starts of each lane lie apart, beside the lanes. It goes over the list once for each.
pub(crate) fn put_paces<K: Sink>(
    text: &mut TextBuffer,
    sink: &mut K,
    scale: &Scale,
    lanes: &[Lane],
    list: &[Transmission],
)
    requires { length lanes.now ≤ 256 }
    ensures { Adds K.held K.faults sink.old sink.new text.old text.new
        (definition.paces_text scale.now lanes.now list.now) }
{
    put_words(
        text,
        sink,
        Class::Small,
        PACE_LEFT,
        PLOT_TOP + BUS_LINE,
        b"start to start",
    );
    put_each_pace(text, sink, scale, list, lanes);
}
