//! The rows of the bus and of the lanes.
ghost use Rattle.std.specs.Prelude.{◌≡◌, ◌<◌, ◌≤◌, ◌^◌, length};
ghost use Rattle.bus_outer.specs.Texts.{Adds};
ghost use Rattle.bus_shapes.specs.Sending.{sents as sents_of};
ghost use Rattle.bus_pen.specs.Scales.{IsScale};
ghost use Rattle.bus_picture.specs.Rows.{rows_text};
ghost use Rattle.bus_picture.specs.TimeLines as definition;

use crate::boxes::put_row;
use crate::canvas::Canvas;
use crate::lanes::lane_top;
use crate::measures::PLOT_TOP;
use crate::receivers::Receivers;
use crate::row::Row;
use crate::subject::Subject;
use bus_dump::Lane;
use bus_outer::{Sink, TextBuffer};
use bus_pen::Scale;
use bus_shapes::Sent;

/// The two rows of one place: what isn't garbled, and over it what is.
fn put_rows_at<K: Sink>(
    text: &mut TextBuffer,
    sink: &mut K,
    canvas: &Canvas<'_>,
    sents: &[Sent],
    terminal: Option<u8>,
    top: u64,
)
    requires scale { IsScale canvas.now.scale }
    requires all { sents.now ≡ sents_of canvas.now.list.now }
    requires low { top < 2 ^ 40 }
    ensures { Adds K.held K.faults sink.old sink.new text.old text.new
        (rows_text canvas.now.scale canvas.now.receivers.now canvas.now.list.now (definition.rows_at terminal top)) }
{
    let plain = Row {
        terminal,
        garbled: false,
        top,
    };
    let hurt = Row {
        terminal,
        garbled: true,
        top,
    };
    put_row(text, sink, canvas, &plain, sents);
    put_row(text, sink, canvas, &hurt, sents);
}

/// The rows of lane `k`.
fn put_lane<K: Sink>(
    text: &mut TextBuffer,
    sink: &mut K,
    canvas: &Canvas<'_>,
    sents: &[Sent],
    k: usize,
    lane: Lane,
)
    requires scale { IsScale canvas.now.scale }
    requires all { sents.now ≡ sents_of canvas.now.list.now }
    requires few { k ≤ 256 }
    ensures { Adds K.held K.faults sink.old sink.new text.old text.new
        (rows_text canvas.now.scale canvas.now.receivers.now canvas.now.list.now (definition.lane_rows k lane)) }
{
    let top = lane_top(k);
    put_rows_at(text, sink, canvas, sents, Some(lane.terminal), top);
}

/// The rows of each lane. It goes over what is told of the list twice for each.
fn put_lanes<K: Sink>(
    text: &mut TextBuffer,
    sink: &mut K,
    canvas: &Canvas<'_>,
    sents: &[Sent],
    lanes: &[Lane],
)
    requires scale { IsScale canvas.now.scale }
    requires all { sents.now ≡ sents_of canvas.now.list.now }
    requires few { length lanes.now ≤ 256 }
    ensures { Adds K.held K.faults sink.old sink.new text.old text.new
        (rows_text canvas.now.scale canvas.now.receivers.now canvas.now.list.now (definition.rows_of_lanes lanes.now)) }
{
    for k in 0..lanes.len() {
        put_lane(text, sink, canvas, sents, k, lanes[k]);
    }
}

/// The rows of the bus and of the lanes.
pub(crate) fn put_rows<K: Sink>(
    text: &mut TextBuffer,
    sink: &mut K,
    scale: &Scale,
    lanes: &[Lane],
    subject: &Subject<'_>,
)
    requires scale { IsScale scale.now }
    requires few { length lanes.now ≤ 256 }
    requires all { subject.now.sents.now ≡ sents_of subject.now.trace.now.list }
    ensures { Adds K.held K.faults sink.old sink.new text.old text.new
        (rows_text scale.now subject.now.table.now subject.now.trace.now.list (definition.rows_of lanes.now)) }
{
    let list = subject.trace.list();
    let receivers = Receivers::new(subject.table);
    let canvas = Canvas {
        scale: *scale,
        receivers: &receivers,
        list,
    };
    put_rows_at(text, sink, &canvas, subject.sents, None, PLOT_TOP);
    put_lanes(text, sink, &canvas, subject.sents, lanes);
}
