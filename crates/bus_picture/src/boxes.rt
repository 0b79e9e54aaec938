//! The boxes of a row.
ghost use Rattle.std.specs.Prelude.{◌≡◌, ◌<◌, ◌≤◌, ◌^◌};
ghost use Rattle.bus_outer.specs.Texts.{Adds};
ghost use Rattle.bus_pen.specs.Scales.{IsScale};
ghost use Rattle.bus_shapes.specs.Sending.{sents as sents_of};
ghost use Rattle.bus_picture.specs.Rows as definition;
ghost use Rattle.bus_picture.specs.inside.Working as working;
ghost use Rattle.bus_picture.specs.inside.Working.{IsCluster, IsLast, held};

use crate::canvas::Canvas;
use crate::cluster::{Cluster, cluster_height, is_narrow, joins, put_cluster_words};
use crate::measures::{BOX_BELOW, BOX_HEIGHT};
use crate::places::meets;
use crate::row::Row;
use crate::strings::put_strings;
use crate::strokes::{inset, overhang};
use bus_outer::{Sink, TextBuffer};
use bus_pen::{Area, Class, Scale, begin_titled, end_titled};
use bus_shapes::Sent;

/// Whether a transmission is of the row, is garbled exactly where that is, and meets the moments of the scale.
fn shows(scale: &Scale, row: &Row, sent: &Sent) -> bool
    ensures { result ≡ definition.shows scale.now row.now sent.now }
{
    let is_of = match row.terminal {
        None => true,
        Some(terminal) => sent.terminal == terminal,
    };
    is_of && sent.garbled == row.garbled && meets(scale, sent.moment, sent.end)
}

/// How a box of a row looks.
fn box_class(scale: &Scale, row: &Row, cluster: &Cluster) -> Class
    requires scale { IsScale scale.now }
    requires cluster { IsCluster cluster.now }
    ensures { result ≡ definition.box_class scale.now row.now cluster.now }
{
    let narrow = is_narrow(scale, &cluster.first);
    if row.garbled {
        return if narrow {
            Class::GarbledNarrow
        } else {
            Class::Garbled
        };
    }
    match row.terminal {
        None => Class::Span,
        Some(_) => if narrow {
            Class::Wordstring
        } else {
            Class::Message
        },
    }
}

/// What a box has of the scale: its left edge and its width, from its upper edge on.
fn stretch(scale: &Scale, cluster: &Cluster, top: u64, height: u64) -> Area
    requires scale { IsScale scale.now }
    requires cluster { IsCluster cluster.now }
    ensures value { result ≡ definition.stretch scale.now cluster.now top height }
    ensures left { result.left < 2 ^ 22 }
    ensures top { result.top ≡ top }
{
    Area {
        left: scale.place(cluster.first.moment),
        top,
        width: scale.extent(cluster.first.moment, cluster.end),
        height,
    }
}

/// The wordstrings of entry `at` of the list.
fn put_entry<K: Sink>(
    text: &mut TextBuffer,
    sink: &mut K,
    canvas: &Canvas<'_>,
    row: &Row,
    sent: &Sent,
)
    requires scale { IsScale canvas.now.scale }
    requires top { row.now.top < 2 ^ 40 }
    ensures { Adds K.held K.faults sink.old sink.new text.old text.new
        (definition.entry_text canvas.now.scale canvas.now.receivers.now row.now canvas.now.list.now sent.now) }
{
    if let Some(x) = canvas.list.get(sent.at) {
        put_strings(text, sink, canvas, row.top, sent, x);
    }
}

/// What is drawn in a box of a lane.
fn put_inner<K: Sink>(
    text: &mut TextBuffer,
    sink: &mut K,
    canvas: &Canvas<'_>,
    row: &Row,
    cluster: &Cluster,
)
    requires scale { IsScale canvas.now.scale }
    requires cluster { IsCluster cluster.now }
    requires top { row.now.top < 2 ^ 40 }
    ensures { Adds K.held K.faults sink.old sink.new text.old text.new
        (definition.inner_text canvas.now.scale canvas.now.receivers.now row.now canvas.now.list.now cluster.now) }
{
    if cluster.count == 1 && !is_narrow(&canvas.scale, &cluster.first) {
        put_entry(text, sink, canvas, row, &cluster.first);
    }
}

/// What is drawn in a box.
fn put_more<K: Sink>(
    text: &mut TextBuffer,
    sink: &mut K,
    canvas: &Canvas<'_>,
    row: &Row,
    cluster: &Cluster,
)
    requires scale { IsScale canvas.now.scale }
    requires cluster { IsCluster cluster.now }
    requires top { row.now.top < 2 ^ 40 }
    ensures { Adds K.held K.faults sink.old sink.new text.old text.new
        (definition.more_text row.now.terminal canvas.now.scale canvas.now.receivers.now row.now canvas.now.list.now cluster.now) }
{
    match row.terminal {
        None => {}
        Some(_) => put_inner(text, sink, canvas, row, cluster),
    }
}

/// A box.
fn put_cluster<K: Sink>(
    text: &mut TextBuffer,
    sink: &mut K,
    canvas: &Canvas<'_>,
    row: &Row,
    cluster: &Cluster,
)
    requires scale { IsScale canvas.now.scale }
    requires cluster { IsCluster cluster.now }
    requires top { row.now.top < 2 ^ 40 }
    ensures { Adds K.held K.faults sink.old sink.new text.old text.new
        (definition.cluster_text canvas.now.scale canvas.now.receivers.now row.now canvas.now.list.now cluster.now) }
{
    let height = cluster_height(&canvas.scale, cluster);
    let whole = stretch(
        &canvas.scale,
        cluster,
        row.top + BOX_BELOW + (BOX_HEIGHT - height),
        height,
    );
    let narrow = is_narrow(&canvas.scale, &cluster.first);
    let area = inset(overhang(row, narrow), whole);
    begin_titled(text, sink, box_class(&canvas.scale, row, cluster), area);
    put_cluster_words(text, sink, &canvas.scale, cluster);
    end_titled(text, sink);
    put_more(text, sink, canvas, row, cluster);
}

/// A box, where the next transmission doesn't share it.
fn put_unshared<K: Sink>(
    text: &mut TextBuffer,
    sink: &mut K,
    canvas: &Canvas<'_>,
    row: &Row,
    cluster: &Cluster,
    sent: &Sent,
)
    requires scale { IsScale canvas.now.scale }
    requires cluster { IsCluster cluster.now }
    requires top { row.now.top < 2 ^ 40 }
    ensures { Adds K.held K.faults sink.old sink.new text.old text.new
        (working.unshared canvas.now.scale canvas.now.receivers.now row.now canvas.now.list.now cluster.now sent.now) }
{
    let shared = joins(&canvas.scale, cluster, sent);
    if !shared {
        put_cluster(text, sink, canvas, row, cluster);
    }
}

/// What is written where a transmission that is shown comes next: the box before, where it doesn't share that.
fn put_written<K: Sink>(
    text: &mut TextBuffer,
    sink: &mut K,
    canvas: &Canvas<'_>,
    row: &Row,
    last: &Option<Cluster>,
    sent: &Sent,
)
    requires scale { IsScale canvas.now.scale }
    requires last { IsLast last.now }
    requires sent { sent.now.moment ≤ sent.now.end }
    requires top { row.now.top < 2 ^ 40 }
    ensures { Adds K.held K.faults sink.old sink.new text.old text.new
        (working.written canvas.now.scale canvas.now.receivers.now row.now canvas.now.list.now last.now sent.now) }
{
    if let Some(cluster) = last {
        put_unshared(text, sink, canvas, row, cluster, sent);
    }
}

/// The last box, where a transmission that is shown comes next.
fn with_next(scale: &Scale, last: &Option<Cluster>, sent: &Sent) -> Cluster
    requires scale { IsScale scale.now }
    requires last { IsLast last.now }
    requires sent { sent.now.moment ≤ sent.now.end }
    requires few { held last.now < 2 ^ 63 }
    ensures { result ≡ working.with_next scale.now last.now sent.now }
{
    match last {
        None => Cluster::one(*sent),
        Some(cluster) => {
            if joins(scale, cluster, sent) {
                cluster.grown(sent)
            } else {
                Cluster::one(*sent)
            }
        }
    }
}

/// The last box, where there is one.
fn put_last<K: Sink>(
    text: &mut TextBuffer,
    sink: &mut K,
    canvas: &Canvas<'_>,
    row: &Row,
    last: &Option<Cluster>,
)
    requires scale { IsScale canvas.now.scale }
    requires last { IsLast last.now }
    requires top { row.now.top < 2 ^ 40 }
    ensures { Adds K.held K.faults sink.old sink.new text.old text.new
        (working.last_written canvas.now.scale canvas.now.receivers.now row.now canvas.now.list.now last.now) }
{
    if let Some(cluster) = last {
        put_cluster(text, sink, canvas, row, cluster);
    }
}

/// The boxes of a row, of a list of which this is told. It goes over that once.
pub(crate) fn put_row<K: Sink>(
    text: &mut TextBuffer,
    sink: &mut K,
    canvas: &Canvas<'_>,
    row: &Row,
    sents: &[Sent],
)
    requires scale { IsScale canvas.now.scale }
    requires all { sents.now ≡ sents_of canvas.now.list.now }
    requires top { row.now.top < 2 ^ 40 }
    ensures { Adds K.held K.faults sink.old sink.new text.old text.new
        (definition.row_text canvas.now.scale canvas.now.receivers.now row.now canvas.now.list.now) }
{
    let mut last = None;
    for sent in sents {
        if shows(&canvas.scale, row, sent) {
            put_written(text, sink, canvas, row, &last, sent);
            last = Some(with_next(&canvas.scale, &last, sent));
        }
    }
    put_last(text, sink, canvas, row, &last);
}
