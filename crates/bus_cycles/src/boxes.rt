//! The rows of a picture, with their boxes.
ghost use Rattle.std.specs.Prelude.{◌≡◌, ◌<◌, ◌≤◌, ◌+◌, ◌++◌, [], ◌∷◌, ◌-◌, ◌^◌, List, length};
ghost use Rattle.std.specs.List.{AllByRecursion};
ghost use Rattle.bus_outer.specs.Texts.{Adds};
ghost use Rattle.bus_cycles.specs.inside.Drawing.{Keeps, Reaches, more_text, new_text, next_row, next_text};
ghost use Rattle.bus_cycles.specs.inside.Bounds.{IsPage, IsSent};
ghost use Rattle.bus_cycles.specs.Rows.{Row, row_at, rows_of, with_sent};
ghost use Rattle.bus_cycles.specs.declared.areas.Shaded as shading;
ghost use Rattle.bus_cycles.specs.RowTexts as definition;
ghost use Rattle.bus_cycles.specs.Sents.{shown};

use crate::areas::{SHADES, Shaded, area_of, class_of, right_of, shade_of};
use crate::cycle::Extent;
use crate::measures::{LONG_NUMBER, MIDDLE_LINE, MIDDLE_NUMBER, SHORT_NUMBER};
use crate::page::Page;
use crate::row_words::put_ending;
use crate::shown::Shown;
use crate::survey::MOST_ROWS;
use bus_outer::{Sink, TextBuffer};
use bus_pen::{Area, begin_titled, begin_words, digits_class, end_titled, end_words};
use bus_shapes::{Sent, put_sent};
use bus_trace::{Trace, Window};

/// How wide the number of a terminal is, with a character around it.
fn number_width(terminal: u8) -> u64
    ensures { result ≡ definition.number_width terminal }
{
    if terminal < 10 {
        SHORT_NUMBER
    } else if terminal < 100 {
        MIDDLE_NUMBER
    } else {
        LONG_NUMBER
    }
}

/// The number of its terminal, where its box has room.
fn put_number<K: Sink>(text: &mut TextBuffer, sink: &mut K, area: Area, sent: &Sent)
    requires left { area.left < 2 ^ 21 }
    requires top { area.top < 2 ^ 20 }
    requires width { area.width < 2 ^ 22 }
    requires height { area.height ≤ 300 }
    ensures { Adds K.held K.faults sink.old sink.new text.old text.new (definition.number_text area sent.now) }
{
    if number_width(sent.terminal) <= area.width {
        begin_words(
            text,
            sink,
            digits_class(sent.garbled),
            area.left + area.width / 2,
            area.top + area.height / 2 + MIDDLE_LINE,
        );
        text.put_number(sink, sent.terminal);
        end_words(text, sink);
    }
}

/// A transmission in an area: its box, and its number.
fn put_in<K: Sink>(text: &mut TextBuffer, sink: &mut K, area: Area, x: &Shaded)
    requires sent { IsSent x.now.sent }
    requires left { area.left < 2 ^ 21 }
    requires top { area.top < 2 ^ 20 }
    requires width { area.width < 2 ^ 22 }
    requires height { area.height ≤ 300 }
    ensures { Adds K.held K.faults sink.old sink.new text.old text.new (definition.sent_text area x.now) }
{
    begin_titled(text, sink, class_of(area.width, x.shade), area);
    put_sent(text, sink, &x.sent);
    end_titled(text, sink);
    put_number(text, sink, area, &x.sent);
}

/// A transmission of a row, where that is drawn.
fn put_where_drawn<K: Sink>(
    text: &mut TextBuffer,
    sink: &mut K,
    page: &Page,
    row: Extent,
    x: &Shaded,
)
    requires page { IsPage page.now }
    requires sent { IsSent x.now.sent }
    requires shade { x.now.shade < 5 }
    ensures { Adds K.held K.faults sink.old sink.new text.old text.new (definition.drawing_of page.now row.place row.begin x.now) }
{
    if row.place < MOST_ROWS {
        put_in(text, sink, area_of(page, row, x), x);
    }
}

/// Whether a transmission is drawn in a walk.
fn is_due(garbled: bool, sent: &Sent) -> bool
    ensures { result ≡ definition.is_due garbled sent.now }
{
    if garbled { sent.garbled } else { !sent.garbled }
}

/// A transmission of a row, in its walk.
fn put_where_due<K: Sink>(
    text: &mut TextBuffer,
    sink: &mut K,
    page: &Page,
    garbled: bool,
    row: Extent,
    x: &Shaded,
)
    requires page { IsPage page.now }
    requires sent { IsSent x.now.sent }
    requires shade { x.now.shade < 5 }
    ensures { Adds K.held K.faults sink.old sink.new text.old text.new
        (definition.where_due garbled x.now.sent (definition.drawing_of page.now row.place row.begin x.now)) }
{
    if is_due(garbled, &x.sent) {
        put_where_drawn(text, sink, page, row, x);
    }
}

/// What a transmission adds to a row in a walk.
fn put_behind<K: Sink>(
    text: &mut TextBuffer,
    sink: &mut K,
    page: &Page,
    garbled: bool,
    row: Extent,
    edges: &mut [u64; SHADES],
    sent: &Sent,
)
    requires page { IsPage page.now }
    requires sent { IsSent sent.now }
    ensures adds { (earlier : List shading.Shaded) → Reaches page.now row.begin earlier edges.old
        → Adds K.held K.faults sink.old sink.new text.old text.new
        (definition.box_behind page.now garbled row.place row.begin earlier sent.now) }
    ensures keeps { (earlier : List shading.Shaded) → Reaches page.now row.begin earlier edges.old
        → Reaches page.now row.begin (earlier ++ definition.shaded page.now row.begin earlier sent.now ∷ []) edges.new }
{
    let shade = shade_of(page, row.begin, edges, sent);
    let right = right_of(page, row.begin, sent);
    if right <= edges[shade] {
        return;
    }
    edges[shade] = right;
    let x = Shaded { sent: *sent, shade };
    put_where_due(text, sink, page, garbled, row, &x);
}

/// The words of a row, and the first transmission of the next.
fn put_new<K: Sink>(
    text: &mut TextBuffer,
    sink: &mut K,
    page: &Page,
    garbled: bool,
    row: &mut Extent,
    edges: &mut [u64; SHADES],
    sent: &Sent,
)
    requires page { IsPage page.now }
    requires sent { IsSent sent.now }
    requires few { row.old.place < 2 ^ 64 - 1 }
    requires begin { row.old.begin ≤ 2 ^ 42 }
    requires low { row.old.end ≤ 2 ^ 41 }
    ensures adds { (was : Row) → Keeps page.now was row.old edges.old
        → Adds K.held K.faults sink.old sink.new text.old text.new (new_text page.now garbled was sent.now) }
    ensures keeps { (was : Row) → Keeps page.now was row.old edges.old
        → Keeps page.now (row_at page.now.cycle (was.place + 1) sent.now) row.new edges.new }
    ensures place { row.new.place ≡ row.old.place + 1 }
    ensures begin { row.new.begin ≤ 2 ^ 42 }
    ensures low { row.new.end ≤ 2 ^ 41 }
{
    put_ending(text, sink, page, garbled, *row);
    *row = page.cycle.row_at(row.place + 1, sent);
    *edges = [0; SHADES];
    put_behind(text, sink, page, garbled, *row, edges, sent);
}

/// One transmission more of a row.
fn put_more<K: Sink>(
    text: &mut TextBuffer,
    sink: &mut K,
    page: &Page,
    garbled: bool,
    row: &mut Extent,
    edges: &mut [u64; SHADES],
    sent: &Sent,
)
    requires page { IsPage page.now }
    requires sent { IsSent sent.now }
    requires begin { row.old.begin ≤ 2 ^ 42 }
    requires low { row.old.end ≤ 2 ^ 41 }
    ensures adds { (was : Row) → Keeps page.now was row.old edges.old
        → Adds K.held K.faults sink.old sink.new text.old text.new (more_text page.now garbled was sent.now) }
    ensures keeps { (was : Row) → Keeps page.now was row.old edges.old
        → Keeps page.now (with_sent was sent.now) row.new edges.new }
    ensures place { row.new.place ≡ row.old.place }
    ensures begin { row.new.begin ≤ 2 ^ 42 }
    ensures low { row.new.end ≤ 2 ^ 41 }
{
    *row = row.with(sent);
    put_behind(text, sink, page, garbled, *row, edges, sent);
}

/// The next transmission, of the row or of the next one.
fn put_next<K: Sink>(
    text: &mut TextBuffer,
    sink: &mut K,
    page: &Page,
    garbled: bool,
    row: &mut Extent,
    edges: &mut [u64; SHADES],
    sent: &Sent,
)
    requires page { IsPage page.now }
    requires sent { IsSent sent.now }
    requires few { row.old.place < 2 ^ 64 - 1 }
    requires begin { row.old.begin ≤ 2 ^ 42 }
    requires low { row.old.end ≤ 2 ^ 41 }
    ensures adds { (was : Row) → Keeps page.now was row.old edges.old
        → Adds K.held K.faults sink.old sink.new text.old text.new (next_text page.now garbled was sent.now) }
    ensures keeps { (was : Row) → Keeps page.now was row.old edges.old
        → Keeps page.now (next_row page.now was sent.now) row.new edges.new }
    ensures place { row.new.place ≤ row.old.place + 1 }
    ensures begin { row.new.begin ≤ 2 ^ 42 }
    ensures low { row.new.end ≤ 2 ^ 41 }
{
    if page.cycle.is_new(row.begin, sent) {
        put_new(text, sink, page, garbled, row, edges, sent);
    } else {
        put_more(text, sink, page, garbled, row, edges, sent);
    }
}

/// What a walk draws of the rows of a transmission and those behind it.
fn put_rows_from<K: Sink>(
    text: &mut TextBuffer,
    sink: &mut K,
    page: &Page,
    garbled: bool,
    first: &Sent,
    left: Shown,
)
    requires page { IsPage page.now }
    requires sent { IsSent first.now }
    requires each { AllByRecursion IsSent left }
    requires few { length left < 2 ^ 64 - 1 }
    ensures { Adds K.held K.faults sink.old sink.new text.old text.new
        (definition.walk_text page.now garbled (rows_of page.now.cycle (first.now ∷ left.entry))) }
{
    let mut row = page.cycle.row_at(0, first);
    let mut edges = [0; SHADES];
    put_behind(text, sink, page, garbled, row, &mut edges, first);
    for sent in left {
        put_next(text, sink, page, garbled, &mut row, &mut edges, &sent);
    }
    put_ending(text, sink, page, garbled, row);
}

/// A walk over the rows of a trace in a window.
fn put_walk<K: Sink>(
    text: &mut TextBuffer,
    sink: &mut K,
    page: &Page,
    garbled: bool,
    window: &Window,
    trace: &Trace,
)
    requires page { IsPage page.now }
    ensures { Adds K.held K.faults sink.old sink.new text.old text.new
        (definition.walk_text page.now garbled (rows_of page.now.cycle (shown window.now trace.now.list))) }
{
    let mut left = Shown::new(window, trace);
    if let Some(first) = left.next() {
        put_rows_from(text, sink, page, garbled, &first, left);
    }
}

/// The rows of a trace in a window: first what is plain, then what is garbled.
pub(crate) fn put_rows<K: Sink>(
    text: &mut TextBuffer,
    sink: &mut K,
    page: &Page,
    window: &Window,
    trace: &Trace,
)
    requires page { IsPage page.now }
    ensures { Adds K.held K.faults sink.old sink.new text.old text.new
        (definition.rows_text page.now (rows_of page.now.cycle (shown window.now trace.now.list))) }
{
    put_walk(text, sink, page, false, window, trace);
    put_walk(text, sink, page, true, window, trace);
}
