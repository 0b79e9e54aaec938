//! The faults of a recording, marked in the rows.
ghost use Rattle.std.specs.Prelude.{◌≡◌, ◌<◌, ◌≤◌, ◌+◌, ◌-◌, ◌^◌, ◌∷◌, ◌||◌, length};
ghost use Rattle.std.specs.List.{AllByRecursion};
ghost use Rattle.bus_outer.specs.Texts.{Adds};
ghost use Rattle.bus_pen.specs.declared.class.Class.TheVariants.{Fault};
ghost use Rattle.bus_pen.specs.Shapes.{titled_text};
ghost use Rattle.bus_cycles.specs.inside.Bounds.{IsPage, IsSent};
ghost use Rattle.bus_cycles.specs.inside.Drawing.{next_row};
ghost use Rattle.bus_cycles.specs.Faults as definition;
ghost use Rattle.bus_cycles.specs.inside.Marking.{Holds, more_marks, new_marks, next_marks};
ghost use Rattle.bus_cycles.specs.Rows.{Row, row_at, rows_of, with_sent};
ghost use Rattle.bus_cycles.specs.Sents.{shown};

use crate::areas::left_of;
use crate::cycle::Extent;
use crate::measures::{BREACH_LEFT, FAULT_HEIGHT, FAULT_WIDTH};
use crate::page::Page;
use crate::shown::Shown;
use crate::survey::MOST_ROWS;
use bus_findings::{Judgement, is_faulty, put_fault_title};
use bus_outer::{Sink, TextBuffer};
use bus_pen::{Area, Class, begin_titled, end_titled, put_words};
use bus_shapes::{Sent, Told};
use bus_trace::{Trace, Window};

/// A part of a mark, with its words under the pointer.
fn put_part<K: Sink>(
    text: &mut TextBuffer,
    sink: &mut K,
    left: u64,
    top: u64,
    sent: &Sent,
    found: &Judgement,
)
    ensures { Adds K.held K.faults sink.old sink.new text.old text.new
        (titled_text Fault (definition.fault_part left top) (definition.title_of sent.now found.now)) }
{
    let area = Area {
        left,
        top,
        width: FAULT_WIDTH,
        height: FAULT_HEIGHT,
    };
    begin_titled(text, sink, Class::Fault, area);
    put_fault_title(text, sink, sent.moment, sent.terminal, found);
    end_titled(text, sink);
}

/// The mark of a transmission in a row.
fn put_at<K: Sink>(
    text: &mut TextBuffer,
    sink: &mut K,
    page: &Page,
    row: Extent,
    sent: &Sent,
    found: &Judgement,
)
    requires page { IsPage page.now }
    requires sent { IsSent sent.now }
    requires drawn { row.place ≤ 500 }
    ensures { Adds K.held K.faults sink.old sink.new text.old text.new
        (definition.fault_at page.now row.place row.begin sent.now found.now) }
{
    let left = left_of(page, row.begin, sent);
    let top = page.top_of(row.place);
    put_part(text, sink, left, top, sent, found);
    put_part(
        text,
        sink,
        left,
        top + page.row_height - FAULT_HEIGHT,
        sent,
        found,
    );
}

/// The same where a fault is found at it.
fn put_where_faulty<K: Sink>(
    text: &mut TextBuffer,
    sink: &mut K,
    page: &Page,
    row: Extent,
    sent: &Sent,
    found: &Judgement,
)
    requires page { IsPage page.now }
    requires sent { IsSent sent.now }
    requires drawn { row.place ≤ 500 }
    ensures { Adds K.held K.faults sink.old sink.new text.old text.new
        (definition.fault_where page.now row.place row.begin sent.now found.now) }
{
    if is_faulty(found) {
        put_at(text, sink, page, row, sent, found);
    }
}

/// The same where its row is drawn, of what is found at it.
fn put_fault<K: Sink>(
    text: &mut TextBuffer,
    sink: &mut K,
    page: &Page,
    judgements: &[Judgement],
    row: Extent,
    sent: &Sent,
)
    requires page { IsPage page.now }
    requires sent { IsSent sent.now }
    ensures { Adds K.held K.faults sink.old sink.new text.old text.new
        (definition.fault_text page.now judgements.now row.place row.begin sent.now) }
{
    if row.place < MOST_ROWS {
        if let Some(found) = judgements.get(sent.at) {
            put_where_faulty(text, sink, page, row, sent, found);
        }
    }
}

/// Whether a fault is found at a transmission.
pub(crate) fn has_fault(judgements: &[Judgement], sent: &Sent) -> bool
    ensures { result ≡ definition.has_fault judgements.now sent.now }
{
    match judgements.get(sent.at) {
        Some(found) => is_faulty(found),
        None => false,
    }
}

/// The word of a row, where a fault is found in it.
fn put_word<K: Sink>(text: &mut TextBuffer, sink: &mut K, page: &Page, row: u64, any: bool)
    requires { IsPage page.now }
    ensures { Adds K.held K.faults sink.old sink.new text.old text.new (definition.fault_word page.now row any) }
{
    if any && row < MOST_ROWS {
        put_words(
            text,
            sink,
            Class::Note,
            BREACH_LEFT,
            page.line_of(row),
            b"fault",
        );
    }
}

/// Whether a fault is found in a row with one transmission more.
pub(crate) fn any_with(any: bool, judgements: &[Judgement], sent: &Sent) -> bool
    ensures { result ≡ (any || definition.has_fault judgements.now sent.now) }
{
    if any {
        true
    } else {
        has_fault(judgements, sent)
    }
}

/// The word of a row, and the first transmission of the next.
fn put_new<K: Sink>(
    text: &mut TextBuffer,
    sink: &mut K,
    page: &Page,
    judgements: &[Judgement],
    row: &mut Extent,
    any: &mut bool,
    sent: &Sent,
)
    requires page { IsPage page.now }
    requires sent { IsSent sent.now }
    requires few { row.old.place < 2 ^ 64 - 1 }
    ensures adds { (was : Row) → Holds judgements.now was row.old any.old
        → Adds K.held K.faults sink.old sink.new text.old text.new (new_marks page.now judgements.now was sent.now) }
    ensures keeps { (was : Row) → Holds judgements.now was row.old any.old
        → Holds judgements.now (row_at page.now.cycle (was.place + 1) sent.now) row.new any.new }
    ensures place { row.new.place ≡ row.old.place + 1 }
{
    put_word(text, sink, page, row.place, *any);
    *row = page.cycle.row_at(row.place + 1, sent);
    *any = has_fault(judgements, sent);
    put_fault(text, sink, page, judgements, *row, sent);
}

/// One transmission more of a row.
fn put_more<K: Sink>(
    text: &mut TextBuffer,
    sink: &mut K,
    page: &Page,
    judgements: &[Judgement],
    row: &mut Extent,
    any: &mut bool,
    sent: &Sent,
)
    requires page { IsPage page.now }
    requires sent { IsSent sent.now }
    ensures adds { (was : Row) → Holds judgements.now was row.old any.old
        → Adds K.held K.faults sink.old sink.new text.old text.new (more_marks page.now judgements.now was sent.now) }
    ensures keeps { (was : Row) → Holds judgements.now was row.old any.old
        → Holds judgements.now (with_sent was sent.now) row.new any.new }
    ensures place { row.new.place ≡ row.old.place }
{
    *row = row.with(sent);
    *any = any_with(*any, judgements, sent);
    put_fault(text, sink, page, judgements, *row, sent);
}

/// The next transmission, of the row or of the next one. It keeps where the row is, and whether a fault is found in it.
fn put_next<K: Sink>(
    text: &mut TextBuffer,
    sink: &mut K,
    page: &Page,
    judgements: &[Judgement],
    row: &mut Extent,
    any: &mut bool,
    sent: &Sent,
)
    requires page { IsPage page.now }
    requires sent { IsSent sent.now }
    requires few { row.old.place < 2 ^ 64 - 1 }
    ensures adds { (was : Row) → Holds judgements.now was row.old any.old
        → Adds K.held K.faults sink.old sink.new text.old text.new (next_marks page.now judgements.now was sent.now) }
    ensures keeps { (was : Row) → Holds judgements.now was row.old any.old
        → Holds judgements.now (next_row page.now was sent.now) row.new any.new }
    ensures place { row.new.place ≤ row.old.place + 1 }
{
    if page.cycle.is_new(row.begin, sent) {
        put_new(text, sink, page, judgements, row, any, sent);
    } else {
        put_more(text, sink, page, judgements, row, any, sent);
    }
}

/// The faults of the rows of a transmission and those behind it.
fn put_faults_from<K: Sink>(
    text: &mut TextBuffer,
    sink: &mut K,
    page: &Page,
    judgements: &[Judgement],
    first: &Sent,
    left: Shown,
)
    requires page { IsPage page.now }
    requires sent { IsSent first.now }
    requires each { AllByRecursion IsSent left }
    requires few { length left < 2 ^ 64 - 1 }
    ensures { Adds K.held K.faults sink.old sink.new text.old text.new
        (definition.faults_of page.now judgements.now (rows_of page.now.cycle (first.now ∷ left.entry))) }
{
    let mut row = page.cycle.row_at(0, first);
    put_fault(text, sink, page, judgements, row, first);
    let mut any = has_fault(judgements, first);
    for sent in left {
        put_next(text, sink, page, judgements, &mut row, &mut any, &sent);
    }
    put_word(text, sink, page, row.place, any);
}

/// The faults among these findings, in the rows of a trace in a window.
fn put_found<K: Sink>(
    text: &mut TextBuffer,
    sink: &mut K,
    page: &Page,
    judgements: &[Judgement],
    window: &Window,
    trace: &Trace,
)
    requires page { IsPage page.now }
    ensures { Adds K.held K.faults sink.old sink.new text.old text.new
        (definition.faults_of page.now judgements.now (rows_of page.now.cycle (shown window.now trace.now.list))) }
{
    let mut left = Shown::new(window, trace);
    if let Some(first) = left.next() {
        put_faults_from(text, sink, page, judgements, &first, left);
    }
}

/// The faults that are told of, in the rows of a trace in a window.
pub(crate) fn put_faults<K: Sink>(
    text: &mut TextBuffer,
    sink: &mut K,
    page: &Page,
    told: &Told,
    window: &Window,
    trace: &Trace,
)
    requires page { IsPage page.now }
    ensures { Adds K.held K.faults sink.old sink.new text.old text.new
        (definition.faults_text page.now told.now (rows_of page.now.cycle (shown window.now trace.now.list))) }
{
    match told {
        Told::Audit(_) | Told::OnCable { .. } => {}
        Told::Findings { judgements, .. } => {
            put_found(text, sink, page, judgements, window, trace)
        }
    }
}
