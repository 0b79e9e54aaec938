//! The loads of rows.
ghost use Rattle.std.specs.Prelude.{◌≡◌, ◌<◌, ◌≤◌, ◌+◌, ◌-◌, ◌^◌, ◌∷◌, List, length};
ghost use Rattle.std.specs.List.{AllByRecursion};
ghost use Rattle.bus_outer.specs.Texts.{Adds};
ghost use Rattle.bus_load.specs.Loads.{AreApart, IsCarrierOf};
ghost use Rattle.bus_strings.specs.Messages.{Entry};
ghost use Rattle.bus_cycles.specs.inside.Drawing.{next_row};
ghost use Rattle.bus_cycles.specs.inside.Loading.{next_load};
ghost use Rattle.bus_cycles.specs.Loads as definition;
ghost use Rattle.bus_cycles.specs.inside.Bounds.{IsPage, IsSent};
ghost use Rattle.bus_cycles.specs.Rows.{Row, extent_of, rows_of};
ghost use Rattle.bus_cycles.specs.Sents.{shown};

use crate::cycle::{Cycle, Extent};
use crate::measures::LOAD_RIGHT;
use crate::page::Page;
use crate::shown::Shown;
use crate::survey::{MOST_ROWS, last_end_of};
use bus_load::{Stretch, bits_within};
use bus_outer::{Sink, TextBuffer};
use bus_pen::{Class, begin_words, end_words, put_load_share};
use bus_shapes::Sent;
use bus_table::Mode;
use bus_trace::{Trace, Window};

/// How many bit times a row has at least.
fn least_in(cycle: &Cycle) -> u64
    requires { 0 < cycle.now.ti }
    ensures value { result ≡ definition.least_in cycle.now.mode cycle.now }
    ensures some { 0 < result }
    ensures low { result < 2 ^ 32 }
{
    match cycle.mode {
        Mode::Periodic => u64::from(cycle.ti),
        Mode::Aperiodic => 1,
    }
}

/// How many bit times a row has.
fn whole_of(cycle: &Cycle, row: Extent) -> u64
    requires some { 0 < cycle.now.ti }
    requires low { row.end ≤ 2 ^ 41 }
    ensures value { result ≡ definition.whole_of cycle.now row }
    ensures some { 0 < result }
    ensures low { result ≤ 2 ^ 42 }
{
    least_in(cycle).max(last_end_of(cycle.origin_offset, row))
}

/// For how many bit times of a row there is carrier.
fn busy_of(cycle: &Cycle, carrier: &[Stretch], row: Extent) -> u64
    requires some { 0 < cycle.now.ti }
    requires low { row.end ≤ 2 ^ 41 }
    requires begin { row.begin ≤ 2 ^ 42 }
    requires apart { AreApart carrier.now }
    ensures { (list : List Entry) → IsCarrierOf carrier.now list → result ≡ definition.busy_of cycle.now list row }
{
    let origin_offset = u64::from(cycle.origin_offset);
    let end = row.begin + whole_of(cycle, row);
    bits_within(
        carrier,
        row.begin.saturating_sub(origin_offset),
        end.saturating_sub(origin_offset),
    )
}

/// The share of a row's bit times that are so many, at its right end.
fn put_share_words<K: Sink>(
    text: &mut TextBuffer,
    sink: &mut K,
    page: &Page,
    row: Extent,
    busy: u64,
)
    requires page { IsPage page.now }
    requires place { row.place ≤ 500 }
    requires low { row.end ≤ 2 ^ 41 }
    ensures { Adds K.held K.faults sink.old sink.new text.old text.new (definition.share_words page.now row busy) }
{
    begin_words(
        text,
        sink,
        Class::Detail,
        LOAD_RIGHT,
        page.line_of(row.place),
    );
    put_load_share(text, sink, u128::from(busy), whole_of(&page.cycle, row));
    end_words(text, sink);
}

/// The load of a row, where it is drawn.
fn put_load<K: Sink>(
    text: &mut TextBuffer,
    sink: &mut K,
    page: &Page,
    carrier: &[Stretch],
    row: Extent,
)
    requires page { IsPage page.now }
    requires low { row.end ≤ 2 ^ 41 }
    requires begin { row.begin ≤ 2 ^ 42 }
    requires apart { AreApart carrier.now }
    ensures { (list : List Entry) → IsCarrierOf carrier.now list
        → Adds K.held K.faults sink.old sink.new text.old text.new (definition.load_at page.now list row) }
{
    if row.place < MOST_ROWS {
        let busy = busy_of(&page.cycle, carrier, row);
        put_share_words(text, sink, page, row, busy);
    }
}

/// The load of the row before the next transmission, where that begins another one.
fn put_next<K: Sink>(
    text: &mut TextBuffer,
    sink: &mut K,
    page: &Page,
    carrier: &[Stretch],
    row: &mut Extent,
    sent: &Sent,
)
    requires page { IsPage page.now }
    requires sent { IsSent sent.now }
    requires place { row.old.place < 2 ^ 64 - 1 }
    requires low { row.old.end ≤ 2 ^ 41 }
    requires begin { row.old.begin ≤ 2 ^ 42 }
    requires apart { AreApart carrier.now }
    ensures adds { (was : Row) (list : List Entry) → row.old ≡ extent_of was → IsCarrierOf carrier.now list
        → Adds K.held K.faults sink.old sink.new text.old text.new (next_load page.now list was sent.now) }
    ensures keeps { (was : Row) → row.old ≡ extent_of was → row.new ≡ extent_of (next_row page.now was sent.now) }
    ensures place { row.new.place ≤ row.old.place + 1 }
    ensures low { row.new.end ≤ 2 ^ 41 }
    ensures begin { row.new.begin ≤ 2 ^ 42 }
{
    if page.cycle.is_new(row.begin, sent) {
        put_load(text, sink, page, carrier, *row);
        *row = page.cycle.row_at(row.place + 1, sent);
    } else {
        *row = row.with(sent);
    }
}

/// The loads of the rows of a transmission and those behind it.
fn put_loads_from<K: Sink>(
    text: &mut TextBuffer,
    sink: &mut K,
    page: &Page,
    carrier: &[Stretch],
    first: &Sent,
    left: Shown,
)
    requires page { IsPage page.now }
    requires apart { AreApart carrier.now }
    requires sent { IsSent first.now }
    requires each { AllByRecursion IsSent left }
    requires few { length left < 2 ^ 64 - 1 }
    ensures { (list : List Entry) → IsCarrierOf carrier.now list → Adds K.held K.faults sink.old sink.new text.old text.new
        (definition.loads_text page.now list (rows_of page.now.cycle (first.now ∷ left.entry))) }
{
    let mut row = page.cycle.row_at(0, first);
    for sent in left {
        put_next(text, sink, page, carrier, &mut row, &sent);
    }
    put_load(text, sink, page, carrier, row);
}

/// The loads of the rows of a trace in a window, of which the carrier is given.
pub(crate) fn put_loads<K: Sink>(
    text: &mut TextBuffer,
    sink: &mut K,
    page: &Page,
    window: &Window,
    trace: &Trace,
    carrier: &[Stretch],
)
    requires page { IsPage page.now }
    requires carrier { IsCarrierOf carrier.now trace.now.list }
    ensures { Adds K.held K.faults sink.old sink.new text.old text.new
        (definition.loads_text page.now trace.now.list (rows_of page.now.cycle (shown window.now trace.now.list))) }
{
    let mut left = Shown::new(window, trace);
    if let Some(first) = left.next() {
        put_loads_from(text, sink, page, carrier, &first, left);
    }
}
