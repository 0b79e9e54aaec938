//! Where a sender is due in the rows, in periodic mode.
ghost use Rattle.std.specs.Prelude.{◌≡◌, ◌≤◌, ◌<◌, length};
ghost use Rattle.bus_outer.specs.Texts.{Adds};
ghost use Rattle.bus_cycles.specs.Dues as definition;
ghost use Rattle.bus_cycles.specs.inside.Bounds.{IsPage};

use crate::measures::{DUE_TOP, DUE_WIDTH};
use crate::page::Page;
use bus_outer::{Sink, TextBuffer};
use bus_pen::{Area, Class, put_box};
use bus_shapes::held;
use bus_table::{Sender, Table};
use bus_trace::Hold;

/// Whether a start is due in the row that begins then, of a sender that held so many messages.
fn is_due_at(ti: u32, held: u32, begin: u64) -> bool
    requires { 0 < ti }
    ensures { result ≡ definition.is_due_at ti held begin }
{
    begin / u64::from(ti) < u64::from(held)
}

/// In how many of the rows that begin at these moments one is due.
fn due_rows(ti: u32, held: u32, begins: &[u64]) -> u64
    requires some { 0 < ti }
    requires few { length begins.now ≤ 500 }
    ensures value { result ≡ definition.due_rows ti held begins.now }
    ensures few { result ≤ 500 }
{
    let mut count = 0;
    for begin in begins {
        if is_due_at(ti, held, *begin) {
            count += 1;
        }
    }
    count
}

/// Over how many of the rows that begin at these moments the line of a sender goes.
pub(crate) fn rows_of_due(page: &Page, holds: &[Hold], begins: &[u64], sender: &Sender) -> u64
    requires page { IsPage page.now }
    requires few { length begins.now ≤ 500 }
    ensures value { result ≡ definition.rows_of_due page.now holds.now begins.now sender.now }
    ensures few { result ≤ 500 }
{
    due_rows(page.cycle.ti, held(holds, sender.number()), begins)
}

/// The line of an offset over the first so many rows.
fn due_line(page: &Page, at: u64, rows: u64) -> Area
    requires page { IsPage page.now }
    requires rows { rows ≤ 500 }
    ensures { result ≡ definition.due_line page.now at rows }
{
    Area {
        left: page.scale.place(at),
        top: DUE_TOP,
        width: DUE_WIDTH,
        height: page.top_of(rows) - DUE_TOP,
    }
}

/// It is drawn where there are such rows.
fn put_over<K: Sink>(text: &mut TextBuffer, sink: &mut K, page: &Page, at: u64, rows: u64)
    requires page { IsPage page.now }
    requires rows { rows ≤ 500 }
    ensures { Adds K.held K.faults sink.old sink.new text.old text.new (definition.due_over page.now at rows) }
{
    if rows > 0 {
        put_box(text, sink, Class::Tick, due_line(page, at, rows));
    }
}

/// The line of a sender.
fn put_due<K: Sink>(
    text: &mut TextBuffer,
    sink: &mut K,
    page: &Page,
    holds: &[Hold],
    begins: &[u64],
    sender: &Sender,
)
    requires page { IsPage page.now }
    requires few { length begins.now ≤ 500 }
    ensures { Adds K.held K.faults sink.old sink.new text.old text.new
        (definition.due_text page.now holds.now begins.now sender.now) }
{
    let rows = rows_of_due(page, holds, begins, sender);
    let at = u64::from(sender.at());
    put_over(text, sink, page, at, rows);
}

/// The lines of senders.
fn put_each<K: Sink>(
    text: &mut TextBuffer,
    sink: &mut K,
    page: &Page,
    holds: &[Hold],
    begins: &[u64],
    senders: &[Sender],
)
    requires page { IsPage page.now }
    requires few { length begins.now ≤ 500 }
    ensures { Adds K.held K.faults sink.old sink.new text.old text.new
        (definition.each_due page.now holds.now begins.now senders.now) }
{
    for sender in senders {
        put_due(text, sink, page, holds, begins, sender);
    }
}

/// The lines of a table, for the rows that begin at these moments.
pub(crate) fn put_dues<K: Sink>(
    text: &mut TextBuffer,
    sink: &mut K,
    page: &Page,
    table: &Table,
    holds: &[Hold],
    begins: &[u64],
)
    requires page { IsPage page.now }
    requires few { length begins.now ≤ 500 }
    ensures { Adds K.held K.faults sink.old sink.new text.old text.new
        (definition.dues_text page.now table.now holds.now begins.now) }
{
    put_each(text, sink, page, holds, begins, table.senders());
}
