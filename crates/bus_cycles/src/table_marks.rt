//! The marks of a table: lines over all rows, at its timers and its cycles.
ghost use Rattle.std.specs.Prelude.{◌≡◌, ◌<◌};
ghost use Rattle.bus_outer.specs.Texts.{Adds};
ghost use Rattle.bus_cycles.specs.CyclesTexts as definition;
ghost use Rattle.bus_cycles.specs.inside.Bounds.{IsPage};

use crate::measures::{
    BEFORE_MARK, BEHIND_MARK, LEAST_WORDS_LINE, LINE_WIDTH, MARK_WORDS_LINE, MARKS_TOP,
};
use crate::page::Page;
use bus_outer::{Sink, TextBuffer};
use bus_pen::{Area, Class, begin_words, end_words, put_box};
use bus_regime::TableVerdict;
use bus_table::{Mode, Table};

/// A line over all rows, at a distance from their beginning.
fn mark_line(page: &Page, t: u64) -> Area
    requires { IsPage page.now }
    ensures { result ≡ definition.mark_line page.now t }
{
    Area {
        left: page.scale.place(t),
        top: MARKS_TOP,
        width: LINE_WIDTH,
        height: page.bottom() - MARKS_TOP,
    }
}

/// The words of a mark, on this line above the rows.
fn put_mark_words<K: Sink>(
    text: &mut TextBuffer,
    sink: &mut K,
    class: Class,
    left: u64,
    line: u64,
    name: &[u8],
    t: u64,
)
    ensures { Adds K.held K.faults sink.old sink.new text.old text.new (definition.mark_words class left line name.now t) }
{
    begin_words(text, sink, class, left, line);
    text.put(sink, name);
    text.put_number(sink, t);
    end_words(text, sink);
}

/// A mark with its words behind it, unless it lies behind all rows.
fn put_mark<K: Sink>(text: &mut TextBuffer, sink: &mut K, page: &Page, name: &[u8], t: u64)
    requires { IsPage page.now }
    ensures { Adds K.held K.faults sink.old sink.new text.old text.new (definition.mark_text page.now name.now t) }
{
    if t <= page.scale.to {
        put_box(text, sink, Class::Mark, mark_line(page, t));
        let left = page.scale.place(t) + BEHIND_MARK;
        put_mark_words(text, sink, Class::Small, left, MARK_WORDS_LINE, name, t);
    }
}

/// The mark of the least cycle, with its words before it, a line lower.
fn put_least<K: Sink>(text: &mut TextBuffer, sink: &mut K, page: &Page, t: u64)
    requires { IsPage page.now }
    ensures { Adds K.held K.faults sink.old sink.new text.old text.new (definition.least_text page.now t) }
{
    if t <= page.scale.to {
        put_box(text, sink, Class::Mark, mark_line(page, t));
        let left = page.scale.place(t) - BEFORE_MARK;
        put_mark_words(
            text,
            sink,
            Class::Detail,
            left,
            LEAST_WORDS_LINE,
            b"least ",
            t,
        );
    }
}

/// The marks of an aperiodic table.
fn put_least_marks<K: Sink>(
    text: &mut TextBuffer,
    sink: &mut K,
    page: &Page,
    table: &Table,
    least: u64,
)
    requires { IsPage page.now }
    ensures { Adds K.held K.faults sink.old sink.new text.old text.new (definition.least_marks page.now table.now least) }
{
    put_mark(text, sink, page, b"SG ", u64::from(table.sg()));
    put_least(text, sink, page, least);
}

/// The mark of the transmit interval.
fn put_interval<K: Sink>(text: &mut TextBuffer, sink: &mut K, page: &Page, table: &Table)
    requires { IsPage page.now }
    ensures { Adds K.held K.faults sink.old sink.new text.old text.new (definition.interval_mark page.now table.now) }
{
    put_mark(text, sink, page, b"TI ", u64::from(table.ti()));
}

/// The marks of an accepted table.
fn put_accepted<K: Sink>(
    text: &mut TextBuffer,
    sink: &mut K,
    page: &Page,
    table: &Table,
    mode: Mode,
    least: u64,
    most: u64,
)
    requires { IsPage page.now }
    ensures { Adds K.held K.faults sink.old sink.new text.old text.new
        (definition.accepted_marks page.now table.now mode least most) }
{
    match mode {
        Mode::Aperiodic => {
            put_least_marks(text, sink, page, table, least);
            put_mark(text, sink, page, b"most ", most);
        }
        Mode::Periodic => put_interval(text, sink, page, table),
    }
}

/// The marks of an aperiodic table that is refused.
fn put_short<K: Sink>(text: &mut TextBuffer, sink: &mut K, page: &Page, table: &Table, least: u64)
    requires { IsPage page.now }
    ensures { Adds K.held K.faults sink.old sink.new text.old text.new (definition.short_marks page.now table.now least) }
{
    put_least_marks(text, sink, page, table, least);
    put_interval(text, sink, page, table);
}

/// The marks of a table.
pub(crate) fn put_marks<K: Sink>(
    text: &mut TextBuffer,
    sink: &mut K,
    page: &Page,
    table: &Table,
    verdict: &TableVerdict,
)
    requires { IsPage page.now }
    ensures { Adds K.held K.faults sink.old sink.new text.old text.new (definition.marks_text page.now table.now verdict.now) }
{
    match *verdict {
        TableVerdict::Accept { mode, least, most } => {
            put_accepted(text, sink, page, table, mode, least, most)
        }
        TableVerdict::ShortCycle { least, .. } => put_short(text, sink, page, table, least),
        TableVerdict::SmallGap { .. } | TableVerdict::NoSync { .. } => {
            put_interval(text, sink, page, table)
        }
    }
}
