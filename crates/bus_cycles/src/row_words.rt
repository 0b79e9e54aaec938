//! The words of a row, and where it is cut.
ghost use Rattle.std.specs.Prelude.{◌≤◌, ◌^◌};
ghost use Rattle.bus_outer.specs.Texts.{Adds};
ghost use Rattle.bus_cycles.specs.inside.Bounds.{IsPage};
ghost use Rattle.bus_cycles.specs.RowTexts as definition;

use crate::cut::is_whole;
use crate::cycle::Extent;
use crate::measures::{BEGINS_RIGHT, ENDS_LEFT};
use crate::open::{put_cut_before, put_cut_behind};
use crate::page::Page;
use crate::survey::{MOST_ROWS, last_end_of};
use bus_outer::{Sink, TextBuffer};
use bus_pen::measures::{LEFT_MARGIN, RIGHT_MARGIN};
use bus_pen::{Class, begin_words, end_words};

/// The moment at which a row begins, which may lie before the settled start.
fn put_begin<K: Sink>(text: &mut TextBuffer, sink: &mut K, origin_offset: u32, begin: u64)
    ensures { Adds K.held K.faults sink.old sink.new text.old text.new (definition.begin_words origin_offset begin) }
{
    let origin_offset = u64::from(origin_offset);
    if begin < origin_offset {
        text.put_byte(sink, b'-');
        text.put_number(sink, origin_offset - begin);
    } else {
        text.put_number(sink, begin - origin_offset);
    }
}

/// The last end of a row, and whether it is cut.
fn put_last_end<K: Sink>(text: &mut TextBuffer, sink: &mut K, page: &Page, row: Extent)
    requires page { IsPage page.now }
    requires begin { row.begin ≤ 2 ^ 42 }
    requires low { row.end ≤ 2 ^ 41 }
    ensures { Adds K.held K.faults sink.old sink.new text.old text.new (definition.last_end_words page.now row) }
{
    let last_end = last_end_of(page.cycle.origin_offset, row);
    if is_whole(&page.cycle, page.seen, row) {
        text.put_number(sink, last_end);
    } else {
        text.put(sink, b"cut ");
        text.put_number(sink, last_end);
    }
}

/// The words of a row.
fn put_row_words<K: Sink>(text: &mut TextBuffer, sink: &mut K, page: &Page, row: Extent)
    requires page { IsPage page.now }
    requires place { row.place ≤ 500 }
    requires begin { row.begin ≤ 2 ^ 42 }
    requires low { row.end ≤ 2 ^ 41 }
    ensures { Adds K.held K.faults sink.old sink.new text.old text.new (definition.words_of page.now row) }
{
    let line = page.line_of(row.place);
    begin_words(text, sink, Class::Small, LEFT_MARGIN, line);
    text.put_number(sink, row.place + 1);
    end_words(text, sink);
    begin_words(text, sink, Class::Detail, BEGINS_RIGHT, line);
    put_begin(text, sink, page.cycle.origin_offset, row.begin);
    end_words(text, sink);
    begin_words(text, sink, Class::Detail, RIGHT_MARGIN, line);
    put_last_end(text, sink, page, row);
    end_words(text, sink);
}

/// The numbers of the first and of the last terminal of a row.
fn put_ends<K: Sink>(text: &mut TextBuffer, sink: &mut K, page: &Page, row: Extent)
    requires page { IsPage page.now }
    requires place { row.place ≤ 500 }
    ensures { Adds K.held K.faults sink.old sink.new text.old text.new (definition.ends_words page.now row) }
{
    begin_words(text, sink, Class::Small, ENDS_LEFT, page.line_of(row.place));
    text.put_number(sink, row.first);
    text.put_byte(sink, b'-');
    text.put_number(sink, row.last);
    end_words(text, sink);
}

/// What stands at the end of a row: its words, and where it is cut.
fn put_closing<K: Sink>(text: &mut TextBuffer, sink: &mut K, page: &Page, row: Extent)
    requires page { IsPage page.now }
    requires place { row.place ≤ 500 }
    requires begin { row.begin ≤ 2 ^ 42 }
    requires low { row.end ≤ 2 ^ 41 }
    ensures { Adds K.held K.faults sink.old sink.new text.old text.new (definition.closing_text page.now row) }
{
    put_row_words(text, sink, page, row);
    put_ends(text, sink, page, row);
    put_cut_before(text, sink, page, row);
    put_cut_behind(text, sink, page, row);
}

/// What stands at the end of a row, where it is drawn, in the walk for what is plain.
pub(crate) fn put_ending<K: Sink>(
    text: &mut TextBuffer,
    sink: &mut K,
    page: &Page,
    garbled: bool,
    row: Extent,
)
    requires page { IsPage page.now }
    requires begin { row.begin ≤ 2 ^ 42 }
    requires low { row.end ≤ 2 ^ 41 }
    ensures { Adds K.held K.faults sink.old sink.new text.old text.new (definition.ending_text page.now garbled row) }
{
    if !garbled && row.place < MOST_ROWS {
        put_closing(text, sink, page, row);
    }
}
