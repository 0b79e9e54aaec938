//! Where a row is cut: it is drawn open there.
ghost use Rattle.std.specs.Prelude.{◌≡◌, ◌<◌, ◌≤◌, ◌^◌};
ghost use Rattle.bus_outer.specs.Texts.{Adds};
ghost use Rattle.bus_cycles.specs.RowTexts as definition;
ghost use Rattle.bus_cycles.specs.inside.Bounds.{IsPage};

use crate::cut::{is_cut_before, is_cut_behind};
use crate::cycle::Extent;
use crate::measures::{BOX_BELOW, OPEN_LEFT, OPEN_RIGHT, OPEN_WIDTH};
use crate::page::Page;
use bus_outer::{Sink, TextBuffer};
use bus_pen::measures::PIXEL;
use bus_pen::{Area, Class, begin_titled, end_titled};

/// Where a row that is cut at its beginning is drawn open.
fn before_area(page: &Page, row: u64) -> Area
    requires page { IsPage page.now }
    requires row { row ≤ 500 }
    ensures { result ≡ definition.before_area page.now row }
{
    Area {
        left: OPEN_LEFT,
        top: page.top_of(row) + BOX_BELOW,
        width: OPEN_WIDTH,
        height: page.row_height - 2 * BOX_BELOW,
    }
}

/// Where a row that is cut at its end is drawn open.
fn behind_area(page: &Page, row: Extent) -> Area
    requires page { IsPage page.now }
    requires row { row.place ≤ 500 }
    requires end { row.end ≤ 2 ^ 41 }
    ensures { result ≡ definition.behind_area page.now row }
{
    let left = page.pixel(row.begin, row.end.max(page.seen.to)) + PIXEL;
    Area {
        left,
        top: page.top_of(row.place) + BOX_BELOW,
        width: OPEN_RIGHT.saturating_sub(left),
        height: page.row_height - 2 * BOX_BELOW,
    }
}

/// A row that is cut at its beginning, drawn open there.
pub(crate) fn put_cut_before<K: Sink>(text: &mut TextBuffer, sink: &mut K, page: &Page, row: Extent)
    requires page { IsPage page.now }
    requires row { row.place ≤ 500 }
    ensures { Adds K.held K.faults sink.old sink.new text.old text.new (definition.before_text page.now row) }
{
    if is_cut_before(&page.cycle, page.seen, row) {
        begin_titled(text, sink, Class::Unobserved, before_area(page, row.place));
        text.put(
            sink,
            b"cut: the cycle begins at the settled start, or before the window",
        );
        end_titled(text, sink);
    }
}

/// A row that is cut at its end, drawn open there.
pub(crate) fn put_cut_behind<K: Sink>(text: &mut TextBuffer, sink: &mut K, page: &Page, row: Extent)
    requires page { IsPage page.now }
    requires row { row.place ≤ 500 }
    requires begin { row.begin ≤ 2 ^ 42 }
    requires end { row.end ≤ 2 ^ 41 }
    ensures { Adds K.held K.faults sink.old sink.new text.old text.new (definition.behind_text page.now row) }
{
    if is_cut_behind(&page.cycle, page.seen, row) {
        begin_titled(text, sink, Class::Unobserved, behind_area(page, row));
        text.put(
            sink,
            b"cut: the cycle isn't over where the window or the trace ends",
        );
        end_titled(text, sink);
    }
}
