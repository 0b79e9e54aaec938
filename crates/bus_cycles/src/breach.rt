//! The first breach in a picture.
ghost use Rattle.std.specs.Prelude.{◌<◌, ◌≤◌, ◌^◌, IfSome};
ghost use Rattle.bus_outer.specs.Texts.{Adds};
ghost use Rattle.bus_pen.specs.declared.class.Class.TheVariants.{Breach};
ghost use Rattle.bus_pen.specs.Shapes.{box_text};
ghost use Rattle.bus_cycles.specs.CyclesTexts as definition;
ghost use Rattle.bus_cycles.specs.inside.Bounds.{IsPage};

use crate::cycle::Extent;
use crate::measures::{BREACH_BELOW, BREACH_HEIGHT, BREACH_LEFT, BREACH_OVER, BREACH_WIDTH};
use crate::page::Page;
use crate::survey::MOST_ROWS;
use bus_outer::{Sink, TextBuffer};
use bus_pen::{Area, Class, put_box, put_words};

/// A part of the line.
fn put_part<K: Sink>(text: &mut TextBuffer, sink: &mut K, left: u64, top: u64)
    requires left { left < 2097152 }
    requires top { top ≤ 162000 }
    ensures { Adds K.held K.faults sink.old sink.new text.old text.new (box_text Breach (definition.breach_part left top)) }
{
    let area = Area {
        left,
        top,
        width: BREACH_WIDTH,
        height: BREACH_HEIGHT,
    };
    put_box(text, sink, Class::Breach, area);
}

/// The line across its row, above and below the boxes, and the word behind them.
fn put_at<K: Sink>(text: &mut TextBuffer, sink: &mut K, page: &Page, left: u64, row: u64)
    requires page { IsPage page.now }
    requires left { left < 2097152 }
    requires row { row ≤ 500 }
    ensures { Adds K.held K.faults sink.old sink.new text.old text.new (definition.breach_at page.now left row) }
{
    let top = page.top_of(row);
    put_part(text, sink, left, top - BREACH_OVER);
    put_part(text, sink, left, top + page.row_height - BREACH_BELOW);
    let line = page.line_of(row);
    put_words(text, sink, Class::Note, BREACH_LEFT, line, b"breach");
}

/// The breach at this moment, in this row where it is drawn.
fn put_in_row<K: Sink>(text: &mut TextBuffer, sink: &mut K, page: &Page, moment: u64, row: Extent)
    requires page { IsPage page.now }
    requires moment { moment ≤ 2 ^ 40 }
    ensures { Adds K.held K.faults sink.old sink.new text.old text.new (definition.breach_in_row page.now moment row) }
{
    if row.place < MOST_ROWS {
        let left = page.pixel(row.begin, moment);
        put_at(text, sink, page, left, row.place);
    }
}

/// The breach at this moment, in this row.
pub(crate) fn put_breach<K: Sink>(
    text: &mut TextBuffer,
    sink: &mut K,
    page: &Page,
    breach: Option<u64>,
    marked: Option<Extent>,
)
    requires page { IsPage page.now }
    requires moment { IfSome breach (λ moment. moment ≤ 2 ^ 40) }
    ensures { Adds K.held K.faults sink.old sink.new text.old text.new (definition.breach_text page.now breach marked) }
{
    if let Some(moment) = breach {
        if let Some(row) = marked {
            put_in_row(text, sink, page, moment, row);
        }
    }
}
