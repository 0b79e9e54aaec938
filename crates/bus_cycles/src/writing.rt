//! The text of a picture that has a row for each cycle.
ghost use Rattle.std.specs.Prelude.{◌<◌};
ghost use Rattle.bus_outer.specs.Sinks.{WritesText};
ghost use Rattle.bus_load.specs.Loads.{IsCarrierOf};
ghost use Rattle.bus_cycles.specs.CyclesTexts.{cycles_text};

use crate::begins::begins_in;
use crate::boxes::put_rows;
use crate::breach::put_breach;
use crate::counting::counts;
use crate::cut::seen_of;
use crate::cycle::Cycle;
use crate::due::put_dues;
use crate::faults::put_faults;
use crate::listing::listed_of;
use crate::load::put_loads;
use crate::page::Page;
use crate::plot::{height_of, put_above, put_below};
use crate::survey::{breach_in, take_survey};
use crate::table_marks::put_marks;
use bus_load::Stretch;
use bus_outer::{Sink, TextBuffer, WriteFault};
use bus_regime::TableVerdict;
use bus_shapes::{Told, put_frame, put_tail};
use bus_table::Table;
use bus_trace::{Trace, Window};

/// Writes the picture of a window of a trace on a table as SVG: a row for each cycle, one below the other from the same left edge, at most
/// 500, and above them the words of the verdict and of what is told of the trace. The first breach that an audit found is marked, or each
/// fault among findings. What is garbled is drawn over all that is plain; the marks of the table under both, that of the breach and those
/// of faults over both. It goes over the trace five times, once more in periodic mode, and twice more to mark faults, and takes no memory.
/// The carrier of the trace's list is given, since that takes memory to tell.
///
/// At `WriteFault` the sink has taken a front of the text, and its count of faults rose.
pub fn write_cycles<K: Sink>(
    window: &Window,
    verdict: &TableVerdict,
    told: &Told,
    table: &Table,
    trace: &Trace,
    carrier: &[Stretch],
    sink: &mut K,
) -> Result<(), WriteFault>
    requires carrier { IsCarrierOf carrier.now trace.now.list }
    ensures { WritesText K.held K.faults sink.old sink.new result (cycles_text window.now verdict.now told.now table.now trace.now) }
{
    let cycle = Cycle::new(table);
    let breach = breach_in(window, told);
    let counts = counts(window, trace);
    let survey = take_survey(&cycle, seen_of(&counts), breach, window, trace);
    let page = Page::new(table, &survey, &counts);
    let starts = begins_in(&page.cycle, window, trace);
    let begins = starts.as_slice();
    let listed = listed_of(&page, &survey, told, table, begins, window, trace);
    let height = height_of(&page);
    let list = trace.list();
    let mut text = TextBuffer::new();
    put_frame(&mut text, sink, height, verdict, told, table, list, &counts);
    put_above(&mut text, sink, &page, &survey, listed);
    put_dues(&mut text, sink, &page, table, trace.holds(), begins);
    put_marks(&mut text, sink, &page, table, verdict);
    put_rows(&mut text, sink, &page, window, trace);
    put_loads(&mut text, sink, &page, window, trace, carrier);
    put_below(&mut text, sink, &page);
    put_breach(&mut text, sink, &page, breach, survey.marked);
    put_faults(&mut text, sink, &page, told, window, trace);
    put_tail(&mut text, sink);
    text.finish(sink)
}
