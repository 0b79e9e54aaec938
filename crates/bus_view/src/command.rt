//! The command of any words.
ghost use Rattle.std.specs.Prelude.{◌≡◌};
ghost use Rattle.bus_command.specs.Outside.{call};
ghost use Rattle.bus_trace.specs.Traces.{IsTrace};
ghost use Rattle.bus_view.specs.Acts.{Acts};
ghost use Rattle.bus_view.specs.inside.Acting.{DoesBoth, EndsOnRecorded};
ghost use Rattle.bus_view.specs.Forms as forms;
ghost use Rattle.bus_view.specs.Forms.{OnTrace, IsNear};

use crate::drawing::draw;
use crate::forms::{Form, View};
use crate::itself::tell_itself;
use crate::paging::page;
use crate::painting::{paint, paint_judged};
use crate::refusal::{Doubled, Outcome};
use crate::saving::save;
use crate::words::form_of;
use bus_command::{Recorded, take_recorded};
use bus_outer::{Sink, Source};
use bus_strings::laws::texts_read_as_their_items;
use bus_table::Table;
use bus_table::laws::readings_have_their_cause;
use bus_trace::Trace;
use bus_trace::laws::traces_read_back;
use std::alloc::Global;

/// Whether a view shows what stands behind a trace: a picture tells what terminals hear of it.
fn hears(view: &View) -> bool
    ensures { result ≡ forms.hears view.now }
{
    match view {
        View::Dump(..) | View::SaveFile(_) => false,
        View::Picture(..) | View::Judged(..) => true,
    }
}

/// Writes this view of a trace on a table, behind which so many receptions are told to be garbled, where that is known.
fn answer<K: Sink>(
    alloc: Global,
    view: View,
    table: &Table,
    trace: &Trace,
    garbled: Option<u64>,
    out: &mut K,
) -> Outcome
    requires trace { IsTrace trace.now }
    requires near { IsNear view }
    ensures { EndsOnRecorded ⟦<K as Sink>⟧ view table.now trace.now garbled out.old out.new result }
{
    match view {
        View::Dump(dump, window) => draw(alloc, dump, window, table, trace, out),
        View::SaveFile(window) => save(alloc, window, table, trace, out),
        View::Picture(picture, window) => paint(alloc, picture, window, table, trace, garbled, out),
        View::Judged(picture, bounds, window) => {
            paint_judged(alloc, picture, bounds, window, table, trace, garbled, out)
        }
    }
}

/// Writes this view of the trace in the second source, on the table in the first.
fn show<S: Source, K: Sink>(
    alloc: Global,
    view: View,
    first: &mut S,
    second: &mut S,
    out: &mut K,
) -> Outcome
    requires near { IsNear view }
    ensures { DoesBoth ⟦<S as Source>⟧ ⟦<K as Sink>⟧ (OnTrace view) first.old second.old out.old first.new second.new out.new result }
{
    match take_recorded::<Doubled, S>(alloc, hears(&view), first, second) {
        Ok(
            Recorded {
                table,
                trace,
                garbled,
            },
        ) => answer(alloc, view, &table, &trace, garbled, out),
        Err(outcome) => outcome,
    }
}

/// Does the command that the words ask for, and says what it came to. All its memory is taken before its first written byte.
///
/// `Usage` comes exactly where the words are no form; it takes no memory and pulls no source. The other refusals come in the order
/// of `docs/FORMATS.md`. The second source isn't pulled where the first is refused.
pub fn act<S: Source, K: Sink>(
    alloc: Global,
    words: &[String],
    first: &mut S,
    second: &mut S,
    out: &mut K,
) -> Outcome
    ensures { Acts (call ⟦<S as Source>⟧ ⟦<K as Sink>⟧ words.now first.old second.old out.old first.new second.new out.new) result }
{
    readings_have_their_cause();
    texts_read_as_their_items();
    traces_read_back();
    match form_of(words) {
        None => Outcome::Usage,
        Some(Form::OnTrace(view)) => show(alloc, view, first, second, out),
        Some(Form::OnItself(about)) => tell_itself(about, out),
        Some(Form::Page(asked)) => page(alloc, asked, first, out),
    }
}
