//! The dumps.
ghost use Rattle.std.specs.Prelude.{◌≡◌, None};
ghost use Rattle.bus_command.specs.Acts.{Ends};
ghost use Rattle.bus_command.specs.Outside.{sink_seen};
ghost use Rattle.bus_command.specs.declared.outcome.Outcome.TheVariants.{Done};
ghost use Rattle.bus_dump.specs.Doubled as dumps;
ghost use Rattle.bus_trace.specs.Traces.{IsTrace};
ghost use Rattle.bus_view.specs.inside.Acting.{EndsOnView};
ghost use Rattle.bus_view.specs.Due.{drawing, window_or_whole};
ghost use Rattle.bus_command.specs.Readers.{by_trace};
ghost use Rattle.bus_view.specs.Forms.{Dump as Dumped};

use crate::breach::first_breach;
use crate::refusal::{Outcome, refuse};
use crate::windowing::window_or_whole;
use bus_command::after_writing;
use bus_dump::{Dump, doubled, write_dump};
use bus_outer::Sink;
use bus_regime::verdict;
use bus_table::Table;
use bus_trace::{Trace, Window};
use std::alloc::Global;

/// Writes this dump of a trace on a table, in which no entry is doubled; of a window of it, or of all.
fn draw_single<K: Sink>(
    alloc: Global,
    dump: Dump,
    window: Option<Window>,
    table: &Table,
    trace: &Trace,
    out: &mut K,
) -> Outcome
    requires trace { IsTrace trace.now }
    requires single { dumps.doubled trace.now.list ≡ None }
    ensures { Ends by_trace Done (λ text. text ≡ drawing dump (window_or_whole window trace.now) table.now trace.now)
        (sink_seen ⟦<K as Sink>⟧ out.old) (sink_seen ⟦<K as Sink>⟧ out.new) result }
{
    match first_breach(alloc, table, trace) {
        Ok(breach) => {
            let window = window_or_whole(window, trace);
            let verdict = verdict(table);
            let drawn = write_dump(dump, &window, breach, &verdict, table, trace, out);
            after_writing(drawn, Outcome::Done)
        }
        Err(_) => Outcome::NoMemory,
    }
}

/// Writes this dump of a trace on a table, where no entry is doubled; of a window of it, or of all.
pub fn draw<K: Sink>(
    alloc: Global,
    dump: Dump,
    window: Option<Window>,
    table: &Table,
    trace: &Trace,
    out: &mut K,
) -> Outcome
    requires { IsTrace trace.now }
    ensures { EndsOnView ⟦<K as Sink>⟧ (Dumped dump window) table.now trace.now out.old out.new result }
{
    match doubled(trace) {
        Some(entry) => refuse(entry as u64),
        None => draw_single(alloc, dump, window, table, trace, out),
    }
}
