//! The save file of a wave viewer.
ghost use Rattle.bus_trace.specs.Traces.{IsTrace};
ghost use Rattle.bus_view.specs.inside.Acting.{EndsOnView};
ghost use Rattle.bus_view.specs.Forms.{SaveFile};

use crate::breach::named_breach;
use crate::refusal::Outcome;
use crate::windowing::window_or_whole;
use bus_command::after_writing;
use bus_dump::write_save_file;
use bus_outer::Sink;
use bus_table::Table;
use bus_trace::{Trace, Window};
use std::alloc::Global;

/// Writes the save file of a trace on a table, with the first breach; of a window of it, or of all.
pub fn save<K: Sink>(
    alloc: Global,
    window: Option<Window>,
    table: &Table,
    trace: &Trace,
    out: &mut K,
) -> Outcome
    requires { IsTrace trace.now }
    ensures { EndsOnView ⟦<K as Sink>⟧ (SaveFile window) table.now trace.now out.old out.new result }
{
    match named_breach(alloc, table, trace) {
        Ok(breach) => {
            let window = window_or_whole(window, trace);
            let saved = write_save_file(&window, breach, table, trace, out);
            after_writing(saved, Outcome::Done)
        }
        Err(_) => Outcome::NoMemory,
    }
}
