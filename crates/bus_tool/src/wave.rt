//! The command `wave`: the wave text of a trace.
ghost use Rattle.bus_tool.specs.inside.Acting.{EndsOnTrace};
ghost use Rattle.bus_tool.specs.Forms.{Wave};
ghost use Rattle.bus_trace.specs.Traces.{IsTrace};

use crate::refusal::{Outcome, ToolRefusal, refuse};
use bus_command::after_writing;
use bus_outer::Sink;
use bus_table::Table;
use bus_trace::Trace;
use bus_wave::{spaced, write_wave};

/// Writes the wave text of a trace, which has to be spaced for the table.
pub fn wave<K: Sink>(table: &Table, trace: &Trace, out: &mut K) -> Outcome
    requires { IsTrace trace.now }
    ensures { EndsOnTrace ⟦<K as Sink>⟧ Wave table.now trace.now out.old out.new result }
{
    match spaced(table, trace) {
        Ok(()) => after_writing(write_wave(trace, out), Outcome::Done),
        Err(fault) => refuse(ToolRefusal::Unspaced(fault)),
    }
}
