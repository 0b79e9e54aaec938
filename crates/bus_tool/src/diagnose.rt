//! The command `diagnose`: what is found in a trace as a recording of a real bus.
ghost use Rattle.std.specs.Prelude.{◌≡◌, ◌≤◌};
ghost use Rattle.bus_tool.specs.inside.Acting.{EndsOnTrace};
ghost use Rattle.bus_tool.specs.Due as due;
ghost use Rattle.bus_tool.specs.Forms as form;
ghost use Rattle.bus_tool.specs.Forms.{most_near_delay};

use crate::refusal::Outcome;
use bus_bounds::Bounds;
use bus_command::after_writing;
use bus_findings::write_findings;
use bus_outer::Sink;
use bus_table::Table;
use bus_trace::Trace;

/// What comes of findings once they are written.
fn findings_outcome(fault: bool) -> Outcome
    ensures { result ≡ due.findings_outcome fault }
{
    if fault {
        Outcome::Answered
    } else {
        Outcome::Done
    }
}

/// Writes what is found in a trace, as a recording of a bus of the table within bounds.
pub fn diagnose<K: Sink>(table: &Table, trace: &Trace, bounds: Bounds, out: &mut K) -> Outcome
    requires { bounds.delay ≤ most_near_delay }
    ensures { EndsOnTrace ⟦<K as Sink>⟧ (form.Diagnose bounds) table.now trace.now out.old out.new result }
{
    match write_findings(table, trace, bounds, out) {
        Ok(fault) => after_writing(Ok(()), findings_outcome(fault)),
        Err(failed) => after_writing(Err(failed), Outcome::Done),
    }
}
