//! The command `audit`: the first breach of a trace, or that there is none.
ghost use Rattle.std.specs.Prelude.{◌≡◌};
ghost use Rattle.bus_tool.specs.inside.Acting.{EndsOnTrace};
ghost use Rattle.bus_tool.specs.Due.{audit_outcome as outcome_of};
ghost use Rattle.bus_tool.specs.Forms.{Audit};
ghost use Rattle.bus_trace.specs.Traces.{IsTrace};

use crate::refusal::Outcome;
use bus_audit::{AuditAnswer, write_answer};
use bus_command::after_writing;
use bus_outer::Sink;
use bus_table::Table;
use bus_trace::Trace;
use std::alloc::Global;

/// What comes of an audit once its line is written.
fn audit_outcome(answer: AuditAnswer) -> Outcome
    ensures { result ≡ outcome_of answer }
{
    match answer {
        AuditAnswer::Lawful { .. } => Outcome::Done,
        AuditAnswer::Breach { .. } => Outcome::Answered,
    }
}

/// Holds a trace to a table, and writes the first breach, or that there is none.
pub fn audit<K: Sink>(alloc: Global, table: &Table, trace: &Trace, out: &mut K) -> Outcome
    requires { IsTrace trace.now }
    ensures { EndsOnTrace ⟦<K as Sink>⟧ Audit table.now trace.now out.old out.new result }
{
    match bus_audit::audit(alloc, table, trace) {
        Ok(answer) => after_writing(write_answer(&answer, out), audit_outcome(answer)),
        Err(_) => Outcome::NoMemory,
    }
}
