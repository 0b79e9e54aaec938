//! The command `schedule`: the closed schedule, without a bus.
ghost use Rattle.std.specs.Prelude.{◌≡◌, IfErr};
ghost use Rattle.bus_command.specs.Kinds.{kind_of};
ghost use Rattle.bus_command.specs.Stages.{Gives};
ghost use Rattle.bus_command.specs.inside.Steps.{IsLate};
ghost use Rattle.bus_command.specs.Taken.{AreReady};
ghost use Rattle.bus_tool.specs.inside.Acting.{EndsOnMessages};
ghost use Rattle.bus_tool.specs.Due.{can_schedule};
ghost use Rattle.bus_tool.specs.Forms.{Schedule};
ghost use Rattle.bus_tool.specs.Texts.{scheduled};

use crate::holds::holds;
use crate::observe::look_at;
use crate::refusal::Outcome;
use crate::run::{judge_even, refuse_schedule};
use bus_command::after_writing;
use bus_outer::Sink;
use bus_schedule::{closed, closed_end};
use bus_table::{Hand, Table};
use bus_trace::{Trace, write_trace};
use std::alloc::Global;

/// The closed schedule of a table and hands as a trace, or why there is none.
fn record(alloc: Global, table: &Table, hands: &[Hand]) -> Result<Trace, Outcome>
    requires ready { AreReady table.now hands.now }
    ensures gives { Gives (λ trace _. trace ≡ scheduled table.now hands.now) result (can_schedule table.now hands.now) }
    ensures late { IfErr result (λ outcome. IsLate (kind_of outcome)) }
{
    judge_even(table, hands)?;
    let holds = holds(alloc, hands)?;
    match closed(alloc, table, hands) {
        Ok(list) => {
            look_at(&list);
            let end = closed_end(table, hands);
            Ok(Trace::of(end as u64, holds, list))
        }
        Err(error) => Err(refuse_schedule(error)),
    }
}

/// Writes the closed schedule of a table, accepted or not, and hands as the text of a trace up to its end. No bus is run.
pub fn schedule<K: Sink>(alloc: Global, table: &Table, hands: Vec<Hand>, out: &mut K) -> Outcome
    requires ready { AreReady table.now hands.items }
    ensures { EndsOnMessages ⟦<K as Sink>⟧ Schedule table.now hands.items out.old out.new result }
{
    match record(alloc, table, &hands) {
        Ok(trace) => after_writing(write_trace(&trace, out), Outcome::Done),
        Err(outcome) => outcome,
    }
}
