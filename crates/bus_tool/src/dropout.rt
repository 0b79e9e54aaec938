//! The command `drop`: a run in which senders fall silent when their messages are spent.
ghost use Rattle.std.specs.Prelude.{◌≡◌, ◌≤◌, ◌<◌, IfErr, IfOk, IfSome, IsTrue};
ghost use Rattle.bus_dropout.specs.DropOut.{LastIsLong};
ghost use Rattle.bus_table.specs.declared.mode.Mode.TheVariants.{Aperiodic};
ghost use Rattle.bus_table.specs.Hands.{are_hands};
ghost use Rattle.bus_command.specs.Kinds.{kind_of};
ghost use Rattle.bus_command.specs.Stages.{Gives};
ghost use Rattle.bus_command.specs.inside.Steps.{IsLate};
ghost use Rattle.bus_command.specs.Taken.{AreReady};
ghost use Rattle.bus_tool.specs.inside.Acting.{EndsOnMessages};
ghost use Rattle.bus_tool.specs.Due.{last_due, may_drop as may_drop_due, can_drop};
ghost use Rattle.bus_tool.specs.Forms.{Drop};
ghost use Rattle.bus_tool.specs.Texts.{IsDropRecording};

use crate::holds::holds;
use crate::observe::look_at;
use crate::refusal::{Outcome, ToolRefusal, refuse};
use crate::run::{refuse_schedule, write_run};
use bus_command::after_writing;
use bus_dropout::{drop_end, last_cycle, run_dropout};
use bus_outer::Sink;
use bus_regime::verdict;
use bus_table::{Hand, Table};
use bus_trace::Trace;
use std::alloc::Global;

/// Whether a last cycle, where there is one, is no shorter than the transmit interval.
fn judge_last(last: Option<u64>, ti: u64) -> Result<(), Outcome>
    ensures value { result ≡ last_due last ti }
    ensures long { IfOk result (λ _. IfSome last (λ least. ti ≤ least)) }
{
    match last {
        None => Ok(()),
        Some(least) => if least < ti {
            Err(refuse(ToolRefusal::ShortLast { least, ti }))
        } else {
            Ok(())
        },
    }
}

/// Whether the senders of an aperiodic table with these hands are run, or why they aren't: the table has to be accepted, and the last
/// cycle no shorter than the transmit interval.
fn may_drop(table: &Table, hands: &[Hand]) -> Result<(), Outcome>
    requires aperiodic { table.now.mode ≡ Aperiodic }
    requires dealt { IsTrue (are_hands table.now.senders hands.now) }
    ensures value { result ≡ may_drop_due table.now hands.now }
    ensures long { IfOk result (λ _. LastIsLong table.now hands.now) }
{
    let verdict = verdict(table);
    if !verdict.is_accepted() {
        return Err(refuse(ToolRefusal::NotAccepted(verdict)));
    }
    judge_last(last_cycle(table, hands), u64::from(table.ti()))
}

/// The trace of the run of an aperiodic table and hands, or why there is none.
fn record(alloc: Global, table: &Table, hands: Vec<Hand>) -> Result<Trace, Outcome>
    requires aperiodic { table.now.mode ≡ Aperiodic }
    requires ready { AreReady table.now hands.items }
    ensures gives { Gives (λ trace _. IsDropRecording table.now hands.items trace) result (can_drop table.now hands.items) }
    ensures late { IfErr result (λ outcome. IsLate (kind_of outcome)) }
{
    may_drop(table, &hands)?;
    let end = drop_end(table, &hands);
    let holds = holds(alloc, &hands)?;
    match run_dropout(alloc, table, hands) {
        Ok(list) => {
            look_at(&list);
            Ok(Trace::of(end as u64, holds, list))
        }
        Err(error) => Err(refuse_schedule(error)),
    }
}

/// Writes what `run` writes, for an aperiodic table whose senders need not have as many messages each: they fall silent when these are
/// spent. The trace ends with the drop-out schedule.
pub fn dropout<K: Sink>(alloc: Global, table: &Table, hands: Vec<Hand>, out: &mut K) -> Outcome
    requires aperiodic { table.now.mode ≡ Aperiodic }
    requires ready { AreReady table.now hands.items }
    ensures { EndsOnMessages ⟦<K as Sink>⟧ Drop table.now hands.items out.old out.new result }
{
    match record(alloc, table, hands) {
        Ok(trace) => after_writing(write_run(table, &trace, out), Outcome::Done),
        Err(outcome) => outcome,
    }
}
