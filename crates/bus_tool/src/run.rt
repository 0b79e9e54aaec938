//! The command `run`: what the senders of an accepted table do, and what each terminal receives.
ghost use Rattle.std.specs.Prelude.{◌≡◌, IfErr, IfOk, IsTrue};
ghost use Rattle.bus_command.specs.Kinds.{kind_of};
ghost use Rattle.bus_command.specs.Stages.{Gives};
ghost use Rattle.bus_command.specs.inside.Steps.{IsLate};
ghost use Rattle.bus_command.specs.Taken.{AreReady};
ghost use Rattle.bus_outer.specs.Sinks.{WritesText};
ghost use Rattle.bus_regime.specs.Verdicts.{verdict_of, is_accepted};
ghost use Rattle.bus_schedule.specs.Even.{are_even};
ghost use Rattle.bus_schedule.specs.Uneven.{uneven_of};
ghost use Rattle.bus_strings.specs.Transmissions.{IsClear};
ghost use Rattle.bus_table.specs.Hands.{are_hands};
ghost use Rattle.bus_tool.specs.inside.Acting.{EndsOnMessages};
ghost use Rattle.bus_tool.specs.Due.{even_due, may_run as may_run_due, can_run};
ghost use Rattle.bus_tool.specs.inside.Refused.{schedule_refusal};
ghost use Rattle.bus_tool.specs.Forms.{Run};
ghost use Rattle.bus_tool.specs.Texts.{IsRunRecording, run_text};
ghost use Rattle.bus_trace.specs.Traces.{IsTrace};

use crate::holds::holds;
use crate::observe::look_at;
use crate::refusal::{Outcome, ToolRefusal, refuse, refuse_uneven};
use bus_command::after_writing;
use bus_filter::write_clear_received;
use bus_outer::{Sink, WriteFault};
use bus_regime::verdict;
use bus_schedule::{Ran, ScheduleError, find_uneven, run_settled};
use bus_table::{Hand, Table};
use bus_timers::DeadlineCore;
use bus_trace::{Trace, write_clear_trace};
use std::alloc::Global;

/// What a command comes to that gets no schedule.
pub(crate) fn refuse_schedule(error: ScheduleError) -> Outcome
    ensures { result ≡ schedule_refusal error }
{
    match error {
        ScheduleError::Memory => Outcome::NoMemory,
        ScheduleError::TooLong { end } => refuse(ToolRefusal::TooLong { end }),
    }
}

/// Whether hands are even, or why they aren't.
pub(crate) fn judge_even(table: &Table, hands: &[Hand]) -> Result<(), Outcome>
    requires dealt { IsTrue (are_hands table.now.senders hands.now) }
    ensures value { result ≡ even_due (uneven_of table.now hands.now) }
    ensures even { IfOk result (λ _. IsTrue (are_even table.now hands.now)) }
{
    match find_uneven(table, hands) {
        Some(uneven) => Err(refuse_uneven(uneven)),
        None => Ok(()),
    }
}

/// Whether the senders of a table with these hands are run, or why they aren't: the hands have to be even, and the table accepted.
fn may_run(table: &Table, hands: &[Hand]) -> Result<(), Outcome>
    requires dealt { IsTrue (are_hands table.now.senders hands.now) }
    ensures value { result ≡ may_run_due table.now hands.now }
    ensures even { IfOk result (λ _. IsTrue (are_even table.now hands.now)) }
    ensures accepted { IfOk result (λ _. IsTrue (is_accepted (verdict_of table.now))) }
{
    if let Some(uneven) = find_uneven(table, hands) {
        return Err(refuse_uneven(uneven));
    }
    let verdict = verdict(table);
    if !verdict.is_accepted() {
        return Err(refuse(ToolRefusal::NotAccepted(verdict)));
    }
    Ok(())
}

/// The trace of the run of a table and hands, or why there is none.
fn record(alloc: Global, table: &Table, hands: Vec<Hand>) -> Result<Trace, Outcome>
    requires ready { AreReady table.now hands.items }
    ensures gives { Gives (λ trace _. IsRunRecording table.now hands.items trace) result (can_run table.now hands.items) }
    ensures late { IfErr result (λ outcome. IsLate (kind_of outcome)) }
{
    may_run(table, &hands)?;
    let holds = holds(alloc, &hands)?;
    match run_settled::<DeadlineCore>(alloc, table, hands) {
        Ok(Ran { list, end, .. }) => {
            look_at(&list);
            Ok(Trace::of(end, holds, list))
        }
        Err(error) => Err(refuse_schedule(error)),
    }
}

/// Writes a trace in which no two transmissions overlap, and behind it what each terminal of the table receives.
pub(crate) fn write_run<K: Sink>(
    table: &Table,
    trace: &Trace,
    out: &mut K,
) -> Result<(), WriteFault>
    requires trace { IsTrace trace.now }
    requires clear { IsClear trace.now.list }
    ensures { WritesText K.held K.faults out.old out.new result (run_text table.now trace.now) }
{
    write_clear_trace(trace, out)?;
    write_clear_received(table, trace.list(), out)
}

/// Writes the trace of the senders of a table with hands, up to the end of the closed schedule, and behind it what each terminal of the
/// table receives.
pub fn run<K: Sink>(alloc: Global, table: &Table, hands: Vec<Hand>, out: &mut K) -> Outcome
    requires ready { AreReady table.now hands.items }
    ensures { EndsOnMessages ⟦<K as Sink>⟧ Run table.now hands.items out.old out.new result }
{
    match record(alloc, table, hands) {
        Ok(trace) => after_writing(write_run(table, &trace, out), Outcome::Done),
        Err(outcome) => outcome,
    }
}
