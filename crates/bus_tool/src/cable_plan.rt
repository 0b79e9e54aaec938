//! `plan` for a delay.
ghost use Rattle.std.specs.Prelude.{◌≡◌, IfOk};
ghost use Rattle.bus_outer.specs.Sinks.{WritesText};
ghost use Rattle.bus_table.specs.declared.mode.Mode.TheVariants.{Periodic};
ghost use Rattle.bus_tool.specs.inside.Acting.{EndsOnTable};
ghost use Rattle.bus_tool.specs.Due.{cable_plan_of, cable_plan_outcome as outcome_of};
ghost use Rattle.bus_tool.specs.Forms.{IsPlannable, PlanFor};
ghost use Rattle.bus_tool.specs.PlanTexts.{cable_plan_text, undecided_line};

use crate::forms::PlanDelay;
use crate::plan::write_infeasible;
use crate::refusal::Outcome;
use bus_cable_plan::CablePlan;
use bus_command::after_writing;
use bus_outer::{Sink, TextBuffer, WriteFault};
use bus_table::{Table, write_table};
use std::alloc::{AllocError, Global};

/// What comes of a plan for a delay once it is written.
fn cable_plan_outcome(answer: &CablePlan) -> Outcome
    ensures { result ≡ outcome_of answer.now }
{
    match answer {
        CablePlan::Planned(_) => Outcome::Done,
        CablePlan::Infeasible { .. } | CablePlan::Undecided { .. } => Outcome::Answered,
    }
}

/// Writes that it isn't known whether some offsets bear the delay.
fn write_undecided<K: Sink>(least: u64, ti: u64, sink: &mut K) -> Result<(), WriteFault>
    ensures { WritesText K.held K.faults sink.old sink.new result (undecided_line least ti) }
{
    let mut text = TextBuffer::new();
    text.put(sink, b"UNDECIDED ");
    text.put_number(sink, least);
    text.put_byte(sink, b' ');
    text.put_number(sink, ti);
    text.put_byte(sink, b'\n');
    text.finish(sink)
}

/// Writes the canonical text of the planned table, or that there is none, or that neither is known.
fn write_cable_plan<K: Sink>(answer: &CablePlan, sink: &mut K) -> Result<(), WriteFault>
    ensures { WritesText K.held K.faults sink.old sink.new result (cable_plan_text answer.now) }
{
    match answer {
        CablePlan::Planned(table) => write_table(table, sink),
        CablePlan::Infeasible { least, ti } => write_infeasible(*least, *ti, sink),
        CablePlan::Undecided { least, ti } => write_undecided(*least, *ti, sink),
    }
}

/// The plan of a periodic table for this delay.
fn planned_for(alloc: Global, table: &Table, delay: PlanDelay) -> Result<CablePlan, AllocError>
    requires periodic { table.now.mode ≡ Periodic }
    requires limit { IsPlannable delay }
    ensures { IfOk result (λ answer. answer ≡ cable_plan_of delay table.now) }
{
    match delay {
        PlanDelay::Bits(d) => bus_cable_plan::plan_for(alloc, table, d),
        PlanDelay::Greatest => bus_cable_plan::plan_best(alloc, table),
    }
}

/// Chooses the offsets of a periodic table so that it bears this delay, and writes the planned table, or that there is none, or that
/// neither is known.
pub fn plan_for<K: Sink>(alloc: Global, table: &Table, delay: PlanDelay, out: &mut K) -> Outcome
    requires periodic { table.now.mode ≡ Periodic }
    requires limit { IsPlannable delay }
    ensures { EndsOnTable ⟦<K as Sink>⟧ (PlanFor delay) table.now out.old out.new result }
{
    match planned_for(alloc, table, delay) {
        Ok(answer) => after_writing(write_cable_plan(&answer, out), cable_plan_outcome(&answer)),
        Err(_) => Outcome::NoMemory,
    }
}
