//! The command `plan`: offsets of a periodic table.
ghost use Rattle.std.specs.Prelude.{◌≡◌};
ghost use Rattle.bus_outer.specs.Sinks.{WritesText};
ghost use Rattle.bus_outer.specs.Texts.{Adds};
ghost use Rattle.bus_table.specs.declared.mode.Mode.TheVariants.{Periodic};
ghost use Rattle.bus_tool.specs.inside.Acting.{EndsOnTable};
ghost use Rattle.bus_tool.specs.Due.{plan_outcome as outcome_of};
ghost use Rattle.bus_tool.specs.Forms.{Plan};
ghost use Rattle.bus_tool.specs.PlanTexts.{infeasible_line, plan_text};

use crate::refusal::Outcome;
use bus_command::after_writing;
use bus_outer::{Sink, TextBuffer, WriteFault};
use bus_plan::PlanAnswer;
use bus_table::{Table, write_table};
use std::alloc::Global;

/// What comes of a plan once it is written.
fn plan_outcome(answer: &PlanAnswer) -> Outcome
    ensures { result ≡ outcome_of answer.now }
{
    match answer {
        PlanAnswer::Planned(_) => Outcome::Done,
        PlanAnswer::Infeasible { .. } => Outcome::Answered,
    }
}

/// Puts that no offsets are accepted.
fn put_infeasible<K: Sink>(text: &mut TextBuffer, sink: &mut K, least: u64, ti: u64)
    ensures { Adds K.held K.faults sink.old sink.new text.old text.new (infeasible_line least ti) }
{
    text.put(sink, b"INFEASIBLE ");
    text.put_number(sink, least);
    text.put_byte(sink, b' ');
    text.put_number(sink, ti);
    text.put_byte(sink, b'\n');
}

/// Writes that no offsets are accepted.
pub(crate) fn write_infeasible<K: Sink>(least: u64, ti: u64, sink: &mut K) -> Result<(), WriteFault>
    ensures { WritesText K.held K.faults sink.old sink.new result (infeasible_line least ti) }
{
    let mut text = TextBuffer::new();
    put_infeasible(&mut text, sink, least, ti);
    text.finish(sink)
}

/// Writes the canonical text of the planned table, or that there is none.
fn write_plan<K: Sink>(answer: &PlanAnswer, sink: &mut K) -> Result<(), WriteFault>
    ensures { WritesText K.held K.faults sink.old sink.new result (plan_text answer.now) }
{
    match answer {
        PlanAnswer::Planned(table) => write_table(table, sink),
        PlanAnswer::Infeasible { least, ti } => write_infeasible(*least, *ti, sink),
    }
}

/// Chooses the offsets of a periodic table anew, and writes the planned table, or that no offsets are accepted.
pub fn plan<K: Sink>(alloc: Global, table: &Table, out: &mut K) -> Outcome
    requires { table.now.mode ≡ Periodic }
    ensures { EndsOnTable ⟦<K as Sink>⟧ Plan table.now out.old out.new result }
{
    match bus_plan::plan(alloc, table) {
        Ok(answer) => after_writing(write_plan(&answer, out), plan_outcome(&answer)),
        Err(_) => Outcome::NoMemory,
    }
}
