//! The commands on a table.
ghost use Rattle.bus_tool.specs.inside.Acting.{DoesFirst, EndsOnTable, IsOfMode};
ghost use Rattle.bus_tool.specs.Forms.{OnTable, table_mode, IsWithinDelay};

use crate::cable_plan::plan_for;
use crate::check::check;
use crate::design::design;
use crate::forms::TableCommand;
use crate::inputs::take_table_for;
use crate::margins::margins;
use crate::plan::plan;
use crate::refusal::Outcome;
use crate::report::report;
use crate::tolerance::tolerance;
use crate::witness::witness;
use bus_command::after_writing;
use bus_outer::{Sink, Source};
use bus_table::{Table, write_table};
use std::alloc::Global;

/// Answers a command to a table. All the memory of the command is taken before its first written byte.
fn answer<K: Sink>(alloc: Global, command: &TableCommand, table: &Table, out: &mut K) -> Outcome
    requires mode { IsOfMode (table_mode command.now) table.now }
    requires delay { IsWithinDelay command.now }
    ensures { EndsOnTable ⟦<K as Sink>⟧ command.now table.now out.old out.new result }
{
    match command {
        TableCommand::Check => check(table, out),
        TableCommand::Tolerance => tolerance(table, out),
        TableCommand::Tidy => after_writing(write_table(table, out), Outcome::Done),
        TableCommand::Report => report(alloc, table, out),
        TableCommand::Witness => witness(alloc, table, out),
        TableCommand::Plan => plan(alloc, table, out),
        TableCommand::PlanFor { delay } => plan_for(alloc, table, *delay, out),
        TableCommand::Margins { bounds } => margins(table, *bounds, out),
        TableCommand::Design { bounds, order } => design(alloc, table, *bounds, *order, out),
    }
}

/// Does a command on the table in the first source, of which it may need one mode.
pub fn on_table<S: Source, K: Sink>(
    alloc: Global,
    command: TableCommand,
    first: &mut S,
    out: &mut K,
) -> Outcome
    requires delay { IsWithinDelay command }
    ensures { DoesFirst ⟦<S as Source>⟧ ⟦<K as Sink>⟧ (OnTable command) first.old out.old first.new out.new result }
{
    match take_table_for(alloc, command.mode(), first) {
        Ok(table) => answer(alloc, &command, &table, out),
        Err(outcome) => outcome,
    }
}
