//! The commands on a table and a trace.
ghost use Rattle.bus_tool.specs.inside.Acting.{DoesBoth, EndsOnTrace};
ghost use Rattle.bus_tool.specs.Forms.{OnTrace, IsNear};
ghost use Rattle.bus_trace.specs.Traces.{IsTrace};

use crate::audit::audit;
use crate::diagnose::diagnose;
use crate::forms::TraceCommand;
use crate::refusal::{Outcome, ToolRefusal};
use crate::wave::wave;
use bus_command::{Traced, after_writing, take_traced};
use bus_filter::write_received;
use bus_outer::{Sink, Source};
use bus_table::Table;
use bus_trace::Trace;
use bus_vote::write_votes;
use std::alloc::Global;

/// Answers a command to a table and a trace. All the memory of the command is taken before its first written byte.
fn answer<K: Sink>(
    alloc: Global,
    command: TraceCommand,
    table: &Table,
    trace: &Trace,
    out: &mut K,
) -> Outcome
    requires trace { IsTrace trace.now }
    requires near { IsNear command }
    ensures { EndsOnTrace ⟦<K as Sink>⟧ command table.now trace.now out.old out.new result }
{
    match command {
        TraceCommand::Receive => after_writing(
            write_received(table, trace.list(), out),
            Outcome::Done,
        ),
        TraceCommand::Audit => audit(alloc, table, trace, out),
        TraceCommand::Vote => after_writing(write_votes(table, trace, out), Outcome::Done),
        TraceCommand::Wave => wave(table, trace, out),
        TraceCommand::Diagnose { bounds } => diagnose(table, trace, bounds, out),
    }
}

/// Does a command on the table in the first source and the trace in the second.
pub fn on_trace<S: Source, K: Sink>(
    alloc: Global,
    command: TraceCommand,
    first: &mut S,
    second: &mut S,
    out: &mut K,
) -> Outcome
    requires near { IsNear command }
    ensures { DoesBoth ⟦<S as Source>⟧ ⟦<K as Sink>⟧ (OnTrace command) first.old second.old out.old first.new second.new out.new result }
{
    match take_traced::<ToolRefusal, S>(alloc, first, second) {
        Ok(Traced { table, trace }) => answer(alloc, command, &table, &trace, out),
        Err(outcome) => outcome,
    }
}
