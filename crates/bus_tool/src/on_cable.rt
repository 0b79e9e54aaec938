//! The command on a table and a cable.
ghost use Rattle.std.specs.Prelude.{◌≤◌, IfOk};
ghost use Rattle.bus_outer.specs.Sinks.{WritesText};
ghost use Rattle.bus_strings.specs.Limits.{horizon_limit};
ghost use Rattle.bus_trace.specs.Traces.{IsTrace};
ghost use Rattle.bus_command.specs.Taken.{AreReady};
ghost use Rattle.bus_tool.specs.inside.Acting.{DoesBoth, EndsOnCable};
ghost use Rattle.bus_tool.specs.Forms as form;
ghost use Rattle.bus_tool.specs.Texts.{IsOnCable, on_cable_text};

use crate::holds::holds;
use crate::inputs::{OnCable, take_on_cable};
use crate::observe::look_at;
use crate::refusal::Outcome;
use bus_cable::{Cable, observe_on, write_heard};
use bus_command::after_writing;
use bus_outer::{Sink, Source, WriteFault};
use bus_table::{Hand, Table};
use bus_trace::{Trace, write_trace};
use std::alloc::{AllocError, Global};

/// The trace of the senders of a table with these hands on a cable, up to a horizon.
fn record(
    alloc: Global,
    table: &Table,
    cable: &Cable,
    hands: Vec<Hand>,
    horizon: u64,
) -> Result<Trace, AllocError>
    requires ready { AreReady table.now hands.items }
    requires horizon { horizon ≤ horizon_limit }
    ensures { IfOk result (IsOnCable table.now cable.now hands.items horizon) }
{
    let holds = holds(alloc, &hands)?;
    let list = observe_on(alloc, table, cable, hands, horizon)?;
    look_at(&list);
    Ok(Trace::of(horizon, holds, list))
}

/// Writes a trace, and behind it what each terminal of the table hears of its list on a cable.
fn write_on_cable<K: Sink>(
    table: &Table,
    cable: &Cable,
    trace: &Trace,
    out: &mut K,
) -> Result<(), WriteFault>
    requires { IsTrace trace.now }
    ensures { WritesText K.held K.faults out.old out.new result (on_cable_text table.now cable.now trace.now) }
{
    write_trace(trace, out)?;
    write_heard(table, cable, trace.list(), out)
}

/// Writes the trace of the senders of a table with hands on a cable, up to a horizon, and behind it what each terminal of the table hears.
fn observe_cable<K: Sink>(alloc: Global, horizon: u64, on: OnCable, out: &mut K) -> Outcome
    requires ready { AreReady on.table on.hands.items }
    requires horizon { horizon ≤ horizon_limit }
    ensures { EndsOnCable ⟦<K as Sink>⟧ horizon on.table on.cable on.hands.items out.old out.new result }
{
    let OnCable {
        table,
        cable,
        hands,
    } = on;
    match record(alloc, &table, &cable, hands, horizon) {
        Ok(trace) => after_writing(write_on_cable(&table, &cable, &trace, out), Outcome::Done),
        Err(_) => Outcome::NoMemory,
    }
}

/// `cable`: writes what the senders of the table in the first source do on the cable in the second, up to a horizon, and behind it what
/// each terminal hears.
pub fn cable<S: Source, K: Sink>(
    alloc: Global,
    horizon: u64,
    first: &mut S,
    second: &mut S,
    out: &mut K,
) -> Outcome
    requires { horizon ≤ horizon_limit }
    ensures { DoesBoth ⟦<S as Source>⟧ ⟦<K as Sink>⟧ (form.Cable horizon) first.old second.old out.old first.new second.new out.new result }
{
    match take_on_cable(alloc, first, second) {
        Ok(on) => observe_cable(alloc, horizon, on, out),
        Err(outcome) => outcome,
    }
}
