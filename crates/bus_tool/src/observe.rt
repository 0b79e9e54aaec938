//! The command `observe`: what a bus does up to a horizon.
ghost use Rattle.std.specs.Prelude.{◌≤◌, ◌<◌, IfOk};
ghost use Rattle.std.specs.List.{AllByRecursion};
ghost use Rattle.bus_strings.specs.Limits.{horizon_limit};
ghost use Rattle.bus_command.specs.Taken.{AreReady};
ghost use Rattle.bus_tool.specs.inside.Acting.{EndsOnMessages};
ghost use Rattle.bus_tool.specs.Forms.{Observe};
ghost use Rattle.bus_tool.specs.Texts.{IsObserved};
ghost use Rattle.bus_strings.specs.Transmissions.{IsTransmission};

use crate::holds::holds;
use crate::refusal::Outcome;
use bus_command::after_writing;
use bus_medium::Bus;
use bus_outer::Sink;
use bus_strings::Transmission;
use bus_table::{Hand, Table};
use bus_timers::DeadlineCore;
use bus_trace::{Trace, write_trace};
use std::alloc::{AllocError, Global};

/// A look at each transmission, of which nothing is left in the built program, makes its ranges known.
pub fn look_at(list: &[Transmission])
    ensures { AllByRecursion IsTransmission list.now }
{
    for x in list {
        let _ranges = x.message.strings();
    }
}

/// The trace of the senders of a table with these hands, up to a horizon.
fn record(alloc: Global, table: &Table, hands: Vec<Hand>, horizon: u64) -> Result<Trace, AllocError>
    requires ready { AreReady table.now hands.items }
    requires horizon { horizon ≤ horizon_limit }
    ensures { IfOk result (IsObserved table.now hands.items horizon) }
{
    let holds = holds(alloc, &hands)?;
    let mut bus = Bus::<DeadlineCore>::settled(alloc, table, hands)?;
    let list = bus.observe_by_jumps(horizon)?;
    look_at(&list);
    Ok(Trace::of(horizon, holds, list))
}

/// Writes the trace of the senders of a table with hands, up to a horizon.
pub fn observe<K: Sink>(
    alloc: Global,
    horizon: u64,
    table: &Table,
    hands: Vec<Hand>,
    out: &mut K,
) -> Outcome
    requires ready { AreReady table.now hands.items }
    requires horizon { horizon ≤ horizon_limit }
    ensures { EndsOnMessages ⟦<K as Sink>⟧ (Observe horizon) table.now hands.items out.old out.new result }
{
    match record(alloc, table, hands, horizon) {
        Ok(trace) => after_writing(write_trace(&trace, out), Outcome::Done),
        Err(_) => Outcome::NoMemory,
    }
}
