//! What is found behind the last transmission.
ghost use Rattle.std.specs.Prelude.{◌≡◌, ◌<◌, ◌^◌, length};
ghost use Rattle.bus_findings.specs.Recorded.{settled_of};
ghost use Rattle.bus_findings.specs.Silences.{silence_of};
ghost use Rattle.bus_findings.specs.inside.Standing.{IsWatch};

use crate::judgement::Due;
use crate::lateness::due_behind;
use crate::watch::Watch;
use bus_bounds::Bounds;
use bus_table::{Sender, Table};
use bus_trace::Trace;

/// When a sender was due for certain behind its last start, before the horizon, if it was.
pub(crate) fn silence(
    bounds: Bounds,
    table: &Table,
    settled: u64,
    trace: &Trace,
    sender: &Sender,
    watch: Watch,
) -> Option<Due>
    requires settled { settled ≡ settled_of bounds table.now }
    requires low { settled < 2 ^ 40 }
    requires watch { IsWatch bounds table.now trace.now.list sender.now.number (length trace.now.list) watch }
    ensures { result ≡ silence_of bounds table.now trace.now sender.now }
{
    let list = trace.list();
    let last = watch.last?;
    let horizon = trace.horizon();
    due_behind(
        bounds,
        table,
        settled,
        sender,
        list,
        last,
        list.len(),
        horizon,
    )
}
