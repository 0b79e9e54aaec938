//! The timings of the senders of a table.
ghost use Rattle.std.specs.Prelude.{◌≡◌, ◌+◌, ◌<◌, ◌≤◌, length, slice_get, Some};
ghost use Rattle.bus_table.specs.Tables as tables;
ghost use Rattle.bus_timers.specs.Timings.{IsSound};
ghost use Rattle.bus_medium.specs.Timings.{quiet_of, due_for, timing_of};

use bus_table::{Mode, Sender, Table, greatest_gap};
use bus_timers::Timing;

/// How long a bus with this table was quiet before its settled start, in bit times.
pub fn quiet(table: &Table) -> u32
    ensures value { result ≡ quiet_of table.now }
    ensures least { table.now.sg ≤ result }
    ensures most { result ≤ table.now.sg + 256 }
{
    match table.mode() {
        Mode::Aperiodic => table.sg(),
        Mode::Periodic => table.sg() + greatest_gap(table.senders()),
    }
}

/// When the sender's transmit interval elapses for the first time, in bit times from the settled start.
fn due(mode: Mode, sender: &Sender) -> u32
    ensures { result ≡ due_for mode sender.now }
{
    match mode {
        Mode::Aperiodic => 0,
        Mode::Periodic => sender.at(),
    }
}

/// The timing of sender `k` of the table's list, from 0: the transmit interval and the synchronization gap of the
/// table, the sender's terminal gap, the quiet before the settled start, and when its interval elapses for the first
/// time. It is sound, in both modes.
pub fn timing(table: &Table, k: usize) -> Timing
    requires { k < length table.now.senders }
    ensures value { (sender : tables.Sender) → slice_get table.now.senders k ≡ Some sender → result ≡ timing_of table.now sender }
    ensures sound { IsSound result }
{
    let sender = &table.senders()[k];
    Timing {
        ti: table.ti(),
        sg: table.sg(),
        tg: sender.tg(),
        quiet: quiet(table),
        due: due(table.mode(), sender),
    }
}
