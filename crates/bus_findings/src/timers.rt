//! The timers of a sender.
ghost use Rattle.std.specs.Prelude.{◌≡◌, ◌^◌, ◌<◌, ◌≤◌};

use bus_table::{Sender, Table};

/// The transmit interval.
pub(crate) fn ti_of(table: &Table) -> u32
    ensures value { result ≡ table.now.ti }
    ensures bound { result ≤ 2 ^ 17 }
    ensures some { 0 < result }
{
    table.ti()
}

/// The synchronization gap.
pub(crate) fn sg_of(table: &Table) -> u32
    ensures value { result ≡ table.now.sg }
    ensures bound { result ≤ 2 ^ 10 }
    ensures some { 0 < result }
{
    table.sg()
}

/// The terminal gap of a sender.
pub(crate) fn tg_of(sender: &Sender) -> u32
    ensures value { result ≡ sender.now.tg }
    ensures bound { result ≤ 2 ^ 10 }
    ensures some { 0 < result }
{
    sender.tg()
}
