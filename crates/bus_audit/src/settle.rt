//! The watches at the settled start.
ghost use Rattle.std.specs.Prelude.{◌≡◌, ◌+◌, ◌<◌, length, map, slice_get, Some, IfOk};
ghost use Rattle.bus_table.specs.Tables as tables;
ghost use Rattle.bus_audit.specs.Breaches as breaches;
ghost use Rattle.bus_audit.specs.inside.Watches as sums;

use crate::watch::Watch;
use bus_medium::timing;
use bus_table::Table;
use bus_trace::Hold;
use std::alloc::{AllocError, Global};

/// How many messages a terminal held.
fn held(holds: &[Hold], number: u8) -> u32
    ensures { result ≡ breaches.held holds.now number }
{
    for hold in holds {
        let hold = *hold;
        if hold.terminal == number {
            return hold.count;
        }
    }
    0
}

/// The watch of sender `k` at the settled start.
fn settled(table: &Table, holds: &[Hold], k: usize) -> Watch
    requires { k < length table.now.senders }
    ensures { (sender : tables.Sender) → slice_get table.now.senders k ≡ Some sender → result ≡ sums.settled table.now holds.now sender }
{
    let timing = timing(table, k);
    let number = table.senders()[k].number();
    Watch {
        number,
        timing,
        due: u64::from(timing.quiet) + u64::from(timing.due),
        gap: u64::from(timing.sg),
        left: held(holds, number),
    }
}

/// The watches of all senders at the settled start, in the order of the table.
pub fn settle_all(alloc: Global, table: &Table, holds: &[Hold]) -> Result<Vec<Watch>, AllocError>
    ensures { IfOk result (λ made. made.items ≡ map (sums.settled table.now holds.now) table.now.senders) }
{
    let count = table.senders().len();
    let mut made = Vec::with_capacity(alloc, count)?;
    for k in 0..count {
        made.push(settled(table, holds, k))?;
    }
    Ok(made)
}
