//! Other offsets for the senders of a periodic table.
ghost use Rattle.std.specs.Prelude.{◌≡◌, ◌<◌, length, IfOk};
ghost use Rattle.std.specs.List.{All};
ghost use Rattle.bus_table.specs.declared.mode.Mode.TheVariants.{Periodic};
ghost use Rattle.bus_table.specs.Offsets.{at_offsets, with_offsets};
ghost use Rattle.bus_table.specs.Ranges.{most_ti};

use crate::listener::Listener;
use crate::sender::Sender;
use crate::table::Table;
use std::alloc::{AllocError, Global};

/// The senders at these offsets, in order.
fn moved(alloc: Global, senders: &[Sender], offsets: &[u32]) -> Result<Vec<Sender>, AllocError>
    requires count { length offsets.now ≡ length senders.now }
    requires below { All (λ at. at < most_ti) offsets.now }
    ensures { IfOk result (λ made. made.items ≡ at_offsets offsets.now senders.now) }
{
    let mut made = Vec::with_capacity(alloc, senders.len())?;
    for i in 0..senders.len() {
        made.push(senders[i].moved(alloc, offsets[i])?)?;
    }
    Ok(made)
}

/// Equal listeners, in order.
pub(crate) fn copied(alloc: Global, listeners: &[Listener]) -> Result<Vec<Listener>, AllocError>
    ensures { IfOk result (λ made. made.items ≡ listeners.now) }
{
    let mut made = Vec::with_capacity(alloc, listeners.len())?;
    for listener in listeners {
        made.push(listener.copied(alloc)?)?;
    }
    Ok(made)
}

/// The periodic table with these offsets in bit times, one for each sender in table order and each below the transmit interval, and
/// nothing else changed. Fails only where memory runs out.
pub fn with_offsets(alloc: Global, table: &Table, offsets: &[u32]) -> Result<Table, AllocError>
    requires periodic { table.now.mode ≡ Periodic }
    requires count { length offsets.now ≡ length table.now.senders }
    requires below { All (λ at. at < table.now.ti) offsets.now }
    ensures { IfOk result (λ made. made ≡ with_offsets offsets.now table.now) }
{
    let senders = moved(alloc, table.senders(), offsets)?;
    let listeners = copied(alloc, table.listeners())?;
    Ok(Table::of_parts(table.mode(), table.ti(), table.sg(), senders, listeners))
}
