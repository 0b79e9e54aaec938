//! An aperiodic table in periodic mode.
ghost use Rattle.std.specs.Prelude.{◌≡◌, IfOk, IsTrue};
ghost use Rattle.bus_table.specs.declared.mode.Mode.TheVariants.{Aperiodic};
ghost use Rattle.bus_table.specs.Periodic.{as_periodic};
ghost use Rattle.bus_table.specs.Ranges.{is_ti};

use crate::mode::Mode;
use crate::offsets::copied;
use crate::sender::Sender;
use crate::table::Table;
use std::alloc::{AllocError, Global};

/// Equal senders, in order.
fn copied_senders(alloc: Global, senders: &[Sender]) -> Result<Vec<Sender>, AllocError>
    ensures { IfOk result (λ made. made.items ≡ senders.now) }
{
    let mut made = Vec::with_capacity(alloc, senders.len())?;
    for sender in senders {
        made.push(sender.copied(alloc)?)?;
    }
    Ok(made)
}

/// The aperiodic table in periodic mode, with this transmit interval in bit times, 1000 to 128,000, and nothing else changed: each sender
/// keeps the offset 0. Fails only where memory runs out.
pub fn as_periodic(alloc: Global, table: &Table, ti: u32) -> Result<Table, AllocError>
    requires aperiodic { table.now.mode ≡ Aperiodic }
    requires range { IsTrue (is_ti ti) }
    ensures { IfOk result (λ made. made ≡ as_periodic ti table.now) }
{
    let senders = copied_senders(alloc, table.senders())?;
    let listeners = copied(alloc, table.listeners())?;
    Ok(Table::of_parts(Mode::Periodic, ti, table.sg(), senders, listeners))
}
