//! The senders of a table in the order of their terminal gaps.
ghost use Rattle.std.specs.Prelude.{◌≡◌, ◌-◌, IfOk};
ghost use Rattle.bus_table.specs.declared.mode.Mode.TheVariants.{Periodic};
ghost use Rattle.bus_cable_plan.specs.Plans.{by_gap};

use bus_table::{Table, with_offsets};
use std::alloc::{AllocError, Global};

/// The greatest terminal gap that a table can have, in bit times.
const MOST_TG: u32 = 256;

/// The periodic table with its senders in the order of their terminal gaps, the greatest first. Fails only where memory runs out.
pub(crate) fn by_gap(alloc: Global, table: &Table) -> Result<Table, AllocError>
    requires periodic { table.now.mode ≡ Periodic }
    ensures { IfOk result (λ made. made ≡ by_gap table.now) }
{
    let senders = table.senders();
    let mut offsets = Vec::with_capacity(alloc, senders.len())?;
    for sender in senders {
        offsets.push(MOST_TG - sender.tg())?;
    }
    with_offsets(alloc, table, &offsets)
}
