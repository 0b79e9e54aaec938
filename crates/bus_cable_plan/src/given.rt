//! What the offsets bear that a table has as it is given.
ghost use Rattle.std.specs.Prelude.{◌≡◌, IfOk};
ghost use Rattle.bus_table.specs.declared.mode.Mode.TheVariants.{Periodic};
ghost use Rattle.bus_cable_plan.specs.Answers as answers;
ghost use Rattle.bus_cable_plan.specs.Plans.{given_offsets};

use bus_reach::bears;
use bus_regime::verdict;
use bus_table::laws::table_is_valid;
use bus_table::{Table, with_offsets};
use std::alloc::{AllocError, Global};

/// Whether the table bears this delay at the offsets that it has.
pub(crate) fn bears_as_given(table: &Table, d: u32) -> bool
    ensures { result ≡ answers.bears_as_given d table.now }
{
    verdict(table).is_accepted() && bears(table, u64::from(d))
}

/// The offsets that the table has, in table order. Fails only where memory runs out.
fn given_offsets(alloc: Global, table: &Table) -> Result<Vec<u32>, AllocError>
    ensures { IfOk result (λ made. made.items ≡ given_offsets table.now) }
{
    let senders = table.senders();
    let mut offsets = Vec::with_capacity(alloc, senders.len())?;
    for sender in senders {
        offsets.push(sender.at())?;
    }
    Ok(offsets)
}

/// The periodic table as it is given. Fails only where memory runs out.
pub(crate) fn as_given(alloc: Global, table: &Table) -> Result<Table, AllocError>
    requires periodic { table.now.mode ≡ Periodic }
    ensures { IfOk result (λ made. made ≡ table.now) }
{
    table_is_valid(table);
    let offsets = given_offsets(alloc, table)?;
    with_offsets(alloc, table, &offsets)
}
