//! Turn order, by places in the table.
ghost use Rattle.std.specs.Prelude.{IfOk};
ghost use Rattle.bus_schedule.specs.inside.Places.{AreInTurn};

use bus_table::Table;
use std::alloc::{AllocError, Global};

/// The places of the senders in the table, in turn order.
pub fn turn_places(alloc: Global, table: &Table) -> Result<Vec<usize>, AllocError>
    ensures { IfOk result (λ places. AreInTurn table.now places.items) }
{
    let found = bus_table::turn_places(table);
    let count = table.senders().len();
    let mut places = Vec::with_capacity(alloc, count)?;
    for turn in 0..count {
        places.push(found[turn])?;
    }
    Ok(places)
}
