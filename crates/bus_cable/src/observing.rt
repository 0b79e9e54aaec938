//! The bus on a cable.
ghost use Rattle.std.specs.Prelude.{◌≤◌, IfOk, IsTrue};
ghost use Rattle.bus_strings.specs.Limits.{horizon_limit};
ghost use Rattle.bus_table.specs.Hands.{are_hands};
ghost use Rattle.bus_propagation.specs.Lists.{IsListOnCable, IsOnlyListOnCable};
ghost use Rattle.bus_cable.specs.Cables.{place_on, wakes_on};

use crate::cable::Cable;
use crate::spots::spots;
use bus_propagation::observe_delayed;
use bus_strings::Transmission;
use bus_table::{Hand, Table};
use std::alloc::{AllocError, Global};

/// What the senders of a table do on a cable with these hands, in the bit times before a horizon of at most 1,099,511,627,776: the lawful
/// list with the delays and wakes of the cable, and there is no other. It goes from start to start. A place or a wake that the cable
/// doesn't name is 0. Fails only where memory runs out.
pub fn observe_on(
    alloc: Global,
    table: &Table,
    cable: &Cable,
    hands: Vec<Hand>,
    horizon: u64,
) -> Result<Vec<Transmission>, AllocError>
    requires hands { IsTrue (are_hands table.now.senders hands.items) }
    requires horizon { horizon ≤ horizon_limit }
    ensures lawful { IfOk result (λ list. IsListOnCable table.now hands.items (place_on cable.now) (wakes_on cable.now) horizon
        list.items) }
    ensures only { IfOk result (λ list. IsOnlyListOnCable table.now hands.items (place_on cable.now) (wakes_on cable.now) horizon
        list.items) }
{
    let places = spots(cable.places());
    let wakes = spots(cable.wakes());
    observe_delayed(alloc, table, &places, &wakes, hands, horizon)
}
