//! The lawful list on a cable, start by start.
ghost use Rattle.std.specs.Prelude.{ℕ, ◌<◌, ◌≤◌, IfOk, IsTrue};
ghost use Rattle.bus_strings.specs.Limits.{horizon_limit};
ghost use Rattle.bus_table.specs.Hands.{are_hands};
ghost use Rattle.bus_propagation.specs.Lists.{IsListOnCable, IsOnlyListOnCable};
ghost use Rattle.bus_propagation.specs.Numbered.{numbered, ArePlaces};

use crate::seating::seat_all;
use crate::starting::begin;
use crate::turns::next_turn;
use bus_strings::Transmission;
use bus_table::{Hand, Table};
use std::alloc::{AllocError, Global};

/// What the senders of a table do on a straight cable, whenever they are powered up, up to a horizon: of a valid table,
/// accepted or not, with one hand for each sender in the order of the table, whose messages fit.
///
/// Places, 0 to [`MOST_PLACE`](crate::MOST_PLACE), and wakes, below 1,099,511,627,776, are found by the number of the terminal: the
/// element at 0 is nobody's, and what stands behind the end of a list is 0. The horizon is at most 1,099,511,627,776. All are in bit
/// times. Ok is the lawful list on the cable, and the only one. It goes from start to start: to hear a transmission takes
/// the same work however long it is. Fails only where memory runs out.
pub fn observe_delayed(
    alloc: Global,
    table: &Table,
    places: &[u64],
    wakes: &[u64],
    hands: Vec<Hand>,
    horizon: u64,
) -> Result<Vec<Transmission>, AllocError>
    requires hands { IsTrue (are_hands table.now.senders hands.items) }
    requires places { ArePlaces places.now }
    requires wakes { (n : ℕ) → numbered wakes.now n < horizon_limit }
    requires horizon { horizon ≤ horizon_limit }
    ensures lawful { IfOk result (λ list. IsListOnCable table.now hands.items (numbered places.now) (numbered wakes.now) horizon
        list.items) }
    ensures only { IfOk result (λ list. IsOnlyListOnCable table.now hands.items (numbered places.now) (numbered wakes.now) horizon
        list.items) }
{
    let mut seats = seat_all(alloc, table, wakes, hands)?;
    let mut list = Vec::new(alloc);
    let mut moment = 0;
    while let Some(turn) = next_turn(&mut seats, &list, places, moment, horizon) {
        let begun = begin(alloc, &mut seats[turn.place], turn.moment)?;
        list.push(begun)?;
        moment = turn.moment;
    }
    Ok(list)
}
