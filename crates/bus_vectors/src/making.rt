//! The table and the messages of a number.
ghost use Rattle.std.specs.Prelude.{◌≡◌, ◌≤◌, IfOk, IsOk};
ghost use Rattle.bus_table.specs.Fits.{items_fit};
ghost use Rattle.bus_table.specs.Hands.{hands_of};
ghost use Rattle.bus_vectors.specs.Made.{most_number, made_table, made_items};
ghost use Rattle.bus_vectors.specs.MadeLaws.{AreEvenItems};

use crate::hands::hands;
use crate::items::items;
use crate::laws::{made_items_are_even, made_items_fit};
use crate::tables::table;
use bus_strings::Payloads;
use bus_table::{Hand, Table};
use std::alloc::{AllocError, Global};

/// The table and the messages that a number of at most 9999 makes: 2 to 31 senders in aperiodic mode, whose transmit interval is just
/// their shortest cycle, one listener, and 10 to 500 messages of 30 to 40 data words for each sender. They fit the table. Fails only
/// where memory runs out.
pub fn make(alloc: Global, number: u32) -> Result<(Table, Payloads), AllocError>
    requires { number ≤ most_number }
    ensures table { IfOk result (λ made. made.0 ≡ made_table number) }
    ensures items { IfOk result (λ made. made.1 ≡ made_items number) }
    ensures fit { IsOk (items_fit (made_table number) (made_items number)) }
    // Each sender has as many items.
    ensures even { AreEvenItems number }
{
    made_items_fit();
    made_items_are_even();
    let table = table(alloc, number)?;
    let items = items(alloc, number)?;
    Ok((table, items))
}

/// The table that a number of at most 9999 makes, and the hands that `bus_hands::hands` gives of its items, which aren't made for that.
/// Fails only where memory runs out.
pub fn make_hands(alloc: Global, number: u32) -> Result<(Table, Vec<Hand>), AllocError>
    requires { number ≤ most_number }
    ensures table { IfOk result (λ made. made.0 ≡ made_table number) }
    ensures hands { IfOk result (λ made. made.1.items ≡ hands_of (made_table number) (made_items number)) }
{
    let table = table(alloc, number)?;
    let hands = hands(alloc, number)?;
    Ok((table, hands))
}
