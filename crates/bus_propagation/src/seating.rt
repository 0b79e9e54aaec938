//! The senders of a table, powered up when they like.
ghost use Rattle.std.specs.Prelude.{◌≡◌, ℕ, ◌<◌, length, map, slice_get, Some, IfOk, IsTrue};
ghost use Rattle.std.specs.List.{AllByRecursion};
ghost use Rattle.bus_strings.specs.Limits.{horizon_limit};
ghost use Rattle.bus_table.specs.Tables as tables;
ghost use Rattle.bus_table.specs.Hands.{are_hands};
ghost use Rattle.bus_table.specs.Valid.{is_valid};
ghost use Rattle.bus_medium.specs.Timings.{quiet_of, stations_of};
ghost use Rattle.bus_propagation.specs.Numbered.{numbered};
ghost use Rattle.bus_propagation.specs.inside.Seats.{station_of};
ghost use Rattle.bus_propagation.specs.inside.Turns.{IsSeated, IsSeatOf};

use crate::places::number_of;
use crate::seat::{Seat, interval_end};
use crate::timers::powered_up;
use bus_medium::timing;
use bus_table::{Hand, Table};
use std::alloc::{AllocError, Global};

/// Sender `k` of the table, with its hand and its wake.
fn seat(table: &Table, k: usize, hand: Hand, wakes: &[u64]) -> Seat
    requires within { k < length table.now.senders }
    requires wakes { (n : ℕ) → numbered wakes.now n < horizon_limit }
    ensures { (sender : tables.Sender) → slice_get table.now.senders k ≡ Some sender
        → IsSeatOf table.now sender hand (numbered wakes.now) result }
{
    let timing = timing(table, k);
    let terminal = hand.terminal;
    let mut seat = Seat {
        terminal,
        timing,
        messages: hand.messages,
        sent: 0,
        timers: powered_up(timing, number_of(wakes, terminal)),
        cursor: 0,
        next: None,
    };
    seat.next = interval_end(&seat);
    seat
}

/// The senders of the table, each with its hand and its wake.
pub fn seat_all(
    alloc: Global,
    table: &Table,
    wakes: &[u64],
    hands: Vec<Hand>,
) -> Result<Vec<Seat>, AllocError>
    requires hands { IsTrue (are_hands table.now.senders hands.items) }
    requires wakes { (n : ℕ) → numbered wakes.now n < horizon_limit }
    ensures stations { IfOk result (λ seats. map station_of seats.items ≡ stations_of table.now hands.items) }
    ensures seated { IfOk result (λ seats. AllByRecursion (IsSeated (quiet_of table.now) (numbered wakes.now)) seats.items) }
    ensures valid { IsTrue (is_valid table.now) }
{
    let mut seats = Vec::with_capacity(alloc, table.senders().len())?;
    for hand in hands {
        let seat = seat(table, seats.len(), hand, wakes);
        seats.push(seat)?;
    }
    Ok(seats)
}
