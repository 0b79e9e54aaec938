//! How long a round of turns lasts at most.
ghost use Rattle.std.specs.Prelude.{◌≡◌, ◌≤◌, ◌+◌, ◌-◌, ◌^◌, length};
ghost use Rattle.bus_drift.specs.Pace.{greatest_below, longest_round};
ghost use Rattle.bus_table.specs.Turned.{AreTurned};
ghost use Rattle.bus_table.specs.Turns.{turn_order};
ghost use Rattle.bus_margins.specs.Buses.{bus_of};
ghost use Rattle.bus_margins_periodic.specs.inside.Cases.{round_from};

use crate::times::{count, long_step, short_step, ti_long};
use bus_bounds::Bounds;
use bus_table::{MOST_SENDERS, Table};

/// The longest round of a turn that waits for the interval of this one.
#[tactic(auto, using(crate::proofs::LoopLemmas::fast_more, crate::proofs::LoopLemmas::slow_more, crate::proofs::LoopLemmas::fast_none, crate::proofs::LoopLemmas::slow_none))]
fn longest_from(bounds: Bounds, table: &Table, places: &[usize; MOST_SENDERS], late: usize) -> u64
    requires turned { AreTurned table.now places.now }
    requires first { late ≤ 128 }
    ensures value { result ≡ greatest_below (round_from (bus_of bounds table.now) late) (length (turn_order table.now)) }
    ensures bound { result ≤ 2 ^ 42 }
{
    let (mut slow, mut fast, mut greatest) = (0u64, 0, 0);
    for m in 0..count(table) {
        greatest = (ti_long(bounds, table) + slow.saturating_sub(fast)).max(greatest);
        slow += long_step(bounds, table, places, late + m);
        fast += short_step(bounds, table, places, late + m);
    }
    greatest
}

/// The longest round of all.
pub(crate) fn longest(bounds: Bounds, table: &Table, places: &[usize; MOST_SENDERS]) -> u64
    requires { AreTurned table.now places.now }
    ensures value { result ≡ longest_round (bus_of bounds table.now) }
    ensures bound { result ≤ 2 ^ 42 }
{
    let mut greatest = 0;
    for late in 0..count(table) {
        greatest = longest_from(bounds, table, places, late).max(greatest);
    }
    greatest
}
