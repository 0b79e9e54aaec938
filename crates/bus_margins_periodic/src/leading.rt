//! The rules by which one clock leads, but those of order and of the first round; and by how much the others sway behind it.
ghost use Rattle.std.specs.Prelude.{◌≡◌, ◌<◌, ◌≤◌, ◌+◌, ◌-◌, ◌^◌, length};
ghost use Rattle.bus_drift.specs.Leading.{least_offset, round_end};
ghost use Rattle.bus_table.specs.Timers.{quiet_of};
ghost use Rattle.bus_table.specs.Turned.{AreTurned};
ghost use Rattle.bus_margins.specs.Buses.{bus_of};
ghost use Rattle.bus_margins_periodic.specs.Buses.{late_of, soon_of};
ghost use Rattle.bus_margins_periodic.specs.Least as least;
ghost use Rattle.bus_margins_periodic.specs.Margins.{sway};
ghost use Rattle.bus_margins_periodic.specs.Rooms as rules;

use crate::begin::{late, soon};
use crate::room::{Room, holds, lesser, room_at, room_between};
use crate::times::{count, most_message, sg_long, short_step, tg_long, ti_long, ti_short};
use bus_bounds::Bounds;
use bus_table::{MOST_SENDERS, Table};

/// The room for the first sender's clock to be the slowest.
pub(crate) fn clock_room(bounds: Bounds, table: &Table) -> Option<Room>
    ensures { result ≡ rules.clock_room (bus_of bounds table.now) }
{
    let mut least = None;
    for k in 0..count(table) - 1 {
        least = lesser(
            least,
            room_between(k + 1, 0, ti_long(bounds, table), ti_short(bounds, table)),
        );
    }
    least
}

/// The least offset of the sender behind that at place k, where that one's is known.
fn next_offset(
    bounds: Bounds,
    table: &Table,
    places: &[usize; MOST_SENDERS],
    quiet: u32,
    k: usize,
    offset: u64,
) -> u64
    requires turned { AreTurned table.now places.now }
    requires place { k + 1 < length table.now.senders }
    requires quiet { quiet ≡ quiet_of table.now }
    requires brief { quiet ≤ 2 ^ 11 }
    requires before { offset ≡ least_offset (bus_of bounds table.now) (soon_of bounds table.now) (late_of bounds table.now) k }
    requires small { offset ≤ 2 ^ 43 }
    ensures value { result ≡ least_offset (bus_of bounds table.now) (soon_of bounds table.now) (late_of bounds table.now) (k + 1) }
    ensures bound { result ≤ offset + 2 ^ 34 }
{
    let _few = count(table);
    let due = late(bounds, table, places, quiet, k + 1);
    let first = due.saturating_sub(soon(bounds, table, places, quiet, 0));
    let end = offset + most_message(bounds, table, places, k);
    first.max(end + bounds.delay() + tg_long(bounds, table, places, k + 1))
}

/// So long behind the first sender's start a round has ended.
fn round_end_of(bounds: Bounds, table: &Table, places: &[usize; MOST_SENDERS], quiet: u32) -> u64
    requires turned { AreTurned table.now places.now }
    requires quiet { quiet ≡ quiet_of table.now }
    requires brief { quiet ≤ 2 ^ 11 }
    ensures value { let offset = least_offset (bus_of bounds table.now) (soon_of bounds table.now) (late_of bounds table.now) in
        result ≡ round_end (bus_of bounds table.now) offset }
    ensures bound { result ≤ 2 ^ 44 }
{
    let mut offset = 0;
    for k in 0..count(table) - 1 {
        offset = next_offset(bounds, table, places, quiet, k, offset);
    }
    offset + most_message(bounds, table, places, count(table) - 1)
}

/// The room for a quiet that synchronizes all but the first, behind a round that ends so late.
fn others_room(bounds: Bounds, table: &Table, ends: u64) -> Option<Room>
    requires { ends ≤ 2 ^ 44 }
    ensures { result ≡ rules.others_room (bus_of bounds table.now) ends }
{
    let need = ends + bounds.delay() + sg_long(bounds, table);
    let mut least = None;
    for k in 0..count(table) - 1 {
        least = lesser(least, room_between(k + 1, 0, need, ti_short(bounds, table)));
    }
    least
}

/// The room for a quiet behind a round that ends so late.
fn pause_room(
    bounds: Bounds,
    table: &Table,
    places: &[usize; MOST_SENDERS],
    ends: u64,
) -> Option<Room>
    requires turned { AreTurned table.now places.now }
    requires ends { ends ≤ 2 ^ 44 }
    ensures { result ≡ rules.pause_room (bus_of bounds table.now) ends }
{
    let _some = count(table);
    let quiet = ends + bounds.delay() + sg_long(bounds, table);
    let need = quiet + tg_long(bounds, table, places, 0);
    lesser(
        room_at(0, need, ti_long(bounds, table)),
        others_room(bounds, table, ends),
    )
}

/// Whether there is a quiet behind each round.
pub(crate) fn pause_holds(
    bounds: Bounds,
    table: &Table,
    places: &[usize; MOST_SENDERS],
    quiet: u32,
) -> bool
    requires turned { AreTurned table.now places.now }
    requires quiet { quiet ≡ quiet_of table.now }
    requires brief { quiet ≤ 2 ^ 11 }
    ensures { let offset = least_offset (bus_of bounds table.now) (soon_of bounds table.now) (late_of bounds table.now) in
        result ≡ least.holds (rules.pause_room (bus_of bounds table.now) (round_end (bus_of bounds table.now) offset)) }
{
    let ends = round_end_of(bounds, table, places, quiet);
    holds(pause_room(bounds, table, places, ends))
}

/// By how much a sender's place in a round may vary.
#[tactic(auto, using(crate::proofs::LoopLemmas::fast_more, crate::proofs::LoopLemmas::fast_none))]
pub(crate) fn sway_of(
    bounds: Bounds,
    table: &Table,
    places: &[usize; MOST_SENDERS],
    quiet: u32,
) -> u64
    requires turned { AreTurned table.now places.now }
    requires quiet { quiet ≡ quiet_of table.now }
    requires brief { quiet ≤ 2 ^ 11 }
    ensures value { result ≡ sway (bus_of bounds table.now) (soon_of bounds table.now) (late_of bounds table.now) }
    ensures bound { result ≤ 2 ^ 44 }
{
    let (mut offset, mut fast, mut greatest) = (0, 0, 0);
    for k in 0..count(table) - 1 {
        offset = next_offset(bounds, table, places, quiet, k, offset);
        fast += short_step(bounds, table, places, k);
        greatest = offset.saturating_sub(fast).max(greatest);
    }
    greatest
}
