//! The rule of the beginning: what room it leaves.
ghost use Rattle.std.specs.Prelude.{◌≡◌, ◌<◌, ◌≤◌, ◌+◌, ◌^◌, length};
ghost use Rattle.bus_table.specs.Timers.{quiet_of};
ghost use Rattle.bus_table.specs.Turned.{AreTurned};
ghost use Rattle.bus_margins.specs.Buses.{bus_of};
ghost use Rattle.bus_margins_periodic.specs.Buses.{late_of, soon_of};
ghost use Rattle.bus_margins_periodic.specs.Rooms as rules;

use crate::room::{Room, lesser, room_between};
use crate::times::{count, least_time, most_message, most_time, sg_long, tg_long, ti_short};
use bus_bounds::Bounds;
use bus_table::{MOST_SENDERS, Mode, Table, greatest_gap, turn_at};

/// How long the bus was quiet before the settled start of a periodic table, in bit times.
pub(crate) fn quiet(table: &Table) -> u32
    requires { table.now.mode ≡ Mode.Periodic }
    ensures value { result ≡ quiet_of table.now }
    ensures bound { result ≤ 2 ^ 11 }
{
    table.sg() + greatest_gap(table.senders())
}

/// When the sender at a place is due for the first time, at the earliest, behind the first power-up.
#[tactic(auto, using(crate::proofs::PlaceLemmas::soon_is))]
pub(crate) fn soon(
    bounds: Bounds,
    table: &Table,
    places: &[usize; MOST_SENDERS],
    quiet: u32,
    k: usize,
) -> u64
    requires turned { AreTurned table.now places.now }
    requires place { k < length table.now.senders }
    requires quiet { quiet ≡ quiet_of table.now }
    requires brief { quiet ≤ 2 ^ 11 }
    ensures value { result ≡ soon_of bounds table.now k }
    ensures bound { result ≤ 2 ^ 30 }
{
    least_time(bounds, quiet + turn_at(table, places, k).at())
}

/// And at the latest.
#[tactic(auto, using(crate::proofs::PlaceLemmas::late_is))]
pub(crate) fn late(
    bounds: Bounds,
    table: &Table,
    places: &[usize; MOST_SENDERS],
    quiet: u32,
    k: usize,
) -> u64
    requires turned { AreTurned table.now places.now }
    requires place { k < length table.now.senders }
    requires quiet { quiet ≡ quiet_of table.now }
    requires brief { quiet ≤ 2 ^ 11 }
    ensures value { result ≡ late_of bounds table.now k }
    ensures bound { result ≤ 2 ^ 33 }
{
    let sender = turn_at(table, places, k);
    let due = most_time(bounds, quiet + sender.at());
    due.max(sg_long(bounds, table) + most_time(bounds, sender.tg())) + bounds.delay()
}

/// The room for all others to be in sync when the first is due.
fn synced_room(
    bounds: Bounds,
    table: &Table,
    places: &[usize; MOST_SENDERS],
    quiet: u32,
) -> Option<Room>
    requires turned { AreTurned table.now places.now }
    requires quiet { quiet ≡ quiet_of table.now }
    requires brief { quiet ≤ 2 ^ 11 }
    ensures { result ≡ rules.all_synced (bus_of bounds table.now) (soon_of bounds table.now) }
{
    let others = count(table) - 1;
    let have = soon(bounds, table, places, quiet, 0);
    let need = sg_long(bounds, table) + bounds.delay();
    let mut least = None;
    for k in 0..others {
        least = lesser(least, room_between(k + 1, 0, need, have));
    }
    least
}

/// How long behind the first power-up the next sender's terminal gap has elapsed at the latest, in the first round.
fn gap_end(
    bounds: Bounds,
    table: &Table,
    places: &[usize; MOST_SENDERS],
    quiet: u32,
    k: usize,
    next: usize,
) -> u64
    requires turned { AreTurned table.now places.now }
    requires place { k < length table.now.senders }
    requires next { next < length table.now.senders }
    requires quiet { quiet ≡ quiet_of table.now }
    requires brief { quiet ≤ 2 ^ 11 }
    ensures value { result ≡ rules.gap_end (bus_of bounds table.now) (late_of bounds table.now) k next }
    ensures bound { result ≤ 2 ^ 34 }
{
    let end = late(bounds, table, places, quiet, k) + most_message(bounds, table, places, k);
    end + bounds.delay() + tg_long(bounds, table, places, next)
}

/// The room for each to be due behind the one before it.
fn apart_room(
    bounds: Bounds,
    table: &Table,
    places: &[usize; MOST_SENDERS],
    quiet: u32,
) -> Option<Room>
    requires turned { AreTurned table.now places.now }
    requires quiet { quiet ≡ quiet_of table.now }
    requires brief { quiet ≤ 2 ^ 11 }
    ensures { result ≡ rules.all_apart (bus_of bounds table.now) (soon_of bounds table.now) (late_of bounds table.now) }
{
    let mut least = None;
    for k in 0..count(table) - 1 {
        let need = gap_end(bounds, table, places, quiet, k, k + 1);
        let have = soon(bounds, table, places, quiet, k + 1);
        least = lesser(least, room_between(k, k + 1, need, have));
    }
    least
}

/// The room of the first round.
pub(crate) fn first_room(
    bounds: Bounds,
    table: &Table,
    places: &[usize; MOST_SENDERS],
    quiet: u32,
) -> Option<Room>
    requires turned { AreTurned table.now places.now }
    requires quiet { quiet ≡ quiet_of table.now }
    requires brief { quiet ≤ 2 ^ 11 }
    ensures { result ≡ rules.first_room (bus_of bounds table.now) (soon_of bounds table.now) (late_of bounds table.now) }
{
    lesser(
        synced_room(bounds, table, places, quiet),
        apart_room(bounds, table, places, quiet),
    )
}

/// The room for the first sender's second turn behind the last one's first.
fn round_room(
    bounds: Bounds,
    table: &Table,
    places: &[usize; MOST_SENDERS],
    quiet: u32,
) -> Option<Room>
    requires turned { AreTurned table.now places.now }
    requires quiet { quiet ≡ quiet_of table.now }
    requires brief { quiet ≤ 2 ^ 11 }
    ensures { result ≡ rules.round_room (bus_of bounds table.now) (soon_of bounds table.now) (late_of bounds table.now) }
{
    let last = count(table) - 1;
    let need = gap_end(bounds, table, places, quiet, last, 0);
    let have = soon(bounds, table, places, quiet, 0) + ti_short(bounds, table);
    room_between(last, 0, need, have)
}

/// The room for nobody's second turn before that has been heard.
fn again_room(
    bounds: Bounds,
    table: &Table,
    places: &[usize; MOST_SENDERS],
    quiet: u32,
) -> Option<Room>
    requires turned { AreTurned table.now places.now }
    requires quiet { quiet ≡ quiet_of table.now }
    requires brief { quiet ≤ 2 ^ 11 }
    ensures { result ≡ rules.all_again (bus_of bounds table.now) (soon_of bounds table.now) (late_of bounds table.now) }
{
    let last = count(table) - 1;
    let need = late(bounds, table, places, quiet, last) + bounds.delay() + 1;
    let mut least = None;
    for k in 0..count(table) {
        let have = soon(bounds, table, places, quiet, k) + ti_short(bounds, table);
        least = lesser(least, room_between(last, k, need, have));
    }
    least
}

/// The room of the first two rounds.
pub(crate) fn begin_room(
    bounds: Bounds,
    table: &Table,
    places: &[usize; MOST_SENDERS],
    quiet: u32,
) -> Option<Room>
    requires turned { AreTurned table.now places.now }
    requires quiet { quiet ≡ quiet_of table.now }
    requires brief { quiet ≤ 2 ^ 11 }
    ensures { result ≡ rules.begin_room (bus_of bounds table.now) (soon_of bounds table.now) (late_of bounds table.now) }
{
    let second = lesser(
        round_room(bounds, table, places, quiet),
        again_room(bounds, table, places, quiet),
    );
    lesser(first_room(bounds, table, places, quiet), second)
}
