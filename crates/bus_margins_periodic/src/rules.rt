//! The rules of hearing and of synchronization: what room they leave.
ghost use Rattle.std.specs.Prelude.{◌≡◌, ◌<◌, ◌≤◌, ◌^◌, length};
ghost use Rattle.bus_clocks.specs.Buses.{sum_below};
ghost use Rattle.bus_table.specs.Turned.{AreTurned};
ghost use Rattle.bus_table.specs.Turns.{turn_order};
ghost use Rattle.bus_margins.specs.Buses.{bus_of};
ghost use Rattle.bus_margins_periodic.specs.Rooms as rules;

use crate::room::{Room, lesser, room_at};
use crate::times::{count, drop_of, most_message, sg_long, tg_long, tg_short, ti_long, times};
use bus_bounds::Bounds;
use bus_table::{MOST_SENDERS, Table};

/// The least room of a short terminal gap, where each has to be so long.
fn gap_room(
    bounds: Bounds,
    table: &Table,
    places: &[usize; MOST_SENDERS],
    need: u64,
) -> Option<Room>
    requires { AreTurned table.now places.now }
    ensures { result ≡ rules.gap_room (bus_of bounds table.now) need }
{
    let mut least = None;
    for k in 0..count(table) {
        least = lesser(least, room_at(k, need, tg_short(bounds, table, places, k)));
    }
    least
}

/// The room for hearing.
pub(crate) fn hearing_room(
    bounds: Bounds,
    table: &Table,
    places: &[usize; MOST_SENDERS],
) -> Option<Room>
    requires { AreTurned table.now places.now }
    ensures { result ≡ rules.hearing_room (bus_of bounds table.now) }
{
    lesser(
        gap_room(bounds, table, places, drop_of(bounds)),
        gap_room(bounds, table, places, bounds.delay()),
    )
}

/// How long the messages of all senders last at most, one of each.
fn all_messages(bounds: Bounds, table: &Table, places: &[usize; MOST_SENDERS]) -> u64
    requires { AreTurned table.now places.now }
    ensures value { result ≡ sum_below (bus_of bounds table.now).longest (length (turn_order table.now)) }
    ensures bound { result ≤ 2 ^ 38 }
{
    let mut sum = 0;
    for k in 0..count(table) {
        sum += most_message(bounds, table, places, k);
    }
    sum
}

/// What the rule of synchronization needs at a sender.
fn sync_need(
    bounds: Bounds,
    table: &Table,
    places: &[usize; MOST_SENDERS],
    messages: u64,
    k: usize,
) -> u64
    requires turned { AreTurned table.now places.now }
    requires place { k < length table.now.senders }
    requires messages { messages ≡ sum_below (bus_of bounds table.now).longest (length (turn_order table.now)) }
    requires few { messages ≤ 2 ^ 38 }
    ensures { result ≡ rules.sync_need (bus_of bounds table.now) k }
{
    let gaps = times(count(table), sg_long(bounds, table)) + tg_long(bounds, table, places, k);
    messages + gaps + times(count(table) - 1, bounds.delay())
}

/// The room for a synchronization gap.
pub(crate) fn sync_room(
    bounds: Bounds,
    table: &Table,
    places: &[usize; MOST_SENDERS],
) -> Option<Room>
    requires { AreTurned table.now places.now }
    ensures { result ≡ rules.sync_room (bus_of bounds table.now) }
{
    let messages = all_messages(bounds, table, places);
    let have = ti_long(bounds, table) + (count(table) as u64 - 1);
    let mut least = None;
    for k in 0..count(table) {
        least = lesser(
            least,
            room_at(k, sync_need(bounds, table, places, messages, k), have),
        );
    }
    least
}
