//! The margins of an aperiodic table.
ghost use Rattle.std.specs.Prelude.{◌≡◌, ◌≤◌, ◌<◌, ◌^◌, ◌+◌, [], Some, None, slice_get};
ghost use Rattle.bus_table.specs.Turned.{AreTurned};
ghost use Rattle.bus_table.specs.Turns.{turn_order};
ghost use Rattle.bus_margins.specs.Least as specs;
ghost use Rattle.bus_margins.specs.Margins.{margins_of};
ghost use Rattle.bus_margins.specs.Rooms as rules;
ghost use Rattle.bus_margins.specs.Rooms.{level_of};
ghost use Rattle.bus_margins.specs.inside.Telling as telling;

use crate::level::{Level, Margins};
use crate::room::{Room, Rooms, holds, lesser};
use crate::rule::{PairRule, Rule, alone_room, first_cycle_room, left_out, pair_room, room_by};
use crate::speaking::{lasts, least_spoken, most_spoken, sg_of};
use crate::times::{least_time, most_time};
use bus_bounds::Bounds;
use bus_table::{MOST_SENDERS, Mode, Sender, Table, turn_at, turn_places};

/// The first sender in turn order.
fn first_of<'a>(table: &'a Table, places: &[usize; MOST_SENDERS]) -> &'a Sender
    requires { AreTurned table.now places.now }
    ensures { slice_get (turn_order table.now) 0 ≡ Some result.now }
{
    let _some = table.senders();
    turn_at(table, places, 0)
}

/// The least room that a rule leaves at the senders behind the first.
fn least_behind(
    bounds: Bounds,
    table: &Table,
    places: &[usize; MOST_SENDERS],
    spoken: u64,
    rule: Rule,
) -> Option<Room>
    requires turned { AreTurned table.now places.now }
    requires spoken { spoken ≡ rules.least_spoken bounds table.now.senders }
    requires few { spoken ≤ 2 ^ 37 }
    ensures { result ≡ telling.least_behind bounds table.now rule (turn_order table.now) }
{
    let mut least = None;
    for k in 1..table.senders().len() {
        let first = first_of(table, places);
        let sender = turn_at(table, places, k);
        least = lesser(
            least,
            Some(room_by(bounds, table, first, spoken, rule, sender)),
        );
    }
    least
}

/// The least room that a rule leaves at all senders.
fn least_of(
    bounds: Bounds,
    table: &Table,
    places: &[usize; MOST_SENDERS],
    spoken: u64,
    rule: Rule,
) -> Option<Room>
    requires turned { AreTurned table.now places.now }
    requires spoken { spoken ≡ rules.least_spoken bounds table.now.senders }
    requires few { spoken ≤ 2 ^ 37 }
    ensures { result ≡ telling.least_of bounds table.now rule (turn_order table.now) }
{
    let first = first_of(table, places);
    let room = room_by(bounds, table, first, spoken, rule, first);
    lesser(
        Some(room),
        least_behind(bounds, table, places, spoken, rule),
    )
}

/// The least room that a rule leaves between a sender and another behind it: neighbours leave it.
fn least_pair(
    bounds: Bounds,
    table: &Table,
    places: &[usize; MOST_SENDERS],
    rule: PairRule,
) -> Option<Room>
    requires mode { table.now.mode ≡ Mode.Aperiodic }
    requires turned { AreTurned table.now places.now }
    ensures { let order = telling.spoken_of rule (turn_order table.now) in
        result ≡ specs.least (rules.pairs (telling.pair_room bounds table.now rule) order) }
{
    let _ranges = bounds.delay();
    let mut least = None;
    for k in left_out(rule) + 1..table.senders().len() {
        let before = turn_at(table, places, k - 1);
        let sender = turn_at(table, places, k);
        least = lesser(least, Some(pair_room(bounds, table, rule, before, sender)));
    }
    least
}

/// The least room that the rule of waiting leaves: each with the first, and the first with the second, leave it.
fn least_waiting(
    bounds: Bounds,
    table: &Table,
    places: &[usize; MOST_SENDERS],
    spoken: u64,
) -> Option<Room>
    requires turned { AreTurned table.now places.now }
    requires spoken { spoken ≡ rules.least_spoken bounds table.now.senders }
    requires few { spoken ≤ 2 ^ 37 }
    ensures { result ≡ specs.least (rules.with_others (rules.waiting_room bounds table.now) [] (turn_order table.now)) }
{
    if table.senders().len() == 1 {
        return None;
    }
    let first = first_of(table, places);
    let second = turn_at(table, places, 1);
    let room = room_by(bounds, table, second, spoken, Rule::Waiting, first);
    lesser(
        Some(room),
        least_behind(bounds, table, places, spoken, Rule::Waiting),
    )
}

/// The least room that the rule of joining leaves.
fn least_joining(bounds: Bounds, table: &Table, places: &[usize; MOST_SENDERS]) -> Option<Room>
    requires mode { table.now.mode ≡ Mode.Aperiodic }
    requires turned { AreTurned table.now places.now }
    ensures { result ≡ rules.joining_least bounds table.now (turn_order table.now) }
{
    if table.senders().len() == 1 {
        return Some(alone_room(bounds, table, first_of(table, places)));
    }
    least_pair(bounds, table, places, PairRule::Joining)
}

/// The least room that the rule of cycles leaves.
fn least_cycle(
    bounds: Bounds,
    table: &Table,
    places: &[usize; MOST_SENDERS],
    spoken: u64,
) -> Option<Room>
    requires turned { AreTurned table.now places.now }
    requires spoken { spoken ≡ rules.least_spoken bounds table.now.senders }
    requires few { spoken ≤ 2 ^ 37 }
    ensures { result ≡ rules.cycle_least bounds table.now (turn_order table.now) }
{
    let room = first_cycle_room(bounds, table, first_of(table, places), spoken);
    lesser(
        Some(room),
        least_behind(bounds, table, places, spoken, Rule::Cycle),
    )
}

/// The level that these rooms give where messages last, or not.
fn level_by(lasting: bool, rooms: Rooms) -> Level
    ensures { result ≡ rules.level_by lasting rooms }
{
    let order = lasting
        && holds(rooms.whole)
        && holds(rooms.drop)
        && holds(rooms.turns)
        && holds(rooms.opening)
        && holds(rooms.waiting)
        && holds(rooms.joining);
    if order && holds(rooms.interval) {
        Level::Any
    } else if order && holds(rooms.cycle) {
        Level::Common
    } else {
        Level::Neither
    }
}

/// The rooms of a table.
fn rooms(bounds: Bounds, table: &Table, places: &[usize; MOST_SENDERS]) -> Rooms
    requires mode { table.now.mode ≡ Mode.Aperiodic }
    requires turned { AreTurned table.now places.now }
    ensures { result ≡ rules.rooms_of bounds table.now }
{
    let spoken = least_spoken(bounds, table);
    Rooms {
        whole: least_of(bounds, table, places, spoken, Rule::Whole),
        drop: least_behind(bounds, table, places, spoken, Rule::Drop),
        turns: least_pair(bounds, table, places, PairRule::Turns),
        opening: least_pair(bounds, table, places, PairRule::Opening),
        waiting: least_waiting(bounds, table, places, spoken),
        joining: least_joining(bounds, table, places),
        interval: least_of(bounds, table, places, spoken, Rule::Interval),
        cycle: least_cycle(bounds, table, places, spoken),
    }
}

/// The level of a table whose senders in turn order are known.
pub(crate) fn level_with(bounds: Bounds, table: &Table, places: &[usize; MOST_SENDERS]) -> Level
    requires mode { table.now.mode ≡ Mode.Aperiodic }
    requires turned { AreTurned table.now places.now }
    ensures { result ≡ level_of bounds table.now }
{
    level_by(lasts(bounds, table), rooms(bounds, table, places))
}

/// The level of an aperiodic table. It takes no memory.
pub fn level_of(table: &Table, bounds: Bounds) -> Level
    requires { table.now.mode ≡ Mode.Aperiodic }
    ensures { result ≡ level_of bounds table.now }
{
    level_with(bounds, table, &turn_places(table))
}

/// The level of an aperiodic table, and the room that it leaves by each rule. It takes no memory.
pub fn margins(table: &Table, bounds: Bounds) -> Margins
    requires { table.now.mode ≡ Mode.Aperiodic }
    ensures { result ≡ margins_of bounds table.now }
{
    let rooms = rooms(bounds, table, &turn_places(table));
    Margins {
        level: level_by(lasts(bounds, table), rooms),
        least: least_time(bounds, sg_of(table)) + least_spoken(bounds, table),
        most: most_time(bounds, sg_of(table)) + most_spoken(bounds, table),
        rooms,
    }
}
