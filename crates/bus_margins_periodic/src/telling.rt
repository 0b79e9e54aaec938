//! The margins of a periodic table.
ghost use Rattle.std.specs.Prelude.{◌≡◌, ◌≤◌, ◌^◌};
ghost use Rattle.bus_table.specs.Timers.{quiet_of};
ghost use Rattle.bus_table.specs.Turned.{AreTurned};
ghost use Rattle.bus_margins.specs.Buses.{bus_of};
ghost use Rattle.bus_margins_periodic.specs.Buses.{late_of, soon_of};
ghost use Rattle.bus_margins_periodic.specs.Margins as specs;
ghost use Rattle.bus_margins_periodic.specs.Margins.{level_of, margins_of};

use crate::begin::{begin_room, first_room, quiet};
use crate::keeping::{lead_order_holds, order_holds};
use crate::leading::{clock_room, pause_holds, sway_of};
use crate::level::{Level, Margins};
use crate::order::order_room;
use crate::room::{Rooms, holds};
use crate::rounds::longest;
use crate::rules::{hearing_room, sync_room};
use crate::times::{ti_long, ti_short};
use bus_bounds::Bounds;
use bus_table::{MOST_SENDERS, Mode, Table, turn_places};

/// The least room by each rule.
fn rooms(bounds: Bounds, table: &Table, places: &[usize; MOST_SENDERS], quiet: u32) -> Rooms
    requires turned { AreTurned table.now places.now }
    requires quiet { quiet ≡ quiet_of table.now }
    requires brief { quiet ≤ 2 ^ 11 }
    ensures { result ≡ specs.rooms_by (bus_of bounds table.now) (soon_of bounds table.now) (late_of bounds table.now) }
{
    Rooms {
        hearing: hearing_room(bounds, table, places),
        sync: sync_room(bounds, table, places),
        order: order_room(bounds, table, places),
        begin: begin_room(bounds, table, places, quiet),
    }
}

/// Whether all rules hold by which any clock may be the slowest. The one that takes longest comes last.
fn turns_hold(bounds: Bounds, table: &Table, places: &[usize; MOST_SENDERS], quiet: u32) -> bool
    requires turned { AreTurned table.now places.now }
    requires quiet { quiet ≡ quiet_of table.now }
    requires brief { quiet ≤ 2 ^ 11 }
    ensures { result ≡ specs.all_hold (specs.rooms_by (bus_of bounds table.now) (soon_of bounds table.now) (late_of bounds table.now)) }
{
    holds(sync_room(bounds, table, places))
        && holds(hearing_room(bounds, table, places))
        && holds(begin_room(bounds, table, places, quiet))
        && order_holds(bounds, table, places)
}

/// Whether all rules hold by which the first sender leads.
fn lead_holds(bounds: Bounds, table: &Table, places: &[usize; MOST_SENDERS], quiet: u32) -> bool
    requires turned { AreTurned table.now places.now }
    requires quiet { quiet ≡ quiet_of table.now }
    requires brief { quiet ≤ 2 ^ 11 }
    ensures { result ≡ specs.lead_holds (bus_of bounds table.now) (soon_of bounds table.now) (late_of bounds table.now) }
{
    holds(hearing_room(bounds, table, places))
        && holds(clock_room(bounds, table))
        && lead_order_holds(bounds, table, places)
        && pause_holds(bounds, table, places, quiet)
        && holds(first_room(bounds, table, places, quiet))
}

/// The level of a table whose senders in turn order are known, and the quiet before its settled start.
pub(crate) fn level_with(
    bounds: Bounds,
    table: &Table,
    places: &[usize; MOST_SENDERS],
    quiet: u32,
) -> Level
    requires turned { AreTurned table.now places.now }
    requires quiet { quiet ≡ quiet_of table.now }
    requires brief { quiet ≤ 2 ^ 11 }
    ensures { result ≡ level_of bounds table.now }
{
    if turns_hold(bounds, table, places, quiet) {
        Level::Turns
    } else if lead_holds(bounds, table, places, quiet) {
        Level::Leads
    } else {
        Level::Neither
    }
}

/// How far apart successive starts of a sender are at least, and at most.
fn apart(
    bounds: Bounds,
    table: &Table,
    places: &[usize; MOST_SENDERS],
    quiet: u32,
    level: Level,
) -> (u64, u64)
    requires turned { AreTurned table.now places.now }
    requires quiet { quiet ≡ quiet_of table.now }
    requires brief { quiet ≤ 2 ^ 11 }
    ensures least { result.0 ≡ specs.least_apart (bus_of bounds table.now) (soon_of bounds table.now) (late_of bounds table.now) level }
    ensures most { result.1 ≡ specs.most_apart (bus_of bounds table.now) (soon_of bounds table.now) (late_of bounds table.now) level }
{
    match level {
        Level::Turns => (ti_short(bounds, table), longest(bounds, table, places)),
        Level::Leads => {
            let sway = sway_of(bounds, table, places, quiet);
            let least = ti_short(bounds, table).saturating_sub(sway);
            (least, ti_long(bounds, table) + sway)
        }
        Level::Neither => (0, 0),
    }
}

/// The level of a periodic table. It takes no memory.
pub fn level_of(table: &Table, bounds: Bounds) -> Level
    requires mode { table.now.mode ≡ Mode.Periodic }
    ensures { result ≡ level_of bounds table.now }
{
    level_with(bounds, table, &turn_places(table), quiet(table))
}

/// The level of a periodic table, and the room that it leaves by each rule. It takes no memory.
pub fn margins(table: &Table, bounds: Bounds) -> Margins
    requires mode { table.now.mode ≡ Mode.Periodic }
    ensures { result ≡ margins_of bounds table.now }
{
    let places = turn_places(table);
    let quiet = quiet(table);
    let rooms = rooms(bounds, table, &places, quiet);
    let level = level_with(bounds, table, &places, quiet);
    let (least, most) = apart(bounds, table, &places, quiet, level);
    Margins {
        level,
        least,
        most,
        rooms,
    }
}
