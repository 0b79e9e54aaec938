//! How much a periodic table bears.
ghost use Rattle.std.specs.Prelude.{◌≡◌, ◌≢◌, ◌≤◌, ◌<◌, true, IsNone, IfSome, ◌↔◌};
ghost use Rattle.bus_table.specs.Turned.{AreTurned};
ghost use Rattle.bus_margins.specs.Bearing as parts;
ghost use Rattle.bus_margins.specs.Bearing.{IsBorne};
ghost use Rattle.bus_margins.specs.Buses.{bus_of};
ghost use Rattle.bus_margins.specs.Greatest.{IsGreatest};
ghost use Rattle.bus_margins_periodic.specs.Bearing as bearing;
ghost use Rattle.bus_margins_periodic.specs.Margins.{level_of};
ghost use Rattle.bus_margins_periodic.specs.inside.Cases.{may_keep, may_with};

use crate::begin::quiet;
use crate::keeping::order_holds;
use crate::leading::clock_room;
use crate::level::Level;
use crate::room::holds;
use crate::telling::level_with;
use bus_bounds::{Bounds, MOST_CLOCKS};
use bus_margins::{Borne, Part, most_part, part_of, with_part};
use bus_table::{MOST_SENDERS, Mode, Table, turn_places};

/// Whether the table has such a level with another value of one of the bounds.
fn keeps(
    bounds: Bounds,
    table: &Table,
    places: &[usize; MOST_SENDERS],
    level: Level,
    part: Part,
    n: u64,
) -> bool
    requires mode { table.now.mode ≡ Mode.Periodic }
    requires turned { AreTurned table.now places.now }
    requires most { n ≤ parts.most_part part }
    ensures { result ≡ bearing.keeps bounds table.now level part n }
{
    let other = level_with(with_part(bounds, part, n), table, places, quiet(table));
    level.is_kept_by(other)
}

/// The greatest value of the delay, or of the jitter: what is kept with one value is kept with each smaller one.
fn greatest_narrow(
    bounds: Bounds,
    table: &Table,
    places: &[usize; MOST_SENDERS],
    level: Level,
    part: Part,
) -> u64
    requires mode { table.now.mode ≡ Mode.Periodic }
    requires turned { AreTurned table.now places.now }
    requires level { level_of bounds table.now ≡ level }
    requires part { part ≢ Part.Clocks }
    ensures { IsGreatest (bearing.keeps bounds table.now level part) (parts.most_part part) result }
{
    let _valid = table.senders();
    let _ranges = bounds.delay();
    let mut low = part_of(bounds, part);
    let mut high = most_part(part);
    while low < high {
        let middle = high - (high - low) / 2;
        if keeps(bounds, table, places, level, part, middle) {
            low = middle;
        } else {
            high = middle - 1;
        }
    }
    low
}

/// Whether order may be kept, if clocks are off by so much.
fn may_keep(bounds: Bounds, table: &Table, places: &[usize; MOST_SENDERS], clocks: u64) -> bool
    requires turned { AreTurned table.now places.now }
    requires most { clocks ≤ parts.most_part Part.Clocks }
    ensures { result ≡ may_with bounds table.now clocks }
{
    let other = with_part(bounds, Part::Clocks, clocks);
    holds(clock_room(other, table)) || order_holds(other, table, places)
}

/// The greatest value of how many millionths oscillators may be off with which order may be kept.
fn most_clocks(bounds: Bounds, table: &Table, places: &[usize; MOST_SENDERS]) -> u64
    requires turned { AreTurned table.now places.now }
    requires now { may_keep (bus_of bounds table.now) ≡ true }
    ensures { IsGreatest (may_with bounds table.now) (parts.most_part Part.Clocks) result }
{
    let _valid = table.senders();
    let mut low = bounds.clocks();
    let mut high = MOST_CLOCKS;
    while low < high {
        let middle = high - (high - low) / 2;
        if may_keep(bounds, table, places, middle) {
            low = middle;
        } else {
            high = middle - 1;
        }
    }
    low
}

/// The greatest value of how many millionths oscillators may be off. Since times are rounded, the rule of synchronization that holds with
/// one value needn't hold with each smaller one; that of order does.
fn greatest_clocks(
    bounds: Bounds,
    table: &Table,
    places: &[usize; MOST_SENDERS],
    level: Level,
) -> u64
    requires mode { table.now.mode ≡ Mode.Periodic }
    requires turned { AreTurned table.now places.now }
    requires level { level_of bounds table.now ≡ level }
    requires some { level ≢ Level.Neither }
    ensures { IsGreatest (bearing.keeps bounds table.now level Part.Clocks) (parts.most_part Part.Clocks) result }
{
    let now = bounds.clocks();
    let mut n = most_clocks(bounds, table, places);
    while now < n {
        if keeps(bounds, table, places, level, Part::Clocks, n) {
            return n;
        }
        n -= 1;
    }
    n
}

/// How much a periodic table bears: the greatest delay, the greatest jitter and the greatest error of oscillators, each alone, with which
/// its level is no lower. None where it has none. It takes no memory.
pub fn bears(table: &Table, bounds: Bounds) -> Option<Borne>
    requires mode { table.now.mode ≡ Mode.Periodic }
    ensures none { IsNone result ↔ (level_of bounds table.now ≡ Level.Neither) }
    ensures greatest { IfSome result (IsBorne (bearing.keeps bounds table.now (level_of bounds table.now))) }
{
    let places = turn_places(table);
    let level = level_with(bounds, table, &places, quiet(table));
    if let Level::Neither = level {
        return None;
    }
    Some(Borne {
        delay: greatest_narrow(bounds, table, &places, level, Part::Delay),
        jitter: greatest_narrow(bounds, table, &places, level, Part::Jitter),
        clocks: greatest_clocks(bounds, table, &places, level),
    })
}
