//! How much an aperiodic table bears.
ghost use Rattle.std.specs.Prelude.{◌≡◌, ◌≢◌, ◌≤◌, ◌+◌, IsNone, IfSome, ◌↔◌};
ghost use Rattle.bus_table.specs.Turned.{AreTurned};
ghost use Rattle.bus_margins.specs.Bearing as specs;
ghost use Rattle.bus_margins.specs.Bearing.{IsBorne};
ghost use Rattle.bus_margins.specs.Greatest.{IsGreatest};
ghost use Rattle.bus_margins.specs.Rooms.{level_of};

use crate::level::Level;
use crate::part::{Borne, Part, most_part, part_of, with_part};
use crate::telling::level_with;
use bus_bounds::{Bounds, MOST_CLOCKS};
use bus_table::{MOST_SENDERS, Mode, Table, turn_places};

/// Whether the table has such a level with another value of one of the bounds.
fn keeps(
    bounds: Bounds,
    table: &Table,
    places: &[usize; MOST_SENDERS],
    level: Level,
    part: Part,
    n: u64,
) -> bool
    requires mode { table.now.mode ≡ Mode.Aperiodic }
    requires turned { AreTurned table.now places.now }
    requires most { n ≤ specs.most_part part }
    ensures { result ≡ specs.keeps bounds table.now level part n }
{
    level.is_kept_by(level_with(with_part(bounds, part, n), table, places))
}

/// The greatest value of the delay, or of the jitter: what is kept with one value is kept with each smaller one.
fn greatest_narrow(
    bounds: Bounds,
    table: &Table,
    places: &[usize; MOST_SENDERS],
    level: Level,
    part: Part,
) -> u64
    requires mode { table.now.mode ≡ Mode.Aperiodic }
    requires turned { AreTurned table.now places.now }
    requires level { level_of bounds table.now ≡ level }
    requires part { part ≢ Part.Clocks }
    ensures { IsGreatest (specs.keeps bounds table.now level part) (specs.most_part part) result }
{
    let _valid = table.senders();
    let _ranges = bounds.delay();
    let mut low = part_of(bounds, part);
    let mut high = most_part(part);
    while low < high {
        let middle = high - (high - low) / 2;
        if keeps(bounds, table, places, level, part, middle) {
            low = middle;
        } else {
            high = middle - 1;
        }
    }
    low
}

/// The greatest value of how many millionths oscillators may be off: since times are rounded, what is kept with one value needn't be
/// kept with each smaller one.
fn greatest_clocks(
    bounds: Bounds,
    table: &Table,
    places: &[usize; MOST_SENDERS],
    level: Level,
) -> u64
    requires mode { table.now.mode ≡ Mode.Aperiodic }
    requires turned { AreTurned table.now places.now }
    requires level { level_of bounds table.now ≡ level }
    ensures { IsGreatest (specs.keeps bounds table.now level Part.Clocks) (specs.most_part Part.Clocks) result }
{
    let mut greatest = bounds.clocks();
    for n in bounds.clocks() + 1..MOST_CLOCKS + 1 {
        if keeps(bounds, table, places, level, Part::Clocks, n) {
            greatest = n;
        }
    }
    greatest
}

/// How much an aperiodic table bears: the greatest delay, the greatest jitter and the greatest error of oscillators, each alone, with
/// which its level is no lower. None where it has none. It takes no memory.
pub fn bears(table: &Table, bounds: Bounds) -> Option<Borne>
    requires mode { table.now.mode ≡ Mode.Aperiodic }
    ensures none { IsNone result ↔ (level_of bounds table.now ≡ Level.Neither) }
    ensures greatest { IfSome result (IsBorne (specs.keeps bounds table.now (level_of bounds table.now))) }
{
    let places = turn_places(table);
    let level = level_with(bounds, table, &places);
    if let Level::Neither = level {
        return None;
    }
    Some(Borne {
        delay: greatest_narrow(bounds, table, &places, level, Part::Delay),
        jitter: greatest_narrow(bounds, table, &places, level, Part::Jitter),
        clocks: greatest_clocks(bounds, table, &places, level),
    })
}
