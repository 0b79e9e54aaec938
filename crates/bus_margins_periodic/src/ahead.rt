//! What the rule of order asks of turns again and again, found once for all of them.
ghost use Rattle.std.specs.Prelude.{◌≡◌, ◌<◌, ◌≤◌, ◌*◌, ◌^◌, ℕ, length, slice_index};
ghost use Rattle.bus_drift.specs.Turns.{fastest};
ghost use Rattle.bus_table.specs.Turned.{AreTurned};
ghost use Rattle.bus_table.specs.Turns.{turn_order};
ghost use Rattle.bus_margins.specs.Buses.{bus_of};
ghost use Rattle.bus_margins_periodic.specs.Rooms as rules;
ghost use Rattle.bus_margins_periodic.specs.inside.Ahead.{AreAhead, IsNext};

use crate::times::{count, short_step, tg_long, tg_short, who};
use bus_bounds::Bounds;
use bus_table::{MOST_SENDERS, Table};

/// The turns of two rounds of as many senders as there can be.
const TURNS: usize = 256;

/// What is known of each turn of two rounds. Behind them there is no meaning in it.
#[derive(Drop)]
pub(crate) struct Ahead {
    /// The next turn behind it that it doesn't come before by the gaps alone: the one a round behind it at the latest.
    pub next: [usize; TURNS],
    /// How long it takes at least from the first turn to it.
    pub fast: [u64; TURNS],
}

/// Whether a turn that is held back doesn't come before this one by the gaps alone.
pub(crate) fn is_close(
    bounds: Bounds,
    table: &Table,
    places: &[usize; MOST_SENDERS],
    held: usize,
    due: usize,
) -> bool
    requires { AreTurned table.now places.now }
    ensures { result ≡ rules.is_close (bus_of bounds table.now) held due }
{
    let gap = tg_short(bounds, table, places, who(table, due));
    gap <= tg_long(bounds, table, places, who(table, held)) + 2 * bounds.delay()
}

/// The next turn behind this one that it doesn't come before by the gaps alone.
fn next_close(bounds: Bounds, table: &Table, places: &[usize; MOST_SENDERS], held: usize) -> usize
    requires turned { AreTurned table.now places.now }
    requires early { held ≤ 2 ^ 10 }
    ensures { IsNext (bus_of bounds table.now) held result }
{
    let end = held + count(table);
    for due in held + 1..end {
        if is_close(bounds, table, places, held, due) {
            return due;
        }
    }
    end
}

/// That of each turn of two rounds.
fn next_turns(bounds: Bounds, table: &Table, places: &[usize; MOST_SENDERS]) -> [usize; TURNS]
    requires { AreTurned table.now places.now }
    ensures { (held : ℕ) → held < 2 * length (turn_order table.now) → IsNext (bus_of bounds table.now) held (slice_index result held) }
{
    let mut next = [0; TURNS];
    for held in 0..2 * count(table) {
        next[held] = next_close(bounds, table, places, held);
    }
    next
}

/// How long it takes at least from the first turn to each of two rounds.
fn fast_turns(bounds: Bounds, table: &Table, places: &[usize; MOST_SENDERS]) -> [u64; TURNS]
    requires { AreTurned table.now places.now }
    ensures value { (due : ℕ) → due < 2 * length (turn_order table.now) → slice_index result due ≡ fastest (bus_of bounds table.now) 0 due }
    ensures bound { (due : ℕ) → due < 2 * length (turn_order table.now) → slice_index result due ≤ 2 ^ 40 }
{
    let mut turns = [0; TURNS];
    let mut fast = 0;
    for due in 0..2 * count(table) {
        turns[due] = fast;
        fast += short_step(bounds, table, places, due);
    }
    turns
}

/// What is known of each turn of two rounds.
pub(crate) fn look_ahead(bounds: Bounds, table: &Table, places: &[usize; MOST_SENDERS]) -> Ahead
    requires { AreTurned table.now places.now }
    ensures { AreAhead (bus_of bounds table.now) result }
{
    Ahead {
        next: next_turns(bounds, table, places),
        fast: fast_turns(bounds, table, places),
    }
}
