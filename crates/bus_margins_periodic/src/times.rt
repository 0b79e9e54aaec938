//! How long the timers and messages of a table last within bounds, in nanoseconds, by places of turn order and by turns.
ghost use Rattle.std.specs.Prelude.{◌≡◌, ◌+◌, ◌*◌, ◌<◌, ◌≤◌, ◌^◌, ◌%◌, length};
ghost use Rattle.bus_table.specs.Turned.{AreTurned};
ghost use Rattle.bus_table.specs.Turns.{turn_order};
ghost use Rattle.bus_drift.specs.Turns.{longest_step, shortest_step};
ghost use Rattle.bus_margins.specs.Times as buses;
ghost use Rattle.bus_margins.specs.Buses.{bus_of};

use bus_bounds::Bounds;
use bus_table::{MOST_SENDERS, Table, longest, shortest, turn_at};

/// How many nanoseconds a bit time has.
const BIT_TIME: u64 = 500;

/// How long a timer, or a message, of so many bit times lasts at least.
pub(crate) fn least_time(bounds: Bounds, bits: u32) -> u64
    requires { bits ≤ 2 ^ 20 }
    ensures value { result ≡ buses.least_time bounds bits }
    ensures bound { result ≤ 2 ^ 30 }
{
    bounds.short(BIT_TIME * u64::from(bits))
}

/// And at most.
pub(crate) fn most_time(bounds: Bounds, bits: u32) -> u64
    requires { bits ≤ 2 ^ 20 }
    ensures value { result ≡ buses.most_time bounds bits }
    ensures bound { result ≤ 2 ^ 31 }
{
    bounds.long(BIT_TIME * u64::from(bits))
}

/// Within a message nobody hears so many quiet nanoseconds in a row.
pub(crate) fn drop_of(bounds: Bounds) -> u64
    ensures value { result ≡ buses.drop_of bounds }
    ensures bound { result ≤ 2 ^ 30 }
{
    2001 + bounds.error(2000) + bounds.delay()
}

/// How many senders there are.
#[tactic(auto, using(crate::proofs::PlaceLemmas::count_is, crate::proofs::PlaceLemmas::some_senders, crate::proofs::PlaceLemmas::few_senders))]
pub(crate) fn count(table: &Table) -> usize
    ensures value { result ≡ length (turn_order table.now) }
    ensures senders { result ≡ length table.now.senders }
    ensures some { 0 < result }
    ensures few { result ≤ 128 }
{
    table.senders().len()
}

/// So many times this time.
#[tactic(auto, using(crate::proofs::LoopLemmas::times_small))]
pub(crate) fn times(n: usize, time: u64) -> u64
    requires few { n ≤ 128 }
    requires small { time ≤ 2 ^ 31 }
    ensures value { result ≡ n * time }
    ensures bound { result ≤ 2 ^ 38 }
{
    n as u64 * time
}

/// How long a synchronization gap lasts at most.
pub(crate) fn sg_long(bounds: Bounds, table: &Table) -> u64
    ensures value { result ≡ buses.most_time bounds table.now.sg }
    ensures bound { result ≤ 2 ^ 31 }
{
    most_time(bounds, table.sg())
}

/// How long a transmit interval lasts at least.
pub(crate) fn ti_short(bounds: Bounds, table: &Table) -> u64
    ensures value { result ≡ buses.least_time bounds table.now.ti }
    ensures bound { result ≤ 2 ^ 30 }
{
    least_time(bounds, table.ti())
}

/// And at most.
pub(crate) fn ti_long(bounds: Bounds, table: &Table) -> u64
    ensures value { result ≡ buses.most_time bounds table.now.ti }
    ensures bound { result ≤ 2 ^ 31 }
{
    most_time(bounds, table.ti())
}

/// The short terminal gap of the sender at a place.
#[tactic(auto, using(crate::proofs::PlaceLemmas::tg_short_is))]
pub(crate) fn tg_short(
    bounds: Bounds,
    table: &Table,
    places: &[usize; MOST_SENDERS],
    k: usize,
) -> u64
    requires turned { AreTurned table.now places.now }
    requires place { k < length table.now.senders }
    ensures value { result ≡ (bus_of bounds table.now).tg_short k }
    ensures bound { result ≤ 2 ^ 30 }
{
    least_time(bounds, turn_at(table, places, k).tg())
}

/// The long one.
#[tactic(auto, using(crate::proofs::PlaceLemmas::tg_long_is))]
pub(crate) fn tg_long(
    bounds: Bounds,
    table: &Table,
    places: &[usize; MOST_SENDERS],
    k: usize,
) -> u64
    requires turned { AreTurned table.now places.now }
    requires place { k < length table.now.senders }
    ensures value { result ≡ (bus_of bounds table.now).tg_long k }
    ensures bound { result ≤ 2 ^ 31 }
{
    most_time(bounds, turn_at(table, places, k).tg())
}

/// How long a message of the sender at a place lasts at least.
#[tactic(auto, using(crate::proofs::PlaceLemmas::shortest_is))]
pub(crate) fn least_message(
    bounds: Bounds,
    table: &Table,
    places: &[usize; MOST_SENDERS],
    k: usize,
) -> u64
    requires turned { AreTurned table.now places.now }
    requires place { k < length table.now.senders }
    ensures value { result ≡ (bus_of bounds table.now).shortest k }
    ensures bound { result ≤ 2 ^ 30 }
{
    least_time(bounds, shortest(turn_at(table, places, k)))
}

/// And at most.
#[tactic(auto, using(crate::proofs::PlaceLemmas::longest_is))]
pub(crate) fn most_message(
    bounds: Bounds,
    table: &Table,
    places: &[usize; MOST_SENDERS],
    k: usize,
) -> u64
    requires turned { AreTurned table.now places.now }
    requires place { k < length table.now.senders }
    ensures value { result ≡ (bus_of bounds table.now).longest k }
    ensures bound { result ≤ 2 ^ 31 }
{
    most_time(bounds, longest(turn_at(table, places, k)))
}

/// The place of the sender whose turn n is.
pub(crate) fn who(table: &Table, n: usize) -> usize
    ensures value { result ≡ n % length (turn_order table.now) }
    ensures place { result < length table.now.senders }
{
    n % count(table)
}

/// How long it takes at most from turn n to the next, which waits for it alone.
pub(crate) fn long_step(
    bounds: Bounds,
    table: &Table,
    places: &[usize; MOST_SENDERS],
    n: usize,
) -> u64
    requires turned { AreTurned table.now places.now }
    requires few { n < 2 ^ 32 }
    ensures value { result ≡ longest_step (bus_of bounds table.now) n }
    ensures bound { result ≤ 2 ^ 33 }
{
    let next = tg_long(bounds, table, places, who(table, n + 1));
    most_message(bounds, table, places, who(table, n)) + bounds.delay() + next
}

/// And at least.
pub(crate) fn short_step(
    bounds: Bounds,
    table: &Table,
    places: &[usize; MOST_SENDERS],
    n: usize,
) -> u64
    requires turned { AreTurned table.now places.now }
    requires few { n < 2 ^ 32 }
    ensures value { result ≡ shortest_step (bus_of bounds table.now) n }
    ensures bound { result ≤ 2 ^ 31 }
{
    let next = tg_short(bounds, table, places, who(table, n + 1));
    least_message(bounds, table, places, who(table, n)) + next
}
