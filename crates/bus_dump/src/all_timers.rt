//! The timers of the senders of a table.
ghost use Rattle.std.specs.Prelude.{◌≡◌, ◌≤◌, ◌<◌, ◌+◌, ◌^◌, ◌&&◌, ◌==◌, length, map, slice_get, Some};
ghost use Rattle.std.specs.List.{AllByRecursion};
ghost use Rattle.bus_table.specs.Tables as tables;
ghost use Rattle.bus_timers.specs.Timings.{IsSound};
ghost use Rattle.bus_medium.specs.Timings.{timing_of};
ghost use Rattle.bus_dump.specs.inside.SenderTimers.{IsLow, tells_at};
ghost use Rattle.bus_dump.specs.Scenes.{timed};
ghost use Rattle.bus_dump.specs.inside.TimerWalks as definition;

use crate::dump::Dump;
use crate::lanes::sender_count;
use crate::live::Live;
use crate::sender_timers::{Elapsed, SenderTimers};
use arrayvec::ArrayVec;
use bus_medium::timing;
use bus_table::{MOST_SENDERS, Table};

/// The timers of sender `k` at the settled start.
fn settled(table: &Table, k: usize) -> SenderTimers
    requires { k < length table.now.senders }
    ensures { (sender : tables.Sender) → slice_get table.now.senders k ≡ Some sender → result ≡ definition.settled table.now sender }
{
    let timing = timing(table, k);
    SenderTimers {
        terminal: table.senders()[k].number(),
        timing,
        due: u64::from(timing.quiet) + u64::from(timing.due),
        gap: u64::from(timing.sg),
    }
}

/// The timers of all senders at the settled start, in the order of the table.
fn settle_all(table: &Table) -> ArrayVec<SenderTimers, MOST_SENDERS>
    ensures items { result.items ≡ map (definition.settled table.now) table.now.senders }
    ensures sound { AllByRecursion (λ sender. IsSound (timing_of table.now sender)) table.now.senders }
{
    let mut all_timers = ArrayVec::new();
    for k in 0..sender_count(table) {
        all_timers.push(settled(table, k));
    }
    all_timers
}

/// The timers that a dump needs, at the settled start.
pub(crate) fn settle(dump: Dump, table: &Table) -> ArrayVec<SenderTimers, MOST_SENDERS>
    ensures items { result.items ≡ map (definition.settled table.now) (timed dump table.now) }
    ensures sound { AllByRecursion (λ sender. IsSound (timing_of table.now sender)) (timed dump table.now) }
{
    match dump {
        Dump::Vcd | Dump::Wires => ArrayVec::new(),
        Dump::Timers => settle_all(table),
    }
}

/// Whether one of these live transmissions is of a terminal and starts at bit time t.
fn begins(t: u64, live: &[Live], terminal: u8) -> bool
    ensures { result ≡ definition.begins t live.now terminal }
{
    live.iter()
        .any(|one| one.moment == t && one.terminal == terminal)
}

/// Passes the timers on to a later place, where these transmissions are live at bit time t, their present place.
pub(crate) fn pass_all(
    all_timers: &mut [SenderTimers],
    live: &[Live],
    t: u64,
    from: u64,
    to: u64,
    carrier: bool,
)
    requires low { AllByRecursion IsLow all_timers.old }
    requires later { from < to }
    requires place { to < 2 ^ 42 }
    ensures { all_timers.new ≡ map (definition.timers_passed t live.now from to carrier) all_timers.old }
{
    for sender_timers in all_timers.iter_mut() {
        let starts = begins(t, live, sender_timers.terminal);
        *sender_timers = sender_timers.passed(from, to, starts, carrier);
    }
}

/// What the timers tell at a place.
pub(crate) fn tell_all(
    all_timers: &[SenderTimers],
    place: u64,
    timers: &mut ArrayVec<Elapsed, MOST_SENDERS>,
)
    requires low { AllByRecursion IsLow all_timers.now }
    requires few { length all_timers.now ≤ MOST_SENDERS }
    ensures { timers.new.items ≡ map (tells_at place) all_timers.now }
{
    timers.clear();
    for sender_timers in all_timers {
        timers.push(sender_timers.tells(place));
    }
}

/// The next place, up to the limit, at which a timer may turn, where these transmissions are live at bit time t, the present place.
pub(crate) fn next_turn(
    all_timers: &[SenderTimers],
    live: &[Live],
    t: u64,
    place: u64,
    limit: u64,
    carrier: bool,
) -> u64
    requires low { AllByRecursion IsLow all_timers.now }
    requires later { place < limit }
    ensures later { place < result }
    ensures most { result ≤ limit }
    ensures least { AllByRecursion
        (λ sender_timers. result ≤ definition.timer_turn t live.now place limit carrier sender_timers) all_timers.now }
{
    let mut next = limit;
    for sender_timers in all_timers {
        let starts = begins(t, live, sender_timers.terminal);
        next = next.min(sender_timers.next_turn(place, limit, starts, carrier));
    }
    next
}
