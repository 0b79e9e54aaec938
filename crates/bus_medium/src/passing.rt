//! What all hear of the messages of others.
ghost use Rattle.std.specs.Prelude.{◌≡◌, ◌+◌, ◌^◌, ◌<◌, ◌≤◌, Some};
ghost use Rattle.bus_medium.specs.inside.Lazy.{clocks_of, EachKept, AreKept, AreNoShorter, OthersKept, AreAfter};

use crate::timers::{BusIdle, Timers};

/// The bus was busy from one place to another: the timers of each sender are told.
fn pass_all(all_timers: &mut [Timers], ended: u64, from: u64, to: u64)
    requires ended { ended ≤ from }
    requires small { to < 2 ^ 62 }
    ensures after { AreAfter from to (clocks_of ended all_timers.old) (clocks_of to all_timers.new) }
    ensures kept { EachKept all_timers.new }
{
    for timers in all_timers.iter_mut() {
        timers.hear_busy(ended, from, to);
    }
}

/// The bus was busy before any synchronization gap could elapse: the timers of the sender that started alone are told, and
/// the others are right as they are.
fn pass_one(all_timers: &mut [Timers], place: usize, idle: &BusIdle, from: u64, to: u64)
    requires ended { idle.now.ended ≤ from }
    requires short { from < idle.now.ended + idle.now.least }
    requires order { from ≤ to }
    requires small { to < 2 ^ 62 }
    requires least { AreNoShorter idle.now.least (clocks_of idle.now.ended all_timers.old) }
    requires others { OthersKept (Some place) all_timers.old }
    ensures after { AreAfter from to (clocks_of idle.now.ended all_timers.old) (clocks_of to all_timers.new) }
    ensures kept { EachKept all_timers.new }
{
    all_timers[place].hear_busy(idle.ended, from, to);
}

/// The bus was busy from one place to another: the timers that it changes are told.
fn pass_some(all_timers: &mut [Timers], alone: Option<usize>, idle: &BusIdle, from: u64, to: u64)
    requires ended { idle.now.ended ≤ from }
    requires order { from ≤ to }
    requires small { to < 2 ^ 62 }
    requires least { AreNoShorter idle.now.least (clocks_of idle.now.ended all_timers.old) }
    requires others { OthersKept alone all_timers.old }
    ensures after { AreAfter from to (clocks_of idle.now.ended all_timers.old) (clocks_of to all_timers.new) }
    ensures kept { EachKept all_timers.new }
{
    match alone {
        Some(place) if from - idle.ended < idle.least as u64 => {
            pass_one(all_timers, place, idle, from, to)
        }
        _ => pass_all(all_timers, idle.ended, from, to),
    }
}

/// The bus was busy from one place to another. Where one sender started alone its place is given.
pub fn pass_busy(
    idle: &mut BusIdle,
    alone: Option<usize>,
    all_timers: &mut [Timers],
    from: u64,
    to: u64,
)
    requires ended { idle.old.ended ≤ from }
    requires order { from ≤ to }
    requires small { to < 2 ^ 62 }
    requires least { AreNoShorter idle.old.least (clocks_of idle.old.ended all_timers.old) }
    requires others { OthersKept alone all_timers.old }
    ensures after { AreAfter from to (clocks_of idle.old.ended all_timers.old) (clocks_of idle.new.ended all_timers.new) }
    ensures ended { idle.new.ended ≡ to }
    ensures kept { AreKept idle.new to all_timers.new }
{
    pass_some(all_timers, alone, idle, from, to);
    idle.ended = to;
}
