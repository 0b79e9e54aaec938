//! Who starts next, and when.
ghost use Rattle.std.specs.Prelude.{◌≡◌, ◌+◌, ◌^◌, ◌<◌, ◌≤◌, true, length, slice_get, Some, IfSome};
ghost use Rattle.bus_medium.specs.declared.timers.Timers as timers;
ghost use Rattle.bus_strings.specs.Limits.{horizon_limit};
ghost use Rattle.bus_medium.specs.inside.Lazy.{clocks_of, EachKept, AreKept, AreLater, IsSoon};
ghost use Rattle.bus_medium.specs.inside.Lazy.{FirstReady, IsAlone, NextPlace};

use crate::timers::{BusIdle, Timers};

/// The first place, up to some most, at which a sender is ready; where its timers stand, and whether it alone is.
#[derive(Clone, Copy)]
struct First {
    /// That place, or the most.
    ready: u64,
    /// Where its timers stand in the list.
    place: usize,
    /// Whether all others are ready later.
    alone: bool,
}

/// The next moment at which a sender may start, and the place of the sender, where it is known to start alone.
#[derive(Clone, Copy)]
pub struct Next {
    /// The moment, from the settled start on.
    pub moment: u64,
    /// Where the sender stands in the list.
    pub alone: Option<usize>,
}

/// Whether the timers of four senders, from a place of the list on, tell that these are ready later than `most`, which is so far
/// behind the place at which the bus became quiet.
fn are_later(all_timers: &[Timers], place: usize, most: u64, behind: u64) -> bool
    requires { place + 4 ≤ length all_timers.now }
    ensures { result ≡ true → AreLater most behind all_timers.now place (place + 4) }
{
    all_timers[place].is_later(most, behind)
        && all_timers[place + 1].is_later(most, behind)
        && all_timers[place + 2].is_later(most, behind)
        && all_timers[place + 3].is_later(most, behind)
}

/// A place up to which all timers tell so. It is found four by four, since a run spends most of its time here.
fn skip_fours(all_timers: &[Timers], from: usize, most: u64, behind: u64) -> usize
    requires { from ≤ length all_timers.now }
    ensures low { from ≤ result }
    ensures high { result ≤ length all_timers.now }
    ensures skipped { AreLater most behind all_timers.now from result }
{
    let mut place = from;
    while all_timers.len() - place >= 4 && are_later(all_timers, place, most, behind) {
        place += 4;
    }
    place
}

/// The first place, from one of the list on, whose timers don't tell so; or how many there are.
fn next_soon(all_timers: &[Timers], from: usize, most: u64, behind: u64) -> usize
    requires { from ≤ length all_timers.now }
    ensures low { from ≤ result }
    ensures high { result ≤ length all_timers.now }
    ensures skipped { AreLater most behind all_timers.now from result }
    ensures found { (w : timers.Timers) → slice_get all_timers.now result ≡ Some w → IsSoon most behind w }
{
    let mut place = skip_fours(all_timers, from, most, behind);
    while place < all_timers.len() && all_timers[place].is_later(most, behind) {
        place += 1;
    }
    place
}

/// The first place, up to `most`, at which some sender is ready if the bus stays quiet.
fn first_ready(all_timers: &[Timers], ended: u64, most: u64) -> First
    requires ended { ended ≤ most }
    requires most { most < 2 ^ 62 }
    requires kept { EachKept all_timers.now }
    ensures ready { FirstReady most (clocks_of ended all_timers.now) result.ready }
    ensures alone { result.alone ≡ true → IsAlone result.ready (clocks_of ended all_timers.now) result.place }
{
    let mut first = First {
        ready: most,
        place: 0,
        alone: false,
    };
    let mut place = next_soon(all_timers, 0, most, most - ended);
    while place < all_timers.len() {
        let ready = all_timers[place].ready_at(ended);
        first = First {
            ready,
            place,
            alone: ready < first.ready,
        };
        place = next_soon(all_timers, place + 1, ready, ready - ended);
    }
    first
}

/// The first moment, from the present one up to the horizon, at which some sender may start if the bus stays quiet.
pub fn next_start(
    quiet: u32,
    moment: u64,
    horizon: u64,
    idle: &BusIdle,
    all_timers: &[Timers],
) -> Next
    requires order { moment ≤ horizon }
    requires horizon { horizon ≤ horizon_limit }
    requires kept { AreKept idle.now (quiet + moment) all_timers.now }
    ensures next { NextPlace (quiet + moment) (quiet + horizon) (clocks_of idle.now.ended all_timers.now) (quiet + result.moment) }
    ensures alone { IfSome result.alone (IsAlone (quiet + result.moment) (clocks_of idle.now.ended all_timers.now)) }
{
    let start = quiet as u64;
    let first = first_ready(all_timers, idle.ended, start + horizon);
    if first.ready < start + moment {
        return Next {
            moment,
            alone: None,
        };
    }
    let moment = first.ready - start;
    if first.alone {
        Next {
            moment,
            alone: Some(first.place),
        }
    } else {
        Next {
            moment,
            alone: None,
        }
    }
}
