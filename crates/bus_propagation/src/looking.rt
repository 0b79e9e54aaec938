//! When a sender starts next, after what is sent already and will still be heard.
ghost use Rattle.std.specs.Prelude.{◌≡◌, ◌≤◌, ◌⊎◌, length};
ghost use Rattle.bus_timers.specs.Timings.{IsSound};
ghost use Rattle.bus_strings.specs.Transmissions.{IsByMoment};
ghost use Rattle.bus_medium.specs.Delays.{cable};
ghost use Rattle.bus_medium.specs.Wakes.{Wakes};
ghost use Rattle.bus_propagation.specs.Numbered.{numbered, ArePlaces};
ghost use Rattle.bus_propagation.specs.inside.Arrivals.{ArePassed};
ghost use Rattle.bus_propagation.specs.inside.Hearing.{Hears, IsNextStart, HaveWords};
ghost use Rattle.bus_propagation.specs.inside.Seats.{station_of};
ghost use Rattle.bus_propagation.specs.inside.Turns.{KeepsPlace};

use crate::arrival::next_arrival;
use crate::seat::Seat;
use crate::timers::{Timers, behind, ready_at};
use bus_strings::Transmission;

/// What a sender knows of its next start.
#[derive(Clone, Copy)]
pub struct Outlook {
    /// Its timers after what it has heard for certain.
    pub timers: Timers,
    /// Before this place of the list it has heard all to the end, for certain.
    pub cursor: usize,
    /// When it starts, if nothing more is sent.
    pub next: u64,
}

/// Goes on from what a sender has heard over all that is sent already, up to its next start. What it has heard at `moment`
/// is certain; what comes later may be changed by what is sent until then.
pub fn look_ahead(seat: &Seat, list: &[Transmission], places: &[u64], moment: u64) -> Outlook
    requires places { ArePlaces places.now }
    requires sound { IsSound seat.now.timing }
    requires words { HaveWords list.now }
    requires order { IsByMoment list.now }
    requires place { KeepsPlace (cable (numbered places.now)) list.now seat.now }
    ensures hears { (wake : Wakes) → Hears (cable (numbered places.now)) wake (station_of seat.now) list.now
        seat.now.timers.moment seat.now.timers.due seat.now.timers.gap_from
        → Hears (cable (numbered places.now)) wake (station_of seat.now) list.now result.timers.moment result.timers.due result.timers.gap_from }
    ensures next { (wake : Wakes) → Hears (cable (numbered places.now)) wake (station_of seat.now) list.now
        seat.now.timers.moment seat.now.timers.due seat.now.timers.gap_from
        → IsNextStart (cable (numbered places.now)) wake (station_of seat.now) list.now result.timers.moment result.next }
    ensures certain { (result.timers.moment ≡ seat.now.timers.moment) ⊎ (result.timers.moment ≤ moment) }
    ensures later { seat.now.timers.moment ≤ result.timers.moment }
    ensures within { result.cursor ≤ length list.now }
    ensures passed { ArePassed (cable (numbered places.now)) seat.now.terminal list.now result.cursor result.timers.moment }
{
    let timing = seat.timing;
    let terminal = seat.terminal;
    let mut certain = seat.timers;
    let mut passed = seat.cursor;
    let mut ahead = seat.timers;
    let mut cursor = seat.cursor;
    while let Some(coming) = next_arrival(list, places, terminal, cursor, ahead.moment) {
        let arrival = coming.arrival;
        if ready_at(ahead, timing) <= arrival.begin {
            break;
        }
        ahead = behind(ahead, timing, arrival);
        cursor = coming.cursor;
        if arrival.end <= moment {
            certain = ahead;
            passed = cursor;
        }
    }
    Outlook {
        timers: certain,
        cursor: passed,
        next: ready_at(ahead, timing),
    }
}
