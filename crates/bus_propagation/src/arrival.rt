//! What comes to a terminal of the transmissions of a list.
ghost use Rattle.std.specs.Prelude.{◌≡◌, ◌+◌, ◌<◌, ◌≤◌, ◌^◌, ◌⊎◌, length, None, IfSome, MatchOption, nat_le, false};
ghost use Rattle.std.specs.Option.{option_map_or};
ghost use Rattle.bus_strings.specs.Transmissions.{IsByMoment};
ghost use Rattle.bus_medium.specs.Delays.{cable, heard_end};
ghost use Rattle.bus_propagation.specs.Numbered.{numbered, ArePlaces};
ghost use Rattle.bus_propagation.specs.inside.Arrivals.{heard_begin, ComesFirst, NoneComes, ArePassed};

use crate::places::{distance, number_of};
use bus_strings::Transmission;

/// A transmission as a terminal hears it, in bit times from the settled start.
#[derive(Clone, Copy)]
pub struct Arrival {
    /// When it hears it begin.
    pub begin: u64,
    /// When it has heard it to its end.
    pub end: u64,
    ghost some: { begin < end },
    ghost end_in_range: { end ≤ 2 ^ 41 },
}

/// A transmission as the terminal with this number hears it, where terminals stand at these places of the cable.
pub fn heard(transmission: &Transmission, places: &[u64], terminal: u8) -> Arrival
    requires places { ArePlaces places.now }
    ensures begin { result.begin ≡ heard_begin (cable (numbered places.now)) transmission.now terminal }
    ensures end { result.end ≡ heard_end (cable (numbered places.now)) transmission.now terminal }
{
    let delay = distance(
        number_of(places, transmission.terminal),
        number_of(places, terminal),
    );
    Arrival {
        begin: transmission.moment + delay,
        end: transmission.end() + delay,
    }
}

/// Of two arrivals the one that begins first.
fn earlier(first: Arrival, other: Arrival) -> Arrival
    ensures one { (result ≡ other) ⊎ (result ≡ first) }
    ensures least { (result.begin ≤ other.begin) × (result.begin ≤ first.begin) }
{
    if other.begin < first.begin {
        other
    } else {
        first
    }
}

/// What comes to a terminal next.
#[derive(Clone, Copy)]
pub struct Coming {
    /// The transmission that it hears first of those that it hasn't heard to their end.
    pub arrival: Arrival,
    /// Before this place of the list it has heard all to the end.
    pub cursor: usize,
}

/// What comes next where one more comes, from a place of the list.
fn sooner(first: Option<Coming>, place: usize, other: Arrival) -> Coming
    ensures one { MatchOption first (result.arrival ≡ other) (λ c. (result.arrival ≡ other) ⊎ (result.arrival ≡ c.arrival)) }
    ensures least { result.arrival.begin ≤ other.begin }
    ensures no_later { IfSome first (λ c. result.arrival.begin ≤ c.arrival.begin) }
    ensures cursor { MatchOption first (result.cursor ≡ place) (λ c. result.cursor ≡ c.cursor) }
{
    match first {
        None => Coming {
            arrival: other,
            cursor: place,
        },
        Some(first) => Coming {
            arrival: earlier(first.arrival, other),
            cursor: first.cursor,
        },
    }
}

/// Whether what comes next begins no later than at this moment.
fn comes_by(first: Option<Coming>, moment: u64) -> bool
    ensures { result ≡ option_map_or (λ c. nat_le c.arrival.begin moment) first false }
{
    match first {
        None => false,
        Some(first) => first.arrival.begin <= moment,
    }
}

/// Of the transmissions that the terminal hasn't heard to their end at a moment the one that it hears first, if there is
/// one. Those before the place `cursor` of the list it has heard. What is sent from its begin on is heard no earlier.
pub fn next_arrival(
    list: &[Transmission],
    places: &[u64],
    terminal: u8,
    cursor: usize,
    moment: u64,
) -> Option<Coming>
    requires places { ArePlaces places.now }
    requires order { IsByMoment list.now }
    requires within { cursor ≤ length list.now }
    requires passed { ArePassed (cable (numbered places.now)) terminal list.now cursor moment }
    ensures first { MatchOption result (NoneComes (cable (numbered places.now)) terminal list.now moment)
        (λ c. ComesFirst (cable (numbered places.now)) terminal list.now moment c.arrival.begin c.arrival.end) }
    ensures passed { IfSome result (λ c. ArePassed (cable (numbered places.now)) terminal list.now c.cursor moment) }
    ensures within { IfSome result (λ c. c.cursor < length list.now) }
{
    let mut first = None;
    for place in cursor..list.len() {
        let x = &list[place];
        if comes_by(first, x.moment) {
            return first;
        }
        let arrival = heard(x, places, terminal);
        if arrival.end > moment {
            first = Some(sooner(first, place, arrival));
        }
    }
    first
}
