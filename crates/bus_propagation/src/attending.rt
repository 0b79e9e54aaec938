//! A sender hears of what was sent, and finds its next start.
ghost use Rattle.std.specs.Prelude.{◌≡◌, ℕ, ◌<◌, Some, nat_lt, false};
ghost use Rattle.std.specs.Option.{option_map_or};
ghost use Rattle.bus_strings.specs.Transmissions.{IsByMoment};
ghost use Rattle.bus_medium.specs.Delays.{cable};
ghost use Rattle.bus_propagation.specs.Numbered.{numbered, ArePlaces};
ghost use Rattle.bus_propagation.specs.inside.Hearing.{HaveWords};
ghost use Rattle.bus_propagation.specs.inside.Turns.{IsSender, KeepsPlace, Attended, Follows};

use crate::looking::look_ahead;
use crate::seat::Seat;
use bus_strings::Transmission;

/// A sender hears of the list, of which what it hears up to the moment is certain, and finds its next start.
fn attend(seat: &mut Seat, list: &[Transmission], places: &[u64], moment: u64)
    requires places { ArePlaces places.now }
    requires sender { IsSender seat.old }
    requires words { HaveWords list.now }
    requires order { IsByMoment list.now }
    requires place { KeepsPlace (cable (numbered places.now)) list.now seat.old }
    ensures { Attended (cable (numbered places.now)) list.now moment seat.old seat.new }
{
    if seat.sent >= seat.messages.len() {
        seat.next = None;
        return;
    }
    let outlook = look_ahead(seat, list, places, moment);
    seat.timers = outlook.timers;
    seat.cursor = outlook.cursor;
    seat.next = Some(outlook.next);
}

/// Whether who starts at no moment before `next` may start before the moment `until`.
fn may_start(next: Option<u64>, until: u64) -> bool
    ensures { result ≡ option_map_or (λ u. nat_lt u until) next false }
{
    match next {
        None => false,
        Some(next) => next < until,
    }
}

/// A sender that may start before the moment `until` attends. Another need not hear of the list yet.
pub fn attend_before(
    seat: &mut Seat,
    list: &[Transmission],
    places: &[u64],
    moment: u64,
    until: u64,
)
    requires places { ArePlaces places.now }
    requires sender { IsSender seat.old }
    requires words { HaveWords list.now }
    requires order { IsByMoment list.now }
    requires place { KeepsPlace (cable (numbered places.now)) list.now seat.old }
    ensures follows { Follows (cable (numbered places.now)) list.now moment seat.old seat.new }
    ensures attends { (u : ℕ) → seat.new.next ≡ Some u → u < until
        → Attended (cable (numbered places.now)) list.now moment seat.old seat.new }
{
    if may_start(seat.next, until) {
        attend(seat, list, places, moment);
    }
}
