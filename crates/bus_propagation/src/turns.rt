//! Who starts next.
ghost use Rattle.std.specs.Prelude.{◌≡◌, ℕ, ◌+◌, ◌<◌, ◌⊎◌, slice_get, Some, IfSome, MatchOption};
ghost use Rattle.std.specs.Option.{option_map_or};
ghost use Rattle.bus_strings.specs.Transmissions.{IsByMoment};
ghost use Rattle.bus_medium.specs.Delays.{cable};
ghost use Rattle.bus_medium.specs.Jumps.{Each};
ghost use Rattle.bus_propagation.specs.declared.seat.Seat as declared;
ghost use Rattle.bus_propagation.specs.Numbered.{numbered, ArePlaces};
ghost use Rattle.bus_propagation.specs.inside.Hearing.{HaveWords};
ghost use Rattle.bus_propagation.specs.inside.Turns.{IsSender, KeepsPlace, Follows, NoLater, IsTurn, HasAttended, NobodyBefore};

use crate::attending::attend_before;
use crate::seat::Seat;
use bus_strings::Transmission;

/// The next start of all.
#[derive(Clone, Copy)]
pub struct Turn {
    /// The place of the sender.
    pub place: usize,
    /// Its moment.
    pub moment: u64,
    /// The number of its terminal, by which senders decide that start at once.
    pub terminal: u8,
}

/// Of two starts the one that comes first: by moment, then by number.
fn first_turn(turn: Option<Turn>, other: Turn) -> Turn
    ensures one { (result ≡ other) ⊎ (turn ≡ Some result) }
    ensures other { NoLater result.moment result.terminal other.moment other.terminal }
    ensures turn { IfSome turn (λ t. NoLater result.moment result.terminal t.moment t.terminal) }
{
    match turn {
        None => other,
        Some(turn) => {
            if other.moment < turn.moment {
                other
            } else if turn.moment < other.moment {
                turn
            } else if other.terminal < turn.terminal {
                other
            } else {
                turn
            }
        }
    }
}

/// The moment before which a start is before the horizon, and no later than the turn.
fn until(turn: Option<Turn>, horizon: u64) -> u64
    requires { IfSome turn (λ t. t.moment < horizon) }
    ensures { result ≡ option_map_or (λ t. t.moment + 1) turn horizon }
{
    match turn {
        None => horizon,
        Some(turn) => turn.moment + 1,
    }
}

/// The first of the next starts before the horizon, if there is one. Of the senders only those attend that may be the first.
pub fn next_turn(
    seats: &mut [Seat],
    list: &[Transmission],
    places: &[u64],
    moment: u64,
    horizon: u64,
) -> Option<Turn>
    requires places { ArePlaces places.now }
    requires senders { (j : ℕ) (x : declared.Seat) → slice_get seats.old j ≡ Some x → IsSender x }
    requires words { HaveWords list.now }
    requires order { IsByMoment list.now }
    requires place { (j : ℕ) (x : declared.Seat) → slice_get seats.old j ≡ Some x → KeepsPlace (cable (numbered places.now)) list.now x }
    ensures follow { Each (Follows (cable (numbered places.now)) list.now moment) seats.old seats.new }
    ensures turn { MatchOption result (NobodyBefore seats.new horizon) (λ t. IsTurn seats.new t.place t.moment × (t.moment < horizon)) }
    ensures attended { IfSome result (λ t. HasAttended (cable (numbered places.now)) list.now moment seats.old seats.new t.place) }
{
    let mut turn = None;
    for place in 0..seats.len() {
        attend_before(
            &mut seats[place],
            list,
            places,
            moment,
            until(turn, horizon),
        );
        let seat = &seats[place];
        if let Some(next) = seat.next {
            if next < horizon {
                turn = Some(first_turn(
                    turn,
                    Turn {
                        place,
                        moment: next,
                        terminal: seat.terminal,
                    },
                ));
            }
        }
    }
    turn
}
