//! The bus bit time for bit time: at each moment all decide, and then all hear the bit time that is over.
ghost use Rattle.std.specs.Prelude.{◌≡◌, ◌+◌, ◌<◌, ◌≤◌, [], true, map, IfOk, OnOk};
ghost use Rattle.std.specs.List.{list_any};
ghost use Rattle.bus_strings.specs.Limits.{horizon_limit};
ghost use Rattle.bus_medium.specs.Buses.{number_of, StandsAt, observe_limit};
ghost use Rattle.bus_medium.specs.inside.Following.{AllHaveRoom};
ghost use Rattle.bus_medium.specs.Jumps.{Each};
ghost use Rattle.bus_medium.specs.inside.Lasting.{PassedMany};
ghost use Rattle.bus_medium.specs.Orders.{IsSendOrder};
ghost use Rattle.bus_medium.specs.inside.Runs.{RunsTo, Reached, IsTheList, seat_sounds};

use crate::deciding::{SendOrder, decide_all};
use crate::seat::Seat;
use bus_strings::Transmission;
use bus_timers::Core;
use std::alloc::{AllocError, Global};

/// Whether some terminal has a pulse on the present bit time.
pub fn any_on<C: Core>(seats: &[Seat<C>]) -> bool
    ensures { result ≡ list_any seat_sounds seats.now }
{
    seats.iter().any(|seat| seat.terminal.is_on())
}

/// The present bit time is over for one sender.
fn pass_one<C: Core>(seat: &mut Seat<C>, carrier: bool)
    requires room { 1 ≤ C.room seat.old.terminal.core }
    requires own { seat_sounds seat.old ≡ true → carrier ≡ true }
    ensures { PassedMany ⟦<C as Core>⟧ carrier 1 seat.old seat.new }
{
    seat.terminal.pass(carrier);
}

/// The present bit time is over for every sender.
fn pass_all<C: Core>(seats: &mut [Seat<C>], carrier: bool)
    requires room { AllHaveRoom ⟦<C as Core>⟧ seats.old 1 }
    requires own { list_any seat_sounds seats.old ≡ true → carrier ≡ true }
    ensures { Each (PassedMany ⟦<C as Core>⟧ carrier 1) seats.old seats.new }
{
    for seat in seats.iter_mut() {
        pass_one(seat, carrier);
    }
}

/// One bit time: every sender decides at the moment, and then each is passed the carrier that any of them has.
fn bit_time<C: Core>(
    alloc: Global,
    send_order: &SendOrder,
    moment: u64,
    seats: &mut [Seat<C>],
    list: &mut Vec<Transmission>,
) -> Result<(), AllocError>
    requires moment { moment < horizon_limit }
    requires send_order { IsSendOrder (map number_of seats.old) send_order.now.places.items }
    requires at { RunsTo ⟦<C as Core>⟧ send_order.now.quiet seats.old list.old.items moment }
    ensures numbers { map number_of seats.new ≡ map number_of seats.old }
    ensures reached { OnOk result (Reached ⟦<C as Core>⟧ send_order.now.quiet (moment + 1) seats.old seats.new list.new.items) }
{
    decide_all(alloc, send_order, moment, seats, list)?;
    let carrier = any_on(seats);
    pass_all(seats, carrier);
    Ok(())
}

/// The lawful list up to the horizon, bit time for bit time.
pub fn observe_all<C: Core>(
    alloc: Global,
    send_order: &SendOrder,
    seats: &mut [Seat<C>],
    horizon: u64,
) -> Result<Vec<Transmission>, AllocError>
    requires horizon { horizon ≤ observe_limit }
    requires send_order { IsSendOrder (map number_of seats.old) send_order.now.places.items }
    requires stands { StandsAt ⟦<C as Core>⟧ (record { quiet = send_order.now.quiet; seats = seats.old }) [] 0 }
    ensures numbers { map number_of seats.new ≡ map number_of seats.old }
    ensures list { IfOk result (λ list. IsTheList ⟦<C as Core>⟧ send_order.now.quiet horizon seats.old seats.new list.items) }
{
    let mut list = Vec::new(alloc);
    for moment in 0..horizon {
        bit_time(alloc, send_order, moment, seats, &mut list)?;
    }
    Ok(list)
}
