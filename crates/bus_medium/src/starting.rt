//! Who starts at a moment, told by the timers alone.
ghost use Rattle.std.specs.Prelude.{◌≡◌, ◌+◌, ◌<◌, ◌≤◌, max, length, map, Some, IfOk, OnOk, IfSome, MatchOption};
ghost use Rattle.bus_strings.specs.Limits.{horizon_limit, most_terminal};
ghost use Rattle.bus_strings.specs.Transmissions.{end_of};
ghost use Rattle.bus_medium.specs.Buses.{number_of};
ghost use Rattle.bus_medium.specs.inside.Lazy.{Sits, BegunLazily, MovesOnce, clock_of, clocks_of, IsAlone, OthersKept};
ghost use Rattle.bus_medium.specs.inside.Starting.{MayBegin, BeginsAt};

use crate::deciding::{SendOrder, decide_one};
use crate::note::note;
use crate::seat::Seat;
use crate::timers::{BusIdle, Timers, begun_timers};
use bus_strings::Transmission;
use bus_timers::{Core, JumpCore};
use std::alloc::{AllocError, Global};
use std::cmp::max;

/// A sender starts where its timers say so: its core is told what was heard, and decides.
fn begin<C: JumpCore>(
    alloc: Global,
    quiet: u32,
    moment: u64,
    ended: u64,
    seat: &mut Seat<C>,
    timers: &mut Timers,
) -> Result<Option<Transmission>, AllocError>
    requires moment { moment < horizon_limit }
    requires ended { ended ≤ quiet + moment }
    requires number { (1 ≤ number_of seat.old) × (number_of seat.old ≤ most_terminal) }
    requires sits { Sits ⟦<C as Core>⟧ quiet (quiet + moment) seat.old (clock_of ended timers.old) }
    ensures number { number_of seat.new ≡ number_of seat.old }
    ensures begun { IfOk result (λ begun. BegunLazily ⟦<C as Core>⟧ quiet moment seat.old (clock_of ended timers.old) seat.new
        (clock_of ended timers.new) begun) }
    ensures moves { OnOk result (MovesOnce ⟦<C as Core>⟧ seat.old seat.new) }
    ensures sg { OnOk result (timers.new.sg ≡ timers.old.sg) }
{
    let now = quiet as u64 + moment;
    if timers.ready_at(ended) > now {
        return Ok(None);
    }
    seat.terminal.hear(timers.history(ended, now));
    let begun = decide_one(alloc, moment, seat)?;
    *timers = begun_timers(seat, now, ended);
    Ok(begun)
}

/// The later of a moment and the end of a transmission, if there is one.
fn later_end(end: u64, begun: &Option<Transmission>) -> u64
    ensures { MatchOption begun.now (result ≡ end) (λ x. result ≡ max end (end_of x)) }
{
    match begun {
        None => end,
        Some(x) => max(end, x.end()),
    }
}

/// The senders whose timers say so start at the moment, by rising number, and what they begin is added to the list.
/// The answer is the moment at which the last of it ends, or the present one.
fn begin_all<C: JumpCore>(
    alloc: Global,
    send_order: &SendOrder,
    moment: u64,
    idle: &BusIdle,
    seats: &mut [Seat<C>],
    all_timers: &mut [Timers],
    list: &mut Vec<Transmission>,
) -> Result<u64, AllocError>
    requires { MayBegin ⟦<C as Core>⟧ send_order.now.quiet moment send_order.now.places.items idle.now seats.old all_timers.old
        list.old.items }
    ensures numbers { map number_of seats.new ≡ map number_of seats.old }
    ensures long { length all_timers.new ≡ length all_timers.old }
    ensures begun { IfOk result (λ end. BeginsAt ⟦<C as Core>⟧ send_order.now.quiet moment idle.now seats.old seats.new
        all_timers.old all_timers.new list.old.items list.new.items end) }
{
    let mut end = moment;
    for place in &send_order.places {
        let begun = begin(
            alloc,
            send_order.quiet,
            moment,
            idle.ended,
            &mut seats[*place],
            &mut all_timers[*place],
        )?;
        end = later_end(end, &begun);
        note(list, begun)?;
    }
    Ok(end)
}

/// What `begin_all` does where the sender at one place alone is ready.
fn begin_alone<C: JumpCore>(
    alloc: Global,
    send_order: &SendOrder,
    moment: u64,
    idle: &BusIdle,
    place: usize,
    seats: &mut [Seat<C>],
    all_timers: &mut [Timers],
    list: &mut Vec<Transmission>,
) -> Result<u64, AllocError>
    requires bus { MayBegin ⟦<C as Core>⟧ send_order.now.quiet moment send_order.now.places.items idle.now seats.old all_timers.old
        list.old.items }
    requires alone { IsAlone (send_order.now.quiet + moment) (clocks_of idle.now.ended all_timers.old) place }
    ensures numbers { map number_of seats.new ≡ map number_of seats.old }
    ensures long { length all_timers.new ≡ length all_timers.old }
    ensures others { OnOk result (OthersKept (Some place) all_timers.new) }
    ensures begun { IfOk result (λ end. BeginsAt ⟦<C as Core>⟧ send_order.now.quiet moment idle.now seats.old seats.new
        all_timers.old all_timers.new list.old.items list.new.items end) }
{
    let begun = begin(
        alloc,
        send_order.quiet,
        moment,
        idle.ended,
        &mut seats[place],
        &mut all_timers[place],
    )?;
    let end = later_end(moment, &begun);
    note(list, begun)?;
    Ok(end)
}

/// Who is ready starts at the moment: the sender at one place alone, where it is given, and else all whose timers say so.
pub fn begin_ready<C: JumpCore>(
    alloc: Global,
    send_order: &SendOrder,
    moment: u64,
    idle: &BusIdle,
    alone: Option<usize>,
    seats: &mut [Seat<C>],
    all_timers: &mut [Timers],
    list: &mut Vec<Transmission>,
) -> Result<u64, AllocError>
    requires bus { MayBegin ⟦<C as Core>⟧ send_order.now.quiet moment send_order.now.places.items idle.now seats.old all_timers.old
        list.old.items }
    requires alone { IfSome alone (IsAlone (send_order.now.quiet + moment) (clocks_of idle.now.ended all_timers.old)) }
    ensures numbers { map number_of seats.new ≡ map number_of seats.old }
    ensures long { length all_timers.new ≡ length all_timers.old }
    ensures others { OnOk result (OthersKept alone all_timers.new) }
    ensures begun { IfOk result (λ end. BeginsAt ⟦<C as Core>⟧ send_order.now.quiet moment idle.now seats.old seats.new
        all_timers.old all_timers.new list.old.items list.new.items end) }
{
    match alone {
        Some(place) => begin_alone(
            alloc, send_order, moment, idle, place, seats, all_timers, list,
        ),
        None => begin_all(alloc, send_order, moment, idle, seats, all_timers, list),
    }
}
