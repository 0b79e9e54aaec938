//! The bus by jumps, from start to start: nobody starts while the bus is busy, and what begins at one moment keeps it
//! busy to the end of the longest of it.
ghost use Rattle.std.specs.Prelude.{◌≡◌, ℕ, ◌+◌, ◌*◌, ◌<◌, ◌≤◌, [], false, length, map, min, IfOk, OnOk};
ghost use Rattle.bus_strings.specs.Limits.{horizon_limit};
ghost use Rattle.bus_strings.specs.Transmissions.{carrier};
ghost use Rattle.bus_medium.specs.BusyLaws.{IsBusy};
ghost use Rattle.bus_medium.specs.Buses.{station_of, number_of, StandsAt};
ghost use Rattle.bus_medium.specs.Edges.{strings_sent};
ghost use Rattle.bus_medium.specs.Jumps.{Moved};
ghost use Rattle.bus_medium.specs.Orders.{IsSendOrder};
ghost use Rattle.bus_medium.specs.inside.Runs.{IsTheList};
ghost use Rattle.bus_medium.specs.inside.Lazy.{Sits, AllSit, RestsAt, AreTold, IsTold, AreSettled};
ghost use Rattle.bus_medium.specs.inside.Lazy.{MovedBySent, clock_of, clocks_of, EachKept, AreKept, AreNoShorter};

use crate::deciding::SendOrder;
use crate::ending::carrier_end;
use crate::first::next_start;
use crate::passing::pass_busy;
use crate::seat::Seat;
use crate::starting::begin_ready;
use crate::timers::{BusIdle, Timers, settled_timers};
use bus_strings::Transmission;
use bus_timers::{Core, JumpCore};
use std::alloc::{AllocError, Global};

/// The timers of the senders at the settled start.
fn all_settled_timers<C: JumpCore>(
    alloc: Global,
    quiet: u32,
    seats: &[Seat<C>],
) -> Result<Vec<Timers>, AllocError>
    ensures settled { IfOk result (λ all_timers. AreSettled quiet seats.now (clocks_of 0 all_timers.items)) }
    ensures kept { IfOk result (λ all_timers. EachKept all_timers.items) }
{
    let mut all_timers = Vec::with_capacity(alloc, seats.len())?;
    for seat in seats {
        all_timers.push(settled_timers(seat, quiet))?;
    }
    Ok(all_timers)
}

/// What all have heard at the settled start.
fn settled_idle(all_timers: &[Timers]) -> BusIdle
    ensures ended { result.ended ≡ 0 }
    ensures least { AreNoShorter result.least (clocks_of 0 all_timers.now) }
{
    let mut least = u32::MAX;
    for timers in all_timers {
        least = least.min(timers.sg);
    }
    BusIdle { ended: 0, least }
}

/// The earlier of two places.
fn earlier(a: u64, b: u64) -> u64
    ensures { result ≡ min a b }
{
    if b < a { b } else { a }
}

/// The moment at which carrier ends for now: where all of it ends, or before the horizon.
fn busy_end(list: &[Transmission], start: u64, end: u64, horizon: u64) -> u64
    requires some { start < horizon }
    requires busy { IsBusy list.now start end }
    ensures busy { IsBusy list.now start result }
    ensures most { result ≤ min end horizon }
    ensures quiet { (u : ℕ) → result ≤ u → u < min end horizon → carrier list.now u ≡ false }
{
    if end <= horizon {
        end
    } else {
        carrier_end(list, start, horizon)
    }
}

/// The next senders start, at the first moment at which any may, and all that they send is heard, up to the horizon.
/// The answer is the moment at which that is over.
fn turn<C: JumpCore>(
    alloc: Global,
    send_order: &SendOrder,
    moment: u64,
    horizon: u64,
    idle: &mut BusIdle,
    seats: &mut [Seat<C>],
    all_timers: &mut [Timers],
    list: &mut Vec<Transmission>,
) -> Result<u64, AllocError>
    requires horizon { horizon ≤ horizon_limit }
    requires moment { moment < horizon }
    requires send_order { IsSendOrder (map number_of seats.old) send_order.now.places.items }
    requires kept { AreKept idle.old (send_order.now.quiet + moment) all_timers.old }
    requires at { RestsAt ⟦<C as Core>⟧ send_order.now.quiet horizon seats.old (clocks_of idle.old.ended all_timers.old)
        list.old.items moment }
    ensures numbers { map number_of seats.new ≡ map number_of seats.old }
    ensures stations { OnOk result (map station_of seats.new ≡ map station_of seats.old) }
    ensures later { IfOk result (λ reached. moment < reached) }
    ensures kept { IfOk result (λ reached. AreKept idle.new (send_order.now.quiet + reached) all_timers.new) }
    ensures reached { IfOk result (λ reached. RestsAt ⟦<C as Core>⟧ send_order.now.quiet horizon seats.new
        (clocks_of idle.new.ended all_timers.new) list.new.items reached) }
    ensures moved { OnOk result (MovedBySent ⟦<C as Core>⟧ seats.old seats.new) }
{
    let next = next_start(send_order.quiet, moment, horizon, idle, all_timers);
    let start = next.moment;
    if start == horizon {
        return Ok(horizon);
    }
    let end = begin_ready(
        alloc, send_order, start, idle, next.alone, seats, all_timers, list,
    )?;
    let behind = busy_end(list, start, end, horizon);
    let quiet = send_order.quiet as u64;
    pass_busy(idle, next.alone, all_timers, quiet + start, quiet + behind);
    Ok(earlier(end, horizon))
}

/// The core of a sender is told what was heard.
fn tell<C: JumpCore>(quiet: u32, ended: u64, now: u64, seat: &mut Seat<C>, timers: &Timers)
    requires now { now ≤ quiet + horizon_limit }
    requires sits { Sits ⟦<C as Core>⟧ quiet now seat.old (clock_of ended timers.now) }
    ensures { IsTold ⟦<C as Core>⟧ quiet now (clock_of ended timers.now) seat.old seat.new }
{
    seat.terminal.hear(timers.history(ended, now));
}

/// The core of every sender is told what was heard.
fn tell_all<C: JumpCore>(
    quiet: u32,
    ended: u64,
    now: u64,
    seats: &mut [Seat<C>],
    all_timers: &[Timers],
)
    requires now { now ≤ quiet + horizon_limit }
    requires long { length all_timers.now ≡ length seats.old }
    requires sit { AllSit ⟦<C as Core>⟧ quiet now seats.old (clocks_of ended all_timers.now) }
    ensures { AreTold ⟦<C as Core>⟧ quiet now (clocks_of ended all_timers.now) seats.old seats.new }
{
    for k in 0..seats.len() {
        tell(quiet, ended, now, &mut seats[k], &all_timers[k]);
    }
}

/// The lawful list up to the horizon, start by start, of senders whose timers stand at the settled start.
fn run_all<C: JumpCore>(
    alloc: Global,
    send_order: &SendOrder,
    seats: &mut [Seat<C>],
    all_timers: &mut [Timers],
    horizon: u64,
) -> Result<Vec<Transmission>, AllocError>
    requires settled { AreSettled send_order.now.quiet seats.old (clocks_of 0 all_timers.old) }
    requires kept { EachKept all_timers.old }
    requires horizon { horizon ≤ horizon_limit }
    requires send_order { IsSendOrder (map number_of seats.old) send_order.now.places.items }
    requires stands { StandsAt ⟦<C as Core>⟧ (record { quiet = send_order.now.quiet; seats = seats.old }) [] 0 }
    ensures numbers { map number_of seats.new ≡ map number_of seats.old }
    ensures list { IfOk result (λ list. IsTheList ⟦<C as Core>⟧ send_order.now.quiet horizon seats.old seats.new list.items) }
    ensures moved { IfOk result (λ list. Moved ⟦<C as Core>⟧ (2 * strings_sent list.items + 1) seats.old seats.new) }
{
    let mut list = Vec::new(alloc);
    let mut idle = settled_idle(all_timers);
    let mut moment = 0;
    while moment < horizon {
        let reached = turn(
            alloc, send_order, moment, horizon, &mut idle, seats, all_timers, &mut list,
        )?;
        moment = reached;
    }
    let quiet = send_order.quiet;
    tell_all(quiet, idle.ended, quiet as u64 + horizon, seats, all_timers);
    Ok(list)
}

/// The lawful list up to the horizon, start by start.
pub fn jump_all<C: JumpCore>(
    alloc: Global,
    send_order: &SendOrder,
    seats: &mut [Seat<C>],
    horizon: u64,
) -> Result<Vec<Transmission>, AllocError>
    requires horizon { horizon ≤ horizon_limit }
    requires send_order { IsSendOrder (map number_of seats.old) send_order.now.places.items }
    requires stands { StandsAt ⟦<C as Core>⟧ (record { quiet = send_order.now.quiet; seats = seats.old }) [] 0 }
    ensures numbers { map number_of seats.new ≡ map number_of seats.old }
    ensures list { IfOk result (λ list. IsTheList ⟦<C as Core>⟧ send_order.now.quiet horizon seats.old seats.new list.items) }
    ensures moved { IfOk result (λ list. Moved ⟦<C as Core>⟧ (2 * strings_sent list.items + 1) seats.old seats.new) }
{
    let mut all_timers = all_settled_timers(alloc, send_order.quiet, seats)?;
    run_all(alloc, send_order, seats, &mut all_timers, horizon)
}
