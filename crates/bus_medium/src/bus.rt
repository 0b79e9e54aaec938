//! The shared bus, from its settled start on.
ghost use Rattle.std.specs.Prelude.{◌≡◌, ◌+◌, ◌*◌, ◌<◌, ◌≤◌, [], List, length, slice_get, Some, IfOk, OnOk, IsTrue};
ghost use Rattle.std.specs.List.{AllByRecursion};
ghost use Rattle.bus_strings.specs.Limits.{horizon_limit};
ghost use Rattle.bus_strings.specs.Messages.{Entry};
ghost use Rattle.bus_table.specs.Hands.{are_hands};
ghost use Rattle.bus_medium.specs.Timings.{quiet_of, stations_of};
ghost use Rattle.bus_medium.specs.Lawful.{IsLawful};
ghost use Rattle.bus_medium.specs.Buses as buses;
ghost use Rattle.bus_medium.specs.Buses.{stations, StandsAt, observe_limit};
ghost use Rattle.bus_medium.specs.Edges.{strings_sent};
ghost use Rattle.bus_medium.specs.Jumps.{Moved};

use crate::bit_times::observe_all;
use crate::deciding::SendOrder;
use crate::seat::Seat;
use crate::seating::{by_number, numbers, seat_all};
use crate::timings::quiet;
use crate::turns::jump_all;
use bus_strings::Transmission;
use bus_table::{Hand, Table};
use bus_timers::{Core, JumpCore};
use std::alloc::{AllocError, Global};
use std::marker::Model;

/// The greatest horizon of `Bus::observe`, in bit times: a limit of this project's profile.
pub const OBSERVE_LIMIT: u64 = 20_000_000;

/// The shared bus: its senders, in the order of the table, and the quiet before its settled start.
#[derive(Drop)]
pub struct Bus<C: Core> {
    alloc: Global,
    send_order: SendOrder,
    seats: Vec<Seat<C>>,
}

impl<C: Core> Model for Bus<C> {
    ghost use Rattle.std.specs.Prelude.{map};
    ghost use Rattle.bus_medium.specs.Buses as buses;
    ghost use Rattle.bus_medium.specs.Orders.{IsSendOrder};

    ghost Value = { buses.Bus C };

    ghost view = { λ b. record { quiet = b.send_order.quiet; seats = b.seats.items } };

    ghost invariant = { λ b. IsSendOrder (map buses.number_of b.seats.items) b.send_order.places.items };
}

impl<C: Core> Bus<C> {
    /// The bus of a table at its settled start, with one hand for each sender in the order of the table, whose
    /// messages fit. It stands at moment 0, and no core has been moved. Fails only where memory runs out.
    pub fn settled(alloc: Global, table: &Table, hands: Vec<Hand>) -> Result<Bus<C>, AllocError>
        requires { IsTrue (are_hands table.now.senders hands.items) }
        ensures stations { IfOk result (λ bus. stations bus ≡ stations_of table.now hands.items) }
        ensures quiet { IfOk result (λ bus. bus.quiet ≡ quiet_of table.now) }
        ensures stands { IfOk result (λ bus. StandsAt ⟦<C as Core>⟧ bus [] 0) }
        ensures moves { IfOk result (λ bus. AllByRecursion (λ seat. C.moves seat.terminal.core ≡ 0) bus.seats) }
    {
        let places = by_number(alloc, &numbers(alloc, table)?)?;
        let seats = seat_all(alloc, table, hands)?;
        Ok(Bus {
            alloc,
            send_order: SendOrder {
                quiet: quiet(table),
                places,
            },
            seats,
        })
    }

    /// Every bit time from the settled start up to the horizon: at each moment every terminal decides; then the
    /// carrier of the bit time is what any of them has; then every terminal is passed that carrier.
    ///
    /// The bus has to stand at moment 0, and the horizon is at most 20,000,000. Ok is the lawful list for its
    /// senders and the horizon, and the only one; the bus then stands at the horizon. After an error for want of
    /// memory it stands at no moment, and can only be dropped.
    pub fn observe(&mut self, horizon: u64) -> Result<Vec<Transmission>, AllocError>
        requires stands { StandsAt ⟦<C as Core>⟧ self.old [] 0 }
        requires horizon { horizon ≤ observe_limit }
        ensures lawful { IfOk result (λ list. IsLawful self.old.quiet (stations self.old) horizon list.items) }
        ensures only { IfOk result (λ list. (other : List Entry) → IsLawful self.old.quiet (stations self.old) horizon other
            → other ≡ list.items) }
        ensures stands { IfOk result (λ list. StandsAt ⟦<C as Core>⟧ self.new list.items horizon) }
        ensures quiet { OnOk result (self.new.quiet ≡ self.old.quiet) }
        ensures stations { OnOk result (stations self.new ≡ stations self.old) }
    {
        observe_all(self.alloc, &self.send_order, &mut self.seats, horizon)
    }

    /// How many senders the bus has.
    pub fn senders(&self) -> usize
        ensures { result ≡ length self.now.seats }
    {
        self.seats.len()
    }
}

impl<C: JumpCore> Bus<C> {
    /// What `observe` does, by jumps, and up to a horizon of 1,099,511,627,776. A jump goes to the moment at which the
    /// next senders may start while the bus is quiet, and from there to the end of all that they send: while the bus is
    /// busy nobody starts.
    ///
    /// A core moves once for each message of its own, and once more at the horizon: no more often than there are
    /// beginnings and ends of the wordstrings sent, and once. The bus has to stand at moment 0, and stands at the horizon
    /// after Ok. After an error for want of memory it stands at no moment, and can only be dropped.
    pub fn observe_by_jumps(&mut self, horizon: u64) -> Result<Vec<Transmission>, AllocError>
        requires stands { StandsAt ⟦<C as Core>⟧ self.old [] 0 }
        requires horizon { horizon ≤ horizon_limit }
        ensures lawful { IfOk result (λ list. IsLawful self.old.quiet (stations self.old) horizon list.items) }
        ensures only { IfOk result (λ list. (other : List Entry) → IsLawful self.old.quiet (stations self.old) horizon other
            → other ≡ list.items) }
        ensures stands { IfOk result (λ list. StandsAt ⟦<C as Core>⟧ self.new list.items horizon) }
        ensures quiet { OnOk result (self.new.quiet ≡ self.old.quiet) }
        ensures stations { OnOk result (stations self.new ≡ stations self.old) }
        ensures moves { IfOk result (λ list. Moved ⟦<C as Core>⟧ (2 * strings_sent list.items + 1) self.old.seats self.new.seats) }
    {
        jump_all(self.alloc, &self.send_order, &mut self.seats, horizon)
    }

    /// How often the core of sender `k` of the table, from 0, was moved since it was settled.
    pub fn moves(&self, k: usize) -> u64
        requires { k < length self.now.seats }
        ensures { (seat : buses.Seat C) → slice_get self.now.seats k ≡ Some seat → result ≡ C.moves seat.terminal.core }
    {
        self.seats[k].terminal.moves()
    }
}
