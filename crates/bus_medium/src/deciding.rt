//! Who starts at a moment: the senders decide by rising number.
ghost use Rattle.std.specs.Prelude.{◌≡◌, ◌<◌, ◌≤◌, map, Option, IfOk, OnOk, MatchOption};
ghost use Rattle.bus_strings.specs.Limits.{horizon_limit, most_terminal};
ghost use Rattle.bus_medium.specs.Buses.{number_of};
ghost use Rattle.bus_medium.specs.inside.Following.{Idle, Started};
ghost use Rattle.bus_medium.specs.Orders.{IsSendOrder};
ghost use Rattle.bus_medium.specs.inside.Runs.{RunsTo, Decided};

use crate::note::note;
use crate::seat::Seat;
use bus_strings::{Transmission, copy_message};
use bus_timers::Core;
use std::alloc::{AllocError, Global};

/// In which order the senders decide, and how long the bus was quiet before.
#[derive(Drop)]
pub struct SendOrder {
    /// The quiet before the settled start, in bit times.
    pub quiet: u32,
    /// Where the senders stand in the table, by rising number.
    pub places: Vec<usize>,
}

/// One sender decides, and gives the transmission that it begins.
pub fn decide_one<C: Core>(
    alloc: Global,
    moment: u64,
    seat: &mut Seat<C>,
) -> Result<Option<Transmission>, AllocError>
    requires moment { moment < horizon_limit }
    requires number { (1 ≤ number_of seat.old) × (number_of seat.old ≤ most_terminal) }
    ensures number { number_of seat.new ≡ number_of seat.old }
    ensures begun { IfOk result (λ begun. MatchOption begun (Idle ⟦<C as Core>⟧ seat.old seat.new)
        (λ entry. Started ⟦<C as Core>⟧ seat.old seat.new moment entry)) }
{
    let terminal = &mut seat.terminal;
    if !terminal.decide() {
        return Ok(None);
    }
    let message = copy_message(alloc, terminal.message(terminal.sent() - 1))?;
    Ok(Some(Transmission {
        moment,
        terminal: terminal.number(),
        message,
    }))
}

/// Every sender decides at the moment, by rising number, and what they begin is added to the list.
pub fn decide_all<C: Core>(
    alloc: Global,
    send_order: &SendOrder,
    moment: u64,
    seats: &mut [Seat<C>],
    list: &mut Vec<Transmission>,
) -> Result<(), AllocError>
    requires moment { moment < horizon_limit }
    requires send_order { IsSendOrder (map number_of seats.old) send_order.now.places.items }
    requires at { RunsTo ⟦<C as Core>⟧ send_order.now.quiet seats.old list.old.items moment }
    ensures numbers { map number_of seats.new ≡ map number_of seats.old }
    ensures decided { OnOk result (Decided ⟦<C as Core>⟧ send_order.now.quiet moment seats.old seats.new list.old.items list.new.items) }
{
    for place in &send_order.places {
        let begun = decide_one(alloc, moment, &mut seats[*place])?;
        note(list, begun)?;
    }
    Ok(())
}
