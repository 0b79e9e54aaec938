//! A sender starts.
ghost use Rattle.std.specs.Prelude.{◌<◌, length, IfOk};
ghost use Rattle.bus_strings.specs.Limits.{horizon_limit};
ghost use Rattle.bus_propagation.specs.inside.Turns.{IsSender, Begun};

use crate::seat::{Seat, interval_end};
use crate::timers::started;
use bus_strings::{Transmission, copy_message};
use std::alloc::{AllocError, Global};

/// A sender begins its next message at a moment.
pub fn begin(alloc: Global, seat: &mut Seat, moment: u64) -> Result<Transmission, AllocError>
    requires sender { IsSender seat.old }
    requires left { seat.old.sent < length seat.old.messages.items }
    requires moment { moment < horizon_limit }
    ensures { IfOk result (λ x. Begun moment seat.old seat.new x) }
{
    let next = &seat.messages[seat.sent];
    let _ranges = next.strings();
    let message = copy_message(alloc, next)?;
    seat.sent += 1;
    seat.timers = started(seat.timing, moment);
    seat.next = interval_end(seat);
    Ok(Transmission {
        moment,
        terminal: seat.terminal,
        message,
    })
}
