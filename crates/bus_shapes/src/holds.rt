//! How many messages terminals held.
ghost use Rattle.std.specs.Prelude.{◌≡◌};
ghost use Rattle.bus_audit.specs.Breaches as breaches;

use bus_trace::Hold;

/// How many messages a terminal held, as the holds of a trace say: 0 where none names it.
pub fn held(holds: &[Hold], terminal: u8) -> u32
    ensures { result ≡ breaches.held holds.now terminal }
{
    for hold in holds {
        let hold = *hold;
        if hold.terminal == terminal {
            return hold.count;
        }
    }
    0
}
