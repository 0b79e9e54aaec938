//! What is wrong with an entry of a trace.
ghost use Rattle.std.specs.Prelude.{◌≡◌, nat_lt, nat_le};
ghost use Rattle.bus_table.specs.Fits as fits;
ghost use Rattle.bus_audit.specs.Breaches as breaches;
ghost use Rattle.bus_audit.specs.inside.Watches as sums;
ghost use Rattle.bus_audit.specs.inside.Watches.{IsLow};

use crate::answer::BreachKind;
use crate::watch::{Watch, ready};
use bus_strings::Message;
use bus_table::{Sender, message_fits};

/// What is wrong with an entry at a place, of a sender with this watch: the first kind that applies, if one does.
pub fn judge(place: u64, sender: &Sender, watch: Watch, message: &Message) -> Option<BreachKind>
    requires { IsLow watch }
    ensures { result ≡ breaches.flaw (nat_lt 0 watch.left) (nat_le (sums.ready watch) place) (fits.fits sender.now message.now) }
{
    if watch.left == 0 {
        Some(BreachKind::Unheld)
    } else if place < ready(watch) {
        Some(BreachKind::Early)
    } else if !message_fits(sender, message) {
        Some(BreachKind::Misfit)
    } else {
        None
    }
}
