//! Laws of the drop-out schedule. Each is the contract of a function that does nothing.
ghost use Rattle.bus_dropout.specs.Laws.{DropOutIsLawful, EvenDropOutIsClosed, EvenHandsAreLong};

use bus_medium::laws::one_lawful_list;
use bus_schedule::laws::live_rounds;

/// For an aperiodic table and hands whose last cycle, where there is one, is at least the transmit interval, the drop-out schedule is
/// the one lawful list up to its end; no two of its transmissions overlap, and every round holds each sender that has a message left
/// once in turn order. Live senders only grow fewer, so that the last cycle bounds every distance between two starts of a sender.
pub fn dropout_is_lawful()
    ensures { DropOutIsLawful }
{
    live_rounds();
    one_lawful_list();
}

/// With even hands the drop-out schedule is the closed schedule, and the last cycle of an accepted table is at least the transmit
/// interval.
pub fn even_dropouts()
    ensures closed { EvenDropOutIsClosed }
    ensures long { EvenHandsAreLong }
{
    live_rounds();
}
