//! Laws of cable texts, of what is heard, and of the order on a cable, each the contract of a function that does nothing.
ghost use Rattle.bus_cable.specs.TextLaws.{ReadsAsItsCable, IsTextOfItsReading};
ghost use Rattle.bus_cable.specs.OrderLaws.{BorneIsOrderly, PeriodicBorneIsOrderly, SpentHandsAreSilent};
ghost use Rattle.bus_cable.specs.OrderLaws.{StrangersAreUnwritten, StrangersHearNothing, StrangersSendNothing};
ghost use Rattle.bus_cable.specs.HearingLaws.{HearsEach, HearsInOrder, ClearIsUngarbled};

use bus_medium::laws::one_cable_list;
use bus_reach::laws::{borne_is_closed, periodic_borne_is_closed};

/// A cable text reads as its cable and items, and what reads as a cable and items is a text of them. Laws, with no work.
pub fn texts_read_as_their_cables()
    ensures again { ReadsAsItsCable }
    ensures found { IsTextOfItsReading }
{}

/// What a terminal hears in order is what it hears; on a straight cable it ascends; and where nothing overlaps in it, nothing is garbled.
/// Laws, with no work.
pub fn hearing_tells()
    ensures each { HearsEach }
    ensures order { HearsInOrder }
    ensures clear { ClearIsUngarbled }
{}

/// Two layouts with the same places for the terminals of a table, senders and listeners, and the same wakes for its senders have the
/// same lawful lists; each terminal of the table hears the same of such a list, and its heard text is the same. Laws, with no work.
pub fn strangers_count_for_nothing()
    ensures sent { StrangersSendNothing }
    ensures heard { StrangersHearNothing }
    ensures text { StrangersAreUnwritten }
{}

/// A list that is lawful up to a moment and holds every message of even hands is lawful up to every later moment. A law, with no work.
pub fn spent_hands_are_silent()
    ensures { SpentHandsAreSilent }
{}

/// Where no terminal of an accepted table is farther from a sender than the table bears, and its senders wake no later than that, in
/// periodic mode at once, the closed schedule of even hands is the one lawful list up to every horizon that isn't before its end; no
/// terminal of the table hears a transmission of another garbled, with one sender alone where none is farther from it than the
/// synchronization gap. Laws, with no work.
pub fn borne_is_orderly()
    ensures aperiodic { BorneIsOrderly }
    ensures periodic { PeriodicBorneIsOrderly }
{
    one_cable_list();
    borne_is_closed();
    periodic_borne_is_closed();
    hearing_tells();
}
