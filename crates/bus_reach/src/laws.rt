//! Laws of order on a cable with length, of late joiners, and of order from any start. Each is the contract of a function that does
//! nothing.
ghost use Rattle.bus_medium.specs.CableLaws.{NoDelayIsTheBus, OneCableListOfATable};
ghost use Rattle.bus_reach.specs.Laws.{BorneIsClosed, BorneIsKept, NoDelayIsClosed, ShorterIsBorne, ToleranceIsExact, ZeroIsBorne};
ghost use Rattle.bus_reach.specs.Laws.{JoinersComeSoon, JoiningIsOrderly, MembersStay, NeighboursTellBearing};
ghost use Rattle.bus_reach.specs.Settling.{AnyStartSettles, LongHandsLast, StartsItselfIsAccepted};
ghost use Rattle.bus_reach.specs.Colliding.{SomeNeverPart};
ghost use Rattle.bus_reach.specs.LatencyLaws.{AperiodicAreInTime, PeriodicAreInTime};
ghost use Rattle.bus_reach.specs.Limits.{LimitsTellBearing};
ghost use Rattle.bus_reach.specs.PeriodicLaws.{AcceptedBearZero, BearZeroIsAccepted, BorneForLess, CablesDelay};
ghost use Rattle.bus_reach.specs.PeriodicLaws.{PeriodicBearingIsExact, PeriodicBorneIsClosed, PeriodicNotBorneBreaks};
ghost use Rattle.bus_reach.specs.Receiving.{AperiodicBorneIsReceived, AperiodicIsReceivedLater};
ghost use Rattle.bus_reach.specs.Receiving.{MatchesAreReceived, PeriodicBorneIsReceived, PeriodicIsReceivedLater};

use bus_medium::laws::one_cable_list;
use bus_schedule::laws::{accepted_is_closed, borne_gaps_are_closed, witnesses_have_schedules};

/// Every valid table, with a hand for each of its senders, has exactly one lawful list for all delays, all wakes and each horizon.
/// Without delays, where all senders wake at the settled start, it is the lawful list of the bus.
pub fn one_list_on_a_cable()
    ensures table { OneCableListOfATable }
    ensures none { NoDelayIsTheBus }
{
    one_cable_list();
}

/// Without delays, and where all wake at the settled start, the closed schedule of an aperiodic table is that of `bus_schedule`.
pub fn no_delay_is_closed()
    ensures { NoDelayIsClosed }
{}

/// For an accepted aperiodic table and even hands, of any length, with delays between its senders up to what the table bears, and wakes no
/// later than that, the closed schedule is the one lawful list up to its end; no terminal, sender or listener, that hears every sender
/// within the same hears two transmissions overlap, every round holds each sender once in turn order, and successive starts of a sender
/// are as far apart as the verdict and the delays say.
pub fn borne_is_closed()
    ensures { BorneIsClosed }
{}

/// What a table bears is told by the neighbours in turn order, with the synchronization gap behind the last.
pub fn neighbours_tell_bearing()
    ensures { NeighboursTellBearing }
{}

/// No greater delays are borne: there are places on a straight cable and wakes with which the closed schedule isn't what the
/// senders do, whatever even hands of two rounds or more they have. So what a table bears is exactly that with which it keeps
/// its schedule.
pub fn tolerance_is_exact()
    ensures fails { ToleranceIsExact }
    ensures kept { BorneIsKept }
{
    witnesses_have_schedules();
}

/// Every aperiodic table bears a delay of 0, and with a delay each shorter one.
pub fn shorter_is_borne()
    ensures zero { ZeroIsBorne }
    ensures shorter { ShorterIsBorne }
{}

/// For an aperiodic table, accepted or not, and even hands, with delays between its senders up to what the table bears: where no sender
/// wakes earlier than the first in turn order, but for what the table bears, and a shortest cycle of those of the first round takes at
/// least one transmit interval, whoever wakes later takes its turn in the first round whose beginning it hears awake, and in every round
/// behind; no terminal, sender or listener, that hears every sender within the same hears two transmissions overlap. In that first round
/// it starts less than two longest cycles behind its wake, each with what the delays add to it.
pub fn joining_is_orderly()
    ensures run { JoiningIsOrderly }
    ensures stay { MembersStay }
    ensures soon { JoinersComeSoon }
{}

/// A bus without a master stabilizes itself. Without delays, whenever the senders of an aperiodic table that starts itself were powered
/// up, and whatever they sent at once until then: as long as their hands have messages left, from a moment on what they send is rounds
/// in turn order, with nothing missing and no two at once (`specs/Settling.antt`). That moment comes at most a longest cycle and a
/// synchronization gap behind the last power-up, and from the last power-up until then each of them begins one message at most. Hands
/// with as many messages as there are bit times before the horizon have some left. Such a table is accepted.
pub fn any_start_settles()
    ensures settles { AnyStartSettles }
    ensures long { LongHandsLast }
    ensures accepted { StartsItselfIsAccepted }
{}

/// A bus without a master may never find its order. Where the senders of an aperiodic table never part (`bus_regime::never_parts`), there
/// are wakes with which all of them start at once, one transmit interval apart and at no other moment, whatever they send, for as long as
/// their hands have messages left: two or more collide in every cycle.
pub fn some_never_part()
    ensures { SomeNeverPart }
{}

/// For an accepted periodic table and even hands, of any length, with delays between its senders up to what the table bears, the closed
/// schedule is the one lawful list up to the closed end, as without delays, in turns and one transmit interval apart; no terminal, sender
/// or listener, that hears every sender within the same hears two transmissions overlap.
pub fn periodic_borne_is_closed()
    ensures { PeriodicBorneIsClosed }
{
    borne_gaps_are_closed();
}

/// No greater delays are borne by a periodic table: there are places on a straight cable with which the closed schedule of its
/// witness isn't what the senders do. So it bears exactly the delays with which it keeps its closed schedule.
pub fn periodic_bearing_is_exact()
    ensures breaks { PeriodicNotBorneBreaks }
    ensures cables { CablesDelay }
    ensures exact { PeriodicBearingIsExact }
{
    witnesses_have_schedules();
    periodic_borne_is_closed();
}

/// Every accepted table, of either mode, bears a delay of 0, and a periodic table of two senders or more that bears it is accepted.
pub fn accepted_bear_zero()
    ensures zero { AcceptedBearZero }
    ensures accepted { BearZeroIsAccepted }
{
    shorter_is_borne();
}

/// What an accepted table, of either mode, bears it bears for less.
pub fn borne_for_less()
    ensures { BorneForLess }
{
    shorter_is_borne();
    periodic_bearing_is_exact();
}

/// With delays between its senders that an accepted table bears every terminal, sender or listener, that hears every sender within the same
/// receives the words that it receives without delays, line by line, each later than it is sent by the delay. With one sender alone it is
/// enough to hear it within the synchronization gap.
pub fn borne_is_received()
    ensures aperiodic { AperiodicBorneIsReceived }
    ensures periodic { PeriodicBorneIsReceived }
    ensures aperiodic_later { AperiodicIsReceivedLater }
    ensures periodic_later { PeriodicIsReceivedLater }
{
    accepted_is_closed();
    borne_is_closed();
    periodic_borne_is_closed();
}

/// In a run of an accepted table a terminal receives every wordstring of another that one of its receive lines matches.
pub fn matches_are_received()
    ensures { MatchesAreReceived }
{
    accepted_is_closed();
}

/// An accepted table bears exactly the delays that each of its limits bears: no limit is left out, and none is too small.
pub fn limits_tell_bearing()
    ensures { LimitsTellBearing }
{}

/// With delays between its senders that an accepted table bears data that just miss a start of their sender are received within their
/// latency behind that start, by every terminal that hears the senders no later, with every message that the sender may send next.
pub fn data_are_in_time()
    ensures aperiodic { AperiodicAreInTime }
    ensures periodic { PeriodicAreInTime }
{
    borne_is_closed();
    periodic_borne_is_closed();
}
