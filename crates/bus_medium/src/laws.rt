//! Laws of the past of a list, of lawful lists and of a terminal on its own, each the contract of a function that does nothing.
ghost use Rattle.bus_medium.specs.PastLaws.{PastLength, PastAt, NoCarrier, OwnLater, OwnMore, LastMore, OneAt};
ghost use Rattle.bus_medium.specs.BusyLaws.{EntryIsBusy, BusyElapsed, BusyWaiting, BusyNobody};
ghost use Rattle.bus_medium.specs.LawfulLaws.{OneLawfulList, ThereIsALawfulList, TheComputedList, OneListOfATable, LawfulToHorizon};
ghost use Rattle.bus_medium.specs.CableLaws.{OneCableList, TheComputedCableList, OneCableListOfATable, NoDelayIsTheBus};
ghost use Rattle.bus_medium.specs.Stretches.{IdleStretch, LoneStart, MessageIsCarrier, MessageElapsed, MessageWaiting, NoStartDuring};
ghost use Rattle.bus_medium.specs.Clocks.{ClocksStart, ClockTells, ClocksStep, ClocksAreLawful};
ghost use Rattle.bus_medium.specs.SendingLaws.{SendingIsNotReady};
ghost use Rattle.bus_medium.specs.MessageStretchLaws.{LaterIsStepByStep, OneStretch, SteadyWithin};

use bus_timers::laws::test_decides;

/// Senders with numbers of their own have exactly one lawful list for each horizon, the one that `lawful_list`
/// computes; so has every valid table with its hands. What is lawful up to the horizon is lawful for it.
pub fn one_lawful_list()
    ensures once { OneLawfulList }
    ensures exists { ThereIsALawfulList }
    ensures computed { TheComputedList }
    ensures table { OneListOfATable }
    ensures whole { LawfulToHorizon }
{
    test_decides();
}

/// On a cable too, whatever the delays are and whenever the senders wake, there is exactly one lawful list for each horizon, the one
/// that `cable_list` computes; so it is of every valid table with its hands. Without delays, where all senders wake at the settled
/// start, it is the lawful list of the bus.
pub fn one_cable_list()
    ensures once { OneCableList }
    ensures computed { TheComputedCableList }
    ensures table { OneCableListOfATable }
    ensures none { NoDelayIsTheBus }
{
    test_decides();
}

/// A list stays lawful over a stretch in which nobody is due, and with a start of the one who is.
pub fn lawful_turns()
    ensures idle { IdleStretch }
    ensures lone { LoneStart }
{}

/// For the timers a whole message is as good as carrier on each of its bit times, and nobody starts while it lasts.
pub fn messages_are_carrier()
    ensures carrier { MessageIsCarrier }
    ensures elapsed { MessageElapsed }
    ensures waiting { MessageWaiting }
    ensures silent { NoStartDuring }
{}

/// Where no transmission begins before all have heard the one before, four numbers of each sender tell who is due next, and that a
/// schedule which goes by them is lawful: on a cable, whenever the senders wake, and on the bus as the case without delays.
pub fn clocks_tell()
    ensures start { ClocksStart }
    ensures due { ClockTells }
    ensures step { ClocksStep }
    ensures lawful { ClocksAreLawful }
{}

/// What the past that a list makes has where, and how a sender's own transmissions grow with the moment. A law, with no work.
pub fn pasts()
    ensures length { PastLength }
    ensures at { PastAt }
    ensures silent { NoCarrier }
    ensures later { OwnLater }
    ensures more { OwnMore }
    ensures last { LastMore }
    ensures one { OneAt }
{}

/// A transmission keeps the bus busy, whatever else is sent meanwhile. For the timers a busy stretch is as good as
/// carrier on each of its bit times, and nobody starts inside it. A law, with no work.
pub fn busy_stretches()
    ensures entry { EntryIsBusy }
    ensures elapsed { BusyElapsed }
    ensures waiting { BusyWaiting }
    ensures nobody { BusyNobody }
{}

/// The timers of a terminal that is sending allow no start, as long as its own pulses are carrier to it: so its
/// core is not ready. A law, with no work.
pub fn sending_is_not_ready()
    ensures { SendingIsNotReady }
{}

/// A stretch of bit times leads a message where as many single ones do, is as long as it can be, and goes no further
/// than to the message's end. A law, with no work.
pub fn stretches_are_bit_times()
    ensures steps { LaterIsStepByStep }
    ensures one { OneStretch }
    ensures within { SteadyWithin }
{}
