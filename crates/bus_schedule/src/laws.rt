//! Laws of the closed schedule, of any length. Each is the contract of a function that does nothing.
ghost use Rattle.bus_schedule.specs.Laws.{AcceptedIsClosed, ClosedEndsInCycles, ClosedIsOrderly, EvenHandsAgree, GapsAreLeft};
ghost use Rattle.bus_schedule.specs.Laws.{EvenRoundsAreClosed, LiveRoundsAreLawful, LiveRoundsEnd};
ghost use Rattle.bus_schedule.specs.Laws.{BorneGapsAreClosed, AcceptedGapsBearNone, ShortCyclesStartEarly};
ghost use Rattle.bus_schedule.specs.Laws.{TheSettledAreAccepted, TheRefusedFail, WitnessesAreEven, WitnessesAreShort};

use bus_medium::laws::one_lawful_list;
use bus_table::laws::fitting_items_give_hands;

/// Rounds of the senders of an aperiodic table that have a message left (`specs/Live.antt`), with hands that need not be even, are
/// lawful up to their end, without overlaps, where each behind the first takes at least one transmit interval. They end with the
/// last turn. The closed schedule is such rounds of even hands.
pub fn live_rounds()
    ensures lawful { LiveRoundsAreLawful }
    ensures end { LiveRoundsEnd }
    ensures even { EvenRoundsAreClosed }
{}

/// For an accepted table in either mode and even hands, of any length, the closed schedule is the one lawful list up to the
/// closed end; no two of its transmissions overlap, every round holds each sender once in turn order, and successive starts of
/// a sender are as far apart as the verdict says.
pub fn accepted_is_closed()
    ensures { AcceptedIsClosed }
{
    one_lawful_list();
}

/// For an accepted periodic table and even hands, of any length, on a cable with delays up to what its gaps bear
/// (`specs/Slack.antt`), the closed schedule is the one lawful list up to the closed end, in turns and one transmit interval
/// apart, and no terminal hears two of its transmissions overlap. The gaps of every accepted periodic table bear a delay of 0.
pub fn borne_gaps_are_closed()
    ensures closed { BorneGapsAreClosed }
    ensures none { AcceptedGapsBearNone }
{}

/// The closed schedule of any table and even hands, accepted or not, ascends and holds each sender once a cycle; in aperiodic
/// mode it has no overlap.
pub fn closed_is_orderly()
    ensures { ClosedIsOrderly }
{}

/// The closed schedule of an aperiodic table, accepted or not, and even hands ends within as many cycles of longest messages as
/// it has rounds.
pub fn closed_ends_in_cycles()
    ensures { ClosedEndsInCycles }
{}

/// Of two neighbours in the closed schedule of a periodic table, accepted or not, the second starts at least as long behind the
/// end of the first as the gap before its sender is, taken with longest messages.
pub fn gaps_are_left()
    ensures { GapsAreLeft }
{}

/// Dealt hands are even exactly where no sender differs from the first in turn order.
pub fn even_hands_agree()
    ensures { EvenHandsAgree }
{}

/// The verdict accepts exactly the settled tables (`specs/Settled.antt`): those of which the closed schedule is what the bus does,
/// without overlaps, whatever even hands the senders have. A table that isn't accepted fails with the hands of its witness, an
/// aperiodic one at the second start of the first sender in turn order.
pub fn verdicts_are_exact()
    ensures settled { TheSettledAreAccepted }
    ensures refused { TheRefusedFail }
    ensures early { ShortCyclesStartEarly }
{
    fitting_items_give_hands();
    accepted_is_closed();
}

/// The hands of the witness of a table, accepted or refused, are even, and their closed end is within the limit.
pub fn witnesses_have_schedules()
    ensures even { WitnessesAreEven }
    ensures short { WitnessesAreShort }
{
    fitting_items_give_hands();
}
