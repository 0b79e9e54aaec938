//! Laws of plans for a cable: what they bear, that nothing greater is borne, and how gaps share. Each is the contract of a function
//! that does nothing.
ghost use Rattle.bus_cable_plan.specs.Laws.{BorneFitsTurns, BorneHasLeast, BorneInOrder, FeasibleForExactly, FittingIsBorne, NoneShareMore};
ghost use Rattle.bus_cable_plan.specs.Laws.{NoneShareMoreInOrder};
ghost use Rattle.bus_cable_plan.specs.Meaning.{BestIsRight, MostBorneIsRight, PlansAreRight};
ghost use Rattle.bus_cable_plan.specs.Laws.{OrderIsKept, OrderIsPlanned, PlannedBears, RefutedIsNotBorne, SharedBears, WithoutDelay};

/// Whatever the delay: the offsets planned in turn order are accepted and bear it where they fit the interval, and the order is kept.
pub fn order_is_planned()
    ensures bears { OrderIsPlanned }
    ensures kept { OrderIsKept }
{}

/// Whatever the delay: so are those planned by terminal gaps where the transmit interval is at least the least interval for the delay.
pub fn planned_bears()
    ensures { PlannedBears }
{}

/// Where it is below that, and that is known, no choice of offsets bears the delay.
pub fn borne_has_least()
    ensures { BorneHasLeast }
{}

/// So some choice of offsets bears it exactly where the interval is at least that.
pub fn feasible_for_exactly()
    ensures { FeasibleForExactly }
{}

/// Nor does any choice that keeps the turn order where the interval is below the least one in that order.
pub fn borne_in_order()
    ensures { BorneInOrder }
{}

/// Whatever the delay, offsets that bear it leave room for each sender's terminal gap, the delay and its longest message.
pub fn borne_fits_turns()
    ensures { BorneFitsTurns }
{}

/// The greatest delay that any offsets bear: where a plan fits, each up to it is borne, and where it is refuted, none from it on.
pub fn greatest_is_told()
    ensures borne { FittingIsBorne }
    ensures refuted { RefutedIsNotBorne }
{}

/// What is left over is shared evenly: the plan in turn order bears the delay also where each gap is shorter by up to its share. Where the
/// least interval is known, no offsets in that order do for more, and none at all for more than an even share of what that interval leaves.
pub fn shares_are_best()
    ensures borne { SharedBears }
    ensures most { NoneShareMore }
    ensures most_in_order { NoneShareMoreInOrder }
{}

/// What an answer means: a planned table is the given one at offsets, other ones or its own, which are accepted and bear the delay, in the
/// order of the table where a plan in it fits; where the answer is infeasible no offsets do, in no interval below the one told; and it is
/// undecided only where the turns, of which the number tells, fit the interval, no plan does, the offsets of the table don't bear the
/// delay, and the least interval isn't known.
pub fn answers_are_right()
    ensures plan { PlansAreRight }
    ensures best { BestIsRight }
    ensures most { MostBorneIsRight }
{}

/// Without delay the least interval is that in which some offsets are accepted.
pub fn without_delay()
    ensures { WithoutDelay }
{}
