//! Laws of planned offsets: what is planned is accepted, and what isn't can't be. Each is the contract of a function that does nothing.
ghost use Rattle.bus_plan.specs.Laws.{PlannedIsAccepted, ShortIsRefused, FeasibleExactly, PlansAnew};

/// Where the transmit interval is at least the least interval, the planned table is valid, and accepted.
pub fn planned_is_accepted()
    ensures { PlannedIsAccepted }
{}

/// Where the transmit interval is below the least interval, no choice of offsets is accepted.
pub fn short_is_refused()
    ensures { ShortIsRefused }
{}

/// Some choice of offsets below the transmit interval is accepted exactly where the transmit interval is at least the least interval.
pub fn feasible_exactly()
    ensures { FeasibleExactly }
{}

/// A plan doesn't look at the offsets that the table had; so the plan of a planned table is that table.
pub fn plans_anew()
    ensures { PlansAnew }
{}
