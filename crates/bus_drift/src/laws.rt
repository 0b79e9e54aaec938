//! Laws of periodic buses whose clocks aren't exact, each the contract of a function that does nothing.
ghost use Rattle.bus_drift.specs.Examples.{ThereAreSuch};
ghost use Rattle.bus_drift.specs.InTurn.{TurnsGoOn};
ghost use Rattle.bus_drift.specs.Leading.{OffsetsAreLeast, OneLeads};
ghost use Rattle.bus_drift.specs.Neighbours.{OneTickCollides, OneTickHeld, OneTickIsLate, OneTickUnled};
ghost use Rattle.bus_drift.specs.Pace.{LongestIsRound, PaceIsKept};
ghost use Rattle.bus_drift.specs.Plain.{LittleIsEnough, SpreadIsLittle};

/// In periodic mode all take turns for ever, where the bounds leave room: whatever the lengths of messages, the clocks and what is heard.
pub fn turns_go_on()
    ensures { TurnsGoOn }
{}

/// From round to round all keep pace with the slowest, and no round is longer than the longest.
pub fn pace_is_kept()
    ensures pace { PaceIsKept }
    ensures longest { LongestIsRound }
{}

/// Nobody is overtaken where clocks and lengths vary little, and rounds vary no more than these.
pub fn little_is_enough()
    ensures order { LittleIsEnough }
    ensures spread { SpreadIsLittle }
{}

/// Where one clock leads, all keep their offsets to it, whatever the lengths of messages. There are least offsets.
pub fn one_leads()
    ensures lead { OneLeads }
    ensures least { OffsetsAreLeast }
{}

/// There are such buses, and courses on them for as long as one likes.
pub fn there_are_such()
    ensures { ThereAreSuch }
{}

/// Where somebody may be overtaken by one tick, two may begin at the same moment: that nobody is overtaken can't be weaker by one.
pub fn one_tick_collides()
    ensures { OneTickCollides }
{}

/// Where room for synchronization lacks one tick, a sender may wait for its synchronization gap.
pub fn one_tick_is_late()
    ensures { OneTickIsLate }
{}

/// So it is where one clock leads.
pub fn one_tick_unleads()
    ensures overtaken { OneTickUnled }
    ensures held { OneTickHeld }
{}
