//! Laws of the best gaps. Each is a statement that doesn't speak of the call, which does nothing.
ghost use Rattle.bus_best.specs.Bests.{BestIsBest};
ghost use Rattle.bus_best.specs.Groups.{RoomyKeepsGroups};

/// What is computed is the best, and where nothing is computed there are no gaps with which order comes from any start.
pub fn best_is_best()
    ensures { BestIsBest }
{}

/// Gaps are such that order comes from any start exactly where they are within their limits and keep all groups of rules.
pub fn roomy_keeps_groups()
    ensures { RoomyKeepsGroups }
{}
