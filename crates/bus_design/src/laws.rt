//! What roomy gaps are for tables. Each law is a statement that doesn't speak of the call, which does nothing.
ghost use Rattle.bus_design.specs.Ages.{AgesAreBounded, MadeHasLeastAges};
ghost use Rattle.bus_design.specs.Bests.{AnyIsRoomy, CycleIsMost, MadeIsValid, RoomyIsAny};

/// A table of these senders in this order has order from any start exactly with roomy gaps, where its transmit interval is the least, and
/// only with such where it is greater; and its longest cycle is theirs. So the best design is the best table.
pub fn any_is_roomy()
    ensures roomy { AnyIsRoomy }
    ensures any { RoomyIsAny }
    ensures cycle { CycleIsMost }
{}

/// A table that is made with roomy gaps is valid: no reason against a table stands against it that didn't against the given one.
pub fn made_is_valid()
    ensures { MadeIsValid }
{}

/// Where order has come, what is known of a sender is never older than the longest cycle, its longest message and the delay, from the start
/// of the transmission that told it to when the next one has been heard out; and the made table has the least such age of every sender.
pub fn ages_are_bounded()
    ensures bounded { AgesAreBounded }
    ensures least { MadeHasLeastAges }
{}
