//! Each law is a statement that doesn't speak of the call, which does nothing.
ghost use Rattle.bus_tolerance.specs.Laws.{ToleranceTellsAny, ToleranceTellsLevel};

/// With exact clocks an accepted table of several senders has a level exactly for the delays that it bears, and level `Any` exactly where
/// it also starts itself.
pub fn tolerance_tells_level()
    ensures level { ToleranceTellsLevel }
    ensures any { ToleranceTellsAny }
{}
