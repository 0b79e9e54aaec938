//! Laws of gaps. Each is a statement that doesn't speak of the call, which does nothing.
ghost use Rattle.bus_gaps.specs.Free.{FreeOrderIsBest};

/// Of all orders of some senders the one by shortest messages, the longest first, asks least: gaps that serve in any other serve in it, and
/// their longest cycle is the same.
pub fn free_order_is_best()
    ensures { FreeOrderIsBest }
{}
