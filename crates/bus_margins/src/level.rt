//! What a table promises on such a bus.
ghost use Rattle.std.specs.Prelude.{◌≡◌};
ghost use Rattle.bus_margins.specs.Bearing as bearing;

use crate::room::Rooms;

/// Whether the order of a table comes about from any start, or is kept from a common start, or neither.
#[derive(Clone, Copy, Debug, PartialEq, Eq)]
pub enum Level {
    /// Order comes about from any start.
    Any,
    /// Order is kept from a common start.
    Common,
    /// Neither.
    Neither,
}

impl Level {
    /// Whether another level is as high as this one.
    pub(crate) fn is_kept_by(self, other: Level) -> bool
        ensures { result ≡ bearing.is_level self other }
    {
        match (self, other) {
            (Level::Any, Level::Any) => true,
            (Level::Any, _) => false,
            (Level::Common, Level::Neither) => false,
            (Level::Common, _) => true,
            (Level::Neither, _) => true,
        }
    }
}

/// The level of a table, how many nanoseconds lie between successive starts of a sender at least and at most where it has one, and
/// the room that it leaves by each rule.
#[derive(Clone, Copy, Debug)]
pub struct Margins {
    /// The level.
    pub level: Level,
    /// How many nanoseconds lie between successive starts of a sender at least, where the level isn't `Neither`.
    pub least: u64,
    /// And at most.
    pub most: u64,
    /// The room by each rule.
    pub rooms: Rooms,
}
