//! What a periodic table promises on such a bus.
ghost use Rattle.std.specs.Prelude.{◌≡◌};
ghost use Rattle.bus_margins_periodic.specs.Bearing as bearing;

use crate::room::Rooms;

/// Whether the senders of a table keep their turns whoever is the slowest, or because one clock leads, or neither.
#[derive(Clone, Copy, Debug, PartialEq, Eq)]
pub enum Level {
    /// All keep their turns, whoever is the slowest.
    Turns,
    /// All keep their turns behind the first sender, whose clock leads.
    Leads,
    /// Neither.
    Neither,
}

impl Level {
    /// Whether another level is as high as this one.
    pub(crate) fn is_kept_by(self, other: Level) -> bool
        ensures { result ≡ bearing.is_level self other }
    {
        match (self, other) {
            (Level::Turns, Level::Turns) => true,
            (Level::Turns, _) => false,
            (Level::Leads, Level::Neither) => false,
            (Level::Leads, _) => true,
            (Level::Neither, _) => true,
        }
    }
}

/// The level of a table, how many nanoseconds lie between successive starts of a sender at least and at most where it has one, and
/// the room that it leaves by each rule.
#[derive(Clone, Copy, Debug)]
pub struct Margins {
    /// The level.
    pub level: Level,
    /// How many nanoseconds lie between successive starts of a sender at least; 0 where the level is `Neither`.
    pub least: u64,
    /// And at most.
    pub most: u64,
    /// The room by each rule.
    pub rooms: Rooms,
}
