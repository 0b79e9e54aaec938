//! The room that a table leaves by a rule.
ghost use Rattle.std.specs.Prelude.{◌≡◌, pos, ◌-ℤ◌};
ghost use Rattle.bus_margins.specs.Least as least;

/// The room that a rule leaves at a terminal, or between two: what the rule needs and what there is, in nanoseconds.
#[derive(Clone, Copy, Debug)]
pub struct Room {
    /// The number of the terminal, 1 to 128.
    pub terminal: u8,
    /// That of the other one, where the rule speaks of two.
    pub other: Option<u8>,
    /// What the rule needs, in nanoseconds.
    pub need: u64,
    /// What there is, in nanoseconds.
    pub have: u64,
}

impl Room {
    /// The room in nanoseconds, below 0 exactly where the rule lacks.
    pub fn nanoseconds(&self) -> i128
        ensures { result ≡ pos self.now.have -ℤ pos self.now.need }
    {
        i128::from(self.have) - i128::from(self.need)
    }

    /// Whether this room is less than that one.
    fn is_less(self, other: Room) -> bool
        ensures { result ≡ least.is_less self other }
    {
        u128::from(self.have) + u128::from(other.need)
            < u128::from(other.have) + u128::from(self.need)
    }
}

/// The lesser of two rooms, the first where neither is less.
pub(crate) fn lesser(a: Option<Room>, b: Option<Room>) -> Option<Room>
    ensures { result ≡ least.lesser a b }
{
    match (a, b) {
        (None, _) => b,
        (Some(_), None) => a,
        (Some(room), Some(other)) => Some(if other.is_less(room) { other } else { room }),
    }
}

/// Whether a rule holds that leaves this least room.
pub(crate) fn holds(room: Option<Room>) -> bool
    ensures { result ≡ least.holds room }
{
    match room {
        None => true,
        Some(room) => room.need <= room.have,
    }
}

/// The least room by each rule: None where there are no terminals that the rule speaks of.
#[derive(Clone, Copy, Debug)]
pub struct Rooms {
    /// Within a message no synchronization gap elapses.
    pub whole: Option<Room>,
    /// Nor, inside a round, the terminal gap of any but the first sender.
    pub drop: Option<Room>,
    /// Inside a round, who is next is heard by those behind it before their terminal gap elapses.
    pub turns: Option<Room>,
    /// At the beginning of a round, whoever is the first in it is heard by all others before they would start.
    pub opening: Option<Room>,
    /// Nobody's synchronization gap elapses before another who is in sync has started, and is heard.
    pub waiting: Option<Room>,
    /// At the beginning of a round that of the others does before the first starts.
    pub joining: Option<Room>,
    /// No transmit interval outlasts what a sender waits and sends at least from one start to the next.
    pub interval: Option<Room>,
    /// Nor the shortest round, up to the latest start that the gaps allow.
    pub cycle: Option<Room>,
}
