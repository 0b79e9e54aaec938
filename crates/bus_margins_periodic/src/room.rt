//! The room that a table leaves by a rule.
ghost use Rattle.std.specs.Prelude.{◌≡◌, pos, ◌-ℤ◌};
ghost use Rattle.bus_margins_periodic.specs.Least as least;
ghost use Rattle.bus_margins_periodic.specs.Rooms as rules;

/// The room that a rule leaves at a sender, between two, or among three, told by their places in turn order, from 0. What the rule
/// speaks of fewer, the other places are 0.
#[derive(Clone, Copy, Debug)]
pub struct Room {
    /// The place of the first one.
    pub first: usize,
    /// Of the second, where the rule speaks of two.
    pub second: usize,
    /// Of the third, where it speaks of three.
    pub third: usize,
    /// What the rule needs, in nanoseconds.
    pub need: u64,
    /// What there is, in nanoseconds.
    pub have: u64,
}

impl Room {
    /// The room in nanoseconds, below 0 exactly where the rule lacks.
    pub fn nanoseconds(&self) -> i128
        ensures { result ≡ pos self.now.have -ℤ pos self.now.need }
    {
        i128::from(self.have) - i128::from(self.need)
    }

    /// Whether this room is less than that one.
    pub fn is_less(self, other: Room) -> bool
        ensures { result ≡ least.is_less self other }
    {
        u128::from(self.have) + u128::from(other.need)
            < u128::from(other.have) + u128::from(self.need)
    }
}

/// The lesser of two rooms, the first where neither is less.
pub(crate) fn lesser(a: Option<Room>, b: Option<Room>) -> Option<Room>
    ensures { result ≡ least.lesser a b }
{
    match (a, b) {
        (None, _) => b,
        (Some(_), None) => a,
        (Some(room), Some(other)) => Some(if other.is_less(room) { other } else { room }),
    }
}

/// Whether a rule holds that leaves this least room.
pub fn holds(room: Option<Room>) -> bool
    ensures { result ≡ least.holds room }
{
    match room {
        None => true,
        Some(room) => room.need <= room.have,
    }
}

/// The least room by each rule: None where there are no senders that the rule speaks of.
#[derive(Clone, Copy, Debug)]
pub struct Rooms {
    /// Each message is heard out by all before the next one.
    pub hearing: Option<Room>,
    /// Whoever waits for its synchronization gap gets it in time.
    pub sync: Option<Room>,
    /// Nobody is overtaken.
    pub order: Option<Room>,
    /// The first round is in order, and the second comes behind it.
    pub begin: Option<Room>,
}

/// The room at one sender.
pub(crate) fn room_at(first: usize, need: u64, have: u64) -> Option<Room>
    ensures { result ≡ rules.room_at first need have }
{
    Some(Room {
        first,
        second: 0,
        third: 0,
        need,
        have,
    })
}

/// The room between two.
pub(crate) fn room_between(first: usize, second: usize, need: u64, have: u64) -> Option<Room>
    ensures { result ≡ rules.room_between first second need have }
{
    Some(Room {
        first,
        second,
        third: 0,
        need,
        have,
    })
}
