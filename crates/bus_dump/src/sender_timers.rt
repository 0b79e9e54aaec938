//! The timers of a sender that hears the bus of a trace.
ghost use Rattle.std.specs.Prelude.{◌≡◌, ◌+◌, ◌^◌, ◌<◌, true};
ghost use Rattle.bus_dump.specs.inside.SenderTimers as sums;
ghost use Rattle.bus_dump.specs.inside.SenderTimers.{IsLow};

use bus_timers::Timing;

/// Which timers of a sender have elapsed at a bit time, before it decides there whether to start.
#[derive(Clone, Copy, Debug, Default, PartialEq, Eq)]
pub(crate) struct Elapsed {
    /// Its terminal number.
    pub terminal: u8,
    /// Its transmit interval.
    pub interval: bool,
    /// Its synchronization gap, since its last own start.
    pub synchronization: bool,
    /// Its terminal gap, behind the synchronization gap.
    pub gap: bool,
    /// All three, so that it may start.
    pub may: bool,
}

impl Elapsed {
    /// Whether the other tells the same.
    pub fn is_same(self, other: Elapsed) -> bool
        ensures { result ≡ true → self ≡ other }
    {
        self.terminal == other.terminal
            && self.interval == other.interval
            && self.synchronization == other.synchronization
            && self.gap == other.gap
            && self.may == other.may
    }
}

/// What is kept of the timers of a sender. A place is a moment counted from the beginning of the past.
#[derive(Clone, Copy, Debug, PartialEq, Eq)]
pub(crate) struct SenderTimers {
    /// Its terminal number.
    pub terminal: u8,
    /// Its timing.
    pub timing: Timing,
    /// The place at which its transmit interval elapses.
    pub due: u64,
    /// The place from which its terminal gap counts, or will if the bus stays quiet.
    pub gap: u64,
}

impl Default for SenderTimers {
    fn default() -> Self {
        let timing = Timing {
            ti: 0,
            sg: 0,
            tg: 0,
            quiet: 0,
            due: 0,
        };
        SenderTimers {
            terminal: 0,
            timing,
            due: 0,
            gap: 0,
        }
    }
}

impl SenderTimers {
    /// The timers at this place.
    pub fn tells(self, place: u64) -> Elapsed
        requires { IsLow self }
        ensures { result ≡ sums.tells_at place self }
    {
        let interval = self.due <= place;
        let gap = self.gap + u64::from(self.timing.tg) <= place;
        Elapsed {
            terminal: self.terminal,
            interval,
            synchronization: self.gap <= place,
            gap,
            may: interval && gap,
        }
    }

    /// The place from which the terminal gap counts behind the start at a place, if it is one.
    fn gap_from(self, place: u64, starts: bool) -> u64
        requires low { IsLow self }
        requires place { place < 2 ^ 42 }
        ensures { result ≡ sums.gap_from place starts self }
    {
        if starts {
            place + u64::from(self.timing.sg)
        } else {
            self.gap
        }
    }

    /// The timers at a later place, where its terminal starts at the first place or not, and the bus has carrier from there on or not.
    pub fn passed(self, from: u64, to: u64, starts: bool, carrier: bool) -> SenderTimers
        requires low { IsLow self }
        requires later { from < to }
        requires place { to < 2 ^ 42 }
        ensures { result ≡ sums.passed from to starts carrier self }
    {
        let gap = self.gap_from(from, starts);
        SenderTimers {
            due: if starts {
                from + u64::from(self.timing.ti)
            } else {
                self.due
            },
            gap: if !carrier {
                gap
            } else if gap <= from {
                to
            } else {
                to + u64::from(self.timing.sg)
            },
            ..self
        }
    }

    /// The next place, up to the limit, at which one of its timers may turn.
    pub fn next_turn(self, place: u64, limit: u64, starts: bool, carrier: bool) -> u64
        requires low { IsLow self }
        requires later { place < limit }
        ensures { result ≡ sums.next_turn place limit starts carrier self }
    {
        if starts || (carrier && self.gap < place) {
            return place + 1;
        }
        let due = later_or(self.due, place, limit);
        if carrier {
            return due;
        }
        let gap = later_or(self.gap, place, due);
        later_or(self.gap + u64::from(self.timing.tg), place, gap)
    }
}

/// The lesser of a place and a limit, where the place lies behind another; else the limit.
fn later_or(place: u64, behind: u64, limit: u64) -> u64
    ensures { result ≡ sums.later_or behind limit place }
{
    if behind < place {
        place.min(limit)
    } else {
        limit
    }
}
