//! The timers of a sender in plain numbers.
ghost use Rattle.std.specs.Prelude.{◌≡◌, ◌+◌, ◌-◌, ◌^◌, ◌<◌, ◌≤◌, ◌⊎◌, true, false, max, None};
ghost use Rattle.bus_timers.specs.Timings.{due_place};
ghost use Rattle.bus_medium.specs.inside.Lazy.{due_at, clock_of, clock_after, IsLater, IsSoon};

use crate::seat::Seat;
use bus_timers::{Core, History};
use std::cmp::max;

/// The place of a moment that never comes.
pub const NEVER: u64 = u64::MAX;

/// Since when the bus is idle, which all senders heard alike, and the shortest of their synchronization gaps.
#[derive(Clone, Copy)]
pub struct BusIdle {
    /// The place at which the bus became quiet for the last time: 0 before anything was sent.
    pub ended: u64,
    /// No sender's synchronization gap is shorter, in bit times.
    pub least: u32,
}

/// A sender's timers in plain numbers, kept beside its core. The core is told what was heard only where the sender
/// starts, and at the horizon; these numbers, and what all have heard, tell when that is. A place is a moment counted
/// from the beginning of the past.
#[derive(Clone, Copy)]
pub struct Timers {
    /// The synchronization gap, in bit times.
    pub sg: u32,
    /// The terminal gap, in bit times.
    pub tg: u32,
    /// The place up to which the core has been told.
    pub told: u64,
    /// The place at which the transmit interval elapses, or `NEVER` where no message is left.
    pub due: u64,
    /// How far behind the place at which the bus became quiet the terminal gap counts, or will: nothing where the
    /// synchronization gap elapsed before that.
    pub behind: u64,
    /// How far behind that place the terminal gap will be over, if the bus stays quiet.
    pub over: u64,
}

/// A place at which something of the sender is due: never, where no message is left.
fn due_at<C: Core>(seat: &Seat<C>, place: u64) -> u64
    ensures { result ≡ due_at seat.now place }
{
    if seat.terminal.has_left() {
        place
    } else {
        NEVER
    }
}

/// The timers of a sender at the settled start, behind so many quiet bit times.
pub fn settled_timers<C: Core>(seat: &Seat<C>, quiet: u32) -> Timers
    ensures sg { result.sg ≡ seat.now.timing.sg }
    ensures tg { result.tg ≡ seat.now.timing.tg }
    ensures told { result.told ≡ quiet }
    ensures due { result.due ≡ due_at seat.now (due_place seat.now.timing None) }
    ensures behind { result.behind ≡ seat.now.timing.sg }
    ensures small { result.behind < 2 ^ 32 }
    ensures over { result.over ≡ result.behind + result.tg }
{
    let timing = seat.timing;
    let due = due_at(seat, timing.quiet as u64 + timing.due as u64);
    let behind = timing.sg as u64;
    Timers {
        sg: timing.sg,
        tg: timing.tg,
        told: quiet as u64,
        due,
        behind,
        over: behind + timing.tg as u64,
    }
}

/// The timers of a sender that starts at the place `now`, where its core has been told all.
pub fn begun_timers<C: Core>(seat: &Seat<C>, now: u64, ended: u64) -> Timers
    requires small { now < 2 ^ 62 }
    requires ended { ended ≤ now }
    ensures sg { result.sg ≡ seat.now.timing.sg }
    ensures tg { result.tg ≡ seat.now.timing.tg }
    ensures told { result.told ≡ now }
    ensures due { result.due ≡ due_at seat.now (now + seat.now.timing.ti) }
    ensures gap { (clock_of ended result).gap_from ≡ now + seat.now.timing.sg }
{
    let timing = seat.timing;
    let due = due_at(seat, now + timing.ti as u64);
    let behind = now + timing.sg as u64 - ended;
    Timers {
        sg: timing.sg,
        tg: timing.tg,
        told: now,
        due,
        behind,
        over: behind + timing.tg as u64,
    }
}

impl Timers {
    /// What was heard since the core was told, up to the place `now`.
    pub fn history(&self, ended: u64, now: u64) -> History
        requires told { self.now.told ≤ now }
        requires near { (clock_of ended self.now).gap_from ≤ now + self.now.sg }
        requires small { now < 2 ^ 62 }
        ensures bits { result.bits ≡ now - self.now.told }
        ensures elapsed { (clock_of ended self.now).gap_from ≤ now
            → (result.synchronized ≡ true) × (result.quiet ≡ now - (clock_of ended self.now).gap_from) }
        ensures waiting { now < (clock_of ended self.now).gap_from
            → (result.synchronized ≡ false) × (result.quiet ≡ now + self.now.sg - (clock_of ended self.now).gap_from) }
    {
        let bits = now - self.told;
        let gap_from = ended + self.behind;
        if gap_from <= now {
            History {
                bits,
                quiet: now - gap_from,
                synchronized: true,
            }
        } else {
            History {
                bits,
                quiet: now + self.sg as u64 - gap_from,
                synchronized: false,
            }
        }
    }

    /// The first place at which the sender may start, if the bus stays quiet.
    pub fn ready_at(&self, ended: u64) -> u64
        requires { ended + self.now.behind < 2 ^ 63 }
        ensures { result ≡ (clock_of ended self.now).ready }
    {
        max(self.due, ended + self.behind + self.tg as u64)
    }

    /// Whether its sender is ready later than `most`, which is so far behind the place at which the bus became quiet, if the
    /// bus stays quiet.
    pub fn is_later(&self, most: u64, behind: u64) -> bool
        ensures later { result ≡ true → IsLater most behind self.now }
        ensures soon { result ≡ false → IsSoon most behind self.now }
    {
        self.due > most || self.over > behind
    }

    /// The bus was busy from one place to another.
    pub fn hear_busy(&mut self, ended: u64, from: u64, to: u64)
        requires ended { ended ≤ from }
        requires small { to < 2 ^ 62 }
        ensures clock { clock_of to self.new ≡ clock_after from to (clock_of ended self.old) }
        ensures sg { self.new.sg ≡ self.old.sg }
        ensures counted { (self.new.behind ≡ 0) ⊎ (self.new.behind ≡ self.new.sg) }
        ensures near { self.new.behind < 2 ^ 32 }
        ensures over { self.new.over ≡ self.new.behind + self.new.tg }
    {
        self.behind = if self.behind <= from - ended {
            0
        } else {
            self.sg as u64
        };
        self.over = self.behind + self.tg as u64;
    }
}
