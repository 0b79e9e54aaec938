//! Timers kept as places in the past.
ghost use Rattle.std.specs.Prelude.{◌≡◌, ◌+◌, ◌^◌, ◌<◌, ◌≤◌, ◌⊎◌, true, false, if◌then◌else◌};
ghost use Rattle.bus_timers.specs.inside.Deadlines.{DeadlinesStand, room_left};

use crate::cores::Core;
use crate::history::History;
use crate::jumps::JumpCore;
use crate::timing::Timing;
use std::cmp::max;

/// The place from which the terminal gap counts, some bit times behind the place `now`: quiet leaves it. Carrier puts
/// it right behind, and a synchronization gap further where that gap hasn't elapsed.
fn next_gap_from(gap_from: u64, now: u64, sg: u32, carrier: bool, bits: u64) -> u64
    requires { now + bits + sg < 2 ^ 64 }
    ensures none { bits ≡ 0 → result ≡ gap_from }
    ensures quiet { carrier ≡ false → result ≡ gap_from }
    ensures elapsed { carrier ≡ true → 0 < bits → gap_from ≤ now → result ≡ now + bits }
    ensures waiting { carrier ≡ true → 0 < bits → now < gap_from → result ≡ now + bits + sg }
    ensures near { (result ≡ gap_from) ⊎ (result ≤ now + bits + sg) }
{
    if !carrier || bits == 0 {
        gap_from
    } else if gap_from <= now {
        now + bits
    } else {
        now + bits + sg as u64
    }
}

/// The place from which the terminal gap counts behind a history, or will, whose quiet begins at this place.
fn gap_behind(quiet_from: u64, sg: u32, synchronized: bool) -> u64
    requires { quiet_from + sg < 2 ^ 64 }
    ensures { result ≡ quiet_from + (if synchronized then 0 else sg) }
{
    if synchronized {
        quiet_from
    } else {
        quiet_from + sg as u64
    }
}

/// Timers kept as three places in the past, so that a stretch of any length is one step.
///
/// It can be passed 2^62 bit times, less those that it was passed since it was settled.
#[derive(Drop)]
pub struct DeadlineCore {
    timing: Timing,
    /// The place at which the past ends.
    now: u64,
    /// The place at which the transmit interval elapses.
    due: u64,
    /// The place from which the terminal gap counts, or will.
    gap_from: u64,
    /// Calls of `pass` and `pass_many` since the core was settled.
    moves: u64,
    ghost now_counts: { timing.quiet ≤ now },
    ghost now_in_range: { now ≤ 2 ^ 62 + timing.quiet },
    ghost from_in_range: { gap_from ≤ 2 ^ 63 },
}

impl Core for DeadlineCore {
    ghost stands = { λ core timing past last. (core.timing ≡ timing)
        × DeadlinesStand core.timing core.now core.due core.gap_from past last };

    ghost room = { λ core. room_left core.timing core.now };

    ghost moves = { λ core. core.moves };

    fn settled(timing: Timing) -> Self {
        DeadlineCore {
            timing,
            now: timing.quiet as u64,
            due: timing.quiet as u64 + timing.due as u64,
            gap_from: timing.sg as u64,
            moves: 0,
        }
    }

    fn ready(&self) -> bool {
        self.due <= self.now && self.gap_from + self.timing.tg as u64 <= self.now
    }

    fn started(&mut self) {
        self.due = self.now + self.timing.ti as u64;
        self.gap_from = self.now + self.timing.sg as u64;
    }

    fn pass(&mut self, carrier: bool) {
        self.gap_from = next_gap_from(self.gap_from, self.now, self.timing.sg, carrier, 1);
        self.now += 1;
        self.moves = self.moves.saturating_add(1);
    }

    fn moves(&self) -> u64 {
        self.moves
    }
}

impl JumpCore for DeadlineCore {
    fn wait(&self) -> u64 {
        let ready_at = max(self.due, self.gap_from + self.timing.tg as u64);
        ready_at.saturating_sub(self.now)
    }

    fn pass_many(&mut self, carrier: bool, bits: u64) {
        self.gap_from = next_gap_from(self.gap_from, self.now, self.timing.sg, carrier, bits);
        self.now += bits;
        self.moves = self.moves.saturating_add(1);
    }

    fn hear(&mut self, history: History) {
        self.now += history.bits;
        let quiet_from = self.now.saturating_sub(history.quiet);
        self.gap_from = gap_behind(quiet_from, self.timing.sg, history.synchronized);
        self.moves = self.moves.saturating_add(1);
    }
}
