//! Timers kept as counters.
ghost use Rattle.std.specs.Prelude.{◌≡◌, ◌+◌, ◌-◌, ◌^◌, min, ◌<◌, ◌≤◌, true, false};
ghost use Rattle.bus_timers.specs.inside.Counters.{CoreStands, core_moves};

use crate::cores::Core;
use crate::timing::Timing;
use std::cmp::min;

/// What is counted of the synchronization gap a bit time later. Once elapsed it stays so.
fn next_quiet(quiet: u32, sg: u32, carrier: bool) -> u32
    ensures cut { carrier ≡ true → quiet < sg → result ≡ 0 }
    ensures counted { carrier ≡ false → quiet < sg → result ≡ quiet + 1 }
    ensures elapsed { sg ≤ quiet → result ≡ quiet }
{
    if quiet >= sg {
        quiet
    } else if carrier {
        0
    } else {
        quiet + 1
    }
}

/// What is counted of the terminal gap a bit time later. While the synchronization gap hasn't elapsed nothing is.
fn next_gap(gap: u32, tg: u32, waiting: bool, carrier: bool) -> u32
    ensures cut { carrier ≡ true → result ≡ 0 }
    ensures waiting { carrier ≡ false → waiting ≡ true → result ≡ gap }
    ensures counted { carrier ≡ false → waiting ≡ false → result ≡ min tg (gap + 1) }
{
    if carrier {
        0
    } else if waiting {
        gap
    } else if gap < tg {
        gap + 1
    } else {
        tg
    }
}

/// Timers kept as three counters that stop at their limits.
#[derive(Drop)]
pub struct CounterCore {
    timing: Timing,
    /// Bit times until the transmit interval elapses.
    wait: u32,
    /// Quiet bit times counted of the synchronization gap.
    quiet: u32,
    /// Quiet bit times counted of the terminal gap.
    gap: u32,
    /// Calls of `pass` since the core was settled.
    moves: u64,
}

impl Core for CounterCore {
    ghost stands = { λ core timing past last. CoreStands core timing past last };

    ghost room = { λ _. 2 ^ 62 };

    ghost moves = { λ core. core_moves core };

    fn settled(timing: Timing) -> Self {
        CounterCore {
            timing,
            wait: timing.due,
            quiet: timing.sg,
            gap: min(timing.tg, timing.quiet - timing.sg),
            moves: 0,
        }
    }

    fn ready(&self) -> bool {
        self.wait == 0 && self.gap == self.timing.tg
    }

    fn started(&mut self) {
        self.wait = self.timing.ti;
        self.quiet = 0;
        self.gap = 0;
    }

    fn pass(&mut self, carrier: bool) {
        self.wait = self.wait.saturating_sub(1);
        self.gap = next_gap(
            self.gap,
            self.timing.tg,
            self.quiet < self.timing.sg,
            carrier,
        );
        self.quiet = next_quiet(self.quiet, self.timing.sg, carrier);
        self.moves = self.moves.saturating_add(1);
    }

    fn moves(&self) -> u64 {
        self.moves
    }
}
