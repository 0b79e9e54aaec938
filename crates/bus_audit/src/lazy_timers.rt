//! Timers that need not be told of each message.
ghost use Rattle.std.specs.Prelude.{◌≡◌, ◌+◌, ◌^◌, ◌<◌, map, IfOk};
ghost use Rattle.bus_audit.specs.inside.Watches as sums;
ghost use Rattle.bus_audit.specs.inside.Watches.{IsLow};
ghost use Rattle.bus_audit.specs.inside.Keeping.{lazy_of, soon_of, watch_of, gap_behind};

use crate::watch::{Watch, begun, pair, ready};
use std::alloc::{AllocError, Global};

/// What all senders have heard alike. Places are moments counted from the beginning of the past.
#[derive(Clone, Copy, Debug, PartialEq, Eq)]
pub struct Heard {
    /// The place at which the bus became busy for the last time, or 0 where it never was.
    pub from: u64,
    /// The place at which it became quiet again, or 0.
    pub ended: u64,
    /// The synchronization gap of all, in bit times.
    pub sg: u32,
}

/// The watch of a sender, but for the place from which its terminal gap counts: that follows from what all have heard.
#[derive(Clone, Copy, Debug, PartialEq, Eq)]
pub struct LazyTimers {
    /// The watch, as it was when its sender began last.
    pub watch: Watch,
    /// The place at which its sender began last, or 0 where it hasn't.
    pub last: u64,
    /// How far behind the place at which the bus became quiet the gap counts: nothing where the synchronization gap elapsed
    /// before.
    pub behind: u64,
    /// No later than the pair at which the sender is next missed, counted from the beginning of the past: a moment of 256
    /// pairs each. It may be too early, so that it need not be told of each message.
    pub soon: u64,
}

/// The pair at which a sender is next missed if the bus stays quiet, counted from the beginning of the past.
fn soon_of(watch: Watch) -> u64
    requires { IsLow watch }
    ensures { result ≡ soon_of watch }
{
    if watch.left == 0 {
        u64::MAX
    } else {
        pair(ready(watch), watch.number)
    }
}

/// What is kept of a sender at the settled start.
fn settled_lazy(watch: Watch) -> LazyTimers
    requires { IsLow watch }
    ensures { result ≡ lazy_of watch }
{
    LazyTimers {
        watch,
        last: 0,
        behind: u64::from(watch.timing.sg),
        soon: soon_of(watch),
    }
}

impl LazyTimers {
    /// The watch, where this is what all have heard.
    pub fn watch(&self, heard: Heard) -> Watch
        requires { IsLow (watch_of heard self.now) }
        ensures { result ≡ watch_of heard self.now }
    {
        let gap = if heard.from < self.last {
            self.last + u64::from(self.watch.timing.sg)
        } else {
            heard.ended + self.behind
        };
        Watch { gap, ..self.watch }
    }

    /// From here on it tells exactly when the sender is next missed, if the bus stays quiet.
    pub fn find_soon(&mut self, heard: Heard)
        requires { IsLow (watch_of heard self.old) }
        ensures { self.new ≡ record self.old { soon = soon_of (watch_of heard self.old) } }
    {
        self.soon = soon_of(self.watch(heard));
    }

    /// The bus became busy at this place, behind what was heard before.
    pub fn pass(&mut self, heard: Heard, from: u64)
        requires { IsLow (watch_of heard self.old) }
        ensures { self.new ≡ record self.old { behind = gap_behind from (watch_of heard self.old) } }
    {
        self.behind = if self.watch(heard).gap <= from {
            0
        } else {
            u64::from(self.watch.timing.sg)
        };
    }

    /// What is kept when its sender begins a message at this place.
    pub fn begun(&self, heard: Heard, place: u64) -> LazyTimers
        requires low { IsLow (watch_of heard self.now) }
        requires place { place < 2 ^ 41 }
        ensures watch { result.watch ≡ sums.begun place (watch_of heard self.now) }
        ensures last { result.last ≡ place }
        ensures behind { result.behind ≡ self.now.watch.timing.sg }
        ensures soon { result.soon ≡ soon_of result.watch }
    {
        let watch = begun(place, self.watch(heard));
        LazyTimers {
            watch,
            last: place,
            behind: u64::from(watch.timing.sg),
            soon: soon_of(watch),
        }
    }
}

/// What is kept of all senders at the settled start.
pub fn lazy_all(alloc: Global, watches: &[Watch]) -> Result<Vec<LazyTimers>, AllocError>
    requires { sums.AreLow watches.now }
    ensures { IfOk result (λ timers. timers.items ≡ map lazy_of watches.now) }
{
    let mut timers = Vec::with_capacity(alloc, watches.len())?;
    for watch in watches {
        timers.push(settled_lazy(*watch))?;
    }
    Ok(timers)
}
