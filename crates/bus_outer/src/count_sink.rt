//! A sink that only counts.
ghost use Rattle.std.specs.Prelude.{◌≡◌, ◌+◌, ◌<◌, None, length, min};
ghost use Rattle.bus_outer.specs.Faults.{last_u64};
ghost use Rattle.bus_outer.specs.Sinks.{Pushes, CountsPush};

use crate::{Push, Sink};

/// A sink that takes every push whole and keeps only the count of bytes, which stops at the last value of a `u64`.
///
/// It never fails, so that its count of faults is the constant 0, and doesn't tell what it holds.
#[derive(Drop)]
pub struct CountSink {
    count: u64,
}

impl CountSink {
    ghost use Rattle.bus_outer.specs.Memory.{counted_bytes};

    /// A sink that has counted nothing.
    pub fn new() -> CountSink
        ensures { counted_bytes result ≡ 0 }
    {
        CountSink { count: 0 }
    }

    /// How many bytes it has taken, up to the last value of a `u64`.
    pub fn count(&self) -> u64
        ensures { result ≡ counted_bytes self.now }
    {
        self.count
    }
}

impl Sink for CountSink {
    ghost use Rattle.bus_outer.specs.Memory.{counted_bytes};

    ghost held = { λ _. None };

    ghost faults = { λ _. 0 };

    /// Takes and counts all bytes.
    fn push(&mut self, bytes: &[u8]) -> Push
        requires { 0 < length bytes.now }
        ensures bytes { Pushes None None result bytes.now }
        ensures counts { CountsPush 0 0 result }
        ensures whole { result ≡ Push.Took (length bytes.now) }
        ensures count { counted_bytes self.new ≡ min (counted_bytes self.old + length bytes.now) last_u64 }
    {
        self.count = self.count.saturating_add(bytes.len() as u64);
        Push::Took(bytes.len())
    }
}
