//! The bounds of a bus.
ghost use Rattle.std.specs.Prelude.{◌≡◌, ◌≤◌, ◌<◌, ◌+◌, ◌*◌, ◌^◌, ◌↔◌, IsSome, IfSome};
ghost use Rattle.bus_bounds.specs.Bounds as definition;
ghost use Rattle.bus_bounds.specs.Bounds.{AreBounds, most_jitter};

use std::marker::Model;

/// The greatest delay, in nanoseconds.
pub const MOST_DELAY: u64 = 1_000_000;

/// The greatest jitter, in nanoseconds.
pub const MOST_JITTER: u64 = 100_000;

/// By how many millionths an oscillator may be off at most.
pub const MOST_CLOCKS: u64 = 1000;

/// How exact a bus is. It keeps that each of its numbers is within its limit.
#[derive(Clone, Copy, Debug, PartialEq, Eq)]
pub struct Bounds {
    delay: u64,
    jitter: u64,
    clocks: u64,
}

impl Model for Bounds {
    ghost use Rattle.bus_bounds.specs.Bounds as bounds;

    ghost Value = { bounds.Bounds };

    ghost view = { λ b. record { delay = b.delay; jitter = b.jitter; clocks = b.clocks } };

    ghost inverse = { λ b. record { delay = b.delay; jitter = b.jitter; clocks = b.clocks } };

    ghost invariant = { λ b. bounds.AreBounds (record { delay = b.delay; jitter = b.jitter; clocks = b.clocks }) };
}

impl Bounds {
    /// None exactly where the delay is above [`MOST_DELAY`], the jitter above [`MOST_JITTER`] or the clocks above [`MOST_CLOCKS`].
    pub fn new(delay: u64, jitter: u64, clocks: u64) -> Option<Bounds>
        ensures some { IsSome result ↔ AreBounds (record { delay = delay; jitter = jitter; clocks = clocks }) }
        ensures value { IfSome result (λ bounds. bounds ≡ record { delay = delay; jitter = jitter; clocks = clocks }) }
    {
        if delay > MOST_DELAY || jitter > MOST_JITTER || clocks > MOST_CLOCKS {
            return None;
        }
        Some(Bounds {
            delay,
            jitter,
            clocks,
        })
    }

    /// How much later a terminal hears another than it speaks, at most, in nanoseconds: 0 to [`MOST_DELAY`].
    pub fn delay(self) -> u64
        ensures value { result ≡ self.delay }
        ensures ranges { AreBounds self }
    {
        self.delay
    }

    /// By how much any length is off at most, however short it is, in nanoseconds: 0 to [`MOST_JITTER`].
    pub fn jitter(self) -> u64
        ensures value { result ≡ self.jitter }
        ensures ranges { AreBounds self }
    {
        self.jitter
    }

    /// By how many millionths of its frequency an oscillator is off at most: 0 to [`MOST_CLOCKS`].
    pub fn clocks(self) -> u64
        ensures value { result ≡ self.clocks }
        ensures ranges { AreBounds self }
    {
        self.clocks
    }

    /// By how much a length is off at most, in nanoseconds as the length is: the jitter, and what the clocks add, rounded up.
    pub fn error(self, length: u64) -> u64
        requires { length ≤ 2 ^ 48 }
        ensures value { result ≡ definition.error self length }
        ensures bound { result ≤ most_jitter + length }
    {
        self.jitter + (length * self.clocks).div_ceil(1_000_000 - self.clocks)
    }

    /// How short it may be: at least 0.
    pub fn short(self, length: u64) -> u64
        requires { length ≤ 2 ^ 48 }
        ensures value { result ≡ definition.short self length }
        ensures bound { result ≤ length }
    {
        length.saturating_sub(self.error(length))
    }

    /// How long it may be.
    pub fn long(self, length: u64) -> u64
        requires { length ≤ 2 ^ 48 }
        ensures value { result ≡ definition.long self length }
        ensures bound { result ≤ most_jitter + 2 * length }
    {
        length + self.error(length)
    }
}
