//! The bounds one by one, and what is borne of each.
ghost use Rattle.std.specs.Prelude.{◌≡◌, ◌≤◌};
ghost use Rattle.bus_margins.specs.Bearing as specs;

use bus_bounds::{Bounds, MOST_CLOCKS, MOST_DELAY, MOST_JITTER};

/// The greatest values of the bounds, each alone, with which the level is no lower.
#[derive(Clone, Copy, Debug)]
pub struct Borne {
    /// The greatest delay in nanoseconds.
    pub delay: u64,
    /// The greatest jitter in nanoseconds.
    pub jitter: u64,
    /// By how many millionths oscillators may be off at most.
    pub clocks: u64,
}

/// One of the bounds.
#[derive(Clone, Copy, Debug)]
pub enum Part {
    /// The delay.
    Delay,
    /// The jitter.
    Jitter,
    /// By how many millionths oscillators are off.
    Clocks,
}

/// These bounds with another value of one of them, within its limit.
pub fn with_part(bounds: Bounds, part: Part, n: u64) -> Bounds
    requires { n ≤ specs.most_part part }
    ensures { result ≡ specs.with_part bounds part n }
{
    let (delay, jitter, clocks) = (bounds.delay(), bounds.jitter(), bounds.clocks());
    let changed = match part {
        Part::Delay => Bounds::new(n, jitter, clocks),
        Part::Jitter => Bounds::new(delay, n, clocks),
        Part::Clocks => Bounds::new(delay, jitter, n),
    };
    changed.unwrap_or(bounds)
}

/// The value of one of these bounds.
pub fn part_of(bounds: Bounds, part: Part) -> u64
    ensures value { result ≡ specs.part_of bounds part }
    ensures most { result ≤ specs.most_part part }
{
    match part {
        Part::Delay => bounds.delay(),
        Part::Jitter => bounds.jitter(),
        Part::Clocks => bounds.clocks(),
    }
}

/// How great a bound may be: [`MOST_DELAY`], [`MOST_JITTER`] or [`MOST_CLOCKS`].
pub fn most_part(part: Part) -> u64
    ensures value { result ≡ specs.most_part part }
    ensures bound { result ≤ 1000000 }
{
    match part {
        Part::Delay => MOST_DELAY,
        Part::Jitter => MOST_JITTER,
        Part::Clocks => MOST_CLOCKS,
    }
}
