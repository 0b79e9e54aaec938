//! The bounds of a bus that options ask for.
ghost use Rattle.std.specs.Prelude.{◌≡◌, ◌≤◌, IfOk};
ghost use Rattle.std.specs.Option.{IfSome};
ghost use Rattle.bus_bounds.specs.Bounds as limits;
ghost use Rattle.bus_options.specs.Bounding as bounding;
ghost use Rattle.bus_options.specs.Bounding.{most_near_delay};

use crate::options::Options;
use bus_bounds::{Bounds, MOST_CLOCKS, MOST_DELAY, MOST_JITTER};
use bus_units::bits_up;

/// The greatest delay between the monitor of a recording and a terminal, in bit times.
const MOST_NEAR_DELAY: u64 = 9;

/// The greatest jitter of a recording, in bit times.
const MOST_NEAR_JITTER: u64 = 255;

/// Which of the bounds is past its limit; of several the first of these.
#[derive(Clone, Copy, Debug, PartialEq, Eq)]
pub enum PastLimit {
    /// The delay.
    Delay,
    /// The jitter.
    Jitter,
    /// The clocks.
    Clocks,
}

/// Whether a bound is given.
fn has_bounds(options: &Options) -> bool
    ensures { result ≡ bounding.has_bounds options.now }
{
    options.delay.is_some() || options.jitter.is_some() || options.clocks.is_some()
}

/// Bounds that are within these limits.
fn within(
    delay: u64,
    jitter: u64,
    clocks: u64,
    most_delay: u64,
    most_jitter: u64,
) -> Result<Option<Bounds>, PastLimit>
    requires delay { most_delay ≤ limits.most_delay }
    requires jitter { most_jitter ≤ limits.most_jitter }
    ensures value { result ≡ bounding.within (record { delay = delay; jitter = jitter; clocks = clocks }) most_delay most_jitter }
    ensures limit { IfOk result (λ given. IfSome given (λ bounds. bounds.delay ≤ most_delay)) }
{
    if most_delay < delay {
        Err(PastLimit::Delay)
    } else if most_jitter < jitter {
        Err(PastLimit::Jitter)
    } else {
        match Bounds::new(delay, jitter, clocks) {
            Some(bounds) => Ok(Some(bounds)),
            None => Err(PastLimit::Clocks),
        }
    }
}

/// The bounds that options ask for, in nanoseconds: those that aren't given are 0 where another is; None where none is given.
///
/// # Errors
///
/// The first that is past its limit: [`MOST_DELAY`], [`MOST_JITTER`], [`MOST_CLOCKS`].
pub fn bounds_of(options: &Options) -> Result<Option<Bounds>, PastLimit>
    ensures { result ≡ bounding.bounds_of options.now }
{
    if !has_bounds(options) {
        return Ok(None);
    }
    let delay = options.delay.unwrap_or(0);
    let jitter = options.jitter.unwrap_or(0);
    within(
        delay,
        jitter,
        options.clocks.unwrap_or(0),
        MOST_DELAY,
        MOST_JITTER,
    )
}

/// The bounds of a recording that options ask for, in bit times, rounded up: those that aren't given are 0 where another is; None where
/// none is given.
///
/// # Errors
///
/// The first that is past its limit: 9 and 255 bit times, and [`MOST_CLOCKS`].
pub fn near_bounds_of(options: &Options) -> Result<Option<Bounds>, PastLimit>
    ensures value { result ≡ bounding.near_bounds_of options.now }
    ensures limit { IfOk result (λ given. IfSome given (λ bounds. bounds.delay ≤ most_near_delay)) }
{
    if !has_bounds(options) {
        return Ok(None);
    }
    let delay = bits_up(options.delay.unwrap_or(0));
    let jitter = bits_up(options.jitter.unwrap_or(0));
    within(
        delay,
        jitter,
        options.clocks.unwrap_or(0),
        MOST_NEAR_DELAY,
        MOST_NEAR_JITTER,
    )
}
