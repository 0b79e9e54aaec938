//! How many bit times last so long.
ghost use Rattle.std.specs.Prelude.{◌≡◌, ◌≤◌, ◌^◌};
ghost use Rattle.bus_best.specs.Asked as asked;

use bus_bounds::Bounds;
use bus_gaps::{drop_of, least_time};

/// How many nanoseconds a bit time has.
const BIT_TIME: u64 = 500;

/// The least terminal gap.
const LEAST_TG: u32 = 8;

/// The least synchronization gap.
const LEAST_SG: u64 = 9;

/// So many bit times last so long at least, and fewer don't.
#[tactic(auto, unfolding(crate::specs::Asked::least_bits))]
fn least_bits(bounds: Bounds, low: u64) -> u64
    requires { low ≤ 2 ^ 30 }
    ensures { result ≡ asked.least_bits bounds low }
{
    let off = 1_000_000 - bounds.clocks();
    ((bounds.jitter() + low) * off).div_ceil(BIT_TIME * (off - bounds.clocks()))
}

/// The least terminal gap that lasts so long.
pub(crate) fn least_gap(bounds: Bounds, low: u64) -> u64
    requires { low ≤ 2 ^ 30 }
    ensures { result ≡ asked.least_gap bounds low }
{
    if low <= least_time(bounds, LEAST_TG) {
        u64::from(LEAST_TG)
    } else {
        least_bits(bounds, low)
    }
}

/// The least synchronization gap that is over within no message.
pub(crate) fn least_whole(bounds: Bounds) -> u64
    ensures { result ≡ asked.least_whole bounds }
{
    least_bits(bounds, drop_of(bounds)).max(LEAST_SG)
}
