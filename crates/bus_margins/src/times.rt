//! How long what a table says in bit times lasts, in nanoseconds.
ghost use Rattle.std.specs.Prelude.{◌≡◌, ◌≤◌, ◌^◌};
ghost use Rattle.bus_margins.specs.Times as times;

use bus_bounds::Bounds;

/// How many nanoseconds a bit time has.
const BIT_TIME: u64 = 500;

/// How long a timer, or a message, of so many bit times lasts at least.
pub(crate) fn least_time(bounds: Bounds, bits: u32) -> u64
    requires { bits ≤ 2 ^ 18 }
    ensures value { result ≡ times.least_time bounds bits }
    ensures bound { result ≤ 2 ^ 27 }
{
    bounds.short(BIT_TIME * u64::from(bits))
}

/// And at most.
pub(crate) fn most_time(bounds: Bounds, bits: u32) -> u64
    requires { bits ≤ 2 ^ 18 }
    ensures value { result ≡ times.most_time bounds bits }
    ensures bound { result ≤ 2 ^ 28 }
{
    bounds.long(BIT_TIME * u64::from(bits))
}

/// Within a message nobody hears so many quiet nanoseconds in a row.
pub(crate) fn drop_of(bounds: Bounds) -> u64
    ensures value { result ≡ times.drop_of bounds }
{
    2001 + bounds.error(2000) + bounds.delay()
}
