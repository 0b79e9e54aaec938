//! Lengths within bounds: of timers, of messages, and of the delay.
ghost use Rattle.std.specs.Prelude.{◌≡◌, ◌≤◌, ◌<◌, ◌+◌, ◌*◌, ◌^◌};
ghost use Rattle.bus_bounds.specs.Bounds as lengths;
ghost use Rattle.bus_findings.specs.Recorded as recorded;

use bus_bounds::Bounds;
use bus_strings::{Transmission, bits};
use bus_table::{Sender, Table, longest};

/// By how much the length of a message is off for the oscillator that counts it, at most.
fn drift(bounds: Bounds, bits: u32) -> u64
    ensures value { result ≡ lengths.drift bounds.clocks bits }
    ensures bound { result ≤ bits }
{
    let length = u64::from(bits);
    bounds.error(length) - bounds.jitter()
}

/// When a transmission has ended at the soonest.
pub(crate) fn soonest(bounds: Bounds, x: &Transmission) -> u64
    ensures value { result ≡ (recorded.seen bounds x.now).soonest }
    ensures bound { result < 2 ^ 41 }
{
    let bits = bits(&x.message);
    x.moment + (u64::from(bits) - drift(bounds, bits))
}

/// When a transmission has ended at the latest.
pub(crate) fn latest(bounds: Bounds, x: &Transmission) -> u64
    ensures value { result ≡ (recorded.seen bounds x.now).latest }
    ensures bound { result < 2 ^ 41 }
{
    let bits = bits(&x.message);
    x.moment + (u64::from(bits) + drift(bounds, bits))
}

/// By how much later than it is recorded a terminal may hear another's transmission: the way from the monitor to it and back.
pub(crate) fn reach(bounds: Bounds) -> u64
    ensures value { result ≡ recorded.reach bounds }
    ensures bound { result ≤ 2000000 }
{
    2 * bounds.delay()
}

/// How short a timer of so many bit times may be.
pub(crate) fn short(bounds: Bounds, length: u32) -> u64
    requires { length ≤ 2 ^ 18 }
    ensures value { result ≡ lengths.short bounds length }
    ensures bound { result ≤ 2 ^ 18 }
{
    bounds.short(u64::from(length))
}

/// How long a timer of so many bit times may be.
pub(crate) fn long(bounds: Bounds, length: u32) -> u64
    requires { length ≤ 2 ^ 18 }
    ensures value { result ≡ lengths.long bounds length }
    ensures bound { result ≤ 2 ^ 20 }
{
    bounds.long(u64::from(length))
}

/// The bit times of the longest message of these senders.
fn longest_of(senders: &[Sender]) -> u32
    ensures value { result ≡ recorded.longest_of senders.now }
    ensures bound { result ≤ 2 ^ 18 }
{
    let mut most = 0;
    for sender in senders {
        most = longest(sender).max(most);
    }
    most
}

/// From when on no terminal hears what began before the recording.
pub(crate) fn settled(bounds: Bounds, table: &Table) -> u64
    ensures value { result ≡ recorded.settled_of bounds table.now }
    ensures bound { result ≤ 2 ^ 22 }
{
    let most = longest_of(table.senders());
    (u64::from(most) + drift(bounds, most) + reach(bounds)).saturating_sub(1)
}
