//! How long the senders of a table take.
ghost use Rattle.std.specs.Prelude.{◌≡◌, ◌≤◌, ◌^◌};
ghost use Rattle.bus_margins.specs.Rooms as rules;

use crate::times::{least_time, most_time};
use bus_bounds::Bounds;
use bus_table::{Sender, Table, longest, shortest};

/// The transmit interval.
pub(crate) fn ti_of(table: &Table) -> u32
    ensures value { result ≡ table.now.ti }
    ensures bound { result ≤ 2 ^ 18 }
{
    table.ti()
}

/// The synchronization gap.
pub(crate) fn sg_of(table: &Table) -> u32
    ensures value { result ≡ table.now.sg }
    ensures bound { result ≤ 2 ^ 18 }
{
    table.sg()
}

/// The terminal gap of a sender.
pub(crate) fn tg_of(sender: &Sender) -> u32
    ensures value { result ≡ sender.now.tg }
    ensures bound { result ≤ 2 ^ 18 }
{
    sender.tg()
}

/// How long a sender takes at least, with its terminal gap.
fn spoken_by(bounds: Bounds, sender: &Sender) -> u64
    ensures value { result ≡ rules.spoken_by bounds sender.now }
    ensures bound { result ≤ 2 ^ 28 }
{
    least_time(bounds, tg_of(sender)) + least_time(bounds, shortest(sender))
}

/// How long the senders take at least, each once.
pub(crate) fn least_spoken(bounds: Bounds, table: &Table) -> u64
    ensures value { result ≡ rules.least_spoken bounds table.now.senders }
    ensures bound { result ≤ 2 ^ 37 }
{
    let mut spoken = 0;
    for sender in table.senders() {
        spoken += spoken_by(bounds, sender);
    }
    spoken
}

/// By how much a terminal that sends hears another later.
fn delay_among(bounds: Bounds, senders: usize) -> u64
    ensures value { result ≡ rules.delay_among bounds senders }
    ensures bound { result ≤ 2 ^ 20 }
{
    if senders == 1 { 0 } else { bounds.delay() }
}

/// How long a sender takes at most, with its terminal gap and the delay.
fn longest_by(bounds: Bounds, delay: u64, sender: &Sender) -> u64
    requires { delay ≤ 2 ^ 20 }
    ensures value { result ≡ rules.longest_by bounds delay sender.now }
    ensures bound { result ≤ 2 ^ 30 }
{
    delay + most_time(bounds, tg_of(sender)) + most_time(bounds, longest(sender))
}

/// How long the senders take at most, each once, where they hear each other later by this delay.
fn longest_spoken(bounds: Bounds, delay: u64, table: &Table) -> u64
    requires { delay ≤ 2 ^ 20 }
    ensures value { result ≡ rules.longest_spoken bounds delay table.now.senders }
    ensures bound { result ≤ 2 ^ 37 }
{
    let mut spoken = 0;
    for sender in table.senders() {
        spoken += longest_by(bounds, delay, sender);
    }
    spoken
}

/// How long the senders take at most, each once.
pub(crate) fn most_spoken(bounds: Bounds, table: &Table) -> u64
    ensures value { result ≡ rules.most_spoken bounds table.now.senders }
    ensures bound { result ≤ 2 ^ 37 }
{
    longest_spoken(bounds, delay_among(bounds, table.senders().len()), table)
}

/// Whether no message may be over as soon as it begins.
pub(crate) fn lasts(bounds: Bounds, table: &Table) -> bool
    ensures { result ≡ rules.lasts bounds table.now }
{
    table
        .senders()
        .iter()
        .all(|sender| 0 < least_time(bounds, shortest(sender)))
}
