//! The terminal gaps of the senders of a table.
ghost use Rattle.std.specs.Prelude.{◌≡◌, ◌≤◌};
ghost use Rattle.bus_table.specs.Ranges.{most_tg};
ghost use Rattle.bus_table.specs.Timers as timers;

use crate::sender::Sender;

/// The greatest terminal gap of these senders, in bit times, and 0 where there is none.
pub fn greatest_gap(senders: &[Sender]) -> u32
    ensures value { result ≡ timers.greatest_gap senders.now }
    ensures most { result ≤ most_tg }
{
    let mut gap = 0;
    for sender in senders {
        gap = sender.tg().max(gap);
    }
    gap
}
