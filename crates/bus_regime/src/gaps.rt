//! The gaps of a periodic table, one by one in turn order.
ghost use Rattle.std.specs.Prelude.{◌≡◌, ◌≤◌, ◌<◌, ◌^◌, ◌+◌, IsSomeAnd, Some, length, slice_get};
ghost use Rattle.bus_table.specs.Turned.{AreTurned};
ghost use Rattle.bus_table.specs.Lengths.{longest as longest_of};
ghost use Rattle.bus_regime.specs.Ends.{AreEnds};
ghost use Rattle.bus_regime.specs.Gaps.{gaps};

use crate::table_verdict::TableVerdict;
use bus_table::{MOST_SENDERS, Sender, Table, longest, turn_at};
use std::marker::Model;

/// The gap before a sender: from the end of the sender before it to the sender's own start, both one interval later.
#[derive(Drop)]
pub struct TurnGap<'a> {
    sender: &'a Sender,
    from: u64,
    to: u64,
}

impl<'a> Model for TurnGap<'a> {
    ghost use Rattle.std.specs.Prelude.{◌≤◌, ◌^◌};
    ghost use Rattle.bus_regime.specs.Gaps.{Gap};

    ghost Value = { Gap };

    ghost view = { λ g. record { sender = g.sender.now; from = g.from; to = g.to } };

    ghost invariant = { λ g. (g.from ≤ 2 ^ 40) × (g.to ≤ 2 ^ 40) };
}

impl<'a> TurnGap<'a> {
    ghost use Rattle.bus_regime.specs.Gaps.{has_width, width as gap_width};
    ghost use Rattle.bus_regime.specs.Verdicts as verdicts;

    /// Its sender, before which it stands.
    pub fn sender(&self) -> &'a Sender
        ensures { result.now ≡ self.now.sender }
    {
        self.sender
    }

    /// Where it begins, in bit times from the begin of the interval before.
    pub fn begin(&self) -> u64
        ensures value { result ≡ self.now.from }
        ensures bound { result ≤ 2 ^ 40 }
    {
        self.from
    }

    /// Where it ends, counted likewise: before its begin where it is an overlap.
    pub fn end(&self) -> u64
        ensures value { result ≡ self.now.to }
        ensures bound { result ≤ 2 ^ 40 }
    {
        self.to
    }

    /// Whether it has at least so many bit times.
    pub fn has_width(&self, bits: u32) -> bool
        ensures { result ≡ has_width bits self.now }
    {
        self.from + u64::from(bits) <= self.to
    }

    /// Whether it is below its sender's terminal gap.
    pub(crate) fn is_small(&self) -> bool
        ensures { result ≡ verdicts.is_small self.now }
    {
        !self.has_width(self.sender.tg())
    }

    /// Whether it has room for a synchronization gap of so many bit times and its sender's terminal gap.
    pub(crate) fn has_sync(&self, sg: u32) -> bool
        requires { sg ≤ 2 ^ 16 }
        ensures { result ≡ has_width (sg + self.now.sender.tg) self.now }
    {
        self.has_width(sg + self.sender.tg())
    }

    /// Its bit times, below 0 where it is an overlap.
    fn width(&self) -> i64
        ensures { result ≡ gap_width self.now }
    {
        self.to as i64 - self.from as i64
    }

    /// The refusal of a table for this gap, which is small.
    pub(crate) fn small_gap(&self) -> TableVerdict
        ensures { result ≡ verdicts.small_gap self.now }
    {
        TableVerdict::SmallGap {
            terminal: self.sender.number(),
            gap: self.width(),
            needed: u64::from(self.sender.tg()),
        }
    }

    /// The refusal of a table for this gap, whose sender lacks sync.
    pub(crate) fn no_sync(&self, sg: u32) -> TableVerdict
        ensures { result ≡ verdicts.no_sync sg self.now }
    {
        TableVerdict::NoSync {
            terminal: self.sender.number(),
            gap: self.to.saturating_sub(self.from),
            needed: u64::from(sg) + u64::from(self.sender.tg()),
        }
    }
}

/// The end of a sender's longest message in the first interval.
fn latest_end(sender: &Sender) -> u64
    ensures value { result ≡ sender.now.at + longest_of sender.now }
    ensures bound { result ≤ 2 ^ 33 }
{
    u64::from(sender.at()) + u64::from(longest(sender))
}

/// The ends of the longest messages of all senders in the first interval, in turn order. Behind the last there is no meaning in
/// them. It takes no memory.
pub fn turn_ends(table: &Table, places: &[usize; MOST_SENDERS]) -> [u64; MOST_SENDERS]
    requires { AreTurned table.now places.now }
    ensures { AreEnds table.now result }
{
    let mut ends = [0; MOST_SENDERS];
    for k in 0..table.senders().len() {
        ends[k] = latest_end(turn_at(table, places, k));
    }
    ends
}

/// Where the gap before the `k`-th sender in turn order begins.
fn gap_from(table: &Table, ends: &[u64; MOST_SENDERS], k: usize) -> u64
    requires place { k < length table.now.senders }
    requires ends { AreEnds table.now ends.now }
    ensures bound { result ≤ 2 ^ 40 }
    ensures value { IsSomeAnd (slice_get (gaps table.now) k) (λ gap. result ≡ gap.from) }
{
    if k == 0 {
        ends[table.senders().len() - 1]
    } else {
        u64::from(table.ti()) + ends[k - 1]
    }
}

/// The gap before the `k`-th sender in turn order, from 0, where the places of turn order are known, by
/// [`bus_table::turn_places`], and the ends of messages, by [`turn_ends`]: both are found once for all gaps.
pub fn gap_at<'a>(
    table: &'a Table,
    places: &[usize; MOST_SENDERS],
    ends: &[u64; MOST_SENDERS],
    k: usize,
) -> TurnGap<'a>
    requires place { k < length table.now.senders }
    requires turned { AreTurned table.now places.now }
    requires ends { AreEnds table.now ends.now }
    ensures { slice_get (gaps table.now) k ≡ Some result }
{
    let sender = turn_at(table, places, k);
    TurnGap {
        sender,
        from: gap_from(table, ends, k),
        to: u64::from(table.ti()) + u64::from(sender.at()),
    }
}
