//! The least interval of a periodic table.
ghost use Rattle.std.specs.Prelude.{◌≡◌, ◌+◌, ◌-◌, ◌*◌, ◌^◌, ◌≤◌, nat_le, max, min, if◌then◌else◌};
ghost use Rattle.std.specs.List.{sum_by};
ghost use Rattle.bus_strings.specs.Limits.{most_terminal};
ghost use Rattle.bus_plan.specs.inside.Greatest.{greatest_tg, second_tg};
ghost use Rattle.bus_plan.specs.Plans as plans;
ghost use Rattle.bus_table.specs.Ranges.{most_sg};

use bus_table::{Sender, Table, longest};

/// The greater of two.
fn greater(a: u32, b: u32) -> u32
    ensures { result ≡ max a b }
{
    if a < b { b } else { a }
}

/// The lesser of two.
fn lesser(a: u32, b: u32) -> u32
    ensures { result ≡ min a b }
{
    if a < b { a } else { b }
}

/// The two greatest terminal gaps; the second is 0 where there is one sender.
pub(crate) fn greatest_gaps(senders: &[Sender]) -> (u32, u32)
    ensures first { result.0 ≡ greatest_tg senders.now }
    ensures second { result.1 ≡ second_tg senders.now }
{
    let mut first = 0;
    let mut second = 0;
    for sender in senders {
        let tg = sender.tg();
        second = greater(second, lesser(first, tg));
        first = greater(first, tg);
    }
    (first, second)
}

/// What synchronization needs beside the turns, by the sum of the two greatest terminal gaps.
fn sync_time(sg: u64, gaps: u64) -> u64
    requires { (sg ≤ most_sg) }
    ensures { result ≡ (if nat_le gaps sg then sg else 2 * sg - gaps) }
{
    if gaps <= sg {
        return sg;
    }
    (2 * sg).saturating_sub(gaps)
}

/// The turns of the senders: each one's terminal gap and longest message.
fn turns(table: &Table) -> u64
    ensures value { result ≡ sum_by plans.turn_time table.now.senders }
    ensures bound { result ≤ 2 ^ 33 * most_terminal }
{
    let mut sum = 0;
    for sender in table.senders() {
        sum += u64::from(sender.tg()) + u64::from(longest(sender));
    }
    sum
}

/// The least interval of the senders of this table, in bit times: in periodic mode some choice of offsets is accepted exactly where the
/// transmit interval is at least this. It may lie outside the range of a transmit interval. It takes no memory.
pub fn least_interval(table: &Table) -> u64
    ensures { result ≡ plans.least_interval table.now }
{
    let (first, second) = greatest_gaps(table.senders());
    turns(table) + sync_time(u64::from(table.sg()), u64::from(first) + u64::from(second))
}
