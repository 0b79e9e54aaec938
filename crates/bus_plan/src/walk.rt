//! The planned offsets, in one walk over the senders.
ghost use Rattle.std.specs.Prelude.{◌≡◌, ◌+◌, ◌<◌, ◌≤◌, ◌^◌, IfOk};
ghost use Rattle.bus_plan.specs.Plans.{planned_offsets};
ghost use Rattle.bus_plan.specs.inside.Walks as walks;
ghost use Rattle.bus_table.specs.Ranges.{most_sg, most_tg};

use crate::interval::greatest_gaps;
use bus_table::{Sender, Table, longest};
use std::alloc::{AllocError, Global};

/// The longest message of the sender with this terminal gap, or 0.
fn longest_with(tg: u32, senders: &[Sender]) -> u32
    ensures value { result ≡ walks.longest_with tg senders.now }
    ensures bound { result ≤ 159460 }
{
    for sender in senders {
        if sender.tg() == tg {
            return longest(sender);
        }
    }
    0
}

/// The gap before the second sender.
fn gap_between(sg: u32, first: u32, second: u32) -> u32
    requires first { first ≤ most_tg }
    requires second { second ≤ most_tg }
    requires sg { sg ≤ most_sg }
    ensures value { result ≡ walks.gap_between sg first second }
    ensures bound { result ≤ most_sg }
{
    if first + second <= sg { second } else { sg }
}

/// The offset of a sender, where the turns so far end at `end`.
fn offset_for(first: u32, second: u32, at: u32, end: u32, sender: &Sender) -> u32
    requires room { end < 2 ^ 31 }
    ensures { result ≡ walks.offset_for first second at end sender.now }
{
    if sender.tg() == first {
        0
    } else if sender.tg() == second {
        at
    } else {
        end + sender.tg()
    }
}

/// Where the turns end behind this sender.
fn end_after(first: u32, second: u32, end: u32, sender: &Sender) -> u32
    requires room { end < 2 ^ 31 }
    ensures value { result ≡ walks.end_after first second end sender.now }
    ensures bound { result ≤ end + 159716 }
{
    if sender.tg() == first || sender.tg() == second {
        end
    } else {
        end + sender.tg() + longest(sender)
    }
}

/// The planned offsets, in table order. Fails only where memory runs out.
pub(crate) fn planned_offsets(alloc: Global, table: &Table) -> Result<Vec<u32>, AllocError>
    ensures { IfOk result (λ offsets. offsets.items ≡ planned_offsets table.now) }
{
    let senders = table.senders();
    let (first, second) = greatest_gaps(senders);
    let at = longest_with(first, senders) + gap_between(table.sg(), first, second);
    let mut end = at + longest_with(second, senders);
    let mut offsets = Vec::with_capacity(alloc, senders.len())?;
    for sender in senders {
        offsets.push(offset_for(first, second, at, end, sender))?;
        end = end_after(first, second, end, sender);
    }
    Ok(offsets)
}
