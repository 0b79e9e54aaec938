//! The intervals by which it is decided whether a delay is borne.
ghost use Rattle.std.specs.Prelude.{◌≡◌, ◌*◌, ◌<◌, ◌≤◌, IfOk};
ghost use Rattle.bus_strings.specs.Limits.{most_terminal};
ghost use Rattle.bus_table.specs.declared.mode.Mode.TheVariants.{Periodic};
ghost use Rattle.bus_table.specs.Ranges.{most_ti};
ghost use Rattle.bus_cable_plan.specs.Known as known;
ghost use Rattle.bus_cable_plan.specs.Plans as plans;

use crate::order::by_gap;
use crate::shape::{needed, shape_of};
use bus_table::{Table, longest, turn_places};
use std::alloc::{AllocError, Global};

/// The greatest delay that a plan is asked for, in bit times: that of the longest transmit interval.
pub const MOST_DELAY: u32 = 128_000;

/// The turns of the senders: each one's terminal gap, the delay and its longest message, in bit times. Of two senders or more no offsets
/// bear the delay in a shorter interval. It takes no memory.
pub fn turns_for(table: &Table, d: u32) -> u64
    requires most { d ≤ most_ti }
    ensures value { result ≡ plans.turns_for d table.now }
    ensures bound { result ≤ 400000 * most_terminal }
{
    let mut sum = 0;
    for sender in table.senders() {
        sum += u64::from(sender.tg()) + u64::from(d) + u64::from(longest(sender));
    }
    sum
}

/// What the shape that needs least needs in the turn order of the table.
pub(crate) fn least_in_order(table: &Table, d: u32) -> u64
    requires most { d ≤ most_ti }
    ensures value { result ≡ plans.least_in_order d table.now }
{
    let places = turn_places(table);
    needed(table, d, shape_of(table, &places, d))
}

/// The least interval in which a plan of this periodic table bears delays up to `d`, in bit times: of two senders or more, and where
/// `specs/Known.antt` says so, the least in which any offsets do. It may lie outside the range of a transmit interval. Fails only where
/// memory runs out.
pub fn least_interval_for(alloc: Global, table: &Table, d: u32) -> Result<u64, AllocError>
    requires periodic { table.now.mode ≡ Periodic }
    requires most { d ≤ most_ti }
    ensures { IfOk result (λ least. least ≡ plans.least_interval_for d table.now) }
{
    let ordered = by_gap(alloc, table)?;
    Ok(least_in_order(&ordered, d))
}

/// Whether each terminal gap and the delay are below the synchronization gap.
fn none_reach(table: &Table, d: u32) -> bool
    requires most { d ≤ most_ti }
    ensures { result ≡ known.none_reach d table.now }
{
    let sg = table.sg();
    table.senders().iter().all(|sender| sender.tg() + d < sg)
}

/// Whether each terminal gap and the delay are as long as the synchronization gap.
fn all_reach(table: &Table, d: u32) -> bool
    requires most { d ≤ most_ti }
    ensures { result ≡ known.all_reach d table.now }
{
    let sg = table.sg();
    table.senders().iter().all(|sender| sg <= sender.tg() + d)
}

/// Whether the least interval for this delay is proved to be the least in which any offsets bear it.
pub(crate) fn is_known(table: &Table, d: u32) -> bool
    requires most { d ≤ most_ti }
    ensures { result ≡ known.is_known d table.now }
{
    table.senders().len() == 2 || none_reach(table, d) || all_reach(table, d)
}
