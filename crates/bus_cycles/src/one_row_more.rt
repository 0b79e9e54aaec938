//! What one row more adds to what is told of rows.
ghost use Rattle.std.specs.Prelude.{◌≡◌, ◌<◌, ◌≤◌, ◌-◌, ◌^◌, IfSome};
ghost use Rattle.bus_cycles.specs.inside.Bounds.{IsSeen};
ghost use Rattle.bus_cycles.specs.Surveys as definition;

use crate::cut::{Seen, is_whole};
use crate::cycle::{Cycle, Extent};
use crate::survey::{MOST_ROWS, last_end_of};

/// How many rows are whole, with one row more.
pub(crate) fn whole_with(cycle: &Cycle, seen: Seen, whole: u64, row: Extent) -> u64
    requires seen { IsSeen seen }
    requires few { whole < 2 ^ 64 - 1 }
    requires begin { row.begin ≤ 2 ^ 42 }
    requires low { row.end ≤ 2 ^ 41 }
    ensures { result ≡ definition.whole_with cycle.now seen whole row }
{
    if is_whole(cycle, seen, row) {
        whole + 1
    } else {
        whole
    }
}

/// The least last end, with one whole row more than so many.
fn least_with(origin_offset: u32, whole: u64, least: u64, row: Extent) -> u64
    requires { row.end ≤ 2 ^ 41 }
    ensures { result ≡ definition.least_with origin_offset whole least row }
{
    if whole == 0 {
        last_end_of(origin_offset, row)
    } else {
        least.min(last_end_of(origin_offset, row))
    }
}

/// The least last end of whole rows, with one row more.
pub(crate) fn least_where(cycle: &Cycle, seen: Seen, whole: u64, least: u64, row: Extent) -> u64
    requires seen { IsSeen seen }
    requires begin { row.begin ≤ 2 ^ 42 }
    requires low { row.end ≤ 2 ^ 41 }
    ensures { result ≡ definition.least_where cycle.now seen whole least row }
{
    if is_whole(cycle, seen, row) {
        least_with(cycle.origin_offset, whole, least, row)
    } else {
        least
    }
}

/// The greatest last end of whole rows, with one row more.
pub(crate) fn most_where(cycle: &Cycle, seen: Seen, most: u64, row: Extent) -> u64
    requires seen { IsSeen seen }
    requires begin { row.begin ≤ 2 ^ 42 }
    requires low { row.end ≤ 2 ^ 41 }
    ensures { result ≡ definition.most_where cycle.now seen most row }
{
    if is_whole(cycle, seen, row) {
        most.max(last_end_of(cycle.origin_offset, row))
    } else {
        most
    }
}

/// The greatest last end of the rows that are drawn, with one row more.
pub(crate) fn longest_with(origin_offset: u32, longest: u64, row: Extent) -> u64
    requires { row.end ≤ 2 ^ 41 }
    ensures { result ≡ definition.longest_with origin_offset longest row }
{
    if row.place < MOST_ROWS {
        longest.max(last_end_of(origin_offset, row))
    } else {
        longest
    }
}

/// The moment at which the first row begins that isn't drawn, with one row more.
pub(crate) fn next_with(origin_offset: u32, next: Option<u64>, row: Extent) -> Option<u64>
    ensures { result ≡ definition.next_with origin_offset next row }
{
    if row.place == MOST_ROWS {
        Some(row.begin.saturating_sub(u64::from(origin_offset)))
    } else {
        next
    }
}

/// Whether a row takes the breach at this moment.
fn takes_breach(cycle: &Cycle, breach: Option<u64>, row: Extent) -> bool
    requires some { 0 < cycle.now.ti }
    requires moment { IfSome breach (λ moment. moment ≤ 2 ^ 40) }
    ensures { result ≡ definition.takes_breach cycle.now breach row }
{
    match breach {
        Some(moment) => cycle.takes(row, moment),
        None => false,
    }
}

/// The last row that takes the breach, with one row more.
pub(crate) fn marked_with(
    cycle: &Cycle,
    breach: Option<u64>,
    marked: Option<Extent>,
    row: Extent,
) -> Option<Extent>
    requires some { 0 < cycle.now.ti }
    requires moment { IfSome breach (λ moment. moment ≤ 2 ^ 40) }
    ensures { result ≡ definition.marked_with cycle.now breach marked row }
{
    if takes_breach(cycle, breach, row) {
        Some(row)
    } else {
        marked
    }
}

/// How far the breach is behind the beginning of its row, where that is drawn.
fn reach_in(origin_offset: u32, moment: u64, row: Extent) -> u64
    requires { moment ≤ 2 ^ 40 }
    ensures value { result ≡ definition.reach_in origin_offset moment row }
    ensures low { result ≤ 2 ^ 41 }
{
    if row.place < MOST_ROWS {
        (moment + u64::from(origin_offset)).saturating_sub(row.begin)
    } else {
        0
    }
}

/// How far the breach at this moment is behind the beginning of the row that is marked, where there are both.
pub(crate) fn reach_of(origin_offset: u32, breach: Option<u64>, marked: Option<Extent>) -> u64
    requires { IfSome breach (λ moment. moment ≤ 2 ^ 40) }
    ensures value { result ≡ definition.reach_of origin_offset breach marked }
    ensures low { result ≤ 2 ^ 41 }
{
    if let Some(moment) = breach {
        if let Some(row) = marked {
            return reach_in(origin_offset, moment, row);
        }
    }
    0
}

/// Whether a row that is drawn has a plain transmission, with one row more.
pub(crate) fn plain_with(plain: bool, row: Extent) -> bool
    ensures { result ≡ definition.plain_with plain row }
{
    plain || row.place < MOST_ROWS && row.plain
}

/// Whether one has a garbled one, with one row more.
pub(crate) fn garbled_with(garbled: bool, row: Extent) -> bool
    ensures { result ≡ definition.garbled_with garbled row }
{
    garbled || row.place < MOST_ROWS && row.garbled
}

/// Whether one is cut, with one row more.
pub(crate) fn cut_with(cycle: &Cycle, seen: Seen, cut: bool, row: Extent) -> bool
    requires seen { IsSeen seen }
    requires begin { row.begin ≤ 2 ^ 42 }
    requires low { row.end ≤ 2 ^ 41 }
    ensures { result ≡ definition.cut_with cycle.now seen cut row }
{
    cut || row.place < MOST_ROWS && !is_whole(cycle, seen, row)
}
