//! Which rows are whole, and which are cut: by the settled start, by the window or by the horizon.
ghost use Rattle.std.specs.Prelude.{◌≡◌, ◌<◌, ◌≤◌, ◌^◌};
ghost use Rattle.bus_cycles.specs.Cuts as definition;
ghost use Rattle.bus_cycles.specs.inside.Bounds.{IsSeen};

use crate::cycle::{Cycle, Extent};
use bus_shapes::Counts;
use bus_table::Mode;

/// The moments that are seen of a trace.
#[derive(Clone, Copy, Debug, PartialEq, Eq)]
pub(crate) struct Seen {
    /// The first of them.
    pub from: u64,
    /// The first behind them.
    pub to: u64,
}

/// The moments that are seen: those of the window below the horizon.
pub(crate) fn seen_of(counts: &Counts) -> Seen
    requires window { counts.now.from < counts.now.to }
    requires low { counts.now.to ≤ 2 ^ 40 }
    ensures value { result ≡ definition.seen_of counts.now }
    ensures seen { IsSeen result }
{
    Seen {
        from: counts.from,
        to: counts.to.min(counts.horizon),
    }
}

/// Whether a row is cut at its beginning.
pub(crate) fn is_cut_before(cycle: &Cycle, seen: Seen, row: Extent) -> bool
    requires { IsSeen seen }
    ensures { result ≡ definition.is_cut_before cycle.now seen row }
{
    match cycle.mode {
        Mode::Periodic => row.begin < seen.from + u64::from(cycle.origin_offset),
        Mode::Aperiodic => !row.fresh,
    }
}

/// Whether a row is cut at its end.
pub(crate) fn is_cut_behind(cycle: &Cycle, seen: Seen, row: Extent) -> bool
    requires seen { IsSeen seen }
    requires begin { row.begin ≤ 2 ^ 42 }
    requires end { row.end ≤ 2 ^ 41 }
    ensures { result ≡ definition.is_cut_behind cycle.now seen row }
{
    match cycle.mode {
        Mode::Periodic => seen.to + u64::from(cycle.origin_offset)
            < row.begin + u64::from(cycle.ti),
        Mode::Aperiodic => seen.to < row.end + u64::from(cycle.sg),
    }
}

/// Whether a row is whole.
pub(crate) fn is_whole(cycle: &Cycle, seen: Seen, row: Extent) -> bool
    requires seen { IsSeen seen }
    requires begin { row.begin ≤ 2 ^ 42 }
    requires end { row.end ≤ 2 ^ 41 }
    ensures { result ≡ definition.is_whole cycle.now seen row }
{
    !is_cut_before(cycle, seen, row) && !is_cut_behind(cycle, seen, row)
}
