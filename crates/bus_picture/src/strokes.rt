//! The strokes of boxes, which lie within what the boxes have of the scale.
ghost use Rattle.std.specs.Prelude.{◌≡◌, ◌<◌, ◌≤◌, ◌^◌};
ghost use Rattle.bus_picture.specs.Rows as definition;

use crate::measures::{GARBLED_OVERHANG, MESSAGE_OVERHANG};
use crate::row::Row;
use bus_pen::Area;

/// How far the stroke of a box of a row reaches beyond its edges.
pub(crate) fn overhang(row: &Row, narrow: bool) -> u64
    ensures value { result ≡ definition.overhang row.now narrow }
    ensures few { result ≤ 7 }
{
    if narrow {
        return 0;
    }
    if row.garbled {
        return GARBLED_OVERHANG;
    }
    match row.terminal {
        None => 0,
        Some(_) => MESSAGE_OVERHANG,
    }
}

/// An area, so much less at each edge.
pub(crate) fn inset(n: u64, area: Area) -> Area
    requires few { n ≤ 7 }
    requires left { area.left < 2 ^ 22 }
    requires top { area.top < 2 ^ 41 }
    ensures { result ≡ definition.inset n area }
{
    Area {
        left: area.left + n,
        top: area.top + n,
        width: area.width.saturating_sub(2 * n),
        height: area.height.saturating_sub(2 * n),
    }
}
