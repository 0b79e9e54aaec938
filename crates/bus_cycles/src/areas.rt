//! Where the boxes of transmissions are.
ghost use Rattle.std.specs.Prelude.{◌≡◌, ◌<◌, ◌≤◌, ◌+◌, ◌^◌, List, nat_le, slice_index_or};
ghost use Rattle.bus_cycles.specs.inside.Bounds.{IsPage, IsSent};
ghost use Rattle.bus_cycles.specs.inside.Drawing.{Reaches};
ghost use Rattle.bus_cycles.specs.declared.areas.Shaded as shading;
ghost use Rattle.bus_cycles.specs.RowTexts as definition;

use crate::cycle::Extent;
use crate::measures::{BOX_BELOW, NARROW_BOX, SLOT_BELOW};
use crate::page::Page;
use bus_pen::measures::PIXEL;
use bus_pen::{Area, Class};
use bus_shapes::Sent;

/// How many slots a row has for garbled transmissions.
const SLOTS: usize = 3;

/// How many shades there are: two, and one for each slot.
pub(crate) const SHADES: usize = 5;

/// The left edge of a transmission in a row that began at this moment.
pub(crate) fn left_of(page: &Page, begin: u64, sent: &Sent) -> u64
    requires page { IsPage page.now }
    requires sent { IsSent sent.now }
    ensures value { result ≡ definition.left_of page.now begin sent.now }
    ensures low { result < 2 ^ 21 }
{
    page.pixel(begin, sent.moment)
}

/// Its right edge, at least a pixel behind.
pub(crate) fn right_of(page: &Page, begin: u64, sent: &Sent) -> u64
    requires page { IsPage page.now }
    requires sent { IsSent sent.now }
    ensures value { result ≡ definition.right_of page.now begin sent.now }
    ensures low { result < 2 ^ 22 }
    ensures some { 0 < result }
{
    let left = left_of(page, begin, sent);
    page.pixel(begin, sent.end).max(left + PIXEL)
}

/// A transmission of a row, with its shade there: by its terminal's lane where it is plain, and by its slot where it is garbled.
#[derive(Clone, Copy, Debug, PartialEq, Eq)]
pub(crate) struct Shaded {
    /// The transmission.
    pub sent: Sent,
    /// Its shade, below 5.
    pub shade: usize,
}

/// The first that is free of a slot and the two below it, where each slot is reached up to an edge; the slot itself where none is.
fn free_slot(edges: &[u64; SHADES], left: u64, own: usize) -> usize
    requires { own < 3 }
    ensures value { result ≡ definition.free_slot (λ slot. nat_le (slice_index_or edges.now (2 + slot) 0) left) own }
    ensures low { result < 3 }
{
    let (next, last) = ((own + 1) % SLOTS, (own + 2) % SLOTS);
    if edges[2 + own] <= left {
        own
    } else if edges[2 + next] <= left {
        next
    } else if edges[2 + last] <= left {
        last
    } else {
        own
    }
}

/// The shade of a transmission of a row that began at this moment, in which each shade is reached up to an edge.
pub(crate) fn shade_of(page: &Page, begin: u64, edges: &[u64; SHADES], sent: &Sent) -> usize
    requires page { IsPage page.now }
    requires sent { IsSent sent.now }
    ensures value { (earlier : List shading.Shaded) → Reaches page.now begin earlier edges.now
        → result ≡ definition.shade page.now begin earlier sent.now }
    ensures low { result < 5 }
{
    let lane = page.lanes[sent.terminal as usize];
    if sent.garbled {
        2 + free_slot(edges, left_of(page, begin, sent), lane % SLOTS)
    } else {
        lane % 2
    }
}

/// What a garbled one of this width is drawn as.
fn garbled_class(width: u64) -> Class
    ensures { result ≡ definition.garbled_class width }
{
    if width < NARROW_BOX {
        Class::GarbledNarrow
    } else {
        Class::Garbled
    }
}

/// What a transmission of this width and shade is drawn as.
pub(crate) fn class_of(width: u64, shade: usize) -> Class
    ensures { result ≡ definition.class_of width shade }
{
    match shade {
        0 => Class::Other,
        1 => Class::Wordstring,
        _ => garbled_class(width),
    }
}

/// The height of a slot.
fn slot_height(page: &Page) -> u64
    requires { IsPage page.now }
    ensures value { result ≡ definition.slot_height page.now }
    ensures least { 40 ≤ result }
    ensures most { result ≤ 100 }
{
    (page.row_height - 2 * BOX_BELOW) / SLOTS as u64
}

/// How far below the upper edge of its row a transmission of this shade begins.
fn below_top(page: &Page, shade: usize) -> u64
    requires page { IsPage page.now }
    requires shade { shade < 5 }
    ensures value { result ≡ definition.below_top page.now shade }
    ensures low { result ≤ 216 }
{
    if shade < 2 {
        BOX_BELOW
    } else {
        BOX_BELOW + slot_height(page) * (shade as u64 - 2) + SLOT_BELOW
    }
}

/// The height of its box.
fn height_of(page: &Page, shade: usize) -> u64
    requires { IsPage page.now }
    ensures value { result ≡ definition.height_of page.now shade }
    ensures low { result ≤ 300 }
{
    if shade < 2 {
        page.row_height - 2 * BOX_BELOW
    } else {
        slot_height(page) - 2 * SLOT_BELOW
    }
}

/// Where a transmission is.
pub(crate) fn area_of(page: &Page, row: Extent, x: &Shaded) -> Area
    requires page { IsPage page.now }
    requires sent { IsSent x.now.sent }
    requires shade { x.now.shade < 5 }
    requires drawn { row.place ≤ 500 }
    ensures value { result ≡ definition.area_of page.now row.place row.begin x.now }
    ensures left { result.left < 2 ^ 21 }
    ensures top { result.top < 2 ^ 20 }
    ensures width { result.width < 2 ^ 22 }
    ensures height { result.height ≤ 300 }
{
    let left = left_of(page, row.begin, &x.sent);
    Area {
        left,
        top: page.top_of(row.place) + below_top(page, x.shade),
        width: right_of(page, row.begin, &x.sent) - left,
        height: height_of(page, x.shade),
    }
}
