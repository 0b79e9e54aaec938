//! The offsets of a plan, in one walk over the senders in turn order.
ghost use Rattle.std.specs.Prelude.{◌≡◌, ◌+◌, ◌-◌, ◌<◌, ◌≤◌, ◌/◌, ◌%◌, ℕ, length, map, IfOk, slice_index};
ghost use Rattle.bus_table.specs.Turned.{AreTurned};
ghost use Rattle.bus_table.specs.Turns.{turn_order};
ghost use Rattle.bus_table.specs.declared.mode.Mode.TheVariants.{Periodic};
ghost use Rattle.bus_table.specs.Ranges.{most_ti};
ghost use Rattle.bus_plan.specs.Plans.{offset_in};
ghost use Rattle.bus_cable_plan.specs.Plans as plans;
ghost use Rattle.bus_cable_plan.specs.Shapes.{gap_in};
ghost use Rattle.bus_cable_plan.specs.inside.Bounds.{IsSmall};

use crate::shape::{Shape, gap_in, lesser, needed, shape_of};
use bus_table::laws::table_is_valid;
use bus_table::{MOST_SENDERS, Table, longest, turn_at, turn_places};
use std::alloc::{AllocError, Global};

/// One more than the greatest terminal number.
const NUMBERS: usize = 129;

/// What is left over in a plan: the share of each gap, and how many of the first gaps have one bit time more.
#[derive(Clone, Copy)]
struct Left {
    share: u32,
    rest: u32,
}

/// The offsets of the senders in this shape, by terminal number; 0 of those that the table doesn't have.
fn offsets_by_number(
    table: &Table,
    places: &[usize; MOST_SENDERS],
    d: u32,
    shape: Shape,
    left: Left,
) -> [u32; NUMBERS]
    requires turned { AreTurned table.now places.now }
    requires most { d ≤ most_ti }
    requires small { IsSmall shape }
    requires share { left.share ≤ most_ti }
    ensures { (number : ℕ) → number < 129 → slice_index result number
        ≡ offset_in (plans.laid_out (λ sender. gap_in d shape sender + left.share) left.rest (turn_order table.now)) number }
{
    let n = table.senders().len();
    let mut offsets = [0; NUMBERS];
    let mut end = longest(turn_at(table, places, 0));
    let mut rest = left.rest.saturating_sub(1);
    for k in 1..n {
        let sender = turn_at(table, places, k);
        let at = end + (gap_in(d, shape, sender) + left.share + lesser(rest, 1));
        offsets[usize::from(sender.number())] = at;
        end = at + longest(sender);
        rest = rest.saturating_sub(1);
    }
    offsets
}

/// These offsets, in table order. Fails only where memory runs out.
fn in_table_order(
    alloc: Global,
    table: &Table,
    offsets: &[u32; NUMBERS],
) -> Result<Vec<u32>, AllocError>
    ensures { IfOk result (λ made. made.items ≡ map (λ sender. slice_index offsets.now sender.number) table.now.senders) }
{
    let senders = table.senders();
    let mut made = Vec::with_capacity(alloc, senders.len())?;
    for sender in senders {
        made.push(offsets[usize::from(sender.number())])?;
    }
    Ok(made)
}

/// What is left over of the interval, where a plan needs so much of it.
fn left_over(table: &Table, needed: u64) -> Left
    requires fits { needed ≤ table.now.ti }
    ensures share { result.share ≡ (table.now.ti - needed) / length table.now.senders }
    ensures rest { result.rest ≡ (table.now.ti - needed) % length table.now.senders }
    ensures bound { result.share ≤ most_ti }
{
    let left = table.ti() - needed as u32;
    let senders = table.senders().len() as u32;
    Left {
        share: left / senders,
        rest: left % senders,
    }
}

/// The offsets of the plan in turn order, in table order, where that fits the interval. Fails only where memory runs out.
pub(crate) fn offsets_in_order(alloc: Global, table: &Table, d: u32) -> Result<Vec<u32>, AllocError>
    requires periodic { table.now.mode ≡ Periodic }
    requires most { d ≤ most_ti }
    requires fits { plans.least_in_order d table.now ≤ table.now.ti }
    ensures { IfOk result (λ offsets. offsets.items ≡ plans.offsets_in_order d table.now) }
{
    table_is_valid(table);
    let places = turn_places(table);
    let shape = shape_of(table, &places, d);
    let left = left_over(table, needed(table, d, shape));
    let offsets = offsets_by_number(table, &places, d, shape, left);
    in_table_order(alloc, table, &offsets)
}
