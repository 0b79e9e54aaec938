//! Whether the rule of order holds, and no more: a turn that is due late enough behind another leaves all that are due later late enough
//! too.
ghost use Rattle.std.specs.Prelude.{◌≡◌, ◌<◌, ◌≤◌, ◌+◌, ◌-◌, ◌^◌, true};
ghost use Rattle.bus_table.specs.Turned.{AreTurned};
ghost use Rattle.bus_margins.specs.Buses.{bus_of};
ghost use Rattle.bus_margins_periodic.specs.Least as least;
ghost use Rattle.bus_margins_periodic.specs.Rooms as rules;
ghost use Rattle.bus_margins_periodic.specs.inside.Cases as cases;
ghost use Rattle.bus_margins_periodic.specs.inside.Cases.{IsCase};

use crate::order::{Case, is_ruled};
use crate::times::{count, long_step, short_step, ti_long, ti_short};
use bus_bounds::Bounds;
use bus_table::{MOST_SENDERS, Table};

/// Whether what a case needs is there.
fn is_enough(bounds: Bounds, table: &Table, case: Case) -> bool
    requires case { IsCase (bus_of bounds table.now) case }
    ensures { result ≡ cases.is_enough (bus_of bounds table.now) case.late case.held case.due }
{
    ti_long(bounds, table) + case.slow + bounds.delay() < ti_short(bounds, table) + case.fast
}

/// Whether the rule holds of all that are due behind the one that is held back, before turn `last`, where that one is due so far.
fn passed_holds(
    bounds: Bounds,
    table: &Table,
    places: &[usize; MOST_SENDERS],
    last: usize,
    case: Case,
) -> bool
    requires turned { AreTurned table.now places.now }
    requires case { IsCase (bus_of bounds table.now) case }
    requires begins { case.due ≡ case.held }
    requires few { last ≤ 2 ^ 10 }
    requires small { case.fast ≤ 2 ^ 41 }
    ensures { result ≡ least.holds (rules.passed_room (bus_of bounds table.now) last case.late case.held) }
{
    let mut fast = case.fast;
    for due in case.held + 1..last {
        fast += short_step(bounds, table, places, due - 1);
        let next = Case { due, fast, ..case };
        if is_enough(bounds, table, next) {
            return true;
        }
        if is_ruled(bounds, table, places, next) {
            return false;
        }
    }
    true
}

/// Whether it holds of all that a late turn may hold back, and of those behind, before turn `last`.
#[tactic(auto, using(crate::proofs::LoopLemmas::fast_more, crate::proofs::LoopLemmas::slow_more, crate::proofs::LoopLemmas::fast_none, crate::proofs::LoopLemmas::slow_none))]
fn held_holds(
    bounds: Bounds,
    table: &Table,
    places: &[usize; MOST_SENDERS],
    last: usize,
    late: usize,
) -> bool
    requires turned { AreTurned table.now places.now }
    requires few { last ≤ late + 128 }
    requires first { late ≤ 128 }
    ensures { result ≡ least.holds (rules.held_room (bus_of bounds table.now) last late) }
{
    let (mut slow, mut fast) = (0, 0);
    for held in late..last {
        let case = Case {
            late,
            held,
            due: held,
            slow,
            fast,
        };
        if !passed_holds(bounds, table, places, last, case) {
            return false;
        }
        slow += long_step(bounds, table, places, held);
        fast += short_step(bounds, table, places, held);
    }
    true
}

/// Whether it holds of all turns less than a round apart.
pub(crate) fn order_holds(bounds: Bounds, table: &Table, places: &[usize; MOST_SENDERS]) -> bool
    requires { AreTurned table.now places.now }
    ensures { result ≡ least.holds (rules.order_room (bus_of bounds table.now)) }
{
    let senders = count(table);
    for late in 0..senders {
        if !held_holds(bounds, table, places, late + senders, late) {
            return false;
        }
    }
    true
}

/// Whether it holds of all turns of one round.
pub(crate) fn lead_order_holds(
    bounds: Bounds,
    table: &Table,
    places: &[usize; MOST_SENDERS],
) -> bool
    requires { AreTurned table.now places.now }
    ensures { result ≡ least.holds (rules.lead_order_room (bus_of bounds table.now)) }
{
    let senders = count(table);
    for late in 0..senders {
        if !held_holds(bounds, table, places, senders, late) {
            return false;
        }
    }
    true
}
