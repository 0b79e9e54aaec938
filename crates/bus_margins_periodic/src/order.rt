//! The rule of order: what room it leaves.
ghost use Rattle.std.specs.Prelude.{◌≡◌, ◌<◌, ◌≤◌, ◌+◌, ◌-◌, length};
ghost use Rattle.bus_table.specs.Turned.{AreTurned};
ghost use Rattle.bus_margins.specs.Buses.{bus_of};
ghost use Rattle.bus_margins_periodic.specs.Rooms as rules;
ghost use Rattle.bus_margins_periodic.specs.inside.Ahead.{AreAhead, first_due};
ghost use Rattle.bus_margins_periodic.specs.inside.Cases as cases;
ghost use Rattle.bus_margins_periodic.specs.inside.Cases.{IsCase};

use crate::ahead::{Ahead, is_close, look_ahead};
use crate::room::{Room, lesser};
use crate::times::{count, long_step, short_step, ti_long, ti_short, who};
use bus_bounds::Bounds;
use bus_table::{MOST_SENDERS, Table};

/// A turn that is late, one that it holds back, and one that is due behind it.
#[derive(Clone, Copy)]
pub(crate) struct Case {
    /// The late one.
    pub late: usize,
    /// The one that is held back.
    pub held: usize,
    /// The one that is due.
    pub due: usize,
    /// How long it takes at most from the late one to the one that is held back.
    pub slow: u64,
    /// How long it takes at least from the late one to the one that is due.
    pub fast: u64,
}

/// Whether there is a rule for a case.
pub(crate) fn is_ruled(
    bounds: Bounds,
    table: &Table,
    places: &[usize; MOST_SENDERS],
    case: Case,
) -> bool
    requires { AreTurned table.now places.now }
    ensures { result ≡ cases.is_ruled (bus_of bounds table.now) case.late case.held case.due }
{
    case.late == case.held || is_close(bounds, table, places, case.held, case.due)
}

/// The room in a case.
fn order_among(
    bounds: Bounds,
    table: &Table,
    places: &[usize; MOST_SENDERS],
    case: Case,
) -> Option<Room>
    requires turned { AreTurned table.now places.now }
    requires case { IsCase (bus_of bounds table.now) case }
    ensures { result ≡ rules.order_among (bus_of bounds table.now) case.late case.held case.due }
{
    if is_ruled(bounds, table, places, case) {
        Some(Room {
            first: who(table, case.late),
            second: who(table, case.held),
            third: who(table, case.due),
            need: ti_long(bounds, table) + case.slow + bounds.delay() + 1,
            have: ti_short(bounds, table) + case.fast,
        })
    } else {
        None
    }
}

/// The first turn behind the one that is held back of which there is a rule.
fn first_due(ahead: &Ahead, case: Case) -> usize
    requires { case.held < 256 }
    ensures { result ≡ first_due ahead.now case.late case.held }
{
    if case.late == case.held {
        case.held + 1
    } else {
        ahead.next[case.held]
    }
}

/// The room of all that are due behind the one that is held back, before turn `last`. None of them has less than the first of which there
/// is a rule, since it is due first.
fn passed_room(
    bounds: Bounds,
    table: &Table,
    places: &[usize; MOST_SENDERS],
    ahead: &Ahead,
    last: usize,
    case: Case,
) -> Option<Room>
    requires turned { AreTurned table.now places.now }
    requires ahead { AreAhead (bus_of bounds table.now) ahead.now }
    requires case { IsCase (bus_of bounds table.now) case }
    requires held { case.held < last }
    requires few { last ≤ case.late + length table.now.senders }
    requires first { case.late < length table.now.senders }
    ensures { result ≡ rules.passed_room (bus_of bounds table.now) last case.late case.held }
{
    let _few = count(table);
    let due = first_due(ahead, case);
    if last <= due {
        return None;
    }
    let fast = ahead.fast[due] - ahead.fast[case.late];
    order_among(bounds, table, places, Case { due, fast, ..case })
}

/// The room of all that a late turn may hold back, and of those behind, before turn `last`.
#[tactic(auto, using(crate::proofs::LoopLemmas::fast_more, crate::proofs::LoopLemmas::slow_more, crate::proofs::LoopLemmas::fast_none, crate::proofs::LoopLemmas::slow_none))]
fn held_room(
    bounds: Bounds,
    table: &Table,
    places: &[usize; MOST_SENDERS],
    ahead: &Ahead,
    last: usize,
    late: usize,
) -> Option<Room>
    requires turned { AreTurned table.now places.now }
    requires ahead { AreAhead (bus_of bounds table.now) ahead.now }
    requires few { last ≤ late + length table.now.senders }
    requires first { late < length table.now.senders }
    ensures { result ≡ rules.held_room (bus_of bounds table.now) last late }
{
    let _few = count(table);
    let mut least = None;
    let (mut slow, mut fast) = (0, 0);
    for held in late..last {
        let case = Case {
            late,
            held,
            due: held,
            slow,
            fast,
        };
        least = lesser(least, passed_room(bounds, table, places, ahead, last, case));
        slow += long_step(bounds, table, places, held);
        fast += short_step(bounds, table, places, held);
    }
    least
}

/// The room of all turns less than a round apart.
pub(crate) fn order_room(
    bounds: Bounds,
    table: &Table,
    places: &[usize; MOST_SENDERS],
) -> Option<Room>
    requires { AreTurned table.now places.now }
    ensures { result ≡ rules.order_room (bus_of bounds table.now) }
{
    let senders = count(table);
    let ahead = look_ahead(bounds, table, places);
    let mut least = None;
    for late in 0..senders {
        least = lesser(
            least,
            held_room(bounds, table, places, &ahead, late + senders, late),
        );
    }
    least
}
