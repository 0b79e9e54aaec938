//! Whether a fault is marked in a row.
ghost use Rattle.std.specs.Prelude.{◌≡◌, ◌<◌, ◌+◌, ◌-◌, ◌^◌, ◌∷◌, ◌&&◌, ◌||◌, length};
ghost use Rattle.std.specs.List.{AllByRecursion};
ghost use Rattle.bus_cycles.specs.Faults as definition;
ghost use Rattle.bus_cycles.specs.Surveys.{is_drawn};
ghost use Rattle.bus_cycles.specs.inside.Bounds.{IsSent};
ghost use Rattle.bus_cycles.specs.Rows.{rows_of};
ghost use Rattle.bus_cycles.specs.Sents.{shown};

use crate::cycle::{Cycle, Extent};
use crate::faults::{any_with, has_fault};
use crate::shown::Shown;
use crate::survey::MOST_ROWS;
use bus_findings::Judgement;
use bus_shapes::Sent;
use bus_trace::{Trace, Window};

/// Whether a fault is marked in some rows or in one more, given whether one is found in that.
fn marked_with(marked: bool, row: Extent, any: bool) -> bool
    ensures { result ≡ (marked || (is_drawn row.place && any)) }
{
    marked || row.place < MOST_ROWS && any
}

/// Whether a fault is marked in a row of a transmission and those behind it.
fn any_marked_from(cycle: &Cycle, judgements: &[Judgement], first: &Sent, left: Shown) -> bool
    requires some { 0 < cycle.now.ti }
    requires sent { IsSent first.now }
    requires each { AllByRecursion IsSent left }
    requires few { length left < 2 ^ 64 - 1 }
    ensures { result ≡ definition.any_marked judgements.now (rows_of cycle.now (first.now ∷ left.entry)) }
{
    let mut marked = false;
    let mut row = cycle.row_at(0, first);
    let mut any = has_fault(judgements, first);
    for sent in left {
        if cycle.is_new(row.begin, &sent) {
            marked = marked_with(marked, row, any);
            row = cycle.row_at(row.place + 1, &sent);
            any = has_fault(judgements, &sent);
        } else {
            row = row.with(&sent);
            any = any_with(any, judgements, &sent);
        }
    }
    marked_with(marked, row, any)
}

/// Whether a fault is marked in a row of a trace in a window.
pub(crate) fn any_marked(
    cycle: &Cycle,
    judgements: &[Judgement],
    window: &Window,
    trace: &Trace,
) -> bool
    requires { 0 < cycle.now.ti }
    ensures { result ≡ definition.any_marked judgements.now (rows_of cycle.now (shown window.now trace.now.list)) }
{
    let mut left = Shown::new(window, trace);
    match left.next() {
        None => false,
        Some(first) => any_marked_from(cycle, judgements, &first, left),
    }
}
