//! The moments at which rows begin in which starts may be due.
ghost use Rattle.std.specs.Prelude.{◌≡◌, ◌<◌, ◌+◌, ◌-◌, ◌^◌, ◌++◌, ◌∷◌, length, min};
ghost use Rattle.std.specs.List.{AllByRecursion};
ghost use Rattle.arrayvec.specs.ArrayVec.{array_vec_len};
ghost use Rattle.bus_cycles.specs.Dues as definition;
ghost use Rattle.bus_cycles.specs.inside.Bounds.{IsSent};
ghost use Rattle.bus_cycles.specs.inside.Beginning.{begin_where};
ghost use Rattle.bus_cycles.specs.Rows.{rows_of};
ghost use Rattle.bus_cycles.specs.Sents.{shown};

use crate::cycle::{Cycle, Extent};
use crate::shown::Shown;
use crate::survey::MOST_ROWS;
use arrayvec::ArrayVec;
use bus_shapes::Sent;
use bus_table::Mode;
use bus_trace::{Trace, Window};

/// As many as rows are drawn.
pub(crate) const MOST_BEGINS: usize = 500;

/// The moments at which rows begin.
pub(crate) type Begins = ArrayVec<u64, MOST_BEGINS>;

/// One row more, where it is drawn.
fn add_begin(begins: &mut Begins, row: Extent)
    requires { array_vec_len begins.old ≡ min row.place MOST_BEGINS }
    ensures items { begins.new.items ≡ begins.old.items ++ begin_where row.place row.begin }
    ensures long { array_vec_len begins.new ≡ min (row.place + 1) MOST_BEGINS }
{
    if row.place < MOST_ROWS {
        begins.push(row.begin);
    }
}

/// The moments at which those of the rows of a transmission and those behind it begin that are drawn.
fn begins_from(cycle: &Cycle, first: &Sent, left: Shown) -> Begins
    requires some { 0 < cycle.now.ti }
    requires sent { IsSent first.now }
    requires each { AllByRecursion IsSent left }
    requires few { length left < 2 ^ 64 - 1 }
    ensures { result.items ≡ definition.begins_of (rows_of cycle.now (first.now ∷ left.entry)) }
{
    let mut begins = ArrayVec::new();
    let mut row = cycle.row_at(0, first);
    for sent in left {
        if cycle.is_new(row.begin, &sent) {
            add_begin(&mut begins, row);
            row = cycle.row_at(row.place + 1, &sent);
        }
    }
    add_begin(&mut begins, row);
    begins
}

/// The moments at which the drawn rows of a trace in a window begin.
fn begins_of(cycle: &Cycle, window: &Window, trace: &Trace) -> Begins
    requires { 0 < cycle.now.ti }
    ensures { result.items ≡ definition.begins_of (rows_of cycle.now (shown window.now trace.now.list)) }
{
    let mut left = Shown::new(window, trace);
    match left.next() {
        None => ArrayVec::new(),
        Some(first) => begins_from(cycle, &first, left),
    }
}

/// The same in periodic mode: in aperiodic mode no row is looked at.
pub(crate) fn begins_in(cycle: &Cycle, window: &Window, trace: &Trace) -> Begins
    requires { 0 < cycle.now.ti }
    ensures { result.items ≡ definition.begins_in cycle.now.mode (rows_of cycle.now (shown window.now trace.now.list)) }
{
    match cycle.mode {
        Mode::Aperiodic => ArrayVec::new(),
        Mode::Periodic => begins_of(cycle, window, trace),
    }
}
