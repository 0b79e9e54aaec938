//! What the legend lists: each kind of box or line where one is drawn.
ghost use Rattle.std.specs.Prelude.{◌≡◌, ◌<◌, ◌≤◌, length};
ghost use Rattle.std.specs.List.{list_any};
ghost use Rattle.bus_cycles.specs.Listings as definition;
ghost use Rattle.bus_cycles.specs.inside.Bounds.{IsPage};
ghost use Rattle.bus_cycles.specs.Rows.{rows_of};
ghost use Rattle.bus_cycles.specs.Sents.{shown};

use crate::cycle::{Cycle, Extent};
use crate::due::rows_of_due;
use crate::marked::any_marked;
use crate::page::Page;
use crate::survey::{MOST_ROWS, Survey};
use bus_shapes::Told;
use bus_table::{Sender, Table};
use bus_trace::{Hold, Trace, Window};

/// What the legend lists.
#[derive(Clone, Copy, Debug, PartialEq, Eq)]
pub(crate) struct Listed {
    /// Plain boxes.
    pub plain: bool,
    /// Hatched ones.
    pub garbled: bool,
    /// The mark of the first breach.
    pub breach: bool,
    /// Marks of faults.
    pub fault: bool,
    /// Rows that are drawn open.
    pub cut: bool,
    /// The lines of offsets.
    pub due: bool,
}

/// Whether a breach is drawn in the row that is marked.
fn is_breach_drawn(marked: Option<Extent>) -> bool
    ensures { result ≡ definition.is_breach_drawn marked }
{
    match marked {
        None => false,
        Some(row) => row.place < MOST_ROWS,
    }
}

/// Whether a fault is marked in a row of a trace in a window.
fn is_fault_drawn(cycle: &Cycle, told: &Told, window: &Window, trace: &Trace) -> bool
    requires { 0 < cycle.now.ti }
    ensures { result ≡ definition.is_fault_drawn told.now (rows_of cycle.now (shown window.now trace.now.list)) }
{
    match told {
        Told::Audit(_) | Told::OnCable { .. } => false,
        Told::Findings { judgements, .. } => any_marked(cycle, judgements, window, trace),
    }
}

/// Whether a sender has a line.
fn has_line(page: &Page, holds: &[Hold], begins: &[u64], sender: &Sender) -> bool
    requires page { IsPage page.now }
    requires few { length begins.now ≤ 500 }
    ensures { result ≡ definition.has_line page.now holds.now begins.now sender.now }
{
    rows_of_due(page, holds, begins, sender) > 0
}

/// Whether a sender of these has a line.
fn is_due_drawn(page: &Page, holds: &[Hold], begins: &[u64], senders: &[Sender]) -> bool
    requires page { IsPage page.now }
    requires few { length begins.now ≤ 500 }
    ensures { result ≡ list_any (definition.has_line page.now holds.now begins.now) senders.now }
{
    for sender in senders {
        if has_line(page, holds, begins, sender) {
            return true;
        }
    }
    false
}

/// What is listed of the rows of a trace in a window, of which those begin at these moments in which starts may be due.
pub(crate) fn listed_of(
    page: &Page,
    survey: &Survey,
    told: &Told,
    table: &Table,
    begins: &[u64],
    window: &Window,
    trace: &Trace,
) -> Listed
    requires page { IsPage page.now }
    requires few { length begins.now ≤ 500 }
    ensures { result ≡ definition.listed_of page.now survey.now told.now table.now trace.now.holds begins.now
        (rows_of page.now.cycle (shown window.now trace.now.list)) }
{
    Listed {
        plain: survey.plain,
        garbled: survey.garbled,
        breach: is_breach_drawn(survey.marked),
        fault: is_fault_drawn(&page.cycle, told, window, trace),
        cut: survey.cut,
        due: is_due_drawn(page, trace.holds(), begins, table.senders()),
    }
}
