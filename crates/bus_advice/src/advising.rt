//! All advices on a table.
ghost use Rattle.std.specs.Prelude.{◌≡◌, IfOk};
ghost use Rattle.bus_regime.specs.Verdicts.{verdict_of};
ghost use Rattle.bus_advice.specs.Advices.{advices_of};

use crate::advice::Advice;
use crate::cycles::cycle_advices;
use crate::gaps::gap_advices;
use crate::starting::start_advices;
use bus_regime::TableVerdict;
use bus_table::Table;
use std::alloc::{AllocError, Global};

/// What single number of a table that has this verdict to change so that it is accepted: each by the least such change, where one in the
/// number's range keeps the table valid. They stand in the order transmit interval, synchronization gap, terminal gaps in turn order, SEND
/// lines in turn order, plan, periodic mode. An accepted table has one advice at most: the transmit interval with which it starts itself,
/// where it is aperiodic and doesn't.
///
/// Where the shortest cycle is too short, the interval is lessened, or another number raised, or the table made periodic; where gaps are
/// too small, the interval is raised, or other offsets are chosen. Fails only where memory runs out.
pub fn advices(
    alloc: Global,
    table: &Table,
    verdict: &TableVerdict,
) -> Result<Vec<Advice>, AllocError>
    requires { verdict.now ≡ verdict_of table.now }
    ensures { IfOk result (λ advices. advices.items ≡ advices_of table.now) }
{
    match *verdict {
        TableVerdict::Accept {
            mode: _,
            least: _,
            most: _,
        } => start_advices(alloc, table),
        TableVerdict::ShortCycle { least, ti: _ } => {
            let deficit = u64::from(table.ti()) - least;
            cycle_advices(alloc, table, deficit as u32)
        }
        TableVerdict::SmallGap {
            terminal: _,
            gap: _,
            needed: _,
        } => gap_advices(alloc, table),
        TableVerdict::NoSync {
            terminal: _,
            gap: _,
            needed: _,
        } => gap_advices(alloc, table),
    }
}
