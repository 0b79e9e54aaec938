//! The planner.
ghost use Rattle.std.specs.Prelude.{◌≡◌, IfOk};
ghost use Rattle.bus_table.specs.declared.mode.Mode.TheVariants.{Periodic};
ghost use Rattle.bus_plan.specs.Answers.{plan_of, Means};

use crate::interval::least_interval;
use crate::walk::planned_offsets;
use bus_table::{Table, with_offsets};
use std::alloc::{AllocError, Global};

/// What the planner answers.
#[derive(Debug, Drop)]
pub enum PlanAnswer {
    /// The table at the planned offsets, which is accepted.
    Planned(Table),
    /// No choice of offsets is accepted: the transmit interval `ti` is below the least interval, both in bit times.
    Infeasible { least: u64, ti: u64 },
}

/// Chooses the offsets of a periodic table anew, whatever offsets it had, and changes nothing else. The planned table is accepted; where
/// the transmit interval is below the least interval, no choice of offsets is. Fails only where memory runs out.
pub fn plan(alloc: Global, table: &Table) -> Result<PlanAnswer, AllocError>
    requires periodic { table.now.mode ≡ Periodic }
    ensures exact { IfOk result (λ answer. answer ≡ plan_of table.now) }
    ensures meaning { IfOk result (λ answer. Means table.now answer) }
{
    let least = least_interval(table);
    let ti = u64::from(table.ti());
    if ti < least {
        return Ok(PlanAnswer::Infeasible { least, ti });
    }
    let offsets = planned_offsets(alloc, table)?;
    Ok(PlanAnswer::Planned(with_offsets(alloc, table, &offsets)?))
}
