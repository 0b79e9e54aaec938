//! Plans: from which transmit interval on there are offsets, of a periodic table or of an aperiodic one that is made periodic.
ghost use Rattle.std.specs.Prelude.{◌≡◌, ◌≤◌, IfOk, IfSome, IsTrue, Some};
ghost use Rattle.bus_table.specs.Periodic.{as_periodic};
ghost use Rattle.bus_table.specs.Ranges.{is_ti};
ghost use Rattle.bus_table.specs.declared.mode.Mode.TheVariants.{Aperiodic, Periodic};
ghost use Rattle.bus_regime.specs.Verdicts.{verdict_of};
ghost use Rattle.bus_plan.specs.Plans as plans;
ghost use Rattle.bus_advice.specs.Advices as advised;
ghost use Rattle.bus_advice.specs.inside.Roomy.{roomy_interval};

use bus_plan::{PlanAnswer, least_interval, plan};
use bus_regime::TableVerdict;
use bus_table::ranges::MOST_TI;
use bus_table::{Table, as_periodic};
use std::alloc::{AllocError, Global};

/// The least interval of a table, or its transmit interval where that is greater; None where no transmit interval is as great.
fn roomy_interval(table: &Table) -> Option<u32>
    ensures value { result ≡ roomy_interval table.now }
    ensures range { IfSome result (λ ti. IsTrue (is_ti ti)) }
    ensures room { IfSome result (λ ti. plans.least_interval table.now ≤ ti) }
{
    let ti = least_interval(table).max(u64::from(table.ti()));
    if ti <= u64::from(MOST_TI) {
        Some(ti as u32)
    } else {
        None
    }
}

/// The least transmit interval from the table's own on with which other offsets are accepted.
pub(crate) fn planned_interval(table: &Table) -> Option<u32>
    requires periodic { table.now.mode ≡ Periodic }
    ensures { result ≡ advised.planned_interval table.now }
{
    let _valid = table.ti();
    roomy_interval(table)
}

/// The least transmit interval from the table's own on with which the table is accepted in periodic mode, with the offsets of a plan.
pub(crate) fn periodic_interval(table: &Table) -> Option<u32>
    requires aperiodic { table.now.mode ≡ Aperiodic }
    ensures value { result ≡ advised.periodic_interval table.now }
    ensures range { IfSome result (λ ti. IsTrue (is_ti ti)) }
    ensures room { IfSome result (λ ti. plans.least_interval table.now ≤ ti) }
{
    let _valid = table.ti();
    roomy_interval(table)
}

/// The table in periodic mode at this transmit interval, with the offsets of its plan. Fails only where memory runs out.
fn planned_at(alloc: Global, table: &Table, ti: u32) -> Result<Option<Table>, AllocError>
    requires aperiodic { table.now.mode ≡ Aperiodic }
    requires range { IsTrue (is_ti ti) }
    requires room { plans.least_interval table.now ≤ ti }
    ensures { IfOk result (λ made. made ≡ Some (plans.planned_table (as_periodic ti table.now))) }
{
    let periodic = as_periodic(alloc, table, ti)?;
    match plan(alloc, &periodic)? {
        PlanAnswer::Planned(planned) => Ok(Some(planned)),
        PlanAnswer::Infeasible { least: _, ti: _ } => Ok(None),
    }
}

/// The table in periodic mode at the least transmit interval from its own on at which that is accepted, with the offsets of its plan; None
/// where there is no such interval. Fails only where memory runs out.
fn planned_periodic(alloc: Global, table: &Table) -> Result<Option<Table>, AllocError>
    requires aperiodic { table.now.mode ≡ Aperiodic }
    ensures { IfOk result (λ made. made ≡ advised.planned_periodic table.now) }
{
    match periodic_interval(table) {
        Some(ti) => planned_at(alloc, table, ti),
        None => Ok(None),
    }
}

/// The table that the advice to make it periodic makes of a table that has this verdict: in periodic mode, with the advised transmit
/// interval and the offsets of its plan, and nothing else changed. None exactly where there is no such advice. Fails only where memory
/// runs out.
pub fn periodic_table(
    alloc: Global,
    table: &Table,
    verdict: &TableVerdict,
) -> Result<Option<Table>, AllocError>
    requires { verdict.now ≡ verdict_of table.now }
    ensures { IfOk result (λ made. made ≡ advised.periodic_table table.now) }
{
    match *verdict {
        TableVerdict::ShortCycle { .. } => planned_periodic(alloc, table),
        TableVerdict::Accept { .. } | TableVerdict::SmallGap { .. } | TableVerdict::NoSync { .. } =>
            Ok(None),
    }
}
