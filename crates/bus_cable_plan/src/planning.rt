//! The planner.
ghost use Rattle.std.specs.Prelude.{◌≡◌, ◌≢◌, ◌≤◌, ◌<◌, nat_le, IsTrue, IfOk, length};
ghost use Rattle.bus_table.specs.declared.mode.Mode.TheVariants.{Periodic};
ghost use Rattle.bus_table.specs.Ranges.{most_ti};
ghost use Rattle.bus_cable_plan.specs.Answers as answers;
ghost use Rattle.bus_cable_plan.specs.Plans as plans;

use crate::given::{as_given, bears_as_given};
use crate::interval::{is_known, least_in_order, turns_for};
use crate::laying::offsets_in_order;
use crate::order::by_gap;
use bus_plan::{PlanAnswer, plan};
use bus_table::laws::table_is_valid;
use bus_table::{Mode, Table, with_offsets};
use std::alloc::{AllocError, Global};

/// What the planner answers.
#[derive(Debug, Drop)]
pub enum CablePlan {
    /// The table at planned offsets, or as it is given. It is accepted and bears the delay.
    Planned(Table),
    /// No choice of offsets bears the delay, nor does any in an interval below `least`. The transmit interval `ti` is, both in bit times.
    Infeasible { least: u64, ti: u64 },
    /// It isn't known whether some offsets bear the delay. The turns of the senders take `least` of the transmit interval `ti`.
    Undecided { least: u64, ti: u64 },
}

/// The plan of a sender alone.
fn alone(answer: PlanAnswer) -> CablePlan
    ensures { result ≡ answers.alone answer }
{
    match answer {
        PlanAnswer::Planned(table) => CablePlan::Planned(table),
        PlanAnswer::Infeasible { least, ti } => CablePlan::Infeasible { least, ti },
    }
}

/// Whether the plan in its own turn order fits the interval of this table.
fn fits_in_order(table: &Table, d: u32) -> bool
    requires most { d ≤ most_ti }
    ensures { result ≡ nat_le (plans.least_in_order d table.now) table.now.ti }
{
    least_in_order(table, d) <= u64::from(table.ti())
}

/// Whether a plan fits the interval of a table, which stands in the order of terminal gaps too.
fn fits(table: &Table, ordered: &Table, d: u32) -> bool
    requires most { d ≤ most_ti }
    requires ordered { ordered.now ≡ plans.by_gap table.now }
    ensures { result ≡ answers.fits d table.now }
{
    fits_in_order(table, d) || fits_in_order(ordered, d)
}

/// The plan that fits. Fails only where memory runs out.
fn fitting(alloc: Global, table: &Table, ordered: &Table, d: u32) -> Result<Table, AllocError>
    requires most { d ≤ most_ti }
    requires ordered { ordered.now ≡ plans.by_gap table.now }
    requires periodic { table.now.mode ≡ Periodic }
    requires several { length table.now.senders ≢ 1 }
    requires fits { IsTrue (answers.fits d table.now) }
    ensures { IfOk result (λ made. made ≡ answers.fitting d table.now) }
{
    table_is_valid(table);
    if fits_in_order(table, d) {
        let offsets = offsets_in_order(alloc, table, d)?;
        return with_offsets(alloc, table, &offsets);
    }
    let offsets = offsets_in_order(alloc, ordered, d)?;
    with_offsets(alloc, table, &offsets)
}

/// Whether offsets are found that bear this delay.
fn is_found(table: &Table, ordered: &Table, d: u32) -> bool
    requires most { d ≤ most_ti }
    requires ordered { ordered.now ≡ plans.by_gap table.now }
    ensures { result ≡ answers.is_found d table.now }
{
    fits(table, ordered, d) || bears_as_given(table, d)
}

/// The table at the offsets found. Fails only where memory runs out.
fn found(alloc: Global, table: &Table, ordered: &Table, d: u32) -> Result<Table, AllocError>
    requires most { d ≤ most_ti }
    requires ordered { ordered.now ≡ plans.by_gap table.now }
    requires periodic { table.now.mode ≡ Periodic }
    requires several { length table.now.senders ≢ 1 }
    ensures { IfOk result (λ made. made ≡ answers.found d table.now) }
{
    if fits(table, ordered, d) {
        return fitting(alloc, table, ordered, d);
    }
    as_given(alloc, table)
}

/// Whether no offsets bear this delay, where none are found.
fn is_refuted(table: &Table, d: u32) -> bool
    requires most { d ≤ most_ti }
    ensures { result ≡ answers.is_refuted d table.now }
{
    is_known(table, d) || u64::from(table.ti()) < turns_for(table, d)
}

/// Below which interval no offsets bear this delay, as far as that is known.
fn known_least(table: &Table, ordered: &Table, d: u32) -> u64
    requires most { d ≤ most_ti }
    requires ordered { ordered.now ≡ plans.by_gap table.now }
    ensures { result ≡ answers.known_least d table.now }
{
    if is_known(table, d) {
        least_in_order(ordered, d)
    } else {
        turns_for(table, d)
    }
}

/// That it isn't known whether some offsets bear this delay.
fn undecided(table: &Table, d: u32) -> CablePlan
    requires most { d ≤ most_ti }
    ensures { result ≡ answers.undecided d table.now }
{
    CablePlan::Undecided {
        least: turns_for(table, d),
        ti: u64::from(table.ti()),
    }
}

/// What is said where no offsets are found.
fn unfit(table: &Table, ordered: &Table, d: u32) -> CablePlan
    requires most { d ≤ most_ti }
    requires ordered { ordered.now ≡ plans.by_gap table.now }
    ensures { result ≡ answers.unfit d table.now }
{
    if !is_refuted(table, d) {
        return undecided(table, d);
    }
    CablePlan::Infeasible {
        least: known_least(table, ordered, d),
        ti: u64::from(table.ti()),
    }
}

/// The greatest delay for which offsets are found that bear it, where some are without delay. It comes of halving.
fn best(table: &Table, ordered: &Table) -> u32
    requires ordered { ordered.now ≡ plans.by_gap table.now }
    requires periodic { table.now.mode ≡ Periodic }
    requires several { length table.now.senders ≢ 1 }
    requires some { IsTrue (answers.is_found 0 table.now) }
    ensures value { result ≡ answers.best_of table.now }
    ensures bound { result < table.now.ti }
{
    let mut borne = 0;
    let mut above = table.ti();
    while above - borne > 1 {
        let middle = borne + (above - borne) / 2;
        if is_found(table, ordered, middle) {
            borne = middle;
        } else {
            above = middle;
        }
    }
    borne
}

/// Chooses the offsets of a periodic table so that it bears delays up to `d` bit times, and changes nothing else. Its turn order is kept
/// where a plan in that order fits; else its senders go in the order of their terminal gaps, the greatest first. What is left over of the
/// interval is shared evenly before all senders. Where no plan fits and the table bears the delay as it is, its offsets stay. Fails only
/// where memory runs out.
pub fn plan_for(alloc: Global, table: &Table, d: u32) -> Result<CablePlan, AllocError>
    requires periodic { table.now.mode ≡ Periodic }
    requires most { d ≤ most_ti }
    ensures exact { IfOk result (λ answer. answer ≡ answers.plan_for_of d table.now) }
{
    if table.senders().len() == 1 {
        return Ok(alone(plan(alloc, table)?));
    }
    let ordered = by_gap(alloc, table)?;
    if is_found(table, &ordered, d) {
        return Ok(CablePlan::Planned(found(alloc, table, &ordered, d)?));
    }
    Ok(unfit(table, &ordered, d))
}

/// Chooses the offsets of a periodic table so that it bears the greatest delay that any offsets bear, as [`plan_for`] does, or says that it
/// isn't known whether some bear more than those found. Fails only where memory runs out.
pub fn plan_best(alloc: Global, table: &Table) -> Result<CablePlan, AllocError>
    requires periodic { table.now.mode ≡ Periodic }
    ensures exact { IfOk result (λ answer. answer ≡ answers.plan_best_of table.now) }
{
    if table.senders().len() == 1 {
        return Ok(alone(plan(alloc, table)?));
    }
    let ordered = by_gap(alloc, table)?;
    if !is_found(table, &ordered, 0) {
        return Ok(unfit(table, &ordered, 0));
    }
    let d = best(table, &ordered);
    if is_refuted(table, d + 1) {
        return Ok(CablePlan::Planned(found(alloc, table, &ordered, d)?));
    }
    Ok(undecided(table, d + 1))
}

/// The greatest delay that any offsets of a periodic table bear, where it is known.
fn most_of_periodic(alloc: Global, table: &Table) -> Result<Option<u32>, AllocError>
    requires periodic { table.now.mode ≡ Periodic }
    ensures exact { IfOk result (λ most. most ≡ answers.most_borne_in Periodic table.now) }
{
    if table.senders().len() == 1 {
        return Ok(None);
    }
    let ordered = by_gap(alloc, table)?;
    if !is_found(table, &ordered, 0) {
        return Ok(None);
    }
    let d = best(table, &ordered);
    if is_refuted(table, d + 1) {
        return Ok(Some(d));
    }
    Ok(None)
}

/// The greatest delay that any offsets of a table bear, in bit times, where it is known. None of an aperiodic table, of a sender alone,
/// which bears every delay, where no offsets are accepted, and where it isn't known whether some bear more than those found. Fails only
/// where memory runs out.
pub fn most_borne(alloc: Global, table: &Table) -> Result<Option<u32>, AllocError>
    ensures exact { IfOk result (λ most. most ≡ answers.most_borne_of table.now) }
{
    match table.mode() {
        Mode::Aperiodic => Ok(None),
        Mode::Periodic => most_of_periodic(alloc, table),
    }
}
