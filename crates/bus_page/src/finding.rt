//! What is told of a table on its page, for which memory is taken before the page is written.
ghost use Rattle.std.specs.Prelude.{◌≡◌, false, IfOk};
ghost use Rattle.bus_regime.specs.Verdicts.{verdict_of, is_accepted};
ghost use Rattle.bus_explain.specs.Accepted.{IsAcceptedWith};
ghost use Rattle.bus_page.specs.Findings as definition;

use crate::slot::{Slot, slots};
use crate::turn::{Turn, turns};
use bus_advice::{Advice, advices, periodic_table};
use bus_cable_plan::most_borne;
use bus_reach::{Limit, limits, tolerance};
use bus_regime::{TableVerdict, verdict};
use bus_table::Table;
use std::alloc::{AllocError, Global};

/// What is told of an accepted table.
#[derive(Debug, Drop)]
pub struct Figures {
    /// Its verdict.
    pub verdict: TableVerdict,
    /// The shortest cycle, in bit times.
    pub least: u64,
    /// The longest cycle, in bit times.
    pub most: u64,
    /// The greatest delay that it bears, in bit times; None where it bears every delay.
    pub tolerance: Option<u64>,
    /// The greatest delay that any offsets bear, in bit times, where it is known.
    pub offsets: Option<u32>,
    /// What limits the tolerance, rule by rule.
    pub limits: Vec<Limit>,
    /// The advices on it.
    pub advices: Vec<Advice>,
    /// The turns of its senders, where it is aperiodic.
    pub turns: Vec<Turn>,
    /// The slots of its senders, where it is periodic.
    pub slots: Vec<Slot>,
}

/// What is told of a refused table.
#[derive(Debug, Drop)]
pub struct Refusal {
    /// Its verdict.
    pub verdict: TableVerdict,
    /// The advices on it.
    pub advices: Vec<Advice>,
    /// The planned table that one of them makes of it, where there is one.
    pub planned: Option<Table>,
}

/// What is told of a table.
#[derive(Debug, Drop)]
pub enum Findings {
    /// Of one that the verdict accepts.
    Accepted(Figures),
    /// Of one that it refuses.
    Refused(Refusal),
}

/// What is told of an accepted table with this verdict.
fn figures_of(
    alloc: Global,
    table: &Table,
    verdict: TableVerdict,
    least: u64,
    most: u64,
) -> Result<Figures, AllocError>
    requires own { verdict ≡ verdict_of table.now }
    requires accepted { IsAcceptedWith table.now least most }
    ensures { IfOk result (definition.AreFigures table.now) }
{
    Ok(Figures {
        verdict,
        least,
        most,
        tolerance: tolerance(table),
        offsets: most_borne(alloc, table)?,
        limits: limits(alloc, table)?,
        advices: advices(alloc, table, &verdict)?,
        turns: turns(alloc, table)?,
        slots: slots(alloc, table)?,
    })
}

/// What is told of a table that this verdict refuses.
fn refusal_of(alloc: Global, table: &Table, verdict: TableVerdict) -> Result<Refusal, AllocError>
    requires own { verdict ≡ verdict_of table.now }
    requires refused { is_accepted verdict ≡ false }
    ensures { IfOk result (definition.IsRefusalOf table.now) }
{
    Ok(Refusal {
        verdict,
        advices: advices(alloc, table, &verdict)?,
        planned: periodic_table(alloc, table, &verdict)?,
    })
}

/// What is told of a table. Fails only where memory runs out.
pub fn find(alloc: Global, table: &Table) -> Result<Findings, AllocError>
    ensures { IfOk result (definition.AreFindings table.now) }
{
    let verdict = verdict(table);
    match verdict {
        TableVerdict::Accept { least, most, .. } => Ok(Findings::Accepted(figures_of(
            alloc, table, verdict, least, most,
        )?)),
        TableVerdict::ShortCycle { .. } => {
            Ok(Findings::Refused(refusal_of(alloc, table, verdict)?))
        }
        TableVerdict::SmallGap { .. } => Ok(Findings::Refused(refusal_of(alloc, table, verdict)?)),
        TableVerdict::NoSync { .. } => Ok(Findings::Refused(refusal_of(alloc, table, verdict)?)),
    }
}
