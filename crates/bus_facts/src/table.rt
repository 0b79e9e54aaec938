//! What is told of a valid table.
ghost use Rattle.std.specs.Prelude.{◌≡◌, IfOk};
ghost use Rattle.serde_json.specs.View.{members_view, view};
ghost use Rattle.bus_regime.specs.Verdicts.{is_accepted, verdict_of};
ghost use Rattle.bus_explain.specs.Accepted.{IsAcceptedWith};
ghost use Rattle.bus_facts.specs.Facts as facts;
ghost use Rattle.bus_facts.specs.inside.Seen.{first_members, seen, AreHeadsOf};
ghost use Rattle.bus_table.specs.Text.{mode_word};

use crate::advised::advices_value;
use crate::bounds::{cycle_value, load_value, tolerance_value};
use crate::margins::margins_value;
use crate::pace::Pace;
use crate::senders::senders_value;
use crate::starts::start_value;
use crate::takes::takes_value;
use crate::verdict::verdict_value;
use bus_advice::advices;
use bus_explain::spare;
use bus_reach::tolerance;
use bus_regime::{TableVerdict, verdict};
use bus_table::laws::table_is_valid;
use bus_table::{Mode, Table};
use serde_json::{Map, Value, put};
use std::alloc::{AllocError, Global};

/// What only an accepted table has, and its senders and TAKE lines.
#[derive(Drop)]
struct Figures {
    cycle: Value,
    load: Value,
    margins: Value,
    spare: Value,
    tolerance: Value,
    senders: Value,
    takes: Value,
}

/// The figures of an accepted table with these numbers of its verdict.
fn accepted_figures(
    alloc: Global,
    table: &Table,
    least: u64,
    most: u64,
) -> Result<Figures, AllocError>
    requires { IsAcceptedWith table.now least most }
    ensures { IfOk result (λ figures. seen figures ≡ facts.accepted_figures table.now least most) }
{
    table_is_valid(table);
    let tolerance = tolerance(table);
    let pace = Pace { most, tolerance };
    Ok(Figures {
        cycle: cycle_value(alloc, least, most)?,
        load: load_value(alloc, table, most)?,
        margins: margins_value(alloc, table)?,
        spare: Value::from(spare(table, least)),
        tolerance: tolerance_value(alloc, table, tolerance)?,
        senders: senders_value(alloc, table, Some(pace))?,
        takes: takes_value(alloc, table)?,
    })
}

/// A refused table has its senders and TAKE lines alone.
fn refused_figures(alloc: Global, table: &Table) -> Result<Figures, AllocError>
    ensures { IfOk result (λ figures. seen figures ≡ facts.refused_figures table.now) }
{
    Ok(Figures {
        cycle: Value::Null,
        load: Value::Null,
        margins: Value::Null,
        spare: Value::Null,
        tolerance: Value::Null,
        senders: senders_value(alloc, table, None)?,
        takes: takes_value(alloc, table)?,
    })
}

/// The figures of a table with this verdict.
fn figures_of(alloc: Global, verdict: &TableVerdict, table: &Table) -> Result<Figures, AllocError>
    requires { verdict.now ≡ verdict_of table.now }
    ensures { IfOk result (λ figures. seen figures ≡ facts.figures_of verdict.now table.now) }
{
    match *verdict {
        TableVerdict::Accept { least, most, .. } => accepted_figures(alloc, table, least, most),
        TableVerdict::ShortCycle { .. }
        | TableVerdict::SmallGap { .. }
        | TableVerdict::NoSync { .. } => refused_figures(alloc, table),
    }
}

/// What stands beside the figures of a table.
#[derive(Drop)]
struct Heads {
    accepted: bool,
    mode: Mode,
    sg: u32,
    ti: u32,
    advices: Value,
    start: Value,
    verdict: Value,
}

/// The members that are told of a table before its mode.
fn first_members(
    alloc: Global,
    accepted: bool,
    advices: Value,
    cycle: Value,
    load: Value,
    margins: Value,
) -> Result<Map<String, Value>, AllocError>
    ensures { IfOk result (λ map. members_view map.entries
        ≡ first_members accepted (view advices) (view cycle) (view load) (view margins)) }
{
    let mut members = Map::new(alloc);
    put(&mut members, alloc, "accepted", Value::from(accepted))?;
    put(&mut members, alloc, "advices", advices)?;
    put(&mut members, alloc, "cycle", cycle)?;
    put(&mut members, alloc, "error", Value::Null)?;
    put(&mut members, alloc, "load", load)?;
    put(&mut members, alloc, "margins", margins)?;
    Ok(members)
}

/// All that is told of a table with these figures.
fn told_as(alloc: Global, heads: Heads, figures: Figures) -> Result<Value, AllocError>
    ensures { IfOk result (λ value. view value ≡ facts.told_as heads.accepted (mode_word heads.mode) heads.sg heads.ti
        (view heads.advices) (view heads.start) (view heads.verdict) (seen figures)) }
{
    let mut members = first_members(
        alloc,
        heads.accepted,
        heads.advices,
        figures.cycle,
        figures.load,
        figures.margins,
    )?;
    let mode = Value::try_from_str(alloc, heads.mode.word())?;
    put(&mut members, alloc, "mode", mode)?;
    put(&mut members, alloc, "senders", figures.senders)?;
    put(&mut members, alloc, "sg", Value::from(heads.sg))?;
    put(&mut members, alloc, "spare", figures.spare)?;
    put(&mut members, alloc, "start", heads.start)?;
    put(&mut members, alloc, "takes", figures.takes)?;
    put(&mut members, alloc, "ti", Value::from(heads.ti))?;
    put(&mut members, alloc, "tolerance", figures.tolerance)?;
    put(&mut members, alloc, "verdict", heads.verdict)?;
    Ok(Value::Object(members))
}

/// What stands beside the figures of a table that has this verdict.
fn heads_of(alloc: Global, verdict: &TableVerdict, table: &Table) -> Result<Heads, AllocError>
    requires { verdict.now ≡ verdict_of table.now }
    ensures { IfOk result (λ heads. AreHeadsOf table.now heads) }
{
    let advices = advices(alloc, table, verdict)?;
    Ok(Heads {
        accepted: verdict.is_accepted(),
        mode: table.mode(),
        sg: table.sg(),
        ti: table.ti(),
        advices: advices_value(alloc, &advices)?,
        start: start_value(alloc, table)?,
        verdict: verdict_value(alloc, verdict)?,
    })
}

/// What is told of a table that has this verdict.
pub(crate) fn table_value(
    alloc: Global,
    table: &Table,
    verdict: &TableVerdict,
) -> Result<Value, AllocError>
    requires { verdict.now ≡ verdict_of table.now }
    ensures { IfOk result (λ value. view value ≡ facts.table_value table.now) }
{
    let figures = figures_of(alloc, verdict, table)?;
    let heads = heads_of(alloc, verdict, table)?;
    told_as(alloc, heads, figures)
}
