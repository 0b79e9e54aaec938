//! The figures of an accepted table as JSON values.
ghost use Rattle.std.specs.Prelude.{◌≡◌, ◌<◌, ◌≤◌, ◌^◌, map, IfOk, IsTrue};
ghost use Rattle.serde_json.specs.View.{view};
ghost use Rattle.bus_regime.specs.Verdicts.{verdict_of, is_accepted};
ghost use Rattle.bus_reach.specs.Bearing as bearing;
ghost use Rattle.bus_facts.specs.Bounds as bounds;

use crate::values::count_or_any;
use bus_cable_plan::most_borne;
use bus_explain::{load, longest_bits};
use bus_reach::{Limit, Rule, limits};
use bus_table::Table;
use serde_json::{Value, json};
use std::alloc::{AllocError, Global};

/// The shortest and the longest cycle.
pub(crate) fn cycle_value(alloc: Global, least: u64, most: u64) -> Result<Value, AllocError>
    ensures { IfOk result (λ value. view value ≡ bounds.cycle_value least most) }
{
    json!(in alloc; {"least": least, "most": most})
}

/// The load of a table whose longest cycle takes `most` bit times.
pub(crate) fn load_value(alloc: Global, table: &Table, most: u64) -> Result<Value, AllocError>
    requires some { 0 < most }
    requires short { most ≤ 2 ^ 40 }
    ensures { IfOk result (λ value. view value ≡ bounds.load_value table.now most) }
{
    let bits = longest_bits(table);
    let per_mille = load(table, most) as u64;
    json!(in alloc; {"bits": bits, "of": most, "per_mille": per_mille})
}

/// The word of a rule.
fn rule_word(rule: Rule) -> &'static str
    ensures { result.now ≡ bounds.rule_word rule }
{
    match rule {
        Rule::LeastGap { .. } => "least-gap",
        Rule::NextGap { .. } => "next-gap",
        Rule::OwnGap { .. } => "own-gap",
        Rule::Sync { .. } => "sync",
    }
}

/// The terminal of a rule.
fn rule_terminal(rule: Rule) -> u8
    ensures { result ≡ bounds.rule_terminal rule }
{
    match rule {
        Rule::LeastGap { terminal }
        | Rule::NextGap { terminal }
        | Rule::OwnGap { terminal }
        | Rule::Sync { terminal } => terminal,
    }
}

/// Whether two numbers are told, and are the same.
fn is_same(a: Option<u64>, b: Option<u64>) -> bool
    ensures { result ≡ bounds.is_same a b }
{
    match (a, b) {
        (Some(a), Some(b)) => a == b,
        _ => false,
    }
}

/// A limit of a table with this tolerance.
fn limit_value(alloc: Global, tolerance: Option<u64>, limit: &Limit) -> Result<Value, AllocError>
    ensures { IfOk result (λ value. view value ≡ bounds.limit_value tolerance limit.now) }
{
    let bears = count_or_any(alloc, limit.bears)?;
    json!(in alloc; {
        "bears": bears,
        "limits": is_same(limit.bears, tolerance),
        "rule": rule_word(limit.rule),
        "terminal": rule_terminal(limit.rule)
    })
}

/// The limits of a table with this tolerance.
fn limit_values(
    alloc: Global,
    tolerance: Option<u64>,
    limits: &[Limit],
) -> Result<Vec<Value>, AllocError>
    ensures { IfOk result (λ values. map view values.items ≡ map (bounds.limit_value tolerance) limits.now) }
{
    let mut values = Vec::with_capacity(alloc, limits.len())?;
    for limit in limits {
        values.push(limit_value(alloc, tolerance, limit)?)?;
    }
    Ok(values)
}

/// The greatest delay that any offsets of a table bear, where it is known.
#[tactic(auto, unfolding(crate::specs::Bounds::best_value))]
fn best_value(alloc: Global, table: &Table) -> Result<Value, AllocError>
    ensures { IfOk result (λ value. view value ≡ bounds.best_value table.now) }
{
    match most_borne(alloc, table)? {
        Some(delay) => Ok(Value::from(delay)),
        None => Ok(Value::Null),
    }
}

/// How much delay an accepted table bears, by what rules, and how much it would bear at the best offsets.
pub(crate) fn tolerance_value(
    alloc: Global,
    table: &Table,
    tolerance: Option<u64>,
) -> Result<Value, AllocError>
    requires accepted { IsTrue (is_accepted (verdict_of table.now)) }
    requires own { tolerance ≡ bearing.tolerance_of table.now }
    ensures { IfOk result (λ value. view value ≡ bounds.tolerance_value table.now) }
{
    let best = best_value(alloc, table)?;
    let delay = count_or_any(alloc, tolerance)?;
    let limits = limits(alloc, table)?;
    let rules = limit_values(alloc, tolerance, &limits)?;
    json!(in alloc; {"best": best, "delay": delay, "rules": rules})
}
