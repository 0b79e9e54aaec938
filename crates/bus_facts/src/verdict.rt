//! A verdict as a JSON value.
ghost use Rattle.std.specs.Prelude.{◌≡◌, pos, codes, IfOk};
ghost use Rattle.serde_json.specs.View.{view};
ghost use Rattle.bus_facts.specs.Verdicts as verdicts;

use bus_regime::TableVerdict;
use serde_json::{Value, json};
use std::alloc::{AllocError, Global};

/// A verdict that accepts.
fn accept_value(alloc: Global, least: u64, most: u64) -> Result<Value, AllocError>
    ensures { IfOk result (λ value. view value ≡ verdicts.accept_value least most) }
{
    json!(in alloc; {"kind": "accept", "least": least, "most": most})
}

/// A verdict that refuses a cycle.
fn cycle_value(alloc: Global, least: u64, ti: u64) -> Result<Value, AllocError>
    ensures { IfOk result (λ value. view value ≡ verdicts.cycle_value least ti) }
{
    json!(in alloc; {"kind": "short-cycle", "least": least, "ti": ti})
}

/// A verdict that refuses a gap.
fn small_gap_value(alloc: Global, terminal: u8, gap: i64, needed: u64) -> Result<Value, AllocError>
    ensures { IfOk result (λ value. view value ≡ verdicts.gap_value (codes "small-gap") terminal gap needed) }
{
    json!(in alloc; {"gap": gap, "kind": "small-gap", "needed": needed, "terminal": terminal})
}

/// A verdict that refuses a table for want of a synchronization gap.
fn no_sync_value(alloc: Global, terminal: u8, gap: u64, needed: u64) -> Result<Value, AllocError>
    ensures { IfOk result (λ value. view value ≡ verdicts.gap_value (codes "no-sync") terminal (pos gap) needed) }
{
    json!(in alloc; {"gap": gap, "kind": "no-sync", "needed": needed, "terminal": terminal})
}

/// A verdict, with its numbers.
pub(crate) fn verdict_value(alloc: Global, verdict: &TableVerdict) -> Result<Value, AllocError>
    ensures { IfOk result (λ value. view value ≡ verdicts.verdict_value verdict.now) }
{
    match *verdict {
        TableVerdict::Accept { least, most, .. } => accept_value(alloc, least, most),
        TableVerdict::ShortCycle { least, ti } => cycle_value(alloc, least, ti),
        TableVerdict::SmallGap {
            terminal,
            gap,
            needed,
        } => small_gap_value(alloc, terminal, gap, needed),
        TableVerdict::NoSync {
            terminal,
            gap,
            needed,
        } => no_sync_value(alloc, terminal, gap, needed),
    }
}
