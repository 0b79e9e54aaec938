//! Advices as a JSON value.
ghost use Rattle.std.specs.Prelude.{◌≡◌, IfOk};
ghost use Rattle.serde_json.specs.View.{view};
ghost use Rattle.bus_facts.specs.Advised as advised;

use bus_advice::Advice;
use serde_json::{Value, json};
use std::alloc::{AllocError, Global};

/// A change of one number of the table, by its word.
fn table_change(alloc: Global, word: &str, to: u32) -> Result<Value, AllocError>
    ensures { IfOk result (λ value. view value ≡ advised.table_change word.now to) }
{
    json!(in alloc; {"change": word, "to": to})
}

/// A change of the terminal gap of a terminal.
fn gap_change(alloc: Global, terminal: u8, to: u32) -> Result<Value, AllocError>
    ensures { IfOk result (λ value. view value ≡ advised.gap_change terminal to) }
{
    json!(in alloc; {"change": "TG", "terminal": terminal, "to": to})
}

/// A change of the least number of data words on a SEND line of a terminal, counted from 1.
fn least_change(alloc: Global, terminal: u8, line: usize, to: u16) -> Result<Value, AllocError>
    ensures { IfOk result (λ value. view value ≡ advised.least_change terminal line to) }
{
    json!(in alloc; {"change": "LEAST", "line": line, "terminal": terminal, "to": to})
}

/// An advice.
fn advice_value(alloc: Global, advice: Advice) -> Result<Value, AllocError>
    ensures { IfOk result (λ value. view value ≡ advised.advice_value advice) }
{
    match advice {
        Advice::Interval { ti } => table_change(alloc, "TI", ti),
        Advice::Synchronization { sg } => table_change(alloc, "SG", sg),
        Advice::Gap { terminal, tg } => gap_change(alloc, terminal, tg),
        Advice::Least {
            terminal,
            line,
            least,
        } => least_change(alloc, terminal, line, least),
        Advice::Plan { ti } => table_change(alloc, "PLAN", ti),
        Advice::AsPeriodic { ti } => table_change(alloc, "PERIODIC", ti),
        Advice::Start { ti } => table_change(alloc, "START", ti),
    }
}

/// Advices in their order.
pub(crate) fn advices_value(alloc: Global, advices: &[Advice]) -> Result<Value, AllocError>
    ensures { IfOk result (λ value. view value ≡ advised.advices_value advices.now) }
{
    let mut values = Vec::with_capacity(alloc, advices.len())?;
    for advice in advices {
        values.push(advice_value(alloc, *advice)?)?;
    }
    Ok(Value::from(values))
}
