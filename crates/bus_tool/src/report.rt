//! The report of a table: its verdict and its figures as JSON.
ghost use Rattle.std.specs.Prelude.{◌≡◌, ◌++◌, IfOk, codes, false, map, string_bytes};
ghost use Rattle.serde_json.specs.View.{view};
ghost use Rattle.serde_json.specs.Written.{compact_text, has_float};
ghost use Rattle.bus_table.specs.Turns.{turn_order};
ghost use Rattle.bus_regime.specs.Verdicts.{verdict_of};
ghost use Rattle.bus_regime.specs.declared.table_verdict.TableVerdict.TheVariants as verdicts;
ghost use Rattle.bus_tool.specs.inside.ReportData.{sender_data, report_data, IsLine, ArePlainWords};
ghost use Rattle.bus_tool.specs.inside.Acting.{EndsOnTable};
ghost use Rattle.bus_tool.specs.Forms.{Report};
ghost use Rattle.bus_tool.specs.Reports as reports;

use crate::check::verdict_outcome;
use crate::refusal::Outcome;
use bus_command::after_writing;
use bus_outer::{Sink, write_all};
use bus_regime::{TableVerdict, verdict};
use bus_table::{Mode, Sender, Table, longest, shortest, turn_at, turn_places};
use serde_json::{Value, json};
use std::alloc::{AllocError, Global};

/// The words of a table that is accepted, as `write_verdict` writes them.
fn accepted(alloc: Global, mode: Mode, least: u64, most: u64) -> Result<String, AllocError>
    ensures { IfOk result (IsLine (verdicts.Accept mode least most)) }
{
    let mode = mode.word();
    format!(in alloc; "ACCEPT {mode} {least} {most}")
}

/// The words of a table whose cycle is too short.
fn short_cycle(alloc: Global, least: u64, ti: u64) -> Result<String, AllocError>
    ensures { IfOk result (IsLine (verdicts.ShortCycle least ti)) }
{
    format!(in alloc; "REFUSE short-cycle {least} {ti}")
}

/// The words of a table with a gap that is too small.
fn small_gap(alloc: Global, terminal: u8, gap: i64, needed: u64) -> Result<String, AllocError>
    ensures { IfOk result (IsLine (verdicts.SmallGap terminal gap needed)) }
{
    format!(in alloc; "REFUSE small-gap {terminal} {gap} {needed}")
}

/// The words of a table with a sender that doesn't synchronize.
fn no_sync(alloc: Global, terminal: u8, gap: u64, needed: u64) -> Result<String, AllocError>
    ensures { IfOk result (IsLine (verdicts.NoSync terminal gap needed)) }
{
    format!(in alloc; "REFUSE no-sync {terminal} {gap} {needed}")
}

/// The line of a verdict, without its line feed.
fn line(alloc: Global, verdict: TableVerdict) -> Result<String, AllocError>
    ensures { IfOk result (IsLine verdict) }
{
    match verdict {
        TableVerdict::Accept { mode, least, most } => accepted(alloc, mode, least, most),
        TableVerdict::ShortCycle { least, ti } => short_cycle(alloc, least, ti),
        TableVerdict::SmallGap {
            terminal,
            gap,
            needed,
        } => small_gap(alloc, terminal, gap, needed),
        TableVerdict::NoSync {
            terminal,
            gap,
            needed,
        } => no_sync(alloc, terminal, gap, needed),
    }
}

/// A sender.
fn sender_value(alloc: Global, sender: &Sender) -> Result<Value, AllocError>
    ensures { IfOk result (λ value. view value ≡ sender_data sender.now) }
{
    json!(in alloc; {
        "at": sender.at(),
        "longest": longest(sender),
        "number": sender.number(),
        "shortest": shortest(sender),
        "tg": sender.tg()
    })
}

/// The senders, in turn order.
fn sender_values(alloc: Global, table: &Table) -> Result<Vec<Value>, AllocError>
    ensures { IfOk result (λ values. map view values.items ≡ map sender_data (turn_order table.now)) }
{
    let count = table.senders().len();
    let mut values = Vec::with_capacity(alloc, count)?;
    let places = turn_places(table);
    for k in 0..count {
        values.push(sender_value(alloc, turn_at(table, &places, k))?)?;
    }
    Ok(values)
}

/// The report of a table as a JSON value.
fn report_value(alloc: Global, table: &Table) -> Result<Value, AllocError>
    ensures value { IfOk result (λ value. view value ≡ report_data table.now) }
    ensures plain { IfOk result (λ _. ArePlainWords (verdict_of table.now)) }
{
    let line = line(alloc, verdict(table))?;
    let senders = sender_values(alloc, table)?;
    json!(in alloc; {
        "line": line,
        "mode": table.mode().word(),
        "senders": senders,
        "sg": table.sg(),
        "ti": table.ti()
    })
}

/// A JSON value without floats as a line.
fn line_of(alloc: Global, value: &Value) -> Result<String, AllocError>
    ensures { IfOk result (λ text. has_float (view value.now) ≡ false → string_bytes text ≡ compact_text (view value.now) ++ codes "\n") }
{
    let mut text = value.to_string(alloc)?;
    text.push('\n')?;
    Ok(text)
}

/// The report of a table as a text.
fn report_text(alloc: Global, table: &Table) -> Result<String, AllocError>
    ensures { IfOk result (λ text. string_bytes text ≡ reports.report_text table.now) }
{
    let value = report_value(alloc, table)?;
    line_of(alloc, &value)
}

/// Writes the report of a table.
pub fn report<K: Sink>(alloc: Global, table: &Table, out: &mut K) -> Outcome
    ensures { EndsOnTable ⟦<K as Sink>⟧ Report table.now out.old out.new result }
{
    match report_text(alloc, table) {
        Ok(text) => after_writing(
            write_all(out, text.as_bytes()),
            verdict_outcome(&verdict(table)),
        ),
        Err(_) => Outcome::NoMemory,
    }
}
