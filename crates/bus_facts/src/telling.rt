//! The facts of a text, as a line of JSON.
ghost use Rattle.std.specs.Prelude.{◌≡◌, ◌≢◌, ◌≤◌, ◌++◌, ℕ, List, Some, false, codes, IfOk, string_bytes};
ghost use Rattle.serde_json.specs.Data.{depth};
ghost use Rattle.serde_json.specs.Read.{read};
ghost use Rattle.serde_json.specs.View.{members_view, view};
ghost use Rattle.serde_json.specs.Written.{compact_text, has_float};
ghost use Rattle.bus_table.specs.Gives.{Fails};
ghost use Rattle.bus_table.specs.Reading.{answer_of};
ghost use Rattle.bus_table.specs.Stops.{stop_of};
ghost use Rattle.bus_table.specs.declared.error.TableError.TheVariants.{Memory};
ghost use Rattle.bus_regime.specs.Verdicts.{is_accepted, verdict_of};
ghost use Rattle.bus_facts.specs.Facts as told;
ghost use Rattle.bus_facts.specs.inside.Seen.{error_front};
ghost use Rattle.bus_facts.specs.inside.Telling.{Tells};

use crate::table::table_value;
use crate::wrong::{text_value, whole_value};
use bus_regime::verdict;
use bus_table::{Table, TableError, Unread, read_or_stop};
use serde_json::{Map, Value, put};
use std::alloc::{AllocError, Global};

/// The facts of a text.
#[derive(Debug, Drop)]
pub struct Facts {
    /// One JSON object, and a line feed.
    pub line: String,
    /// Whether the text gives a table that the verdict accepts.
    pub accepted: bool,
}

/// The members that are told of a text that gives no valid table before its mode.
fn error_front(alloc: Global, error: Value) -> Result<Map<String, Value>, AllocError>
    ensures { IfOk result (λ map. members_view map.entries ≡ error_front (view error)) }
{
    let mut members = Map::new(alloc);
    put(&mut members, alloc, "accepted", Value::from(false))?;
    put(&mut members, alloc, "advices", Value::from(Vec::new(alloc)))?;
    put(&mut members, alloc, "cycle", Value::Null)?;
    put(&mut members, alloc, "error", error)?;
    put(&mut members, alloc, "load", Value::Null)?;
    put(&mut members, alloc, "margins", Value::Null)?;
    Ok(members)
}

/// What is told of a text that gives no valid table: this error alone.
fn error_value(alloc: Global, error: Value) -> Result<Value, AllocError>
    ensures { IfOk result (λ value. view value ≡ told.error_value (view error)) }
{
    let mut members = error_front(alloc, error)?;
    put(&mut members, alloc, "mode", Value::Null)?;
    put(&mut members, alloc, "senders", Value::from(Vec::new(alloc)))?;
    put(&mut members, alloc, "sg", Value::Null)?;
    put(&mut members, alloc, "spare", Value::Null)?;
    put(&mut members, alloc, "start", Value::Null)?;
    put(&mut members, alloc, "takes", Value::from(Vec::new(alloc)))?;
    put(&mut members, alloc, "ti", Value::Null)?;
    put(&mut members, alloc, "tolerance", Value::Null)?;
    put(&mut members, alloc, "verdict", Value::Null)?;
    Ok(Value::Object(members))
}

/// What is told of a text that gives no valid table, whose reading came to this.
fn refusal_value(alloc: Global, unread: Unread) -> Result<Value, AllocError>
    ensures value { IfOk result (λ value. (text : List ℕ) → Fails unread.error (answer_of text)
        → (unread.error ≢ Memory → unread.stop ≡ stop_of text) → view value ≡ told.facts_value text) }
    ensures failed { IfOk result (λ _. (text : List ℕ) → Fails unread.error (answer_of text) → told.is_accepting (answer_of text) ≡ false) }
{
    let Unread { error, stop } = unread;
    match error {
        TableError::Text { line, reason } => {
            let refusal = text_value(alloc, line, reason, &stop)?;
            error_value(alloc, refusal)
        }
        TableError::Whole(reason) => {
            let refusal = whole_value(alloc, reason)?;
            error_value(alloc, refusal)
        }
        TableError::Memory => Err(AllocError),
    }
}

/// A JSON value without floats that nests six deep at most, as a line.
fn line_of(alloc: Global, value: &Value) -> Result<String, AllocError>
    requires whole { has_float (view value.now) ≡ false }
    requires deep { depth (view value.now) ≤ 6 }
    ensures text { IfOk result (λ line. string_bytes line ≡ compact_text (view value.now) ++ codes "\n") }
    ensures reads { IfOk result (λ _. read (compact_text (view value.now)) ≡ Some (view value.now)) }
{
    let mut line = value.to_string(alloc)?;
    line.push('\n')?;
    Ok(line)
}

/// The facts of a valid table.
fn table_facts(alloc: Global, table: &Table) -> Result<Facts, AllocError>
    ensures { IfOk result (Tells (told.table_value table.now) (is_accepted (verdict_of table.now))) }
{
    let verdict = verdict(table);
    let value = table_value(alloc, table, &verdict)?;
    Ok(Facts {
        line: line_of(alloc, &value)?,
        accepted: verdict.is_accepted(),
    })
}

/// The facts of a text, whether it is one of a table or not. Fails only where memory runs out.
pub fn facts_of(alloc: Global, text: &[u8]) -> Result<Facts, AllocError>
    ensures line { IfOk result (λ facts. string_bytes facts.line ≡ told.facts_text text.now) }
    ensures reads { IfOk result (λ _. read (compact_text (told.facts_value text.now)) ≡ Some (told.facts_value text.now)) }
    ensures accepted { IfOk result (λ facts. facts.accepted ≡ told.is_accepting (answer_of text.now)) }
{
    match read_or_stop(alloc, text) {
        Ok(table) => table_facts(alloc, &table),
        Err(unread) => {
            let value = refusal_value(alloc, unread)?;
            Ok(Facts {
                line: line_of(alloc, &value)?,
                accepted: false,
            })
        }
    }
}
