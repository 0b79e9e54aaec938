//! `explain` of a table and another text: what is wrong with messages, a cable or a trace, for an accepted table.
ghost use Rattle.std.specs.Prelude.{◌≡◌, ◌≢◌, ◌≤◌, ℕ, List, length, IsTrue, IfOk};
ghost use Rattle.bus_table.specs.Gives.{Fails};
ghost use Rattle.bus_table.specs.Reading.{answer_of};
ghost use Rattle.bus_table.specs.Stops.{stop_of};
ghost use Rattle.bus_table.specs.declared.error.TableError.TheVariants.{Memory};
ghost use Rattle.bus_trace.specs.Limits.{trace_limit};
ghost use Rattle.bus_regime.specs.Verdicts.{verdict_of, is_accepted};
ghost use Rattle.bus_diagnosis.specs.Diagnoses.{diagnosis_of};
ghost use Rattle.bus_diagnosis.specs.Sentences.{diagnosis_text};
ghost use Rattle.bus_command.specs.Due.{text_due};
ghost use Rattle.bus_command.specs.Outside.{sources_seen};
ghost use Rattle.bus_command.specs.Readers.{entire, two_sources};
ghost use Rattle.bus_command.specs.Stages.{refusal_in};
ghost use Rattle.bus_command.specs.Steps.{Prepares};
ghost use Rattle.bus_tool.specs.inside.Acting.{DoesBoth, EndsBeside};
ghost use Rattle.bus_tool.specs.inside.TakenBeside.{AreTaken};
ghost use Rattle.bus_tool.specs.Diagnosing as diagnosing;
ghost use Rattle.bus_tool.specs.Diagnosing.{beside, beside_answer, beside_due, beside_told, table_beside, table_told};
ghost use Rattle.bus_tool.specs.Forms as form;
ghost use Rattle.bus_tool.specs.Forms.{entire_beside};

use crate::explain::{explain_line, explain_table};
use crate::refusal::{Outcome, ToolRefusal};
use bus_command::{TEXT_LIMIT, after_writing, take_text};
use bus_diagnosis::{Diagnosis, write_diagnosis};
use bus_explain::write_whole;
use bus_outer::{Sink, Source};
use bus_regime::verdict;
use bus_table::{Table, TableError, Unread, read_or_stop};
use bus_trace::limits::TRACE_LIMIT;
use std::alloc::Global;

/// A text that may be one of a table, and the text beside it.
#[derive(Drop)]
pub struct Texts {
    /// That of the first source.
    pub table: Vec<u8>,
    /// That of the second.
    pub text: Vec<u8>,
}

/// What comes of a diagnosis once it is written.
fn diagnosis_outcome(found: &Diagnosis) -> Outcome
    ensures { result ≡ diagnosing.diagnosis_outcome found.now }
{
    if found.is_right() {
        Outcome::Done
    } else {
        Outcome::Answered
    }
}

/// Writes what is found of a text beside an accepted table.
fn diagnose_text<K: Sink>(alloc: Global, table: &Table, text: &[u8], out: &mut K) -> Outcome
    requires accepted { IsTrue (is_accepted (verdict_of table.now)) }
    requires short { length text.now ≤ trace_limit }
    ensures { let found = diagnosis_of table.now text.now in
        EndsBeside ⟦<K as Sink>⟧ (diagnosing.diagnosis_outcome found) (diagnosis_text found) out.old out.new result }
{
    match bus_diagnosis::diagnose(alloc, table, text) {
        Ok(found) => after_writing(write_diagnosis(&found, out), diagnosis_outcome(&found)),
        Err(_) => Outcome::NoMemory,
    }
}

/// Writes what is found of a text beside a table, or of the table where it isn't accepted.
fn diagnose_table<K: Sink>(alloc: Global, table: &Table, text: &[u8], out: &mut K) -> Outcome
    requires { length text.now ≤ trace_limit }
    ensures { EndsBeside ⟦<K as Sink>⟧ (table_beside table.now text.now) (table_told table.now text.now) out.old out.new result }
{
    if verdict(table).is_accepted() {
        diagnose_text(alloc, table, text, out)
    } else {
        explain_table(alloc, table, out)
    }
}

/// Writes what is said of a text that gives no table, whose reading came to this, whatever stands beside it.
fn explain_beside<K: Sink>(unread: Unread, out: &mut K) -> Outcome
    ensures { (table text : List ℕ) → Fails unread.error (answer_of table) → (unread.error ≢ Memory → unread.stop ≡ stop_of table)
        → let texts = beside table text in EndsBeside ⟦<K as Sink>⟧ (beside_answer texts) (beside_told texts) out.old out.new result }
{
    let Unread { error, stop } = unread;
    match error {
        TableError::Text { line, reason } => explain_line(line, reason, &stop, out),
        TableError::Whole(reason) => after_writing(write_whole(reason, out), Outcome::Answered),
        TableError::Memory => Outcome::NoMemory,
    }
}

/// Writes what is found of a text beside one that may be of a table, or of that where it is no accepted table's.
fn diagnose_texts<K: Sink>(alloc: Global, table: &[u8], text: &[u8], out: &mut K) -> Outcome
    requires { length text.now ≤ trace_limit }
    ensures { let texts = beside table.now text.now in
        EndsBeside ⟦<K as Sink>⟧ (beside_answer texts) (beside_told texts) out.old out.new result }
{
    match read_or_stop(alloc, table) {
        Ok(read) => diagnose_table(alloc, &read, text, out),
        Err(unread) => explain_beside(unread, out),
    }
}

/// Both texts, or why they weren't read.
fn take_texts<S: Source>(alloc: Global, first: &mut S, second: &mut S) -> Result<Texts, Outcome>
    ensures prepares { Prepares AreTaken (two_sources entire entire_beside) (λ text. refusal_in (text_due 1 text)) beside_due
        (sources_seen ⟦<S as Source>⟧ first.old second.old) (sources_seen ⟦<S as Source>⟧ first.new second.new) result }
    ensures short { IfOk result (λ texts. length texts.text.items ≤ trace_limit) }
{
    let table = take_text::<ToolRefusal, S>(alloc, TEXT_LIMIT, 1, first)?;
    let text = take_text::<ToolRefusal, S>(alloc, TRACE_LIMIT, 2, second)?;
    Ok(Texts { table, text })
}

/// Writes what is found of the text in the second source beside the table in the first. Only their sizes are refused; all memory is taken
/// before the first written byte.
pub fn explain_both<S: Source, K: Sink>(
    alloc: Global,
    first: &mut S,
    second: &mut S,
    out: &mut K,
) -> Outcome
    ensures { DoesBoth ⟦<S as Source>⟧ ⟦<K as Sink>⟧ form.ExplainBeside first.old second.old out.old first.new second.new out.new result }
{
    match take_texts(alloc, first, second) {
        Ok(texts) => diagnose_texts(alloc, &texts.table, &texts.text, out),
        Err(outcome) => outcome,
    }
}
