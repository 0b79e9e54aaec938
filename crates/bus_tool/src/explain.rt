//! `explain`: what the verdict on a table means, or why a text gives no valid table, and what to change.
ghost use Rattle.std.specs.Prelude.{◌≡◌, ◌≢◌, ◌++◌, ℕ, List, false};
ghost use Rattle.bus_outer.specs.Sinks.{WritesText};
ghost use Rattle.bus_table.specs.Gives.{Fails};
ghost use Rattle.bus_table.specs.Reading.{answer_of};
ghost use Rattle.bus_table.specs.Stops.{stop_of};
ghost use Rattle.bus_table.specs.declared.error.TableError.TheVariants.{Memory};
ghost use Rattle.bus_regime.specs.Verdicts.{is_accepted, verdict_of};
ghost use Rattle.bus_advice.specs.Advices.{advices_of};
ghost use Rattle.bus_cable_plan.specs.Answers.{most_borne_of};
ghost use Rattle.bus_command.specs.declared.outcome.Outcome.TheVariants.{Answered, Done};
ghost use Rattle.bus_explain.specs.Accepted.{IsAcceptedWith, accepted_text};
ghost use Rattle.bus_explain.specs.Beyond.{beyond_text};
ghost use Rattle.bus_explain.specs.Unread.{unread_text};
ghost use Rattle.bus_tool.specs.inside.Acting.{DoesFirst, EndsExplaining};
ghost use Rattle.bus_tool.specs.Due.{explain_answer, verdict_outcome};
ghost use Rattle.bus_tool.specs.Explanations.{accepted_as, explanation, refused_as, table_explained};
ghost use Rattle.bus_tool.specs.Forms.{Explain};

use crate::refusal::{Outcome, ToolRefusal};
use crate::tolerance::tolerance_of;
use bus_advice::{Advice, advices, periodic_table};
use bus_cable_plan::most_borne;
use bus_command::{TEXT_LIMIT, after_writing, take_text};
use bus_explain::{write_accepted, write_beyond, write_refused, write_unread, write_whole};
use bus_outer::{Sink, Source, WriteFault};
use bus_regime::{TableVerdict, verdict};
use bus_table::{Stop, Table, TableError, Unread, read_or_stop};
use bus_text::Reason;
use std::alloc::Global;

/// What is told of delays: the tolerance of a table, and the greatest that any offsets bear, where it is known.
#[derive(Clone, Copy)]
struct Bears {
    tolerance: Option<u64>,
    offsets: Option<u32>,
}

/// Writes what is said of an accepted table with the numbers of its verdict and what it bears, on which these are advices.
fn write_told<K: Sink>(
    table: &Table,
    least: u64,
    most: u64,
    bears: Bears,
    advices: &[Advice],
    out: &mut K,
) -> Result<(), WriteFault>
    requires { IsAcceptedWith table.now least most }
    ensures { WritesText K.held K.faults out.old out.new result (accepted_text table.now least most bears.tolerance advices.now
        ++ beyond_text bears.offsets table.now) }
{
    write_accepted(table, least, most, bears.tolerance, advices, out)?;
    write_beyond(table, bears.offsets, out)
}

/// Writes what is said of an accepted table with the numbers of its verdict, on which these are all advices, and of which any offsets bear
/// this delay at most.
fn explain_started<K: Sink>(
    table: &Table,
    least: u64,
    most: u64,
    offsets: Option<u32>,
    advices: &[Advice],
    out: &mut K,
) -> Outcome
    requires accepted { IsAcceptedWith table.now least most }
    requires borne { offsets ≡ most_borne_of table.now }
    requires all { advices.now ≡ advices_of table.now }
    ensures { EndsExplaining ⟦<K as Sink>⟧ Done (accepted_as table.now least most) out.old out.new result }
{
    let tolerance = tolerance_of(table);
    after_writing(
        write_told(
            table,
            least,
            most,
            Bears { tolerance, offsets },
            advices,
            out,
        ),
        Outcome::Done,
    )
}

/// Writes what is said of an accepted table with the numbers of its verdict, on which these are all advices.
fn explain_borne<K: Sink>(
    alloc: Global,
    table: &Table,
    least: u64,
    most: u64,
    advices: &[Advice],
    out: &mut K,
) -> Outcome
    requires accepted { IsAcceptedWith table.now least most }
    requires all { advices.now ≡ advices_of table.now }
    ensures { EndsExplaining ⟦<K as Sink>⟧ Done (accepted_as table.now least most) out.old out.new result }
{
    match most_borne(alloc, table) {
        Ok(offsets) => explain_started(table, least, most, offsets, advices, out),
        Err(_) => Outcome::NoMemory,
    }
}

/// Writes what is said of an accepted table that has this verdict, with the numbers of that.
fn explain_accepted<K: Sink>(
    alloc: Global,
    table: &Table,
    verdict: &TableVerdict,
    least: u64,
    most: u64,
    out: &mut K,
) -> Outcome
    requires own { verdict.now ≡ verdict_of table.now }
    requires accepted { IsAcceptedWith table.now least most }
    ensures { EndsExplaining ⟦<K as Sink>⟧ Done (accepted_as table.now least most) out.old out.new result }
{
    match advices(alloc, table, verdict) {
        Ok(advices) => explain_borne(alloc, table, least, most, &advices, out),
        Err(_) => Outcome::NoMemory,
    }
}

/// Writes what is said of a table that this verdict refuses, on which these are all advices, with the table that one of them plans.
fn explain_advised<K: Sink>(
    alloc: Global,
    table: &Table,
    verdict: &TableVerdict,
    advices: &[Advice],
    out: &mut K,
) -> Outcome
    requires own { verdict.now ≡ verdict_of table.now }
    requires refused { is_accepted verdict.now ≡ false }
    requires all { advices.now ≡ advices_of table.now }
    ensures { EndsExplaining ⟦<K as Sink>⟧ Answered (refused_as verdict.now table.now) out.old out.new result }
{
    match periodic_table(alloc, table, verdict) {
        Ok(planned) => after_writing(
            write_refused(table, verdict, advices, &planned, out),
            Outcome::Answered,
        ),
        Err(_) => Outcome::NoMemory,
    }
}

/// Writes what is said of a table that this verdict refuses, with the advices on it.
fn explain_refused<K: Sink>(
    alloc: Global,
    table: &Table,
    verdict: &TableVerdict,
    out: &mut K,
) -> Outcome
    requires own { verdict.now ≡ verdict_of table.now }
    requires refused { is_accepted verdict.now ≡ false }
    ensures { EndsExplaining ⟦<K as Sink>⟧ Answered (refused_as verdict.now table.now) out.old out.new result }
{
    match advices(alloc, table, verdict) {
        Ok(advices) => explain_advised(alloc, table, verdict, &advices, out),
        Err(_) => Outcome::NoMemory,
    }
}

/// Writes what is said of a table.
pub(crate) fn explain_table<K: Sink>(alloc: Global, table: &Table, out: &mut K) -> Outcome
    ensures { EndsExplaining ⟦<K as Sink>⟧ (verdict_outcome (verdict_of table.now)) (table_explained table.now) out.old out.new result }
{
    let verdict = verdict(table);
    match verdict {
        TableVerdict::Accept { least, most, .. } => {
            explain_accepted(alloc, table, &verdict, least, most, out)
        }
        TableVerdict::ShortCycle { .. } => explain_refused(alloc, table, &verdict, out),
        TableVerdict::SmallGap { .. } => explain_refused(alloc, table, &verdict, out),
        TableVerdict::NoSync { .. } => explain_refused(alloc, table, &verdict, out),
    }
}

/// Writes what is said of a text that is refused at this line, where its reading stops so.
pub(crate) fn explain_line<K: Sink>(line: u64, reason: Reason, stop: &Stop, out: &mut K) -> Outcome
    ensures { EndsExplaining ⟦<K as Sink>⟧ Answered (unread_text line reason stop.now) out.old out.new result }
{
    after_writing(write_unread(line, reason, stop, out), Outcome::Answered)
}

/// Writes what is said of a text that gives no table, whose reading came to this.
fn explain_unread<K: Sink>(unread: Unread, out: &mut K) -> Outcome
    ensures { (text : List ℕ) → Fails unread.error (answer_of text) → (unread.error ≢ Memory → unread.stop ≡ stop_of text)
        → EndsExplaining ⟦<K as Sink>⟧ (explain_answer text) (explanation text) out.old out.new result }
{
    let Unread { error, stop } = unread;
    match error {
        TableError::Text { line, reason } => explain_line(line, reason, &stop, out),
        TableError::Whole(reason) => after_writing(write_whole(reason, out), Outcome::Answered),
        TableError::Memory => Outcome::NoMemory,
    }
}

/// Writes what is said of a text.
fn explain_text<K: Sink>(alloc: Global, text: &[u8], out: &mut K) -> Outcome
    ensures { EndsExplaining ⟦<K as Sink>⟧ (explain_answer text.now) (explanation text.now) out.old out.new result }
{
    match read_or_stop(alloc, text) {
        Ok(table) => explain_table(alloc, &table, out),
        Err(unread) => explain_unread(unread, out),
    }
}

/// Writes what is said of the text in the first source. Only its size is refused; all memory is taken before the first written byte.
pub fn explain<S: Source, K: Sink>(alloc: Global, first: &mut S, out: &mut K) -> Outcome
    ensures { DoesFirst ⟦<S as Source>⟧ ⟦<K as Sink>⟧ Explain first.old out.old first.new out.new result }
{
    match take_text::<ToolRefusal, S>(alloc, TEXT_LIMIT, 1, first) {
        Ok(text) => explain_text(alloc, &text, out),
        Err(outcome) => outcome,
    }
}
