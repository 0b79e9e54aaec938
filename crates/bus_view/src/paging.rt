//! The page of a table, or of a text that gives none.
ghost use Rattle.std.specs.Prelude.{◌≡◌, ◌≢◌};
ghost use Rattle.bus_command.specs.declared.outcome.Outcome.TheVariants.{Answered};
ghost use Rattle.bus_page.specs.Findings.{AreFindings};
ghost use Rattle.bus_page.specs.Pages.{error_page, table_page};
ghost use Rattle.bus_regime.specs.Verdicts.{is_accepted, verdict_of};
ghost use Rattle.bus_table.specs.Gives.{Fails};
ghost use Rattle.bus_table.specs.Reading.{answer_of};
ghost use Rattle.bus_table.specs.Stops.{stop_of};
ghost use Rattle.bus_table.specs.declared.error.TableError.TheVariants.{Text, Memory};
ghost use Rattle.bus_view.specs.Due as due;
ghost use Rattle.bus_view.specs.Due.{accepted_outcome, page_answer};
ghost use Rattle.bus_view.specs.Forms.{Page};
ghost use Rattle.bus_view.specs.Itself.{version_text};
ghost use Rattle.bus_view.specs.inside.Acting.{DoesFirst, EndsPaging};

use crate::itself::version;
use crate::refusal::{Doubled, Outcome};
use bus_bounds::Bounds;
use bus_command::{TEXT_LIMIT, after_writing, take_text};
use bus_outer::{Sink, Source};
use bus_page::{Findings, find, write_page, write_unread_page, write_whole_page};
use bus_table::{Stop, Table, TableError, Unread, read_or_stop};
use bus_text::Reason;
use std::alloc::Global;

/// What is answered to a table of which this is told.
fn answer_to(table: &Table, findings: &Findings) -> Outcome
    requires { AreFindings table.now findings.now }
    ensures { result ≡ accepted_outcome (is_accepted (verdict_of table.now)) }
{
    match findings {
        Findings::Accepted(_) => Outcome::Done,
        Findings::Refused(_) => Outcome::Answered,
    }
}

/// Writes the page of a table, whose text this is.
fn page_table<K: Sink>(
    alloc: Global,
    asked: Option<Bounds>,
    text: &[u8],
    table: &Table,
    out: &mut K,
) -> Outcome
    ensures { EndsPaging ⟦<K as Sink>⟧ (accepted_outcome (is_accepted (verdict_of table.now)))
        (table_page version_text text.now asked table.now) out.old out.new result }
{
    match find(alloc, table) {
        Ok(findings) => {
            let answer = answer_to(table, &findings);
            after_writing(
                write_page(version(), text, table, &asked, &findings, out),
                answer,
            )
        }
        Err(_) => Outcome::NoMemory,
    }
}

/// Writes the page of a text of which this line is refused, where its reading stops so.
fn page_line<K: Sink>(text: &[u8], line: u64, reason: Reason, stop: &Stop, out: &mut K) -> Outcome
    requires { stop.now ≡ stop_of text.now }
    ensures { EndsPaging ⟦<K as Sink>⟧ Answered (error_page version_text text.now (Text line reason)) out.old out.new result }
{
    after_writing(
        write_unread_page(version(), text, line, reason, stop, out),
        Outcome::Answered,
    )
}

/// Writes the page of a text that gives no table, whose reading came to this.
fn page_unread<K: Sink>(asked: Option<Bounds>, text: &[u8], unread: Unread, out: &mut K) -> Outcome
    requires error { Fails unread.error (answer_of text.now) }
    requires stop { unread.error ≢ Memory → unread.stop ≡ stop_of text.now }
    ensures { EndsPaging ⟦<K as Sink>⟧ (page_answer text.now) (due.page asked text.now) out.old out.new result }
{
    let Unread { error, stop } = unread;
    match error {
        TableError::Text { line, reason } => page_line(text, line, reason, &stop, out),
        TableError::Whole(reason) => after_writing(
            write_whole_page(version(), text, reason, out),
            Outcome::Answered,
        ),
        TableError::Memory => Outcome::NoMemory,
    }
}

/// Writes the page of a text.
fn page_text<K: Sink>(alloc: Global, asked: Option<Bounds>, text: &[u8], out: &mut K) -> Outcome
    ensures { EndsPaging ⟦<K as Sink>⟧ (page_answer text.now) (due.page asked text.now) out.old out.new result }
{
    match read_or_stop(alloc, text) {
        Ok(table) => page_table(alloc, asked, text, &table, out),
        Err(unread) => page_unread(asked, text, unread, out),
    }
}

/// Writes the page of the text in the first source. Only its size is refused; all memory is taken before the first written byte.
pub fn page<S: Source, K: Sink>(
    alloc: Global,
    asked: Option<Bounds>,
    first: &mut S,
    out: &mut K,
) -> Outcome
    ensures { DoesFirst ⟦<S as Source>⟧ ⟦<K as Sink>⟧ (Page asked) first.old out.old first.new out.new result }
{
    match take_text::<Doubled, S>(alloc, TEXT_LIMIT, 1, first) {
        Ok(text) => page_text(alloc, asked, &text, out),
        Err(outcome) => outcome,
    }
}
