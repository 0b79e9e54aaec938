//! Reading a table text.
ghost use Rattle.std.specs.Prelude.{◌≡◌, ◌≢◌, None, Ok, IfOk, IfErr};
ghost use Rattle.bus_text.specs.Entries.{entry};
ghost use Rattle.bus_text.specs.Lines.{entries_of};
ghost use Rattle.bus_table.specs.declared.error.TableError.TheVariants.{Memory};
ghost use Rattle.bus_table.specs.Drafts.{start};
ghost use Rattle.bus_table.specs.Forms.{keyword_of as word_of};
ghost use Rattle.bus_table.specs.Gives.{Answers, Fails, Refuses};
ghost use Rattle.bus_table.specs.Reading.{judged, answer_of, steps};
ghost use Rattle.bus_table.specs.Stops.{stop_in, stop_of, with_word};
ghost use Rattle.bus_table.specs.Tables as tables;
ghost use Rattle.bus_table.specs.Text.{IsTableText};

use crate::draft::Draft;
use crate::error::TableError;
use crate::keyword::keyword_of;
use crate::stop::Stop;
use crate::table::Table;
use bus_text::{Line, Lines, Reason, fields, line_after};
use std::alloc::Global;

/// The table of a draft behind the last line of a text, unless the text may not end there or a whole reason applies.
fn ended(draft: Draft, text: &[u8]) -> Result<Table, TableError>
    requires { steps start (entries_of text.now) ≡ Ok draft }
    ensures { Answers result (answer_of text.now) }
{
    if !draft.may_end() {
        return Err(TableError::Text {
            line: line_after(text),
            reason: Reason::Ended,
        });
    }
    draft.table()
}

/// Reads a text line by line.
fn read(alloc: Global, text: &[u8]) -> Result<Table, TableError>
    ensures { Answers result (answer_of text.now) }
{
    let mut draft = Draft::new(alloc);
    let mut fields = Vec::new(alloc);
    for line in Lines::new(text) {
        draft.take_line(alloc, &mut fields, line)?;
    }
    ended(draft, text)
}

/// Reads a table text.
///
/// `Text` comes exactly where the text stands for no table, with the number of the first line to which a reason
/// applies, or one past the last line where only `Ended` does, and with the first reason that applies. `Whole` comes
/// exactly where it stands for one and a whole reason applies, with the first. `Memory` comes where memory runs out.
pub fn read_table(alloc: Global, text: &[u8]) -> Result<Table, TableError>
    // What is read is what the text stands for.
    ensures found { IfOk result (λ table. IsTableText table text.now) }

    // What a text stands for is read, or refused by the first whole reason that applies to it, unless memory runs out.
    ensures only { (table : tables.Table) → IsTableText table text.now → Answers result (judged table) }

    // Each refusal has its cause.
    ensures cause { IfErr result (Refuses text.now) }

    // Which line is refused, and why.
    ensures exact { Answers result (answer_of text.now) }
{
    read(alloc, text)
}

/// A text that gives no table: why, and where its reading stopped. At `Memory` nothing is said of where.
#[derive(Drop)]
pub struct Unread {
    /// As [`read_table`] gives it.
    pub error: TableError,
    /// Before the first line that is refused, or at the end of the text.
    pub stop: Stop,
}

/// What is said of a line that wasn't taken, where the reading stands before it.
fn at_line(alloc: Global, error: TableError, before: Stop, line: Line<'_>) -> Unread
    ensures error { result.error ≢ Memory → result.error ≡ error }
    ensures stop { result.error ≢ Memory → result.stop ≡ with_word before (word_of (entry line.entry).fields) }
{
    match fields(alloc, line.bytes) {
        Ok(fields) => Unread {
            error,
            stop: before.at(keyword_of(&fields)),
        },
        Err(_) => Unread {
            error: TableError::Memory,
            stop: before,
        },
    }
}

/// The table of a draft, where its text may end, or what is said of the text.
fn at_end(draft: Draft, text: &[u8]) -> Result<Table, Unread>
    requires { steps start (entries_of text.now) ≡ Ok draft }
    ensures table { IfOk result (λ table. answer_of text.now ≡ Ok table) }
    ensures error { IfErr result (λ unread. Fails unread.error (answer_of text.now)) }
    ensures stop { IfErr result (λ unread. unread.stop ≡ stop_in draft None) }
{
    let stop = draft.stop(None);
    match ended(draft, text) {
        Ok(table) => Ok(table),
        Err(error) => Err(Unread { error, stop }),
    }
}

/// Reads a table text as [`read_table`] does. Of one that gives no table it tells where its reading stopped too.
pub fn read_or_stop(alloc: Global, text: &[u8]) -> Result<Table, Unread>
    // What the text stands for is read.
    ensures table { IfOk result (λ table. answer_of text.now ≡ Ok table) }

    // Each refusal is the one that is due, or memory ran out.
    ensures error { IfErr result (λ unread. Fails unread.error (answer_of text.now)) }

    // Where the reading stopped.
    ensures stop { IfErr result (λ unread. unread.error ≢ Memory → unread.stop ≡ stop_of text.now) }
{
    let mut draft = Draft::new(alloc);
    let mut fields = Vec::new(alloc);
    for line in Lines::new(text) {
        let before = draft.stop(None);
        match draft.take_line(alloc, &mut fields, line) {
            Ok(()) => {}
            Err(error) => return Err(at_line(alloc, error, before, line)),
        }
    }
    at_end(draft, text)
}
