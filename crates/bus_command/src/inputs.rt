//! What the commands take from their sources: a table from the first; hands, or a trace, from the second.
ghost use Rattle.std.specs.Prelude.{◌≡◌, ◌≤◌, length, IfOk};
ghost use Rattle.bus_outer.specs.Sources.{read_limit};
ghost use Rattle.bus_command.specs.Due.{text_within, table_due, table_refusal_of, items_due, trace_due, traced_due};
ghost use Rattle.bus_command.specs.Readers.{Entire, Trace as ByTrace, entire, by_trace};
ghost use Rattle.bus_command.specs.Steps.{Same, IsText, TakesFrom, PreparesFrom};
ghost use Rattle.bus_command.specs.inside.Steps.{read_refusal};
ghost use Rattle.bus_command.specs.Taken.{AreHandsOf, AreReady};
ghost use Rattle.bus_trace.specs.Traces.{IsTrace};

use crate::outcome::Outcome;
use crate::refusal::Refusal;
use bus_hands::read_hands;
use bus_outer::{ReadError, Source, read_whole};
use bus_strings::laws::texts_read_as_their_items;
use bus_table::{Hand, Table, read_table};
use bus_trace::laws::traces_read_back;
use bus_trace::{Trace, read_trace};
use std::alloc::Global;

/// The most bytes that a text may have which people write: of a table, of messages, of a cable. It is this project's profile.
pub const TEXT_LIMIT: usize = 8_388_608;

/// A table, and one hand for each of its senders, in its order.
#[derive(Drop)]
pub struct Dealt {
    /// The table of the first source.
    pub table: Table,
    /// The hands that the messages of the second give its senders.
    pub hands: Vec<Hand>,
}

/// A table, and a trace.
#[derive(Drop)]
pub struct Traced {
    /// The table of the first source.
    pub table: Table,
    /// The trace of the second.
    pub trace: Trace,
}

/// What a failed read of the source of this number comes to.
fn read_outcome<R: Refusal>(number: u8, error: ReadError) -> Outcome<R>
    ensures { result ≡ read_refusal number error }
{
    match error {
        ReadError::Fault => Outcome::ReadFault { source: number },
        ReadError::TooLarge => Outcome::TooLarge { source: number },
        ReadError::Memory => Outcome::NoMemory,
    }
}

/// All that the source of this number gives, or why it wasn't read. It may have so many bytes.
pub fn take_text<R: Refusal, S: Source>(
    alloc: Global,
    limit: usize,
    number: u8,
    source: &mut S,
) -> Result<Vec<u8>, Outcome<R>>
    requires limit { limit ≤ read_limit }
    requires number { (1 ≤ number) × (number ≤ 2) }
    ensures takes { TakesFrom ⟦<S as Source>⟧ IsText number (Entire limit) (text_within limit number) source.old source.new result }
    ensures short { IfOk result (λ text. length text.items ≤ limit) }
{
    match read_whole(alloc, source, limit) {
        Ok(text) => Ok(text),
        Err(error) => Err(read_outcome(number, error)),
    }
}

/// The table in the first source, or why there is none.
pub fn take_table<R: Refusal, S: Source>(alloc: Global, first: &mut S) -> Result<Table, Outcome<R>>
    ensures { TakesFrom ⟦<S as Source>⟧ Same 1 entire table_due first.old first.new result }
{
    let text = take_text::<R, S>(alloc, TEXT_LIMIT, 1, first)?;
    let table = read_table(alloc, &text)?;
    Ok(table)
}

/// The hands that the messages text in the second source gives the senders of a table, or why there are none.
pub fn take_hands<R: Refusal, S: Source>(
    alloc: Global,
    table: &Table,
    second: &mut S,
) -> Result<Vec<Hand>, Outcome<R>>
    ensures takes { TakesFrom ⟦<S as Source>⟧ (AreHandsOf table.now) 2 entire (items_due table.now) second.old second.new result }
    ensures ready { IfOk result (λ hands. AreReady table.now hands.items) }
{
    texts_read_as_their_items();
    let text = take_text::<R, S>(alloc, TEXT_LIMIT, 2, second)?;
    let hands = read_hands(alloc, table, &text)?;
    Ok(hands)
}

/// The trace in the second source, or why there is none. Of the source exactly the bytes are taken that decide.
pub fn take_trace<R: Refusal, S: Source>(alloc: Global, second: &mut S) -> Result<Trace, Outcome<R>>
    ensures takes { TakesFrom ⟦<S as Source>⟧ Same 2 ByTrace trace_due second.old second.new result }
    ensures ranges { IfOk result IsTrace }
{
    traces_read_back();
    let trace = read_trace(alloc, second)?;
    Ok(trace)
}

/// The table in the first source and the trace in the second, or why there are none. The second source is pulled only where the first
/// gave a table.
pub fn take_traced<R: Refusal, S: Source>(
    alloc: Global,
    first: &mut S,
    second: &mut S,
) -> Result<Traced, Outcome<R>>
    ensures prepares { PreparesFrom ⟦<S as Source>⟧ Same by_trace table_refusal_of traced_due first.old second.old
        first.new second.new result }
    ensures ranges { IfOk result (λ traced. IsTrace traced.trace) }
{
    let table = take_table::<R, S>(alloc, first)?;
    let trace = take_trace::<R, S>(alloc, second)?;
    Ok(Traced { table, trace })
}
