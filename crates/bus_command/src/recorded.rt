//! A trace with what stands behind it: of what was recorded on a cable, what terminals hear.
ghost use Rattle.std.specs.Prelude.{IfOk};
ghost use Rattle.bus_command.specs.Due.{followed_due, recorded_due, table_refusal_of};
ghost use Rattle.bus_command.specs.Readers.{by_recorded, reader_of};
ghost use Rattle.bus_command.specs.Steps.{Same, TakesFrom, PreparesFrom};
ghost use Rattle.bus_command.specs.inside.Looking.{CountsLook, LooksBehind};
ghost use Rattle.bus_trace.specs.Traces.{IsTrace};

use crate::heard::{PullFault, count_garbled};
use crate::inputs::take_table;
use crate::outcome::Outcome;
use crate::refusal::Refusal;
use bus_outer::Source;
use bus_table::Table;
use bus_trace::laws::traces_read_back;
use bus_trace::{Trace, read_trace};
use std::alloc::Global;

/// A trace, and what is told behind it.
#[derive(Drop)]
pub(crate) struct Followed {
    /// The trace.
    pub trace: Trace,
    /// How many receptions are garbled in the heard text behind it, where one stands there and is looked for.
    pub garbled: Option<u64>,
}

/// A table, a trace, and what is told behind it.
#[derive(Drop)]
pub struct Recorded {
    /// The table of the first source.
    pub table: Table,
    /// The trace of the second.
    pub trace: Trace,
    /// How many receptions are garbled in the heard text behind it, where one stands there and is looked for.
    pub garbled: Option<u64>,
}

/// How many receptions are garbled in the heard text that is next in a source, where one is and is looked for.
fn look_behind<S: Source>(hears: bool, source: &mut S) -> Result<Option<u64>, PullFault>
    ensures taken { LooksBehind hears (S.left source.old) (S.left source.new) result }
    ensures counts { CountsLook (S.faults source.old) (S.faults source.new) result }
{
    if hears {
        count_garbled(source)
    } else {
        Ok(None)
    }
}

/// The trace in the second source, with what is told behind it where that is looked at, or why there is none.
fn take_followed<R: Refusal, S: Source>(
    alloc: Global,
    hears: bool,
    second: &mut S,
) -> Result<Followed, Outcome<R>>
    ensures takes { TakesFrom ⟦<S as Source>⟧ Same 2 (reader_of hears) (followed_due hears) second.old second.new result }
    ensures ranges { IfOk result (λ followed. IsTrace followed.trace) }
{
    traces_read_back();
    let trace = read_trace(alloc, second)?;
    match look_behind(hears, second) {
        Ok(garbled) => Ok(Followed { trace, garbled }),
        Err(PullFault) => Err(Outcome::ReadFault { source: 2 }),
    }
}

/// The table in the first source, the trace in the second and, where this `hears`, what is told behind it; or why there are none. The
/// second source is pulled only where the first gave a table; behind the trace exactly the bytes are taken that decide whether a heard text
/// stands there, and none where this doesn't hear.
pub fn take_recorded<R: Refusal, S: Source>(
    alloc: Global,
    hears: bool,
    first: &mut S,
    second: &mut S,
) -> Result<Recorded, Outcome<R>>
    ensures prepares { PreparesFrom ⟦<S as Source>⟧ Same (by_recorded hears) table_refusal_of (recorded_due hears) first.old second.old
        first.new second.new result }
    ensures ranges { IfOk result (λ recorded. IsTrace recorded.trace) }
{
    let table = take_table::<R, S>(alloc, first)?;
    let followed = take_followed::<R, S>(alloc, hears, second)?;
    Ok(Recorded {
        table,
        trace: followed.trace,
        garbled: followed.garbled,
    })
}
