//! The command `check`: the verdict line of a table.
ghost use Rattle.std.specs.Prelude.{◌≡◌};
ghost use Rattle.bus_tool.specs.inside.Acting.{EndsOnTable};
ghost use Rattle.bus_tool.specs.Due.{verdict_outcome as outcome_of};
ghost use Rattle.bus_tool.specs.Forms.{Check};

use crate::refusal::Outcome;
use bus_command::after_writing;
use bus_outer::Sink;
use bus_regime::{TableVerdict, verdict, write_verdict};
use bus_table::Table;

/// What comes of a verdict once its line is written.
pub fn verdict_outcome(verdict: &TableVerdict) -> Outcome
    ensures { result ≡ outcome_of verdict.now }
{
    match verdict {
        TableVerdict::Accept { .. } => Outcome::Done,
        TableVerdict::ShortCycle { .. }
        | TableVerdict::SmallGap { .. }
        | TableVerdict::NoSync { .. } => Outcome::Answered,
    }
}

/// Writes the verdict line of a table.
pub fn check<K: Sink>(table: &Table, out: &mut K) -> Outcome
    ensures { EndsOnTable ⟦<K as Sink>⟧ Check table.now out.old out.new result }
{
    let verdict = verdict(table);
    after_writing(write_verdict(&verdict, out), verdict_outcome(&verdict))
}
