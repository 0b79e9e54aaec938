//! `design`: the table that is made for real clocks.
ghost use Rattle.std.specs.Prelude.{◌≡◌};
ghost use Rattle.bus_table.specs.declared.mode.Mode.TheVariants.{Aperiodic};
ghost use Rattle.bus_tool.specs.inside.Acting.{EndsOnTable};
ghost use Rattle.bus_tool.specs.Due as due;
ghost use Rattle.bus_tool.specs.Forms as form;

use crate::refusal::Outcome;
use bus_bounds::Bounds;
use bus_command::after_writing;
use bus_made::{Answer, Order, write_design};
use bus_outer::Sink;
use bus_table::Table;
use std::alloc::Global;

/// What comes of a design once it is written.
fn design_outcome(answer: &Answer) -> Outcome
    ensures { result ≡ due.design_outcome answer.now }
{
    match answer {
        Answer::Made(_) => Outcome::Done,
        Answer::Infeasible { .. } | Answer::Late(_) => Outcome::Answered,
    }
}

/// Makes a table of the senders of an aperiodic one that keeps its order on every bus of these bounds, and writes it, or why there is none.
pub fn design<K: Sink>(
    alloc: Global,
    table: &Table,
    bounds: Bounds,
    order: Order,
    out: &mut K,
) -> Outcome
    requires aperiodic { table.now.mode ≡ Aperiodic }
    ensures { EndsOnTable ⟦<K as Sink>⟧ (form.Design bounds order) table.now out.old out.new result }
{
    match bus_made::design(alloc, table, order, &[], bounds) {
        Ok(answer) => after_writing(write_design(&answer, out), design_outcome(&answer)),
        Err(_) => Outcome::NoMemory,
    }
}
