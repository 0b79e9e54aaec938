//! The command `witness`: messages with which a refused table fails.
ghost use Rattle.bus_tool.specs.inside.Acting.{EndsOnTable};
ghost use Rattle.bus_tool.specs.Forms.{Witness};

use crate::refusal::Outcome;
use bus_command::after_writing;
use bus_outer::Sink;
use bus_strings::write_messages;
use bus_table::Table;
use std::alloc::Global;

/// Writes the messages of the witness of a table, whether the table is accepted or not.
pub fn witness<K: Sink>(alloc: Global, table: &Table, out: &mut K) -> Outcome
    ensures { EndsOnTable ⟦<K as Sink>⟧ Witness table.now out.old out.new result }
{
    match bus_regime::witness(alloc, table) {
        Ok(items) => after_writing(write_messages(&items, out), Outcome::Done),
        Err(_) => Outcome::NoMemory,
    }
}
