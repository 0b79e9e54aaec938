//! The run of a bus whose senders fall silent.
ghost use Rattle.std.specs.Prelude.{◌≡◌, IsTrue, IfOk};
ghost use Rattle.bus_table.specs.declared.mode.Mode.TheVariants.{Aperiodic};
ghost use Rattle.bus_table.specs.Hands.{are_hands};
ghost use Rattle.bus_schedule.specs.Limits.{IsLimited};
ghost use Rattle.bus_dropout.specs.DropOut.{drop_end, LastIsLong};
ghost use Rattle.bus_dropout.specs.Runs.{IsDropRun};

use crate::end::limited_end;
use crate::laws::dropout_is_lawful;
use bus_medium::Bus;
use bus_schedule::{LONGEST_END, ScheduleError};
use bus_strings::Transmission;
use bus_table::laws::table_is_valid;
use bus_table::{Hand, Table};
use bus_timers::DeadlineCore;
use std::alloc::Global;

/// Runs the bus of an aperiodic table, whose senders fall silent when their messages are spent, from its settled start up to the end of
/// the drop-out schedule, by jumps from change to change.
///
/// The list is the run (`specs/Runs.antt`): the drop-out schedule in whole, and the only list that is lawful up to its end. The verdict
/// on the table isn't asked: each cycle is at least the last one, and one message of each sender runs whatever the verdict is.
///
/// `TooLong` comes exactly where the end is above [`LONGEST_END`], with the end, also where no memory is left. `Memory` says that memory
/// was refused, and nothing of the schedule.
pub fn run_dropout(
    alloc: Global,
    table: &Table,
    hands: Vec<Hand>,
) -> Result<Vec<Transmission>, ScheduleError>
    requires aperiodic { table.now.mode ≡ Aperiodic }
    requires hands { IsTrue (are_hands table.now.senders hands.items) }
    requires long { LastIsLong table.now hands.items }
    ensures run { IfOk result (λ list. IsDropRun table.now hands.items list.items) }
    ensures limit { IsLimited (drop_end table.now hands.items) result }
{
    let end = limited_end(table, &hands)?;
    let mut bus = Bus::<DeadlineCore>::settled(alloc, table, hands)?;
    let list = bus.observe_by_jumps(end)?;
    table_is_valid(table);
    dropout_is_lawful();
    Ok(list)
}
