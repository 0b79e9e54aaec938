//! The run of a bus from the settled start to the closed end.
ghost use Rattle.std.specs.Prelude.{◌≡◌, ◌+◌, ◌*◌, IsTrue, IfOk};
ghost use Rattle.bus_medium.specs.Buses.{stations, StandsAt};
ghost use Rattle.bus_medium.specs.Edges.{strings_sent};
ghost use Rattle.bus_medium.specs.Timings.{quiet_of, stations_of};
ghost use Rattle.bus_regime.specs.Verdicts.{verdict_of, is_accepted};
ghost use Rattle.bus_schedule.specs.Even.{are_even};
ghost use Rattle.bus_schedule.specs.Closed.{closed_end};
ghost use Rattle.bus_schedule.specs.Runs.{HaveMoved, IsRun};
ghost use Rattle.bus_schedule.specs.Limits.{IsLimited};

use crate::end::limited_end;
use crate::error::{LONGEST_END, ScheduleError};
use crate::laws::accepted_is_closed;
use bus_medium::Bus;
use bus_strings::Transmission;
use bus_table::laws::table_is_valid;
use bus_table::{Hand, Table};
use bus_timers::{Core, JumpCore};
use std::alloc::Global;

/// What a bus did: the list of its transmissions, the bus after them, and how far it went.
#[derive(Drop)]
pub struct Ran<C: Core> {
    /// The transmissions, in order.
    pub list: Vec<Transmission>,
    /// The bus, which stands at the closed end.
    pub bus: Bus<C>,
    /// The closed end, in bit times.
    pub end: u64,
}

/// Runs the bus of an accepted table and even hands from its settled start up to the closed end, by jumps from change to
/// change.
///
/// The list is the run (`specs/Runs.antt`): the closed schedule in whole, and the only list that is lawful up to the
/// closed end, at which the bus stands then. Each core was moved at most twice for each wordstring sent, and once more.
///
/// `TooLong` comes exactly where the closed end is above [`LONGEST_END`], also where no memory is left. `Memory` says that
/// memory was refused, and nothing of the schedule.
pub fn run_settled<C: JumpCore>(
    alloc: Global,
    table: &Table,
    hands: Vec<Hand>,
) -> Result<Ran<C>, ScheduleError>
    requires accepted { IsTrue (is_accepted (verdict_of table.now)) }
    requires even { IsTrue (are_even table.now hands.items) }
    ensures run { IfOk result (λ ran. IsRun table.now hands.items ran.list.items) }
    ensures end { IfOk result (λ ran. ran.end ≡ closed_end table.now hands.items) }
    ensures stands { IfOk result (λ ran. StandsAt ⟦<C as Core>⟧ ran.bus ran.list.items (closed_end table.now hands.items)) }
    ensures quiet { IfOk result (λ ran. ran.bus.quiet ≡ quiet_of table.now) }
    ensures stations { IfOk result (λ ran. stations ran.bus ≡ stations_of table.now hands.items) }
    ensures moves { IfOk result (λ ran. HaveMoved ⟦<C as Core>⟧ (2 * strings_sent ran.list.items + 1) ran.bus) }
    ensures limit { IsLimited (closed_end table.now hands.items) result }
{
    let end = limited_end(table, &hands)?;
    let mut bus = Bus::settled(alloc, table, hands)?;
    let list = bus.observe_by_jumps(end)?;
    table_is_valid(table);
    accepted_is_closed();
    Ok(Ran { list, bus, end })
}
