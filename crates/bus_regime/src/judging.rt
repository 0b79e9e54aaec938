//! The verdict on a table, and that on an aperiodic one.
ghost use Rattle.std.specs.Prelude.{◌≡◌};
ghost use Rattle.bus_regime.specs.Verdicts.{least_cycle as least_of, most_cycle as most_of, by_cycles as cycle_verdict, verdict_of};

use crate::periodic::by_gaps;
use crate::table_verdict::TableVerdict;
use bus_table::{Mode, Table, longest, shortest};

/// The bit times of the shortest cycle.
fn least_cycle(table: &Table) -> u64
    ensures { result ≡ least_of table.now }
{
    let mut sum = u64::from(table.sg());
    for sender in table.senders() {
        sum += u64::from(sender.tg()) + u64::from(shortest(sender));
    }
    sum
}

/// The bit times of the longest cycle.
fn most_cycle(table: &Table) -> u64
    ensures { result ≡ most_of table.now }
{
    let mut sum = u64::from(table.sg());
    for sender in table.senders() {
        sum += u64::from(sender.tg()) + u64::from(longest(sender));
    }
    sum
}

/// The verdict on the cycles of a table.
fn by_cycles(table: &Table) -> TableVerdict
    ensures { result ≡ cycle_verdict table.now }
{
    let least = least_cycle(table);
    let ti = u64::from(table.ti());
    if least < ti {
        return TableVerdict::ShortCycle { least, ti };
    }
    TableVerdict::Accept {
        mode: Mode::Aperiodic,
        least,
        most: most_cycle(table),
    }
}

/// The verdict on a table, by this project's profile. It takes no memory.
///
/// An aperiodic table is refused where its shortest cycle is below the transmit interval. A periodic table is refused where a
/// gap, taken with longest messages, is below its sender's terminal gap; and where none is, if for some sender no other
/// sender's gap has a synchronization gap, and its own has none with its terminal gap behind it. The first such sender in
/// turn order is named.
pub fn verdict(table: &Table) -> TableVerdict
    ensures { result ≡ verdict_of table.now }
{
    match table.mode() {
        Mode::Aperiodic => by_cycles(table),
        Mode::Periodic => by_gaps(table),
    }
}
