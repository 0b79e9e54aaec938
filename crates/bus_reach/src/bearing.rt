//! How long a cable a table bears.
ghost use Rattle.std.specs.Prelude.{◌≡◌, ℕ, ◌*◌, ◌<◌, ◌≤◌, ◌↔◌, length, IsNone, IsTrue, IfSome};
ghost use Rattle.bus_regime.specs.Verdicts.{verdict_of, is_accepted};
ghost use Rattle.bus_reach.specs.Bearing as bearing;

use crate::{aperiodic, periodic};
use bus_table::laws::table_is_valid;
use bus_table::{Mode, Table};

/// Whether an accepted table bears delays up to `d` bit times: then the closed schedule is what its senders do on every cable on which
/// none of them hears another later than that. A table with one sender bears any delay. It takes no memory.
pub fn bears(table: &Table, d: u64) -> bool
    requires { IsTrue (is_accepted (verdict_of table.now)) }
    ensures { result ≡ bearing.bears table.now d }
{
    match table.mode() {
        Mode::Aperiodic => aperiodic::bears(table, d),
        Mode::Periodic => periodic::bears(table, d),
    }
}

/// The tolerance of an accepted table: the greatest delay that it bears, in bit times. None exactly where there is one sender,
/// which bears every delay. It takes no memory.
pub fn tolerance(table: &Table) -> Option<u64>
    requires { IsTrue (is_accepted (verdict_of table.now)) }
    ensures alone { IsNone result ↔ (length table.now.senders ≡ 1) }
    ensures greatest { IfSome result (λ most. (d : ℕ) → (d ≤ most) ↔ IsTrue (bearing.bears table.now d)) }
    ensures value { result ≡ bearing.tolerance_of table.now }
    ensures bound { IfSome result (λ most. most < 2 * table.now.ti) }
{
    table_is_valid(table);
    match table.mode() {
        Mode::Aperiodic => aperiodic::tolerance(table),
        Mode::Periodic => periodic::tolerance(table),
    }
}
