//! Whether parts make a trace.
ghost use Rattle.std.specs.Prelude.{◌↔◌, IsTrue};
ghost use Rattle.std.specs.List.{AllByRecursion};
ghost use Rattle.bus_strings.specs.Transmissions.{IsAscending};
ghost use Rattle.bus_trace.specs.Traces.{IsHold, AscendAbove, IsBelow};

use crate::hold::Hold;
use crate::list::{is_after, last_terminal};
use bus_strings::Transmission;
use bus_strings::limits::MOST_TERMINAL;

/// Whether holds ascend strictly by terminal, all of 1 to 128.
pub(crate) fn are_holds(holds: &[Hold]) -> bool
    ensures { IsTrue result ↔ (AllByRecursion IsHold holds.now × AscendAbove 0 holds.now) }
{
    for (i, hold) in holds.iter().enumerate() {
        let hold = *hold;
        if hold.terminal <= last_terminal(&holds[..i]) || hold.terminal > MOST_TERMINAL {
            return false;
        }
    }
    true
}

/// Whether transmissions ascend strictly by moment, then terminal, and all start below a horizon.
pub(crate) fn are_below(list: &[Transmission], horizon: u64) -> bool
    ensures { IsTrue result ↔ (AllByRecursion (IsBelow horizon) list.now × IsAscending list.now) }
{
    for (i, x) in list.iter().enumerate() {
        let _ranges = x.message.strings();
        let terminal = u64::from(x.terminal);
        if x.moment >= horizon || !is_after(&list[..i], x.moment, terminal) {
            return false;
        }
    }
    true
}
