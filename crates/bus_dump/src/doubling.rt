//! Which transmission of a trace is doubled: it starts before an earlier one of its terminal has ended.
ghost use Rattle.std.specs.Prelude.{◌≡◌};
ghost use Rattle.bus_dump.specs.Doubled as definition;

use bus_strings::limits::TERMINALS;
use bus_trace::Trace;

/// The first entry of the list of a trace, from 0, that starts before an earlier entry of its terminal has ended.
pub fn doubled(trace: &Trace) -> Option<usize>
    ensures { result ≡ definition.doubled trace.now.list }
{
    let list = trace.list();
    let mut ends = [0; TERMINALS];
    for k in 0..list.len() {
        let x = &list[k];
        let terminal = x.terminal as usize;
        if x.moment < ends[terminal] {
            return Some(k);
        }
        ends[terminal] = x.end().max(ends[terminal]);
    }
    None
}
