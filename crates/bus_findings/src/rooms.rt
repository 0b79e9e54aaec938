//! The longest stretch that a terminal may have heard quiet.
ghost use Rattle.std.specs.Prelude.{◌≡◌, ◌<◌, ◌-◌, ◌^◌};
ghost use Rattle.bus_recording.specs.Walk as walk;
ghost use Rattle.bus_findings.specs.Recorded.{recorded, reach as reach_of};

use crate::lengths::{reach, soonest};
use bus_bounds::Bounds;
use bus_strings::Transmission;

/// The longest stretch between these transmissions that may have been quiet, the first of which begins at moment `from`; all of them end
/// at `until` or before.
pub(crate) fn longest_room(
    bounds: Bounds,
    between: &[Transmission],
    from: u64,
    gap: u64,
    start: u64,
) -> u64
    requires { from < 2 ^ 41 }
    ensures { result ≡ walk.longest_room (reach_of bounds) gap start from (recorded bounds between.now) }
{
    let reach = reach(bounds);
    let until = start.saturating_sub(gap);
    let mut end = from;
    let mut longest = 0;
    for x in between {
        longest = (x.moment + reach)
            .min(until)
            .saturating_sub(end)
            .max(longest);
        end = end.max(soonest(bounds, x));
    }
    longest.max(until.saturating_sub(end))
}
