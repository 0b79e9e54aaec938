//! The timers of a terminal after what it has heard.
ghost use Rattle.std.specs.Prelude.{◌≡◌, ◌+◌, ◌-◌, ◌<◌, ◌≤◌, ◌^◌, max};
ghost use Rattle.bus_strings.specs.Limits.{horizon_limit};
ghost use Rattle.bus_timers.specs.Timings.{IsSound};
ghost use Rattle.bus_propagation.specs.inside.Hearing.{gap_after, ready_moment};

use crate::arrival::Arrival;
use bus_timers::Timing;
use std::cmp::max;

/// The timers of a terminal after what it has heard up to a moment, as two places in the past of the bus: moments that
/// are counted from the beginning of the quiet before the settled start.
#[derive(Clone, Copy)]
pub struct Timers {
    /// The moment, in bit times from the settled start.
    pub moment: u64,
    /// The place at which the transmit interval elapses.
    pub due: u64,
    /// The place from which the terminal gap counts, or will.
    pub gap_from: u64,
    ghost moment_in_range: { moment ≤ 2 ^ 41 },
    ghost due_in_range: { due ≤ 2 ^ 42 },
    ghost from_in_range: { gap_from ≤ 2 ^ 42 },
}

/// Those of a terminal that wakes at this moment, before it has heard anything.
pub fn powered_up(timing: Timing, wake: u64) -> Timers
    requires sound { IsSound timing }
    requires wake { wake < horizon_limit }
    ensures moment { result.moment ≡ wake - timing.quiet }
    ensures due { result.due ≡ timing.quiet + timing.due + wake }
    ensures from { result.gap_from ≡ timing.sg + wake }
{
    Timers {
        moment: wake.saturating_sub(timing.quiet as u64),
        due: timing.quiet as u64 + timing.due as u64 + wake,
        gap_from: timing.sg as u64 + wake,
    }
}

/// Those of a terminal that starts at this moment.
pub fn started(timing: Timing, moment: u64) -> Timers
    requires sound { IsSound timing }
    requires moment { moment < horizon_limit }
    ensures moment { result.moment ≡ moment }
    ensures due { result.due ≡ timing.quiet + moment + timing.ti }
    ensures from { result.gap_from ≡ timing.quiet + moment + timing.sg }
{
    let place = timing.quiet as u64 + moment;
    Timers {
        moment,
        due: place + timing.ti as u64,
        gap_from: place + timing.sg as u64,
    }
}

/// Those behind an arrival, to its end, which for the timers is carrier throughout.
pub fn behind(timers: Timers, timing: Timing, arrival: Arrival) -> Timers
    requires sound { IsSound timing }
    ensures moment { result.moment ≡ arrival.end }
    ensures due { result.due ≡ timers.due }
    ensures from { result.gap_from ≡ gap_after timing.quiet timing.sg timers.gap_from (max timers.moment arrival.begin) arrival.end }
{
    let quiet = timing.quiet as u64;
    let elapsed = timers.gap_from <= quiet + max(timers.moment, arrival.begin);
    let gap = if elapsed { 0 } else { timing.sg as u64 };
    Timers {
        moment: arrival.end,
        due: timers.due,
        gap_from: quiet + arrival.end + gap,
    }
}

/// The moment from which the terminal may start, if it hears nothing more.
pub fn ready_at(timers: Timers, timing: Timing) -> u64
    requires sound { IsSound timing }
    ensures { result ≡ ready_moment timing timers.due timers.gap_from }
{
    max(timers.due, timers.gap_from + timing.tg as u64).saturating_sub(timing.quiet as u64)
}
