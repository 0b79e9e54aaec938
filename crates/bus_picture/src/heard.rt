//! From where a terminal's gap counts.
ghost use Rattle.std.specs.Prelude.{◌≡◌, ◌≤◌, ◌+◌, ◌^◌, max};
ghost use Rattle.bus_strings.specs.Transmissions.{end_of};
ghost use Rattle.bus_picture.specs.Gaps as definition;
ghost use Rattle.bus_picture.specs.inside.Starting as working;

use crate::lane_timings::LaneTimings;
use bus_strings::Transmission;

/// What a terminal has heard of transmissions. A place is a moment that is counted from the beginning of the quiet before the settled
/// start, in bit times.
#[derive(Clone, Copy, Debug, PartialEq, Eq)]
pub struct Heard {
    /// The place from which the bus is quiet, when all of them are over.
    pub quiet_from: u64,
    /// Whether the synchronization gap has elapsed since the terminal's own last start.
    pub synchronized: bool,
}

/// What a terminal has heard of transmissions, where the next one may begin at the moment of the last.
#[derive(Clone, Copy, Debug, PartialEq, Eq)]
pub struct Hearing {
    /// What it has heard of those that begin before the moment of the last.
    pub before: Heard,
    /// What it has heard of all.
    pub all: Heard,
    /// The moment of the last, and 0 where there is none.
    pub moment: u64,
    /// Whether the last is the first that begins at its moment: at moment 0, before which nothing is drawn, none is.
    pub first: bool,
}

/// A terminal gap as it runs, in moments. There is none where `to` isn't behind `from`.
#[derive(Clone, Copy, Debug, PartialEq, Eq)]
pub struct Gap {
    /// The moment from which it counts.
    pub from: u64,
    /// The moment at which it is over, or that of the next transmission, or the horizon, where this comes first.
    pub to: u64,
}

/// The place from which the bus is quiet, with one transmission more.
fn quiet_behind(quiet: u32, heard: Heard, x: &Transmission) -> u64
    requires { heard.quiet_from ≤ 2 ^ 42 }
    ensures value { result ≡ max heard.quiet_from (quiet + end_of x.now) }
    ensures far { result ≤ 2 ^ 42 }
{
    let _ranges = x.moment;
    heard.quiet_from.max(u64::from(quiet) + x.end())
}

/// What a terminal has heard with one transmission more.
fn heard_more(quiet: u32, sg: u32, terminal: u8, heard: Heard, x: &Transmission) -> Heard
    requires heard { heard.quiet_from ≤ 2 ^ 42 }
    ensures value { result ≡ definition.heard_more quiet sg terminal heard x.now }
    ensures far { result.quiet_from ≤ 2 ^ 42 }
{
    let quiet_from = quiet_behind(quiet, heard, x);
    let waited = heard.quiet_from + u64::from(sg) <= u64::from(quiet) + x.moment;
    Heard {
        quiet_from,
        synchronized: x.terminal != terminal && (heard.synchronized || waited),
    }
}

/// What a terminal has heard before anything is sent.
pub(crate) fn deaf(sg: u32) -> Hearing
    ensures value { result ≡ working.deaf sg }
    ensures before { result.before.quiet_from ≤ 2 ^ 42 }
    ensures all { result.all.quiet_from ≤ 2 ^ 42 }
{
    let settled = Heard {
        quiet_from: u64::from(sg),
        synchronized: true,
    };
    Hearing {
        before: settled,
        all: settled,
        moment: 0,
        first: false,
    }
}

/// What a terminal has heard with one transmission more.
pub(crate) fn hear(timings: LaneTimings, hearing: Hearing, x: &Transmission) -> Hearing
    requires before { hearing.before.quiet_from ≤ 2 ^ 42 }
    requires all { hearing.all.quiet_from ≤ 2 ^ 42 }
    ensures value { result ≡ working.hear timings.quiet timings.sg timings.terminal hearing x.now }
    ensures before { result.before.quiet_from ≤ 2 ^ 42 }
    ensures all { result.all.quiet_from ≤ 2 ^ 42 }
{
    let all = heard_more(timings.quiet, timings.sg, timings.terminal, hearing.all, x);
    let first = hearing.moment < x.moment;
    let before = if first { hearing.all } else { hearing.before };
    Hearing {
        before,
        all,
        moment: x.moment,
        first,
    }
}

/// The terminal gap of a sender that has heard this, up to a moment.
pub(crate) fn gap_from(timings: LaneTimings, heard: Heard, moment: u64) -> Gap
    requires { heard.quiet_from ≤ 2 ^ 42 }
    ensures { result ≡ working.heard_gap timings heard moment }
{
    let waits = if heard.synchronized { 0 } else { timings.sg };
    let place = heard.quiet_from + u64::from(waits);
    Gap {
        from: place.saturating_sub(u64::from(timings.quiet)),
        to: (place + u64::from(timings.tg))
            .saturating_sub(u64::from(timings.quiet))
            .min(moment),
    }
}
