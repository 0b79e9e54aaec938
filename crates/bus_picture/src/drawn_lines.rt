//! Whether the line of a gap or of a transmit interval is drawn.
ghost use Rattle.std.specs.Prelude.{◌≡◌, ◌≤◌, ◌^◌};
ghost use Rattle.bus_strings.specs.Transmissions.{IsByMoment};
ghost use Rattle.bus_pen.specs.Scales.{IsScale};
ghost use Rattle.bus_picture.specs.Intervals as intervals;
ghost use Rattle.bus_picture.specs.Kinds as definition;
ghost use Rattle.bus_picture.specs.inside.Starting as working;

use crate::heard::{Gap, Hearing, deaf, gap_from, hear};
use crate::intervals::interval_to;
use crate::lane_timings::LaneTimings;
use crate::lines::is_drawn;
use crate::timers::is_behind_gap;
use bus_pen::Scale;
use bus_shapes::{Sent, Sents};
use bus_strings::Transmission;
use bus_strings::laws::neighbours_tell;
use bus_table::Table;
use bus_trace::Trace;

/// Whether the line of the synchronization gap before a transmission is drawn.
fn is_sync(scale: &Scale, sg: u32, sent: &Sent) -> bool
    requires { IsScale scale.now }
    ensures { result ≡ definition.is_sync scale.now sg sent.now }
{
    is_behind_gap(scale, sg, sent) && is_drawn(scale, sent.before, sent.before + u64::from(sg))
}

/// Whether that of one of a list is. It goes over the list up to the first.
fn any_sync(scale: &Scale, sg: u32, list: &[Transmission]) -> bool
    requires scale { IsScale scale.now }
    requires by_moment { IsByMoment list.now }
    ensures { result ≡ definition.has_sync scale.now sg list.now }
{
    for sent in Sents::new(list) {
        if is_sync(scale, sg, &sent) {
            return true;
        }
    }
    false
}

/// Whether that of one of a trace is.
pub(crate) fn has_sync(scale: &Scale, table: &Table, trace: &Trace) -> bool
    requires { IsScale scale.now }
    ensures { result ≡ definition.has_sync scale.now table.now.sg trace.now.list }
{
    neighbours_tell();
    let sg = table.sg();
    let list = trace.list();
    any_sync(scale, sg, list)
}

/// Whether the line of a terminal gap is drawn.
fn is_gap(scale: &Scale, gap: Gap) -> bool
    requires { IsScale scale.now }
    ensures { result ≡ definition.is_gap scale.now gap }
{
    is_drawn(scale, gap.from, gap.to)
}

/// Whether that of the one before the transmission that was heard last is, once for all that begin at a moment.
fn is_gap_before(scale: &Scale, timings: LaneTimings, hearing: Hearing) -> bool
    requires scale { IsScale scale.now }
    requires heard { hearing.before.quiet_from ≤ 2 ^ 42 }
    ensures { result ≡ working.is_gap_before scale.now timings hearing }
{
    hearing.first && is_gap(scale, gap_from(timings, hearing.before, hearing.moment))
}

/// Whether that of one of a sender is. It goes over the list up to the first.
pub(crate) fn any_gap(scale: &Scale, list: &[Transmission], timings: LaneTimings) -> bool
    requires scale { IsScale scale.now }
    requires by_moment { IsByMoment list.now }
    ensures { result ≡ definition.has_gap scale.now list.now timings }
{
    let mut hearing = deaf(timings.sg);
    for k in 0..list.len() {
        let x = &list[k];
        hearing = hear(timings, hearing, x);
        if is_gap_before(scale, timings, hearing) {
            return true;
        }
    }
    is_gap(scale, gap_from(timings, hearing.all, timings.horizon))
}

/// Whether the line of the transmit interval behind the last start is drawn, where there is one, given the next.
fn is_interval(scale: &Scale, timings: LaneTimings, last: Option<u64>, next: Option<u64>) -> bool
    requires scale { IsScale scale.now }
    requires early { working.IsEarly last }
    ensures { result ≡ definition.is_interval scale.now timings last next }
{
    match last {
        None => false,
        Some(moment) => is_drawn(scale, moment, interval_to(timings.ti, moment, next)),
    }
}

/// Whether that of the one up to a transmission is, where that is a start of the sender.
fn is_interval_before(
    scale: &Scale,
    timings: LaneTimings,
    last: Option<u64>,
    x: &Transmission,
) -> bool
    requires scale { IsScale scale.now }
    requires early { working.IsEarly last }
    ensures { result ≡ working.is_interval_before scale.now timings last x.now }
{
    x.terminal == timings.terminal && is_interval(scale, timings, last, Some(x.moment))
}

/// The last start of a terminal, with one transmission more.
fn next_start(terminal: u8, last: Option<u64>, x: &Transmission) -> Option<u64>
    requires { working.IsEarly last }
    ensures value { result ≡ intervals.next_start terminal last x.now }
    ensures early { working.IsEarly result }
{
    if x.terminal != terminal {
        return last;
    }
    Some(x.moment)
}

/// Whether that of one of a sender is. It goes over the list up to the first.
pub(crate) fn any_interval(scale: &Scale, list: &[Transmission], timings: LaneTimings) -> bool
    requires scale { IsScale scale.now }
    requires by_moment { IsByMoment list.now }
    ensures { result ≡ definition.has_interval scale.now list.now timings }
{
    let mut last = None;
    for k in 0..list.len() {
        let x = &list[k];
        if is_interval_before(scale, timings, last, x) {
            return true;
        }
        last = next_start(timings.terminal, last, x);
    }
    is_interval(scale, timings, last, None)
}
