//! Whether a mark of timers is drawn in lanes.
ghost use Rattle.std.specs.Prelude.{◌≡◌};
ghost use Rattle.bus_audit.specs.Breaches.{held};
ghost use Rattle.bus_pen.specs.Scales.{IsScale};
ghost use Rattle.bus_picture.specs.Kinds as definition;
ghost use Rattle.bus_picture.specs.Timers as timers;

use crate::drawn_lines::{any_gap, any_interval};
use crate::kinds::TimerMark;
use crate::lane_timings::LaneTimings;
use crate::offsets::has_tick;
use crate::timers::{is_near, timings_of};
use bus_dump::Lane;
use bus_pen::Scale;
use bus_shapes::held;
use bus_strings::laws::neighbours_tell;
use bus_table::{Sender, Table, sender_of};
use bus_trace::Trace;

/// Whether timers are drawn of a table.
pub(crate) fn are_near(scale: &Scale, table: &Table) -> bool
    requires { IsScale scale.now }
    ensures { result ≡ timers.is_near scale.now table.now.ti }
{
    let ti = table.ti();
    is_near(scale, ti)
}

/// What is the same all along the lane of a sender, but for where it lies.
fn timings_in(table: &Table, trace: &Trace, lane: Lane, sender: &Sender) -> LaneTimings
    ensures { result ≡ definition.timings_in table.now trace.now lane sender.now }
{
    let tg = sender.tg();
    let horizon = trace.horizon();
    timings_of(table, horizon, 0, lane.terminal, tg)
}

/// Whether the line of a terminal gap of a sender is drawn.
fn has_gap(scale: &Scale, table: &Table, trace: &Trace, lane: Lane, sender: &Sender) -> bool
    requires { IsScale scale.now }
    ensures { result ≡ definition.has_gap scale.now trace.now.list (definition.timings_in table.now trace.now lane sender.now) }
{
    neighbours_tell();
    let timings = timings_in(table, trace, lane, sender);
    let list = trace.list();
    any_gap(scale, list, timings)
}

/// Whether that of a transmit interval of a sender is.
fn has_interval(scale: &Scale, table: &Table, trace: &Trace, lane: Lane, sender: &Sender) -> bool
    requires { IsScale scale.now }
    ensures { result ≡ definition.has_interval scale.now trace.now.list (definition.timings_in table.now trace.now lane sender.now) }
{
    neighbours_tell();
    let timings = timings_in(table, trace, lane, sender);
    let list = trace.list();
    any_interval(scale, list, timings)
}

/// Whether a tick of its offset is.
fn has_offset(scale: &Scale, table: &Table, trace: &Trace, lane: Lane, sender: &Sender) -> bool
    requires { IsScale scale.now }
    ensures { result ≡ definition.has_tick table.now.mode scale.now table.now.ti sender.now.at (held trace.now.holds lane.terminal) }
{
    let mode = table.mode();
    let ti = table.ti();
    let at = sender.at();
    let held = held(trace.holds(), lane.terminal);
    has_tick(mode, scale, ti, at, held)
}

/// Whether a mark of this kind is drawn of a sender.
fn sender_has(
    scale: &Scale,
    table: &Table,
    trace: &Trace,
    mark: TimerMark,
    lane: Lane,
    sender: &Sender,
) -> bool
    requires { IsScale scale.now }
    ensures { result ≡ definition.sender_has scale.now table.now trace.now mark lane sender.now }
{
    match mark {
        TimerMark::Gaps => has_gap(scale, table, trace, lane, sender),
        TimerMark::Intervals => has_interval(scale, table, trace, lane, sender),
        TimerMark::Offsets => has_offset(scale, table, trace, lane, sender),
    }
}

/// Whether one is in a lane, where its terminal is a sender.
fn lane_has(scale: &Scale, table: &Table, trace: &Trace, mark: TimerMark, lane: Lane) -> bool
    requires { IsScale scale.now }
    ensures { result ≡ definition.lane_has scale.now table.now trace.now mark lane }
{
    match sender_of(table.senders(), lane.terminal) {
        None => false,
        Some(sender) => sender_has(scale, table, trace, mark, lane, sender),
    }
}

/// Whether one is in one of these lanes. It goes over them up to the first.
pub(crate) fn lanes_have(
    scale: &Scale,
    table: &Table,
    trace: &Trace,
    mark: TimerMark,
    lanes: &[Lane],
) -> bool
    requires { IsScale scale.now }
    ensures { result ≡ definition.lanes_have scale.now table.now trace.now mark lanes.now }
{
    for lane in lanes {
        if lane_has(scale, table, trace, mark, *lane) {
            return true;
        }
    }
    false
}
