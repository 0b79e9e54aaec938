//! What kinds of marks a time line has.
ghost use Rattle.std.specs.Prelude.{◌≡◌};
ghost use Rattle.bus_pen.specs.Scales.{IsScale};
ghost use Rattle.bus_picture.specs.Kinds as definition;

use crate::counting::has_thin;
use crate::drawn_lines::has_sync;
use crate::overlap_bands::has_overlap_bands;
use crate::timer_marks::{are_near, lanes_have};
use bus_dump::Lane;
use bus_pen::Scale;
use bus_shapes::Counts;
use bus_table::Table;
use bus_trace::Trace;

/// What kinds of marks a time line has, which its legend lists.
#[derive(Clone, Copy, Debug, PartialEq, Eq)]
pub struct Kinds {
    /// A box of what isn't garbled.
    pub messages: bool,
    /// A box of what is garbled.
    pub garbled: bool,
    /// An overlap band, of two or more at once.
    pub overlap_bands: bool,
    /// What lies behind the horizon.
    pub unobserved: bool,
    /// The line of a gap, of the bus or of a sender.
    pub gaps: bool,
    /// The line of a transmit interval.
    pub intervals: bool,
    /// The tick of an offset.
    pub offsets: bool,
    /// A box of what takes less than a pixel.
    pub thin: bool,
}

/// A kind of marks that the lane of a sender has where timers are drawn.
#[derive(Clone, Copy, Debug, PartialEq, Eq)]
pub enum TimerMark {
    /// The lines of its terminal gaps.
    Gaps,
    /// The lines of its transmit intervals.
    Intervals,
    /// The ticks of its offset.
    Offsets,
}

/// Whether a mark of this kind is drawn in these lanes.
fn has_timed(scale: &Scale, table: &Table, trace: &Trace, mark: TimerMark, lanes: &[Lane]) -> bool
    requires { IsScale scale.now }
    ensures { result ≡ definition.has_timed scale.now table.now trace.now mark lanes.now }
{
    are_near(scale, table) && lanes_have(scale, table, trace, mark, lanes)
}

/// Whether the line of a gap is drawn in these lanes, or on the bus.
fn has_gaps(scale: &Scale, table: &Table, trace: &Trace, lanes: &[Lane]) -> bool
    requires { IsScale scale.now }
    ensures { result ≡ definition.has_gaps scale.now table.now trace.now lanes.now }
{
    are_near(scale, table)
        && (lanes_have(scale, table, trace, TimerMark::Gaps, lanes)
            || has_sync(scale, table, trace))
}

/// The kinds of marks of a picture with these lanes, which counts so much. Where timers are drawn it goes over the trace for gaps, and for
/// transmit intervals, up to the first whose line is drawn; and so for each lane of a sender that has none.
pub(crate) fn kinds_of(
    scale: &Scale,
    lanes: &[Lane],
    table: &Table,
    trace: &Trace,
    counts: &Counts,
) -> Kinds
    requires scale { IsScale scale.now }
    requires counts { counts.now ≡ definition.counts_of scale.now trace.now }
    ensures { result ≡ definition.kinds_of scale.now lanes.now table.now trace.now }
{
    Kinds {
        messages: counts.garbled < counts.shown,
        garbled: 0 < counts.garbled,
        overlap_bands: has_overlap_bands(scale, trace),
        unobserved: trace.horizon() < scale.to,
        gaps: has_gaps(scale, table, trace, lanes),
        intervals: has_timed(scale, table, trace, TimerMark::Intervals, lanes),
        offsets: has_timed(scale, table, trace, TimerMark::Offsets, lanes),
        thin: has_thin(scale, trace),
    }
}
