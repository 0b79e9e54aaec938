//! How a save file opens: what the viewer shows at first, and which groups are open.
ghost use Rattle.std.specs.Prelude.{◌≡◌, ◌<◌, ◌≤◌, IfSome};
ghost use Rattle.bus_outer.specs.Texts.{Adds};
ghost use Rattle.bus_strings.specs.Limits.{horizon_limit};
ghost use Rattle.bus_dump.specs.SaveFiles as texts;
ghost use Rattle.bus_dump.specs.inside.Standing as parts;

use crate::breach::FirstBreach;
use crate::lane::Lane;
use bus_outer::{Sink, TextBuffer};
use bus_trace::Window;

/// So few lanes are shown alike, whatever breach there is.
const FEW: usize = 2;

/// So many lanes are open where no breach tells which one is.
const MOST_OPEN: usize = 8;

/// The nanoseconds of a bit time.
const NANOSECONDS: u64 = 500;

/// The first breach of a trace, where a window holds its moment.
pub(crate) fn shown_breach(window: &Window, breach: Option<FirstBreach>) -> Option<FirstBreach>
    ensures { result ≡ texts.shown_breach window.now breach }
{
    let breach = breach?;
    if window.holds(breach.moment) {
        Some(breach)
    } else {
        None
    }
}

/// Whether a breach names the terminal of a lane.
fn is_named(breach: Option<FirstBreach>, lane: Lane) -> bool
    ensures { result ≡ texts.is_named breach lane }
{
    match breach {
        Some(breach) => lane.terminal == breach.terminal,
        None => false,
    }
}

/// Whether a lane stands in the first part, that of the terminal that a breach names, or in the second.
pub(crate) fn stands(first: bool, breach: Option<FirstBreach>, lane: Lane) -> bool
    ensures { result ≡ parts.stands first breach lane }
{
    if first {
        is_named(breach, lane)
    } else {
        !is_named(breach, lane)
    }
}

/// The breach that tells which lane is open: one that is shown, of more than a few lanes.
pub(crate) fn telling_breach(lanes: &[Lane], breach: Option<FirstBreach>) -> Option<FirstBreach>
    ensures { result ≡ texts.telling_breach lanes.now breach }
{
    if lanes.len() <= FEW { None } else { breach }
}

/// Whether one of these lanes is of the terminal of a lane.
fn is_among(lanes: &[Lane], lane: Lane) -> bool
    ensures { result ≡ texts.is_among lanes.now lane }
{
    lanes.iter().any(|other| lane.terminal == other.terminal)
}

/// Whether a lane is one of the first.
fn is_first(lanes: &[Lane], lane: Lane) -> bool
    ensures { result ≡ texts.is_open None lanes.now lane }
{
    is_among(&lanes[..MOST_OPEN.min(lanes.len())], lane)
}

/// Whether a lane is open.
pub(crate) fn is_open(breach: Option<FirstBreach>, lanes: &[Lane], lane: Lane) -> bool
    ensures { result ≡ texts.is_open breach lanes.now lane }
{
    match breach {
        Some(_) => is_named(breach, lane),
        None => is_first(lanes, lane),
    }
}

/// Whether the group of the labels is.
pub(crate) fn are_open(breach: Option<FirstBreach>, lanes: &[Lane]) -> bool
    ensures { result ≡ texts.are_open breach lanes.now }
{
    lanes.iter().all(|lane| is_open(breach, lanes, *lane))
}

/// The marker of the viewer.
fn put_marker<K: Sink>(text: &mut TextBuffer, sink: &mut K, breach: Option<FirstBreach>)
    requires { IfSome breach (λ b. b.moment < horizon_limit) }
    ensures { Adds K.held K.faults sink.old sink.new text.old text.new (texts.marker_text breach) }
{
    match breach {
        Some(breach) => text.put_number(sink, NANOSECONDS * breach.moment),
        None => text.put(sink, b"-1"),
    }
}

/// How far the viewer zooms out for so many bit times.
fn zoom(shown: u64) -> u32
    requires { shown ≤ horizon_limit }
    ensures { result ≡ texts.zoom shown }
{
    u64::BITS - (200 * shown).leading_zeros()
}

/// Where the viewer begins, where that isn't at 0.
fn put_beginning<K: Sink>(text: &mut TextBuffer, sink: &mut K, from: u64)
    requires { from ≤ horizon_limit }
    ensures { Adds K.held K.faults sink.old sink.new text.old text.new (texts.beginning_text from) }
{
    if from == 0 {
        return;
    }
    text.put(sink, b"[timestart] ");
    text.put_number(sink, NANOSECONDS * from);
    text.put_byte(sink, b'\n');
}

/// The first lines, of a dump of the bit times from one to below another.
pub(crate) fn put_opening<K: Sink>(
    text: &mut TextBuffer,
    sink: &mut K,
    from: u64,
    end: u64,
    breach: Option<FirstBreach>,
)
    requires from { from ≤ end }
    requires end { end ≤ horizon_limit }
    requires breach { IfSome breach (λ b. b.moment < horizon_limit) }
    ensures { Adds K.held K.faults sink.old sink.new text.old text.new (texts.opening from end breach) }
{
    text.put(sink, b"*-");
    text.put_number(sink, zoom(end - from));
    text.put_byte(sink, b' ');
    put_marker(text, sink, breach);
    text.put_byte(sink, b'\n');
    put_beginning(text, sink, from);
}
