//! Where senders should start in periodic mode.
ghost use Rattle.std.specs.Prelude.{◌≡◌, ◌+◌, ◌*◌, ◌<◌, ◌≤◌, ◌^◌};
ghost use Rattle.bus_outer.specs.Texts.{Adds};
ghost use Rattle.bus_pen.specs.Scales.{IsScale};
ghost use Rattle.bus_table.specs.declared.mode.Mode.TheVariants.{Periodic};
ghost use Rattle.bus_picture.specs.Kinds as kinds;
ghost use Rattle.bus_picture.specs.Offsets as definition;

use crate::measures::{OFFSET_HEIGHT, OFFSET_WIDTH, TICK_BELOW};
use bus_outer::{Sink, TextBuffer};
use bus_pen::{Area, Class, Scale, put_box};
use bus_table::Mode;

/// How many starts of a sender should lie before a moment.
fn rounds_before(ti: u64, at: u64, t: u64) -> u64
    requires some { 0 < ti }
    requires low { t ≤ 2 ^ 41 }
    requires short { ti < 2 ^ 32 }
    ensures { result ≡ definition.rounds_before ti at t }
{
    (t.saturating_sub(at) + (ti - 1)) / ti
}

/// Whether a start of a sender lies in the scale.
fn has_round(scale: &Scale, ti: u32, at: u32, held: u32) -> bool
    requires scale { IsScale scale.now }
    requires some { 0 < ti }
    ensures { result ≡ kinds.has_tick Periodic scale.now ti at held }
{
    let interval = u64::from(ti);
    let offset = u64::from(at);
    let first = rounds_before(interval, offset, scale.from);
    let due = rounds_before(interval, offset, scale.to);
    first < due.min(u64::from(held))
}

/// The tick of a moment.
fn put_tick<K: Sink>(text: &mut TextBuffer, sink: &mut K, scale: &Scale, top: u64, t: u64)
    requires scale { IsScale scale.now }
    requires top { top < 100000 }
    ensures { Adds K.held K.faults sink.old sink.new text.old text.new
        (definition.tick_text scale.now top t) }
{
    let area = Area {
        left: scale.place(t),
        top: top + TICK_BELOW,
        width: OFFSET_WIDTH,
        height: OFFSET_HEIGHT,
    };
    put_box(text, sink, Class::Mark, area);
}

/// The tick of a round.
fn put_round<K: Sink>(
    text: &mut TextBuffer,
    sink: &mut K,
    scale: &Scale,
    top: u64,
    ti: u64,
    at: u64,
    round: u64,
)
    requires scale { IsScale scale.now }
    requires top { top < 100000 }
    requires low { at + round * ti < 2 ^ 42 }
    ensures { Adds K.held K.faults sink.old sink.new text.old text.new
        (definition.tick_text scale.now top (definition.offset_moment ti at round)) }
{
    put_tick(text, sink, scale, top, at + round * ti);
}

/// The ticks of the starts in the scale.
fn put_ticks<K: Sink>(
    text: &mut TextBuffer,
    sink: &mut K,
    scale: &Scale,
    top: u64,
    ti: u64,
    at: u64,
    held: u64,
)
    requires scale { IsScale scale.now }
    requires top { top < 100000 }
    requires some { 0 < ti }
    requires short { ti < 2 ^ 32 }
    ensures { Adds K.held K.faults sink.old sink.new text.old text.new
        (definition.ticks_text scale.now top ti at held) }
{
    let first = rounds_before(ti, at, scale.from);
    let due = rounds_before(ti, at, scale.to);
    let end = due.min(held);
    let count = end.saturating_sub(first);
    for k in 0..count {
        put_round(text, sink, scale, top, ti, at, first + k);
    }
}

/// The ticks of a sender with this offset that held so many messages.
fn put_periodic<K: Sink>(
    text: &mut TextBuffer,
    sink: &mut K,
    scale: &Scale,
    top: u64,
    ti: u32,
    at: u32,
    held: u32,
)
    requires scale { IsScale scale.now }
    requires top { top < 100000 }
    requires some { 0 < ti }
    ensures { Adds K.held K.faults sink.old sink.new text.old text.new
        (definition.ticks_text scale.now top ti at held) }
{
    let interval = u64::from(ti);
    let offset = u64::from(at);
    let most = u64::from(held);
    put_ticks(text, sink, scale, top, interval, offset, most);
}

/// The same where the table is periodic. Their number is that of the transmit intervals in the scale.
pub(crate) fn put_offsets<K: Sink>(
    text: &mut TextBuffer,
    sink: &mut K,
    mode: Mode,
    scale: &Scale,
    top: u64,
    ti: u32,
    at: u32,
    held: u32,
)
    requires scale { IsScale scale.now }
    requires top { top < 100000 }
    requires some { 0 < ti }
    ensures { Adds K.held K.faults sink.old sink.new text.old text.new
        (definition.offsets_text mode scale.now top ti at held) }
{
    match mode {
        Mode::Aperiodic => {}
        Mode::Periodic => put_periodic(text, sink, scale, top, ti, at, held),
    }
}

/// Whether a tick is drawn of a sender with this offset that held so many messages, where the table is periodic.
pub(crate) fn has_tick(mode: Mode, scale: &Scale, ti: u32, at: u32, held: u32) -> bool
    requires scale { IsScale scale.now }
    requires some { 0 < ti }
    ensures { result ≡ kinds.has_tick mode scale.now ti at held }
{
    match mode {
        Mode::Aperiodic => false,
        Mode::Periodic => has_round(scale, ti, at, held),
    }
}
