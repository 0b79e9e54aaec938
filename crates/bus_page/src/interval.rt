//! The interval of an accepted periodic table, with longest messages, and whom its gaps synchronize.
ghost use Rattle.std.specs.Prelude.{◌≡◌, ◌<◌, ◌≤◌, ◌^◌, ◌+◌, All};
ghost use Rattle.std.specs.List.{flat_map};
ghost use Rattle.bus_outer.specs.Texts.{Adds};
ghost use Rattle.bus_pen.specs.Scales.{IsScale};
ghost use Rattle.bus_page.specs.Intervals as definition;

use crate::measures::{PLOT_LEFT, PLOT_WIDTH, SHORT_TOP};
use crate::message::{area_of, put_axes, put_lane, put_message, put_terminal};
use crate::paint::{Paint, begin_painted, begin_picture, end_painted, end_picture};
use crate::slot::{Slot, Synced};
use bus_outer::{Sink, TextBuffer};
use bus_pen::{Area, Class, Scale, put_words};
use bus_say::put_time;

/// Puts whom a gap synchronizes.
fn put_synced<K: Sink>(text: &mut TextBuffer, sink: &mut K, synced: Synced, number: u8)
    ensures { Adds K.held K.faults sink.old sink.new text.old text.new (definition.synced_words synced number) }
{
    match synced {
        Synced::All => text.put(sink, b"; it synchronizes all"),
        Synced::Others => put_others(text, sink, number),
        Synced::Nobody => text.put(sink, b"; it synchronizes nobody"),
    }
}

/// Puts that a gap synchronizes all but this terminal.
fn put_others<K: Sink>(text: &mut TextBuffer, sink: &mut K, number: u8)
    ensures { Adds K.held K.faults sink.old sink.new text.old text.new (definition.others_words number) }
{
    text.put(sink, b"; it synchronizes all but ");
    put_terminal(text, sink, number);
}

/// Puts how long a gap is, and whom it synchronizes.
fn put_gap_words<K: Sink>(text: &mut TextBuffer, sink: &mut K, slot: Slot)
    ensures { Adds K.held K.faults sink.old sink.new text.old text.new (definition.gap_words slot) }
{
    text.put(sink, b"gap before ");
    put_terminal(text, sink, slot.number);
    text.put(sink, b": ");
    put_time(text, sink, slot.to.saturating_sub(slot.from) as u128);
    put_synced(text, sink, slot.synced, slot.number);
}

/// How a gap looks.
fn gap_paint(synced: Synced) -> Paint
    ensures { result ≡ definition.gap_paint synced }
{
    match synced {
        Synced::All | Synced::Others => Paint::Synchronizes,
        Synced::Nobody => Paint::Gap,
    }
}

/// Where its upper edge is.
fn gap_top(synced: Synced) -> u64
    ensures { result ≡ definition.gap_top synced }
{
    match synced {
        Synced::All => SHORT_TOP,
        Synced::Others => SHORT_TOP + 70,
        Synced::Nobody => SHORT_TOP + 130,
    }
}

/// How high it is.
fn gap_high(synced: Synced) -> u64
    ensures { result ≡ definition.gap_high synced }
{
    match synced {
        Synced::All => 280,
        Synced::Others => 140,
        Synced::Nobody => 20,
    }
}

/// The area of a gap.
fn gap_area(scale: &Scale, slot: Slot) -> Area
    requires { IsScale scale.now }
    ensures { result ≡ definition.gap_area scale.now slot }
{
    area_of(
        scale,
        slot.from,
        slot.to,
        gap_top(slot.synced),
        gap_high(slot.synced),
    )
}

/// Puts the box of a gap.
fn put_gap<K: Sink>(text: &mut TextBuffer, sink: &mut K, scale: &Scale, slot: Slot)
    requires { IsScale scale.now }
    ensures { Adds K.held K.faults sink.old sink.new text.old text.new (definition.gap_text scale.now slot) }
{
    begin_painted(text, sink, gap_paint(slot.synced), gap_area(scale, slot));
    put_gap_words(text, sink, slot);
    end_painted(text, sink);
}

/// Puts a slot.
fn put_slot<K: Sink>(text: &mut TextBuffer, sink: &mut K, scale: &Scale, slot: Slot)
    requires { IsScale scale.now }
    ensures { Adds K.held K.faults sink.old sink.new text.old text.new (definition.slot_text scale.now slot) }
{
    put_gap(text, sink, scale, slot);
    put_message(text, sink, scale, SHORT_TOP, slot.number, slot.message);
}

/// Puts slots.
fn put_slots<K: Sink>(text: &mut TextBuffer, sink: &mut K, scale: &Scale, slots: &[Slot])
    requires { IsScale scale.now }
    ensures { Adds K.held K.faults sink.old sink.new text.old text.new (flat_map (definition.slot_text scale.now) slots.now) }
{
    for slot in slots {
        put_slot(text, sink, scale, *slot);
    }
}

/// From a start of the first sender to its next one.
fn interval_scale(begin: u64, ti: u64) -> Scale
    requires begin { begin ≤ 2 ^ 32 }
    requires some { 0 < ti }
    requires ti { ti ≤ 2 ^ 32 }
    ensures value { result ≡ definition.interval_scale begin ti }
    ensures scale { IsScale result }
{
    Scale {
        from: begin,
        to: begin + ti,
        left: PLOT_LEFT,
        width: PLOT_WIDTH,
    }
}

/// Puts what the heights of gaps mean.
fn put_legend<K: Sink>(text: &mut TextBuffer, sink: &mut K)
    ensures { Adds K.held K.faults sink.old sink.new text.old text.new definition.legend_text }
{
    put_words(
        text,
        sink,
        Class::Small,
        PLOT_LEFT,
        1010,
        b"gaps from the end of longest messages: high ones synchronize all, half as high ones all but the next terminal, lines nobody",
    );
}

/// Puts the picture of these slots of a table.
pub(crate) fn put_interval<K: Sink>(
    text: &mut TextBuffer,
    sink: &mut K,
    begin: u64,
    ti: u64,
    slots: &[Slot],
)
    requires begin { begin ≤ 2 ^ 32 }
    requires some { 0 < ti }
    requires ti { ti ≤ 2 ^ 32 }
    ensures { Adds K.held K.faults sink.old sink.new text.old text.new (definition.interval_text begin ti slots.now) }
{
    let scale = interval_scale(begin, ti);
    begin_picture(text, sink, 1060, b"One interval, with longest messages");
    put_axes(text, sink, &scale, 480);
    put_lane(text, sink, SHORT_TOP, b"longest", ti);
    put_slots(text, sink, &scale, slots);
    put_legend(text, sink);
    end_picture(text, sink);
}
