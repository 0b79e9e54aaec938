//! What a page begins with: the verdict in words, and the figures of an accepted table.
ghost use Rattle.std.specs.Prelude.{◌≡◌, ◌<◌};
ghost use Rattle.bus_outer.specs.Texts.{Adds};
ghost use Rattle.bus_explain.specs.Accepted.{HasLeast};
ghost use Rattle.bus_margins_periodic.specs.Sentences.{drifting};
ghost use Rattle.bus_page.specs.Heads as definition;

use crate::style::put_style;
use bus_bounds::Bounds;
use bus_explain::{load, put_load, spare};
use bus_margins::Level as AperiodicLevel;
use bus_margins_periodic::Level as PeriodicLevel;
use bus_outer::{Sink, TextBuffer};
use bus_regime::{TableVerdict, put_verdict};
use bus_say::put_time;
use bus_table::{Mode, Table};

/// Puts all up to the words of the title.
fn begin_head<K: Sink>(text: &mut TextBuffer, sink: &mut K)
    ensures { Adds K.held K.faults sink.old sink.new text.old text.new definition.head_front }
{
    text.put(
        sink,
        b"<!doctype html>\n<html lang=\"en\">\n<head>\n<meta charset=\"utf-8\">\n",
    );
    text.put(
        sink,
        b"<meta name=\"viewport\" content=\"width=device-width\">\n<title>",
    );
}

/// Puts all behind them up to the body.
fn end_head<K: Sink>(text: &mut TextBuffer, sink: &mut K)
    ensures { Adds K.held K.faults sink.old sink.new text.old text.new definition.head_end }
{
    text.put(sink, b"</title>\n");
    put_style(text, sink);
    text.put(sink, b"</head>\n<body>\n");
}

/// Puts all up to the body of the page of a table.
pub(crate) fn put_head<K: Sink>(text: &mut TextBuffer, sink: &mut K, verdict: &TableVerdict)
    ensures { Adds K.held K.faults sink.old sink.new text.old text.new (definition.head_text verdict.now) }
{
    begin_head(text, sink);
    put_verdict(text, sink, verdict);
    end_head(text, sink);
}

/// Puts the same of a text that gives no table.
pub(crate) fn put_bare_head<K: Sink>(text: &mut TextBuffer, sink: &mut K)
    ensures { Adds K.held K.faults sink.old sink.new text.old text.new definition.bare_head_text }
{
    begin_head(text, sink);
    text.put(sink, b"No valid table");
    end_head(text, sink);
}

/// Puts the heading of a text that gives no table.
pub(crate) fn put_bare_heading<K: Sink>(text: &mut TextBuffer, sink: &mut K)
    ensures { Adds K.held K.faults sink.old sink.new text.old text.new definition.bare_heading_text }
{
    text.put(
        sink,
        b"<h1 class=\"refused\">The text gives no valid table</h1>\n",
    );
}

/// Puts the heading of a table that is accepted, or isn't.
pub(crate) fn put_heading<K: Sink>(text: &mut TextBuffer, sink: &mut K, accepted: bool)
    ensures { Adds K.held K.faults sink.old sink.new text.old text.new (definition.heading_text accepted) }
{
    if accepted {
        text.put(sink, b"<h1>The table is accepted</h1>\n");
    } else {
        text.put(sink, b"<h1 class=\"refused\">The table is refused</h1>\n");
    }
}

/// Puts the verdict line.
pub(crate) fn put_verdict_line<K: Sink>(text: &mut TextBuffer, sink: &mut K, verdict: &TableVerdict)
    ensures { Adds K.held K.faults sink.old sink.new text.old text.new (definition.verdict_text verdict.now) }
{
    text.put(sink, b"<p><code>");
    put_verdict(text, sink, verdict);
    text.put(sink, b"</code></p>\n");
}

/// Puts the heading of a section.
pub(crate) fn put_section<K: Sink>(text: &mut TextBuffer, sink: &mut K, title: &[u8])
    ensures { Adds K.held K.faults sink.old sink.new text.old text.new (definition.section_text title.now) }
{
    text.put(sink, b"<h2>");
    text.put(sink, title);
    text.put(sink, b"</h2>\n");
}

/// Begins a figure of this name; its value comes next, and then [`end_figure`].
pub(crate) fn begin_figure<K: Sink>(text: &mut TextBuffer, sink: &mut K, name: &[u8])
    ensures { Adds K.held K.faults sink.old sink.new text.old text.new (definition.figure_front name.now) }
{
    text.put(sink, b"<div><dt>");
    text.put(sink, name);
    text.put(sink, b"</dt><dd>");
}

/// Ends a figure.
pub(crate) fn end_figure<K: Sink>(text: &mut TextBuffer, sink: &mut K)
    ensures { Adds K.held K.faults sink.old sink.new text.old text.new definition.figure_end }
{
    text.put(sink, b"</dd></div>\n");
}

/// Puts how long cycles are.
fn put_cycle<K: Sink>(text: &mut TextBuffer, sink: &mut K, mode: Mode, least: u64, most: u64)
    ensures { Adds K.held K.faults sink.old sink.new text.old text.new (definition.cycle_words mode least most) }
{
    match mode {
        Mode::Aperiodic => put_two(text, sink, least, most),
        Mode::Periodic => put_time(text, sink, most as u128),
    }
}

/// Puts two lengths.
fn put_two<K: Sink>(text: &mut TextBuffer, sink: &mut K, least: u64, most: u64)
    ensures { Adds K.held K.faults sink.old sink.new text.old text.new (definition.both_words least most) }
{
    put_time(text, sink, least as u128);
    text.put(sink, b" to ");
    put_time(text, sink, most as u128);
}

/// Puts how much delay a table bears.
fn put_tolerance<K: Sink>(text: &mut TextBuffer, sink: &mut K, tolerance: Option<u64>)
    ensures { Adds K.held K.faults sink.old sink.new text.old text.new (definition.tolerance_words tolerance) }
{
    match tolerance {
        None => text.put(sink, b"without end"),
        Some(delay) => put_time(text, sink, delay as u128),
    }
}

/// Oscillators are off by up to 50 millionths, and nothing else is inexact.
fn drift() -> Bounds
    ensures { result ≡ drifting }
{
    match Bounds::new(0, 0, 50) {
        Some(bounds) => bounds,
        None => unreachable!(),
    }
}

/// The words of the level of an aperiodic table.
fn aperiodic_words(level: AperiodicLevel) -> &'static [u8]
    ensures { result.now ≡ definition.aperiodic_words level }
{
    match level {
        AperiodicLevel::Any => b"any: order comes by itself from any state",
        AperiodicLevel::Common => b"common: order stands from a common start",
        AperiodicLevel::Neither => b"none: nothing is told",
    }
}

/// The words of the level of a periodic table.
fn periodic_words(level: PeriodicLevel) -> &'static [u8]
    ensures { result.now ≡ definition.periodic_words level }
{
    match level {
        PeriodicLevel::Turns => b"turns: from a common start all take turns for ever",
        PeriodicLevel::Leads =>
            b"leads: from a common start all take turns for ever behind the first sender",
        PeriodicLevel::Neither => b"none: nothing is told",
    }
}

/// The bounds that are asked for; where none are, oscillators are off by up to 50 millionths, and nothing else is inexact.
pub(crate) fn bounds_of(asked: &Option<Bounds>) -> Bounds
    ensures { result ≡ definition.bounds_of asked.now }
{
    match asked {
        Some(bounds) => *bounds,
        None => drift(),
    }
}

/// The words of the level of a table within bounds.
fn level_words(table: &Table, bounds: Bounds) -> &'static [u8]
    ensures { result.now ≡ definition.level_words table.now.mode bounds table.now }
{
    match table.mode() {
        Mode::Aperiodic => aperiodic_words(bus_margins::level_of(table, bounds)),
        Mode::Periodic => periodic_words(bus_margins_periodic::level_of(table, bounds)),
    }
}

/// Puts within which bounds a level is.
fn put_level_name<K: Sink>(text: &mut TextBuffer, sink: &mut K, bounds: Bounds)
    ensures { Adds K.held K.faults sink.old sink.new text.old text.new (definition.level_name bounds) }
{
    text.put(sink, b"level, within ");
    text.put_number(sink, bounds.delay());
    text.put(sink, b" ns of delay, ");
    text.put_number(sink, bounds.jitter());
    text.put(sink, b" ns of jitter, and clocks ");
    text.put_number(sink, bounds.clocks());
    text.put(sink, b" millionths off");
}

/// Puts the figure of the cycle of a table with these numbers.
fn put_cycle_figure<K: Sink>(text: &mut TextBuffer, sink: &mut K, mode: Mode, least: u64, most: u64)
    ensures { Adds K.held K.faults sink.old sink.new text.old text.new (definition.cycle_figure mode least most) }
{
    begin_figure(text, sink, b"cycle");
    put_cycle(text, sink, mode, least, most);
    end_figure(text, sink);
}

/// Puts the figure of the spare.
fn put_spare_figure<K: Sink>(text: &mut TextBuffer, sink: &mut K, spare: u64)
    ensures { Adds K.held K.faults sink.old sink.new text.old text.new (definition.spare_figure spare) }
{
    begin_figure(text, sink, b"spare");
    put_time(text, sink, spare as u128);
    end_figure(text, sink);
}

/// Puts the figure of the load.
fn put_load_figure<K: Sink>(text: &mut TextBuffer, sink: &mut K, load: u128)
    ensures { Adds K.held K.faults sink.old sink.new text.old text.new (definition.load_figure load) }
{
    begin_figure(text, sink, b"load");
    put_load(text, sink, load);
    end_figure(text, sink);
}

/// Puts the figure of the tolerance.
fn put_tolerance_figure<K: Sink>(text: &mut TextBuffer, sink: &mut K, tolerance: Option<u64>)
    ensures { Adds K.held K.faults sink.old sink.new text.old text.new (definition.tolerance_figure tolerance) }
{
    begin_figure(text, sink, b"tolerance of delays");
    put_tolerance(text, sink, tolerance);
    end_figure(text, sink);
}

/// Puts the figure of the level.
fn put_level_figure<K: Sink>(text: &mut TextBuffer, sink: &mut K, table: &Table, bounds: Bounds)
    ensures { Adds K.held K.faults sink.old sink.new text.old text.new (definition.level_figure bounds table.now) }
{
    text.put(sink, b"<div><dt>");
    put_level_name(text, sink, bounds);
    text.put(sink, b"</dt><dd>");
    text.put(sink, level_words(table, bounds));
    end_figure(text, sink);
}

/// Puts the figures of an accepted table whose verdict has these numbers.
pub(crate) fn put_figures<K: Sink>(
    text: &mut TextBuffer,
    sink: &mut K,
    table: &Table,
    bounds: Bounds,
    least: u64,
    most: u64,
    tolerance: Option<u64>,
)
    requires least { HasLeast table.now least }
    requires most { 0 < most }
    ensures { Adds K.held K.faults sink.old sink.new text.old text.new (definition.figures_text bounds table.now least most tolerance) }
{
    let spare = spare(table, least);
    let load = load(table, most);
    text.put(sink, b"<dl>\n");
    put_cycle_figure(text, sink, table.mode(), least, most);
    put_spare_figure(text, sink, spare);
    put_load_figure(text, sink, load);
    put_tolerance_figure(text, sink, tolerance);
    put_level_figure(text, sink, table, bounds);
    text.put(sink, b"</dl>\n");
}
