//! What is said of an accepted table, and what `margins` writes of it.
ghost use Rattle.std.specs.Prelude.{◌++◌};
ghost use Rattle.bus_outer.specs.Sinks.{WritesText};
ghost use Rattle.bus_outer.specs.Texts.{Adds};
ghost use Rattle.bus_page.specs.Findings.{AreFigures};
ghost use Rattle.bus_page.specs.Pages as definition;

use crate::finding::Figures;
use bus_bounds::Bounds;
use bus_explain::{write_beyond, write_summary};
use bus_margins::write_aperiodic;
use bus_margins_periodic::write_periodic;
use bus_outer::{Sink, TextBuffer, WriteFault};
use bus_table::{Mode, Table};

/// Writes the sentences of an accepted table, without what is said of each sender, which the pictures and the text show.
pub(crate) fn write_sentences<K: Sink>(
    table: &Table,
    figures: &Figures,
    sink: &mut K,
) -> Result<(), WriteFault>
    requires { AreFigures table.now figures.now }
    ensures { WritesText K.held K.faults sink.old sink.new result
        (definition.accepted_sentences table.now figures.now.least figures.now.most) }
{
    write_summary(
        table,
        figures.least,
        figures.most,
        figures.tolerance,
        &figures.advices,
        sink,
    )?;
    write_beyond(table, figures.offsets, sink)
}

/// Writes what `margins` writes of a table within bounds.
fn write_margins<K: Sink>(table: &Table, bounds: Bounds, sink: &mut K) -> Result<(), WriteFault>
    ensures { WritesText K.held K.faults sink.old sink.new result (definition.margins_text table.now.mode bounds table.now) }
{
    match table.mode() {
        Mode::Aperiodic => write_aperiodic(table, bounds, sink),
        Mode::Periodic => write_periodic(table, bounds, sink),
    }
}

/// Puts the words of bounds that stand behind the command and the table.
fn put_bounds<K: Sink>(text: &mut TextBuffer, sink: &mut K, bounds: Bounds)
    ensures { Adds K.held K.faults sink.old sink.new text.old text.new (definition.bounds_words bounds) }
{
    text.put_number(sink, bounds.delay());
    text.put(sink, b" ");
    text.put_number(sink, bounds.jitter());
    text.put(sink, b" ");
    text.put_number(sink, bounds.clocks());
}

/// Writes what stands above that.
fn write_asked_front<K: Sink>(bounds: Bounds, sink: &mut K) -> Result<(), WriteFault>
    ensures { WritesText K.held K.faults sink.old sink.new result (definition.asked_front bounds) }
{
    let mut text = TextBuffer::new();
    text.put(sink, b"</pre>\n<h2>What margins writes of it with ");
    put_bounds(&mut text, sink, bounds);
    text.put(sink, b"</h2>\n<pre>");
    text.finish(sink)
}

/// Writes both.
fn write_margins_section<K: Sink>(
    table: &Table,
    bounds: Bounds,
    sink: &mut K,
) -> Result<(), WriteFault>
    ensures { WritesText K.held K.faults sink.old sink.new result
        (definition.asked_front bounds ++ definition.margins_text table.now.mode bounds table.now) }
{
    write_asked_front(bounds, sink)?;
    write_margins(table, bounds, sink)
}

/// Writes both where bounds are asked for.
pub(crate) fn write_asked<K: Sink>(
    table: &Table,
    asked: &Option<Bounds>,
    sink: &mut K,
) -> Result<(), WriteFault>
    ensures { WritesText K.held K.faults sink.old sink.new result (definition.asked_text asked.now table.now) }
{
    match asked {
        Some(bounds) => write_margins_section(table, *bounds, sink),
        None => Ok(()),
    }
}
