//! The rules of the margins of a table, each with its row.
ghost use Rattle.std.specs.Prelude.{◌≡◌, ◌<◌};
ghost use Rattle.bus_outer.specs.Texts.{Adds};
ghost use Rattle.bus_page.specs.Rooms as definition;

use crate::heading::put_section;
use crate::measures::{ROW_HEIGHT, ROWS_TOP};
use crate::paint::{begin_picture, end_picture};
use crate::room::{aperiodic_span, periodic_span, put_rule};
use bus_bounds::Bounds;
use bus_margins::{Room as AperiodicRoom, Rooms as AperiodicRooms};
use bus_margins_periodic::{Room as PeriodicRoom, Rooms as PeriodicRooms};
use bus_outer::{Sink, TextBuffer};
use bus_table::{Mode, Table};

/// Puts the row of a rule of an aperiodic table, with so many rows above it.
fn put_aperiodic_rule<K: Sink>(
    text: &mut TextBuffer,
    sink: &mut K,
    above: u64,
    name: &[u8],
    room: Option<AperiodicRoom>,
)
    requires { above < 100 }
    ensures { Adds K.held K.faults sink.old sink.new text.old text.new
        (definition.rule_text above name.now (definition.aperiodic_span room)) }
{
    put_rule(text, sink, above, name, aperiodic_span(room));
}

/// Puts the row of a rule of a periodic table, with so many rows above it.
fn put_periodic_rule<K: Sink>(
    text: &mut TextBuffer,
    sink: &mut K,
    above: u64,
    name: &[u8],
    room: Option<PeriodicRoom>,
)
    requires { above < 100 }
    ensures { Adds K.held K.faults sink.old sink.new text.old text.new
        (definition.rule_text above name.now (definition.periodic_span room)) }
{
    put_rule(text, sink, above, name, periodic_span(room));
}

/// Puts the rules of an aperiodic table.
fn put_aperiodic_rows<K: Sink>(text: &mut TextBuffer, sink: &mut K, rooms: AperiodicRooms)
    ensures { Adds K.held K.faults sink.old sink.new text.old text.new (definition.aperiodic_rows rooms) }
{
    put_aperiodic_rule(text, sink, 0, b"whole", rooms.whole);
    put_aperiodic_rule(text, sink, 1, b"drop", rooms.drop);
    put_aperiodic_rule(text, sink, 2, b"turns", rooms.turns);
    put_aperiodic_rule(text, sink, 3, b"opening", rooms.opening);
    put_aperiodic_rule(text, sink, 4, b"waiting", rooms.waiting);
    put_aperiodic_rule(text, sink, 5, b"joining", rooms.joining);
    put_aperiodic_rule(text, sink, 6, b"interval", rooms.interval);
    put_aperiodic_rule(text, sink, 7, b"cycle", rooms.cycle);
}

/// Puts those of a periodic table.
fn put_periodic_rows<K: Sink>(text: &mut TextBuffer, sink: &mut K, rooms: PeriodicRooms)
    ensures { Adds K.held K.faults sink.old sink.new text.old text.new (definition.periodic_rows rooms) }
{
    put_periodic_rule(text, sink, 0, b"hearing", rooms.hearing);
    put_periodic_rule(text, sink, 1, b"sync", rooms.sync);
    put_periodic_rule(text, sink, 2, b"order", rooms.order);
    put_periodic_rule(text, sink, 3, b"begin", rooms.begin);
}

/// Begins a picture of so many rows; these come next, and then [`end_picture`].
fn begin_rows<K: Sink>(text: &mut TextBuffer, sink: &mut K, count: u64)
    requires { count < 100 }
    ensures { Adds K.held K.faults sink.old sink.new text.old text.new (definition.rows_front count) }
{
    begin_picture(
        text,
        sink,
        ROWS_TOP + ROW_HEIGHT * count,
        b"How much room each rule leaves",
    );
}

/// Puts the picture of an aperiodic table.
fn put_aperiodic<K: Sink>(text: &mut TextBuffer, sink: &mut K, rooms: AperiodicRooms)
    ensures { Adds K.held K.faults sink.old sink.new text.old text.new (definition.aperiodic_picture rooms) }
{
    begin_rows(text, sink, 8);
    put_aperiodic_rows(text, sink, rooms);
    end_picture(text, sink);
}

/// Puts that of a periodic one.
fn put_periodic<K: Sink>(text: &mut TextBuffer, sink: &mut K, rooms: PeriodicRooms)
    ensures { Adds K.held K.faults sink.old sink.new text.old text.new (definition.periodic_picture rooms) }
{
    begin_rows(text, sink, 4);
    put_periodic_rows(text, sink, rooms);
    end_picture(text, sink);
}

/// Puts the picture of a table.
fn put_mode_rooms<K: Sink>(text: &mut TextBuffer, sink: &mut K, table: &Table, bounds: Bounds)
    ensures { Adds K.held K.faults sink.old sink.new text.old text.new (definition.mode_rooms table.now.mode bounds table.now) }
{
    match table.mode() {
        Mode::Aperiodic => put_aperiodic(text, sink, bus_margins::margins(table, bounds).rooms),
        Mode::Periodic => {
            put_periodic(
                text,
                sink,
                bus_margins_periodic::margins(table, bounds).rooms,
            );
        }
    }
}

/// Of a periodic table, which level needs the rules that have bars.
fn leading_words(mode: Mode) -> &'static [u8]
    ensures { result.now ≡ definition.leading_words mode }
{
    match mode {
        Mode::Aperiodic => b"",
        Mode::Periodic =>
            b"Level <code>turns</code> needs all these; level <code>leads</code> needs <code>hearing</code>, and others without bars. ",
    }
}

/// Puts what stands above it: its heading, and what its bars mean.
fn put_front<K: Sink>(text: &mut TextBuffer, sink: &mut K, mode: Mode)
    ensures { Adds K.held K.faults sink.old sink.new text.old text.new (definition.rooms_front mode) }
{
    put_section(text, sink, b"Which rule limits the margins");
    text.put(
        sink,
        b"<p>The bar of a rule of <code>margins</code> is what there is, and the stroke what it needs of that, ",
    );
    text.put(
        sink,
        b"where it leaves the least room; a rule that lacks stands out. Each bar has a scale of its own. ",
    );
    text.put(sink, leading_words(mode));
    text.put(
        sink,
        b"What each asks stands in <code>docs/FORMATS.md</code> of the project's folder.</p>\n",
    );
}

/// Puts both.
fn put_section_of<K: Sink>(text: &mut TextBuffer, sink: &mut K, table: &Table, bounds: Bounds)
    ensures { Adds K.held K.faults sink.old sink.new text.old text.new (definition.rooms_section bounds table.now) }
{
    put_front(text, sink, table.mode());
    put_mode_rooms(text, sink, table, bounds);
}

/// Puts both where bounds are asked for.
pub(crate) fn put_rooms<K: Sink>(
    text: &mut TextBuffer,
    sink: &mut K,
    table: &Table,
    asked: &Option<Bounds>,
)
    ensures { Adds K.held K.faults sink.old sink.new text.old text.new (definition.rooms_text asked.now table.now) }
{
    match asked {
        Some(bounds) => put_section_of(text, sink, table, *bounds),
        None => text.put(sink, b""),
    }
}
