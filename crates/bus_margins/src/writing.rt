//! The text of margins.
ghost use Rattle.std.specs.Prelude.{◌≡◌};
ghost use Rattle.bus_outer.specs.Sinks.{WritesText};
ghost use Rattle.bus_outer.specs.Texts.{Adds};
ghost use Rattle.bus_margins.specs.Texts as texts;
ghost use Rattle.bus_margins.specs.Texts.{aperiodic_text};

use crate::bearing::bears;
use crate::level::{Level, Margins};
use crate::part::Borne;
use crate::room::{Room, Rooms};
use crate::telling::margins;
use bus_bounds::Bounds;
use bus_outer::{Sink, TextBuffer, WriteFault};
use bus_table::{Mode, Table};

/// Puts a level.
fn put_level<K: Sink>(text: &mut TextBuffer, sink: &mut K, level: Level)
    ensures { Adds K.held K.faults sink.old sink.new text.old text.new (texts.level_word level) }
{
    match level {
        Level::Any => text.put(sink, b"any"),
        Level::Common => text.put(sink, b"common"),
        Level::Neither => text.put(sink, b"none"),
    }
}

/// Puts how far apart successive starts are.
fn put_apart<K: Sink>(text: &mut TextBuffer, sink: &mut K, level: Level, nanoseconds: u64)
    ensures { Adds K.held K.faults sink.old sink.new text.old text.new (texts.apart_word level nanoseconds) }
{
    match level {
        Level::Any | Level::Common => text.put_number(sink, nanoseconds),
        Level::Neither => text.put(sink, b"-"),
    }
}

/// Puts the first line.
fn put_head<K: Sink>(text: &mut TextBuffer, sink: &mut K, level: Level, least: u64, most: u64)
    ensures { Adds K.held K.faults sink.old sink.new text.old text.new (texts.head_line level least most) }
{
    text.put(sink, b"MARGINS aperiodic ");
    put_level(text, sink, level);
    text.put_byte(sink, b' ');
    put_apart(text, sink, level, least);
    text.put_byte(sink, b' ');
    put_apart(text, sink, level, most);
    text.put_byte(sink, b'\n');
}

/// Puts the other terminal of a room.
fn put_other<K: Sink>(text: &mut TextBuffer, sink: &mut K, other: Option<u8>)
    ensures { Adds K.held K.faults sink.old sink.new text.old text.new (texts.other_word other) }
{
    match other {
        Some(number) => text.put_number(sink, number),
        None => text.put(sink, b"-"),
    }
}

/// Puts how much room there is.
fn put_nanoseconds<K: Sink>(text: &mut TextBuffer, sink: &mut K, room: Room)
    ensures { Adds K.held K.faults sink.old sink.new text.old text.new (texts.nanoseconds_word room) }
{
    text.put_number(sink, room.nanoseconds());
}

/// Puts the terminals of a room, and how much it is.
fn put_amount<K: Sink>(text: &mut TextBuffer, sink: &mut K, room: Room)
    ensures { Adds K.held K.faults sink.old sink.new text.old text.new (texts.amount_words room) }
{
    text.put_number(sink, room.terminal);
    text.put_byte(sink, b' ');
    put_other(text, sink, room.other);
    text.put_byte(sink, b' ');
    put_nanoseconds(text, sink, room);
}

/// Puts the least room by a rule, and the end of the line.
fn put_least<K: Sink>(text: &mut TextBuffer, sink: &mut K, room: Option<Room>)
    ensures { Adds K.held K.faults sink.old sink.new text.old text.new (texts.least_words room) }
{
    match room {
        Some(room) => put_amount(text, sink, room),
        None => text.put(sink, b"- - -"),
    }
}

/// Puts the line of a rule.
fn put_room<K: Sink>(text: &mut TextBuffer, sink: &mut K, rule: &[u8], room: Option<Room>)
    ensures { Adds K.held K.faults sink.old sink.new text.old text.new (texts.room_line rule.now room) }
{
    text.put(sink, b"ROOM ");
    text.put(sink, rule);
    text.put_byte(sink, b' ');
    put_least(text, sink, room);
    text.put_byte(sink, b'\n');
}

/// Puts the lines of all rules.
fn put_rooms<K: Sink>(text: &mut TextBuffer, sink: &mut K, rooms: Rooms)
    ensures { Adds K.held K.faults sink.old sink.new text.old text.new (texts.room_lines rooms) }
{
    put_room(text, sink, b"whole", rooms.whole);
    put_room(text, sink, b"drop", rooms.drop);
    put_room(text, sink, b"turns", rooms.turns);
    put_room(text, sink, b"opening", rooms.opening);
    put_room(text, sink, b"waiting", rooms.waiting);
    put_room(text, sink, b"joining", rooms.joining);
    put_room(text, sink, b"interval", rooms.interval);
    put_room(text, sink, b"cycle", rooms.cycle);
}

/// Puts the last line where the level is none.
fn put_unborne<K: Sink>(text: &mut TextBuffer, sink: &mut K)
    ensures { Adds K.held K.faults sink.old sink.new text.old text.new texts.unborne_line }
{
    text.put(sink, b"BEARS delay - jitter - clocks -\n");
}

/// Puts the last line where there is a level.
fn put_borne<K: Sink>(text: &mut TextBuffer, sink: &mut K, borne: Borne)
    ensures { Adds K.held K.faults sink.old sink.new text.old text.new (texts.borne_line borne) }
{
    text.put(sink, b"BEARS delay ");
    text.put_number(sink, borne.delay);
    text.put(sink, b" jitter ");
    text.put_number(sink, borne.jitter);
    text.put(sink, b" clocks ");
    text.put_number(sink, borne.clocks);
    text.put_byte(sink, b'\n');
}

/// Puts the last line: what a table bears, None where it has no level.
pub fn put_bears<K: Sink>(text: &mut TextBuffer, sink: &mut K, borne: Option<Borne>)
    ensures { Adds K.held K.faults sink.old sink.new text.old text.new (texts.bears_line borne) }
{
    match borne {
        Some(borne) => put_borne(text, sink, borne),
        None => put_unborne(text, sink),
    }
}

/// Puts all lines.
fn put_lines<K: Sink>(text: &mut TextBuffer, sink: &mut K, margins: Margins, borne: Option<Borne>)
    ensures { Adds K.held K.faults sink.old sink.new text.old text.new (texts.margins_lines margins borne) }
{
    put_head(text, sink, margins.level, margins.least, margins.most);
    put_rooms(text, sink, margins.rooms);
    put_bears(text, sink, borne);
}

/// Writes the text of these margins, and of how much the table bears.
fn write_lines<K: Sink>(
    margins: Margins,
    borne: Option<Borne>,
    sink: &mut K,
) -> Result<(), WriteFault>
    ensures { WritesText K.held K.faults sink.old sink.new result (texts.margins_lines margins borne) }
{
    let mut text = TextBuffer::new();
    put_lines(&mut text, sink, margins, borne);
    text.finish(sink)
}

/// Writes the level of an aperiodic table within bounds, the room that it leaves by each rule, and how much it bears, in one push where the
/// sink takes all. It takes no memory.
pub fn write_aperiodic<K: Sink>(
    table: &Table,
    bounds: Bounds,
    sink: &mut K,
) -> Result<(), WriteFault>
    requires { table.now.mode ≡ Mode.Aperiodic }
    ensures { WritesText K.held K.faults sink.old sink.new result (aperiodic_text bounds table.now) }
{
    write_lines(margins(table, bounds), bears(table, bounds), sink)
}
