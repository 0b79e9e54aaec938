//! The text of margins.
ghost use Rattle.std.specs.Prelude.{◌≡◌};
ghost use Rattle.bus_outer.specs.Sinks.{WritesText};
ghost use Rattle.bus_outer.specs.Texts.{Adds};
ghost use Rattle.bus_table.specs.Turned.{AreTurned};
ghost use Rattle.bus_margins_periodic.specs.Texts as texts;

use crate::bearing::bears;
use crate::level::{Level, Margins};
use crate::room::{Room, Rooms};
use crate::telling::margins;
use crate::times::count;
use bus_bounds::Bounds;
use bus_margins::{Borne, put_bears};
use bus_outer::{Sink, TextBuffer, WriteFault};
use bus_table::{MOST_SENDERS, Mode, Table, turn_at, turn_places};

/// Puts a level.
fn put_level<K: Sink>(text: &mut TextBuffer, sink: &mut K, level: Level)
    ensures { Adds K.held K.faults sink.old sink.new text.old text.new (texts.level_word level) }
{
    match level {
        Level::Turns => text.put(sink, b"turns"),
        Level::Leads => text.put(sink, b"leads"),
        Level::Neither => text.put(sink, b"none"),
    }
}

/// Puts how far apart successive starts are.
fn put_apart<K: Sink>(text: &mut TextBuffer, sink: &mut K, level: Level, nanoseconds: u64)
    ensures { Adds K.held K.faults sink.old sink.new text.old text.new (texts.apart_word level nanoseconds) }
{
    match level {
        Level::Turns | Level::Leads => text.put_number(sink, nanoseconds),
        Level::Neither => text.put(sink, b"-"),
    }
}

/// Puts the first line.
fn put_head<K: Sink>(text: &mut TextBuffer, sink: &mut K, level: Level, least: u64, most: u64)
    ensures { Adds K.held K.faults sink.old sink.new text.old text.new (texts.head_line level least most) }
{
    text.put(sink, b"MARGINS periodic ");
    put_level(text, sink, level);
    text.put_byte(sink, b' ');
    put_apart(text, sink, level, least);
    text.put_byte(sink, b' ');
    put_apart(text, sink, level, most);
    text.put_byte(sink, b'\n');
}

/// The number of the terminal at a place in turn order, and 0 behind the last.
#[tactic(auto, using(crate::proofs::PlaceLemmas::number_is, crate::proofs::PlaceLemmas::number_behind))]
pub(crate) fn number_at(table: &Table, places: &[usize; MOST_SENDERS], k: usize) -> u8
    requires { AreTurned table.now places.now }
    ensures { result ≡ texts.number_at table.now k }
{
    if k < count(table) {
        turn_at(table, places, k).number()
    } else {
        0
    }
}

/// Puts the number of a terminal.
fn put_terminal<K: Sink>(
    text: &mut TextBuffer,
    sink: &mut K,
    table: &Table,
    places: &[usize; MOST_SENDERS],
    k: usize,
)
    requires { AreTurned table.now places.now }
    ensures { Adds K.held K.faults sink.old sink.new text.old text.new (texts.terminal_word table.now k) }
{
    text.put_number(sink, number_at(table, places, k));
}

/// Puts the other terminal of two.
fn put_other<K: Sink>(
    text: &mut TextBuffer,
    sink: &mut K,
    table: &Table,
    places: &[usize; MOST_SENDERS],
    a: usize,
    b: usize,
)
    requires { AreTurned table.now places.now }
    ensures { Adds K.held K.faults sink.old sink.new text.old text.new (texts.other_word table.now a b) }
{
    if a == b {
        text.put(sink, b"-");
    } else {
        put_terminal(text, sink, table, places, b);
    }
}

/// Puts how much a room is.
fn put_nanoseconds<K: Sink>(text: &mut TextBuffer, sink: &mut K, room: Room)
    ensures { Adds K.held K.faults sink.old sink.new text.old text.new (texts.nanoseconds_word room) }
{
    text.put_number(sink, room.nanoseconds());
}

/// Puts the words of a rule of one terminal.
fn put_one<K: Sink>(
    text: &mut TextBuffer,
    sink: &mut K,
    table: &Table,
    places: &[usize; MOST_SENDERS],
    room: Option<Room>,
)
    requires { AreTurned table.now places.now }
    ensures { Adds K.held K.faults sink.old sink.new text.old text.new (texts.one_words table.now room) }
{
    match room {
        Some(room) => {
            put_terminal(text, sink, table, places, room.first);
            text.put(sink, b" - ");
            put_nanoseconds(text, sink, room);
        }
        None => text.put(sink, b"- - -"),
    }
}

/// Puts the terminals of a rule of two, and the room.
fn put_pair<K: Sink>(
    text: &mut TextBuffer,
    sink: &mut K,
    table: &Table,
    places: &[usize; MOST_SENDERS],
    room: Room,
)
    requires { AreTurned table.now places.now }
    ensures { Adds K.held K.faults sink.old sink.new text.old text.new (texts.pair_words table.now room) }
{
    put_terminal(text, sink, table, places, room.first);
    text.put_byte(sink, b' ');
    put_other(text, sink, table, places, room.first, room.second);
    text.put_byte(sink, b' ');
    put_nanoseconds(text, sink, room);
}

/// Puts the words of a rule of two.
fn put_two<K: Sink>(
    text: &mut TextBuffer,
    sink: &mut K,
    table: &Table,
    places: &[usize; MOST_SENDERS],
    room: Option<Room>,
)
    requires { AreTurned table.now places.now }
    ensures { Adds K.held K.faults sink.old sink.new text.old text.new (texts.two_words table.now room) }
{
    match room {
        Some(room) => put_pair(text, sink, table, places, room),
        None => text.put(sink, b"- - -"),
    }
}

/// Puts the words of a rule of three.
fn put_three<K: Sink>(
    text: &mut TextBuffer,
    sink: &mut K,
    table: &Table,
    places: &[usize; MOST_SENDERS],
    room: Room,
)
    requires { AreTurned table.now places.now }
    ensures { Adds K.held K.faults sink.old sink.new text.old text.new (texts.three_words table.now room) }
{
    put_terminal(text, sink, table, places, room.first);
    text.put_byte(sink, b' ');
    put_terminal(text, sink, table, places, room.second);
    text.put_byte(sink, b' ');
    put_terminal(text, sink, table, places, room.third);
    text.put_byte(sink, b' ');
    put_nanoseconds(text, sink, room);
}

/// Puts the line of order, where there is one.
fn put_order<K: Sink>(
    text: &mut TextBuffer,
    sink: &mut K,
    table: &Table,
    places: &[usize; MOST_SENDERS],
    room: Option<Room>,
)
    requires { AreTurned table.now places.now }
    ensures { Adds K.held K.faults sink.old sink.new text.old text.new (texts.order_line table.now room) }
{
    match room {
        Some(room) => {
            text.put(sink, b"ROOM order ");
            put_three(text, sink, table, places, room);
            text.put_byte(sink, b'\n');
        }
        None => text.put(sink, b""),
    }
}

/// Puts the lines of all rules.
fn put_rooms<K: Sink>(
    text: &mut TextBuffer,
    sink: &mut K,
    table: &Table,
    places: &[usize; MOST_SENDERS],
    rooms: Rooms,
)
    requires { AreTurned table.now places.now }
    ensures { Adds K.held K.faults sink.old sink.new text.old text.new (texts.room_lines table.now rooms) }
{
    text.put(sink, b"ROOM hearing ");
    put_one(text, sink, table, places, rooms.hearing);
    text.put(sink, b"\nROOM sync ");
    put_one(text, sink, table, places, rooms.sync);
    text.put_byte(sink, b'\n');
    put_order(text, sink, table, places, rooms.order);
    text.put(sink, b"ROOM begin ");
    put_two(text, sink, table, places, rooms.begin);
    text.put_byte(sink, b'\n');
}

/// Puts all lines.
fn put_lines<K: Sink>(
    text: &mut TextBuffer,
    sink: &mut K,
    table: &Table,
    places: &[usize; MOST_SENDERS],
    margins: Margins,
    borne: Option<Borne>,
)
    requires { AreTurned table.now places.now }
    ensures { Adds K.held K.faults sink.old sink.new text.old text.new (texts.margins_lines table.now margins borne) }
{
    put_head(text, sink, margins.level, margins.least, margins.most);
    put_rooms(text, sink, table, places, margins.rooms);
    put_bears(text, sink, borne);
}

/// Writes the text of these margins, and of how much the table bears.
fn write_lines<K: Sink>(
    table: &Table,
    margins: Margins,
    borne: Option<Borne>,
    sink: &mut K,
) -> Result<(), WriteFault>
    ensures { WritesText K.held K.faults sink.old sink.new result (texts.margins_lines table.now margins borne) }
{
    let places = turn_places(table);
    let mut text = TextBuffer::new();
    put_lines(&mut text, sink, table, &places, margins, borne);
    text.finish(sink)
}

/// Writes the level of a periodic table within bounds, the room that it leaves by each rule, and how much it bears, in one push where the
/// sink takes all. It takes no memory.
pub fn write_periodic<K: Sink>(
    table: &Table,
    bounds: Bounds,
    sink: &mut K,
) -> Result<(), WriteFault>
    requires { table.now.mode ≡ Mode.Periodic }
    ensures { WritesText K.held K.faults sink.old sink.new result (texts.periodic_text bounds table.now) }
{
    write_lines(table, margins(table, bounds), bears(table, bounds), sink)
}
