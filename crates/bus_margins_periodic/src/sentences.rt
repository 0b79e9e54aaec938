//! What is said of a table on clocks that aren't exact, in plain sentences.
ghost use Rattle.std.specs.Prelude.{◌≡◌};
ghost use Rattle.bus_outer.specs.Sinks.{WritesText};
ghost use Rattle.bus_outer.specs.Texts.{Adds};
ghost use Rattle.bus_table.specs.Turned.{AreTurned};
ghost use Rattle.bus_margins_periodic.specs.Sentences as sentences;

use crate::level::{Level, Margins};
use crate::room::{Room, Rooms, holds};
use crate::telling::margins;
use crate::wordings::{APART, HELD, LATE, LEADS, NEITHER, ROUND, TURNS, UNHEARD, WAITING, WHERE};
use crate::writing::number_at;
use bus_bounds::Bounds;
use bus_outer::{Sink, TextBuffer, WriteFault};
use bus_say::say;
use bus_table::{MOST_SENDERS, Mode, Table, turn_places};

/// A rule that may lack.
#[derive(Clone, Copy)]
pub(crate) enum Rule {
    /// That of order.
    Order,
    /// That of synchronization.
    Sync,
    /// That of the beginning.
    Begin,
    /// That of hearing.
    Hearing,
}

/// By how many bit times a rule lacks, rounded up.
fn lacking(room: Room) -> u64
    ensures { result ≡ sentences.lacking room }
{
    room.need.saturating_sub(room.have).div_ceil(500)
}

/// What is said where a rule lacks.
fn wording(rule: Rule, room: Room) -> &'static [u8]
    ensures { result.now ≡ sentences.wording rule room }
{
    match rule {
        Rule::Order => if room.first == room.second {
            LATE
        } else {
            HELD
        },
        Rule::Sync => WAITING,
        Rule::Begin => if room.first < room.second {
            APART
        } else {
            ROUND
        },
        Rule::Hearing => UNHEARD,
    }
}

/// Puts what a rule lacks.
fn put_lack<K: Sink>(
    text: &mut TextBuffer,
    sink: &mut K,
    table: &Table,
    places: &[usize; MOST_SENDERS],
    rule: Rule,
    room: Option<Room>,
)
    requires { AreTurned table.now places.now }
    ensures { Adds K.held K.faults sink.old sink.new text.old text.new (sentences.lack_words table.now rule room) }
{
    match room {
        Some(room) => say(
            text,
            sink,
            wording(rule, room),
            &[
                number_at(table, places, room.first) as u128,
                number_at(table, places, room.second) as u128,
                number_at(table, places, room.third) as u128,
                lacking(room) as u128,
            ],
        ),
        None => text.put(sink, b""),
    }
}

/// Puts what the first rule lacks that does.
fn put_first_lack<K: Sink>(
    text: &mut TextBuffer,
    sink: &mut K,
    table: &Table,
    places: &[usize; MOST_SENDERS],
    rooms: Rooms,
)
    requires { AreTurned table.now places.now }
    ensures { Adds K.held K.faults sink.old sink.new text.old text.new (sentences.first_lack_words table.now rooms) }
{
    if !holds(rooms.order) {
        put_lack(text, sink, table, places, Rule::Order, rooms.order);
    } else if !holds(rooms.sync) {
        put_lack(text, sink, table, places, Rule::Sync, rooms.sync);
    } else if !holds(rooms.begin) {
        put_lack(text, sink, table, places, Rule::Begin, rooms.begin);
    } else {
        put_lack(text, sink, table, places, Rule::Hearing, rooms.hearing);
    }
}

/// Puts that nothing is promised, and why.
fn put_neither<K: Sink>(
    text: &mut TextBuffer,
    sink: &mut K,
    table: &Table,
    places: &[usize; MOST_SENDERS],
    rooms: Rooms,
)
    requires { AreTurned table.now places.now }
    ensures { Adds K.held K.faults sink.old sink.new text.old text.new (sentences.drifting_words Level.Neither table.now rooms) }
{
    say(text, sink, NEITHER, &[]);
    put_first_lack(text, sink, table, places, rooms);
}

/// Puts whether the senders keep their turns.
fn put_drifting<K: Sink>(
    text: &mut TextBuffer,
    sink: &mut K,
    level: Level,
    table: &Table,
    places: &[usize; MOST_SENDERS],
    rooms: Rooms,
)
    requires { AreTurned table.now places.now }
    ensures { Adds K.held K.faults sink.old sink.new text.old text.new (sentences.drifting_words level table.now rooms) }
{
    match level {
        Level::Turns => say(text, sink, TURNS, &[]),
        Level::Leads => say(text, sink, LEADS, &[]),
        Level::Neither => put_neither(text, sink, table, places, rooms),
    }
}

/// Writes the sentence of these margins.
fn write_sentence<K: Sink>(table: &Table, margins: Margins, sink: &mut K) -> Result<(), WriteFault>
    ensures { WritesText K.held K.faults sink.old sink.new result (sentences.sentence_of table.now margins) }
{
    let places = turn_places(table);
    let mut text = TextBuffer::new();
    say(&mut text, sink, WHERE, &[]);
    put_drifting(
        &mut text,
        sink,
        margins.level,
        table,
        &places,
        margins.rooms,
    );
    text.finish(sink)
}

/// Oscillators are off by up to 50 millionths, and nothing else is inexact.
pub fn drifting() -> Bounds
    ensures { result ≡ sentences.drifting }
{
    match Bounds::new(0, 0, 50) {
        Some(bounds) => bounds,
        None => unreachable!(),
    }
}

/// Writes in a sentence whether the senders of a periodic table keep their turns where oscillators are off by up to 50 millionths, or else
/// which rule lacks and by how much. It takes no memory.
pub fn write_drifting<K: Sink>(table: &Table, sink: &mut K) -> Result<(), WriteFault>
    requires { table.now.mode ≡ Mode.Periodic }
    ensures { WritesText K.held K.faults sink.old sink.new result (sentences.drifting_text table.now) }
{
    write_sentence(table, margins(table, drifting()), sink)
}
