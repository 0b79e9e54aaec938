//! The senders of an accepted table, a line for each.
ghost use Rattle.std.specs.List.{flat_map};
ghost use Rattle.bus_outer.specs.Texts.{Adds};
ghost use Rattle.bus_table.specs.Turns.{turn_order};
ghost use Rattle.bus_table.specs.declared.mode.Mode.TheVariants.{Aperiodic, Periodic};
ghost use Rattle.bus_regime.specs.Gaps.{gaps};
ghost use Rattle.bus_explain.specs.Senders as senders;

use crate::columns::{put_number, put_time_columns};
use crate::figures::gap_bits;
use crate::wordings::{OFFSETS, TURNS};
use bus_outer::{Sink, TextBuffer};
use bus_regime::{TurnGap, gap_at, turn_ends};
use bus_say::say;
use bus_table::{Mode, Sender, Table, longest, shortest, turn_at, turn_places};

/// Puts the terminal gap of a sender, and its shortest and its longest message.
fn put_last_columns<K: Sink>(text: &mut TextBuffer, sink: &mut K, tg: u32, short: u32, long: u32)
    ensures { Adds K.held K.faults sink.old sink.new text.old text.new (senders.last_columns tg short long) }
{
    put_time_columns(text, sink, tg as u64);
    put_time_columns(text, sink, short as u64);
    put_time_columns(text, sink, long as u64);
    text.put(sink, b"\n");
}

/// Puts the line of a sender that starts in its turn.
fn put_turn<K: Sink>(text: &mut TextBuffer, sink: &mut K, sender: &Sender)
    ensures { Adds K.held K.faults sink.old sink.new text.old text.new (senders.turn_row sender.now) }
{
    put_number(text, sink, sender.number());
    put_last_columns(text, sink, sender.tg(), shortest(sender), longest(sender));
}

/// Puts the line of the sender behind a gap, which starts at its offset.
fn put_offset<K: Sink>(text: &mut TextBuffer, sink: &mut K, gap: &TurnGap<'_>)
    ensures { Adds K.held K.faults sink.old sink.new text.old text.new (senders.offset_row gap.now) }
{
    let sender = gap.sender();
    put_number(text, sink, sender.number());
    put_time_columns(text, sink, sender.at() as u64);
    put_time_columns(text, sink, gap_bits(gap));
    put_last_columns(text, sink, sender.tg(), shortest(sender), longest(sender));
}

/// Puts the lines of the senders of an aperiodic table.
fn put_turns<K: Sink>(text: &mut TextBuffer, sink: &mut K, table: &Table)
    ensures { Adds K.held K.faults sink.old sink.new text.old text.new (flat_map senders.turn_row (turn_order table.now)) }
{
    let places = turn_places(table);
    for k in 0..table.senders().len() {
        put_turn(text, sink, turn_at(table, &places, k));
    }
}

/// Puts the lines of the senders of a periodic table.
fn put_offsets<K: Sink>(text: &mut TextBuffer, sink: &mut K, table: &Table)
    ensures { Adds K.held K.faults sink.old sink.new text.old text.new (flat_map senders.offset_row (gaps table.now)) }
{
    let places = turn_places(table);
    let ends = turn_ends(table, &places);
    for k in 0..table.senders().len() {
        let gap = gap_at(table, &places, &ends, k);
        put_offset(text, sink, &gap);
    }
}

/// Puts all that is said of the senders of an aperiodic table.
fn put_in_turns<K: Sink>(text: &mut TextBuffer, sink: &mut K, table: &Table, most: u64)
    ensures { Adds K.held K.faults sink.old sink.new text.old text.new (senders.senders_text Aperiodic table.now most) }
{
    say(text, sink, TURNS, &[most as u128]);
    put_turns(text, sink, table);
}

/// Puts all that is said of the senders of a periodic table.
fn put_at_offsets<K: Sink>(text: &mut TextBuffer, sink: &mut K, table: &Table, most: u64)
    ensures { Adds K.held K.faults sink.old sink.new text.old text.new (senders.senders_text Periodic table.now most) }
{
    say(text, sink, OFFSETS, &[most as u128]);
    put_offsets(text, sink, table);
}

/// Puts all that is said of the senders of a table of this mode.
pub(crate) fn put_senders<K: Sink>(
    text: &mut TextBuffer,
    sink: &mut K,
    mode: Mode,
    table: &Table,
    most: u64,
)
    ensures { Adds K.held K.faults sink.old sink.new text.old text.new (senders.senders_text mode table.now most) }
{
    match mode {
        Mode::Aperiodic => put_in_turns(text, sink, table, most),
        Mode::Periodic => put_at_offsets(text, sink, table, most),
    }
}
