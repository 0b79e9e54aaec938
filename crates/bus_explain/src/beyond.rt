//! What is said of an accepted table beyond itself: with other offsets, where clocks are off, and what is odd about its lines.
ghost use Rattle.std.specs.Prelude.{◌≡◌};
ghost use Rattle.bus_outer.specs.Sinks.{WritesText};
ghost use Rattle.bus_outer.specs.Texts.{Adds};
ghost use Rattle.bus_table.specs.declared.mode.Mode.TheVariants.{Aperiodic};
ghost use Rattle.bus_explain.specs.Beyond as beyond;
ghost use Rattle.bus_explain.specs.Beyond.{beyond_text, drifting_in, offsets_line, rest_text};

use crate::wordings::{DRIFTING_ANY, DRIFTING_COMMON, DRIFTING_NONE, MOST_DELAY};
use bus_margins::{Level, level_of};
use bus_margins_periodic::{drifting, write_drifting};
use bus_outer::{Sink, TextBuffer, WriteFault};
use bus_say::say;
use bus_table::{Mode, Table};
use bus_takes::write_takes;

/// What is said of an aperiodic table that has this level where clocks are off.
fn level_wording(level: Level) -> &'static [u8]
    ensures { result.now ≡ beyond.level_wording level }
{
    match level {
        Level::Any => DRIFTING_ANY,
        Level::Common => DRIFTING_COMMON,
        Level::Neither => DRIFTING_NONE,
    }
}

/// Puts what is said of an aperiodic table where clocks are off.
fn put_level<K: Sink>(text: &mut TextBuffer, sink: &mut K, table: &Table)
    requires { table.now.mode ≡ Aperiodic }
    ensures { Adds K.held K.faults sink.old sink.new text.old text.new (drifting_in Aperiodic table.now) }
{
    let level = level_of(table, drifting());
    say(text, sink, level_wording(level), &[]);
}

/// Writes it.
fn write_level<K: Sink>(table: &Table, out: &mut K) -> Result<(), WriteFault>
    requires { table.now.mode ≡ Aperiodic }
    ensures { WritesText K.held K.faults out.old out.new result (drifting_in Aperiodic table.now) }
{
    let mut text = TextBuffer::new();
    put_level(&mut text, out, table);
    text.finish(out)
}

/// Writes what is said of an accepted table of this mode where clocks are off.
fn write_drift<K: Sink>(mode: Mode, table: &Table, out: &mut K) -> Result<(), WriteFault>
    requires { mode ≡ table.now.mode }
    ensures { WritesText K.held K.faults out.old out.new result (drifting_in mode table.now) }
{
    match mode {
        Mode::Aperiodic => write_level(table, out),
        Mode::Periodic => write_drifting(table, out),
    }
}

/// Writes it, and what is odd about the table's lines.
fn write_rest<K: Sink>(table: &Table, out: &mut K) -> Result<(), WriteFault>
    ensures { WritesText K.held K.faults out.old out.new result (rest_text table.now) }
{
    write_drift(table.mode(), table, out)?;
    write_takes(table, out)
}

/// Puts the greatest delay that any offsets bear, where it is known.
fn put_offsets<K: Sink>(text: &mut TextBuffer, sink: &mut K, most: Option<u32>)
    ensures { Adds K.held K.faults sink.old sink.new text.old text.new (offsets_line most) }
{
    if let Some(most) = most {
        say(text, sink, MOST_DELAY, &[most as u128]);
    }
}

/// Writes it.
fn write_offsets<K: Sink>(most: Option<u32>, out: &mut K) -> Result<(), WriteFault>
    ensures { WritesText K.held K.faults out.old out.new result (offsets_line most) }
{
    let mut text = TextBuffer::new();
    put_offsets(&mut text, out, most);
    text.finish(out)
}

/// Writes what is said of an accepted table beyond itself, where any offsets bear at most this delay, in bit times, if that is known. It takes
/// no memory.
pub fn write_beyond<K: Sink>(
    table: &Table,
    most: Option<u32>,
    out: &mut K,
) -> Result<(), WriteFault>
    ensures { WritesText K.held K.faults out.old out.new result (beyond_text most table.now) }
{
    write_offsets(most, out)?;
    write_rest(table, out)
}
