//! An accepted table, a sentence a line.
ghost use Rattle.std.specs.Prelude.{◌≡◌};
ghost use Rattle.bus_outer.specs.Sinks.{WritesText};
ghost use Rattle.bus_outer.specs.Texts.{Adds};
ghost use Rattle.bus_explain.specs.Accepted as accepted;

use crate::figures::{load, put_load, spare};
use crate::senders::put_senders;
use crate::starts::put_start;
use crate::wordings::{
    ACCEPTED, BEARS_DELAY, BEARS_EACH, BEARS_POWER_UPS, CYCLE, CYCLES, LOAD, LOAD_MEANS,
};
use bus_advice::Advice;
use bus_outer::{Sink, TextBuffer, WriteFault};
use bus_say::say;
use bus_table::laws::table_is_valid;
use bus_table::ranges::{LEAST_TI, MOST_TI};
use bus_table::{Mode, Table};

/// What is said of the cycles and the spare of a table of this mode.
fn cycles_wording(mode: Mode) -> &'static [u8]
    ensures { result.now ≡ accepted.cycles_wording mode }
{
    match mode {
        Mode::Aperiodic => CYCLES,
        Mode::Periodic => CYCLE,
    }
}

/// Puts how long the cycles of a table are, and how much its transmit interval could change.
fn put_cycles<K: Sink>(
    text: &mut TextBuffer,
    sink: &mut K,
    mode: Mode,
    least: u64,
    most: u64,
    spare: u64,
)
    ensures { Adds K.held K.faults sink.old sink.new text.old text.new (accepted.cycles_lines mode least most spare) }
{
    say(
        text,
        sink,
        cycles_wording(mode),
        &[
            least as u128,
            most as u128,
            spare as u128,
            LEAST_TI as u128,
            MOST_TI as u128,
        ],
    );
}

/// Puts how much of the bus is used.
fn put_load_line<K: Sink>(text: &mut TextBuffer, sink: &mut K, load: u128)
    ensures { Adds K.held K.faults sink.old sink.new text.old text.new (accepted.load_line load) }
{
    say(text, sink, LOAD, &[]);
    put_load(text, sink, load);
    say(text, sink, LOAD_MEANS, &[]);
}

/// What is said of the tolerance of a table of this mode.
fn tolerance_wording(mode: Mode) -> &'static [u8]
    ensures { result.now ≡ accepted.tolerance_wording mode }
{
    match mode {
        Mode::Aperiodic => BEARS_POWER_UPS,
        Mode::Periodic => BEARS_DELAY,
    }
}

/// Puts how much delay the table bears.
fn put_tolerance<K: Sink>(text: &mut TextBuffer, sink: &mut K, mode: Mode, tolerance: Option<u64>)
    ensures { Adds K.held K.faults sink.old sink.new text.old text.new (accepted.tolerance_line mode tolerance) }
{
    match tolerance {
        None => say(text, sink, BEARS_EACH, &[]),
        Some(delay) => say(text, sink, tolerance_wording(mode), &[delay as u128]),
    }
}

/// Puts what is said of an accepted table before its senders.
fn put_before<K: Sink>(text: &mut TextBuffer, sink: &mut K, table: &Table, least: u64, most: u64)
    requires { accepted.IsAcceptedWith table.now least most }
    ensures { Adds K.held K.faults sink.old sink.new text.old text.new (accepted.before_senders table.now least most) }
{
    table_is_valid(table);
    let mode = table.mode();
    let spare = spare(table, least);
    let load = load(table, most);
    say(text, sink, ACCEPTED, &[]);
    put_cycles(text, sink, mode, least, most, spare);
    put_load_line(text, sink, load);
}

/// Puts what is said of it behind them.
fn put_behind<K: Sink>(
    text: &mut TextBuffer,
    sink: &mut K,
    table: &Table,
    tolerance: Option<u64>,
    advices: &[Advice],
)
    ensures { Adds K.held K.faults sink.old sink.new text.old text.new (accepted.behind_senders table.now tolerance advices.now) }
{
    let mode = table.mode();
    put_tolerance(text, sink, mode, tolerance);
    put_start(text, sink, mode, table, advices);
}

/// Writes what is said of an accepted table: `least` and `most` are its verdict's, `tolerance` is the greatest delay that it bears, in
/// bit times, or None where it bears every delay, and `advices` are those on it. It takes no memory.
pub fn write_accepted<K: Sink>(
    table: &Table,
    least: u64,
    most: u64,
    tolerance: Option<u64>,
    advices: &[Advice],
    sink: &mut K,
) -> Result<(), WriteFault>
    requires { accepted.IsAcceptedWith table.now least most }
    ensures { WritesText K.held K.faults sink.old sink.new result (accepted.accepted_text table.now least most tolerance advices.now) }
{
    let mut text = TextBuffer::new();
    put_before(&mut text, sink, table, least, most);
    put_senders(&mut text, sink, table.mode(), table, most);
    put_behind(&mut text, sink, table, tolerance, advices);
    text.finish(sink)
}

/// Writes the same without what is said of its senders one by one, for who shows these otherwise. It takes no memory.
pub fn write_summary<K: Sink>(
    table: &Table,
    least: u64,
    most: u64,
    tolerance: Option<u64>,
    advices: &[Advice],
    sink: &mut K,
) -> Result<(), WriteFault>
    requires { accepted.IsAcceptedWith table.now least most }
    ensures { WritesText K.held K.faults sink.old sink.new result (accepted.summary_text table.now least most tolerance advices.now) }
{
    let mut text = TextBuffer::new();
    put_before(&mut text, sink, table, least, most);
    put_behind(&mut text, sink, table, tolerance, advices);
    text.finish(sink)
}
