//! The command `tolerance`: how much delay a table bears.
ghost use Rattle.std.specs.Prelude.{◌≡◌, IsTrue};
ghost use Rattle.bus_outer.specs.Sinks.{WritesText};
ghost use Rattle.bus_outer.specs.Texts.{Adds};
ghost use Rattle.bus_regime.specs.Verdicts.{verdict_of, is_accepted};
ghost use Rattle.bus_tool.specs.inside.Acting.{EndsOnTable};
ghost use Rattle.bus_tool.specs.Forms.{Tolerance};
ghost use Rattle.bus_tool.specs.Tolerances as tolerances;

use crate::check::verdict_outcome;
use crate::refusal::Outcome;
use bus_command::after_writing;
use bus_outer::{Sink, TextBuffer, WriteFault};
use bus_regime::{TableVerdict, starts_itself, verdict, write_verdict};
use bus_table::laws::table_is_valid;
use bus_table::{Mode, Table, put_mode};

/// The tolerance of an accepted table, in bit times; None where it has one sender.
pub fn tolerance_of(table: &Table) -> Option<u64>
    requires { IsTrue (is_accepted (verdict_of table.now)) }
    ensures { result ≡ tolerances.tolerance_of table.now }
{
    table_is_valid(table);
    bus_reach::tolerance(table)
}

/// How far apart two starts of one of so many senders are at most, in bit times, with delays up to the tolerance.
fn most_apart(mode: Mode, senders: usize, tolerance: Option<u64>, most: u64) -> u128
    ensures { result ≡ tolerances.most_apart mode senders tolerance most }
{
    match (mode, tolerance) {
        (Mode::Aperiodic, Some(d)) => u128::from(most) + senders as u128 * u128::from(d),
        (Mode::Aperiodic, None) | (Mode::Periodic, _) => u128::from(most),
    }
}

/// Whether the order of a table comes about from any start.
fn starts_anyhow(table: &Table) -> bool
    ensures { result ≡ tolerances.starts_in table.now.mode table.now }
{
    match table.mode() {
        Mode::Aperiodic => starts_itself(table),
        Mode::Periodic => false,
    }
}

/// Puts a tolerance.
fn put_tolerance<K: Sink>(text: &mut TextBuffer, sink: &mut K, tolerance: Option<u64>)
    ensures { Adds K.held K.faults sink.old sink.new text.old text.new (tolerances.tolerance_word tolerance) }
{
    match tolerance {
        Some(d) => text.put_number(sink, d),
        None => text.put(sink, b"any"),
    }
}

/// Puts whether order comes about from any start.
fn put_start<K: Sink>(text: &mut TextBuffer, sink: &mut K, anyhow: bool)
    ensures { Adds K.held K.faults sink.old sink.new text.old text.new (tolerances.start_word anyhow) }
{
    if anyhow {
        text.put(sink, b"any");
    } else {
        text.put(sink, b"settled");
    }
}

/// Puts a tolerance line of these fields.
fn put_fields<K: Sink>(
    text: &mut TextBuffer,
    sink: &mut K,
    mode: Mode,
    tolerance: Option<u64>,
    least: u64,
    most: u128,
    anyhow: bool,
)
    ensures { Adds K.held K.faults sink.old sink.new text.old text.new (tolerances.tolerance_fields mode tolerance least most anyhow) }
{
    text.put(sink, b"TOLERANCE ");
    put_mode(text, sink, mode);
    text.put_byte(sink, b' ');
    put_tolerance(text, sink, tolerance);
    text.put_byte(sink, b' ');
    text.put_number(sink, least);
    text.put_byte(sink, b' ');
    text.put_number(sink, most);
    text.put_byte(sink, b' ');
    put_start(text, sink, anyhow);
    text.put_byte(sink, b'\n');
}

/// Writes a tolerance line of these fields.
fn write_fields<K: Sink>(
    mode: Mode,
    tolerance: Option<u64>,
    least: u64,
    most: u128,
    anyhow: bool,
    sink: &mut K,
) -> Result<(), WriteFault>
    ensures { WritesText K.held K.faults sink.old sink.new result (tolerances.tolerance_fields mode tolerance least most anyhow) }
{
    let mut text = TextBuffer::new();
    put_fields(&mut text, sink, mode, tolerance, least, most, anyhow);
    text.finish(sink)
}

/// Writes the tolerance line of an accepted table.
fn write_line<K: Sink>(table: &Table, least: u64, most: u64, sink: &mut K) -> Result<(), WriteFault>
    requires { IsTrue (is_accepted (verdict_of table.now)) }
    ensures { WritesText K.held K.faults sink.old sink.new result (tolerances.tolerance_line table.now least most) }
{
    let tolerance = tolerance_of(table);
    let mode = table.mode();
    let apart = most_apart(mode, table.senders().len(), tolerance, most);
    let anyhow = starts_anyhow(table);
    write_fields(mode, tolerance, least, apart, anyhow, sink)
}

/// Writes the tolerance line of an accepted table, or the verdict line of a refused one.
fn write_tolerance<K: Sink>(
    table: &Table,
    verdict: &TableVerdict,
    sink: &mut K,
) -> Result<(), WriteFault>
    requires { verdict.now ≡ verdict_of table.now }
    ensures { WritesText K.held K.faults sink.old sink.new result (tolerances.tolerance_text verdict.now table.now) }
{
    match *verdict {
        TableVerdict::Accept { least, most, .. } => write_line(table, least, most, sink),
        TableVerdict::ShortCycle { .. }
        | TableVerdict::SmallGap { .. }
        | TableVerdict::NoSync { .. } => write_verdict(verdict, sink),
    }
}

/// Writes how much delay an accepted table bears, or the verdict line of a refused one.
pub fn tolerance<K: Sink>(table: &Table, out: &mut K) -> Outcome
    ensures { EndsOnTable ⟦<K as Sink>⟧ Tolerance table.now out.old out.new result }
{
    let verdict = verdict(table);
    after_writing(
        write_tolerance(table, &verdict, out),
        verdict_outcome(&verdict),
    )
}
