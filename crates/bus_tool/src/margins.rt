//! The command `margins`: how much room a table leaves within bounds.
ghost use Rattle.std.specs.Prelude.{◌≡◌};
ghost use Rattle.bus_outer.specs.Sinks.{WritesText};
ghost use Rattle.bus_tool.specs.inside.Acting.{EndsOnTable};
ghost use Rattle.bus_tool.specs.Due as due;
ghost use Rattle.bus_tool.specs.Forms as form;
ghost use Rattle.bus_tool.specs.MarginsTexts.{margins_answer, margins_text};

use crate::refusal::Outcome;
use bus_bounds::Bounds;
use bus_command::after_writing;
use bus_margins::{Level, level_of, write_aperiodic};
use bus_margins_periodic::{Level as TurnsLevel, level_of as turns_level, write_periodic};
use bus_outer::{Sink, WriteFault};
use bus_regime::{TableVerdict, verdict, write_verdict};
use bus_table::{Mode, Table};

/// What comes of the level of an aperiodic table once it is written.
fn level_outcome(level: Level) -> Outcome
    ensures { result ≡ due.level_outcome level }
{
    match level {
        Level::Any | Level::Common => Outcome::Done,
        Level::Neither => Outcome::Answered,
    }
}

/// What comes of the level of a periodic one.
fn turns_outcome(level: TurnsLevel) -> Outcome
    ensures { result ≡ due.turns_outcome level }
{
    match level {
        TurnsLevel::Turns | TurnsLevel::Leads => Outcome::Done,
        TurnsLevel::Neither => Outcome::Answered,
    }
}

/// What comes of the level of a table of this mode.
fn outcome_in(mode: Mode, table: &Table, bounds: Bounds) -> Outcome
    requires { mode ≡ table.now.mode }
    ensures { result ≡ due.outcome_in mode bounds table.now }
{
    match mode {
        Mode::Aperiodic => level_outcome(level_of(table, bounds)),
        Mode::Periodic => turns_outcome(turns_level(table, bounds)),
    }
}

/// What comes of a table with this verdict once its margins, or the verdict, are written.
fn margins_outcome(verdict: &TableVerdict, table: &Table, bounds: Bounds) -> Outcome
    ensures { result ≡ due.margins_outcome verdict.now bounds table.now }
{
    match verdict {
        TableVerdict::Accept { .. } => outcome_in(table.mode(), table, bounds),
        TableVerdict::ShortCycle { .. }
        | TableVerdict::SmallGap { .. }
        | TableVerdict::NoSync { .. } => Outcome::Answered,
    }
}

/// Writes the margins of a table of this mode.
fn write_in<K: Sink>(
    mode: Mode,
    table: &Table,
    bounds: Bounds,
    sink: &mut K,
) -> Result<(), WriteFault>
    requires { mode ≡ table.now.mode }
    ensures { WritesText K.held K.faults sink.old sink.new result (margins_text mode bounds table.now) }
{
    match mode {
        Mode::Aperiodic => write_aperiodic(table, bounds, sink),
        Mode::Periodic => write_periodic(table, bounds, sink),
    }
}

/// Writes the margins of an accepted table, or the verdict line of a refused one.
fn write_margins<K: Sink>(
    table: &Table,
    verdict: &TableVerdict,
    bounds: Bounds,
    sink: &mut K,
) -> Result<(), WriteFault>
    ensures { WritesText K.held K.faults sink.old sink.new result (margins_answer verdict.now bounds table.now) }
{
    match *verdict {
        TableVerdict::Accept { .. } => write_in(table.mode(), table, bounds, sink),
        TableVerdict::ShortCycle { .. }
        | TableVerdict::SmallGap { .. }
        | TableVerdict::NoSync { .. } => write_verdict(verdict, sink),
    }
}

/// Writes how much room a table leaves on a bus of these bounds, where it is accepted, or the verdict line of a refused one.
pub fn margins<K: Sink>(table: &Table, bounds: Bounds, out: &mut K) -> Outcome
    ensures { EndsOnTable ⟦<K as Sink>⟧ (form.Margins bounds) table.now out.old out.new result }
{
    let verdict = verdict(table);
    after_writing(
        write_margins(table, &verdict, bounds, out),
        margins_outcome(&verdict, table, bounds),
    )
}
