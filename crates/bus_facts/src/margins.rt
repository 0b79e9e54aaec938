//! What an accepted table promises on clocks that drift, as a JSON value.
ghost use Rattle.std.specs.Prelude.{◌≡◌, IfOk};
ghost use Rattle.serde_json.specs.View.{view};
ghost use Rattle.bus_margins.specs.Texts as aperiodic;
ghost use Rattle.bus_margins_periodic.specs.Texts as periodic;
ghost use Rattle.bus_facts.specs.Margins as levels;

use bus_bounds::Bounds;
use bus_margins::Level as AperiodicLevel;
use bus_margins_periodic::{Level as PeriodicLevel, drifting};
use bus_table::{Mode, Table};
use serde_json::{Value, json};
use std::alloc::{AllocError, Global};

/// The word of the level of an aperiodic table.
fn aperiodic_word(level: AperiodicLevel) -> &'static str
    ensures { result.now ≡ aperiodic.level_word level }
{
    match level {
        AperiodicLevel::Any => "any",
        AperiodicLevel::Common => "common",
        AperiodicLevel::Neither => "none",
    }
}

/// The word of the level of a periodic table.
fn periodic_word(level: PeriodicLevel) -> &'static str
    ensures { result.now ≡ periodic.level_word level }
{
    match level {
        PeriodicLevel::Turns => "turns",
        PeriodicLevel::Leads => "leads",
        PeriodicLevel::Neither => "none",
    }
}

/// The word of the level of a table.
fn level_word(table: &Table, bounds: Bounds) -> &'static str
    ensures { result.now ≡ levels.level_word_in table.now.mode bounds table.now }
{
    match table.mode() {
        Mode::Aperiodic => aperiodic_word(bus_margins::level_of(table, bounds)),
        Mode::Periodic => periodic_word(bus_margins_periodic::level_of(table, bounds)),
    }
}

/// Bounds, and a level within them.
fn level_value(alloc: Global, bounds: Bounds, level: &str) -> Result<Value, AllocError>
    ensures { IfOk result (λ value. view value ≡ levels.level_value bounds level.now) }
{
    json!(in alloc; {
        "clocks": bounds.clocks(),
        "delay": bounds.delay(),
        "jitter": bounds.jitter(),
        "level": level
    })
}

/// What is told of the level of a table.
pub(crate) fn margins_value(alloc: Global, table: &Table) -> Result<Value, AllocError>
    ensures { IfOk result (λ value. view value ≡ levels.margins_value table.now) }
{
    let bounds = drifting();
    level_value(alloc, bounds, level_word(table, bounds))
}
