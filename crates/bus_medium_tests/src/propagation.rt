//! Tries of a bus on a cable.
ghost use Rattle.std.specs.Prelude.{ℕ, ◌≤◌, ◌<◌, IfOk};
ghost use Rattle.bus_propagation.specs.Numbered.{numbered};

use crate::propagation_rows::{ROWS, Row};
use crate::shared::starts_are;
use bus_hands::read_hands;
use bus_medium::Bus;
use bus_propagation::observe_delayed;
use bus_strings::limits::HORIZON_LIMIT;
use bus_table::{Table, read_table};
use bus_timers::DeadlineCore;
use std::alloc::{AllocError, Global};
use std::cmp::min;
use std::test::Fail;

/// The value, or the most.
fn at_most(value: u64, most: u64) -> u64
    ensures { result ≤ most }
{
    if value < most { value } else { most }
}

/// Numbers for the terminals 1, 2 .., none above the most.
fn numbers(alloc: Global, values: &[u64], most: u64) -> Result<Vec<u64>, AllocError>
    ensures { IfOk result (λ numbers. (n : ℕ) → numbered numbers.items n ≤ most) }
{
    let mut numbers = Vec::new(alloc);
    numbers.push(0)?;
    for value in values {
        numbers.push(at_most(*value, most))?;
    }
    Ok(numbers)
}

/// Whether the bus gives the starts of a row.
fn is_run_on_bus(alloc: Global, table: &Table, row: &Row) -> Result<bool, Fail> {
    let hands = read_hands(alloc, table, row.messages)?;
    let mut bus = Bus::<DeadlineCore>::settled(alloc, table, hands)?;
    let list = bus.observe_by_jumps(min(row.horizon, HORIZON_LIMIT))?;
    Ok(starts_are(&list, row.starts))
}

/// Whether the cable of a row gives its starts.
fn is_run(alloc: Global, table: &Table, row: &Row) -> Result<bool, Fail> {
    let places = numbers(alloc, row.places, 1024)?;
    let wakes = numbers(alloc, row.wakes, HORIZON_LIMIT - 1)?;
    let hands = read_hands(alloc, table, row.messages)?;
    let horizon = min(row.horizon, HORIZON_LIMIT);
    let list = observe_delayed(alloc, table, &places, &wakes, hands, horizon)?;
    Ok(starts_are(&list, row.starts))
}

/// Whether a row has its starts on its cable. Without places and wakes they are those of the bus too.
fn is_shown(alloc: Global, row: &Row) -> Result<bool, Fail> {
    let table = read_table(alloc, row.table)?;
    if row.places.is_empty() && row.wakes.is_empty() && !is_run_on_bus(alloc, &table, row)? {
        return Ok(false);
    }
    is_run(alloc, &table, row)
}

#[test]
fn a_cable_gives_its_starts(rt: HostRuntime) -> Result<(), Fail> {
    for (k, row) in ROWS.iter().enumerate() {
        assert!(rt; is_shown(rt.alloc(), row)?, "row {k}");
    }
    Ok(())
}
