//! Whether a table starts itself, as a JSON value.
ghost use Rattle.std.specs.Prelude.{◌≡◌, ◌+◌, IfOk};
ghost use Rattle.serde_json.specs.View.{view};
ghost use Rattle.bus_table.specs.Lengths as lengths;
ghost use Rattle.bus_table.specs.declared.mode.Mode.TheVariants.{Aperiodic};
ghost use Rattle.bus_facts.specs.Starts as starting;

use crate::values::count_or_null;
use bus_regime::starts_itself;
use bus_table::ranges::{LEAST_TI, MOST_TI};
use bus_table::{Mode, Sender, Table, shortest};
use serde_json::{Value, json};
use std::alloc::{AllocError, Global};

/// How long a sender waits and sends at least from one start to its next, in bit times.
fn least_wait(sg: u32, sender: &Sender) -> u64
    ensures { result ≡ sg + sender.now.tg + lengths.shortest sender.now }
{
    u64::from(sg) + u64::from(sender.tg()) + u64::from(shortest(sender))
}

/// The greatest transmit interval with which a table starts itself; None where it doesn't with the least.
fn greatest_start(table: &Table) -> Option<u64>
    ensures { result ≡ starting.greatest_start table.now }
{
    let sg = table.sg();
    let mut most = u64::from(MOST_TI);
    for sender in table.senders() {
        most = most.min(least_wait(sg, sender));
    }
    if most >= u64::from(LEAST_TI) {
        Some(most)
    } else {
        None
    }
}

/// What is told of the start of an aperiodic table.
fn aperiodic_start(alloc: Global, table: &Table) -> Result<Value, AllocError>
    requires { table.now.mode ≡ Aperiodic }
    ensures { IfOk result (λ value. view value ≡ starting.start_value_in Aperiodic table.now) }
{
    json!(in alloc; {
        "greatest_ti": count_or_null(greatest_start(table)),
        "itself": starts_itself(table)
    })
}

/// What is told of the start of a table.
pub(crate) fn start_value(alloc: Global, table: &Table) -> Result<Value, AllocError>
    ensures { IfOk result (λ value. view value ≡ starting.start_value table.now) }
{
    match table.mode() {
        Mode::Aperiodic => aperiodic_start(alloc, table),
        Mode::Periodic => Ok(Value::Null),
    }
}
