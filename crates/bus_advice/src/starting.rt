//! The advice on an accepted aperiodic table that doesn't start itself: a lesser transmit interval.
ghost use Rattle.std.specs.Prelude.{◌≡◌, ℕ, ◌+◌, ◌≤◌, ◌↔◌, false, IfOk, IsTrue};
ghost use Rattle.bus_table.specs.Lengths as lengths;
ghost use Rattle.bus_table.specs.Ranges.{most_ti};
ghost use Rattle.bus_table.specs.declared.mode.Mode.TheVariants.{Aperiodic};
ghost use Rattle.bus_regime.specs.Starting.{starts_itself};
ghost use Rattle.bus_advice.specs.Advices as advised;
ghost use Rattle.bus_advice.specs.Changes.{with_interval};

use crate::advice::Advice;
use crate::cycles::add;
use bus_regime::starts_itself;
use bus_table::ranges::LEAST_TI;
use bus_table::{Mode, Sender, Table, shortest};
use std::alloc::{AllocError, Global};

/// How long a sender waits and sends at least from one start to its next, in bit times.
fn least_wait(sg: u32, sender: &Sender) -> u64
    ensures { result ≡ sg + sender.now.tg + lengths.shortest sender.now }
{
    u64::from(sg) + u64::from(sender.tg()) + u64::from(shortest(sender))
}

/// The greatest transmit interval, up to the table's own, that outlasts what no sender waits and sends at least.
fn greatest_start(table: &Table) -> u64
    ensures exact { (n : ℕ) → (n ≤ result) ↔ ((n ≤ table.now.ti) × IsTrue (starts_itself (with_interval n table.now))) }
    ensures bound { result ≤ most_ti }
{
    let sg = table.sg();
    let mut most = u64::from(table.ti());
    for sender in table.senders() {
        most = most.min(least_wait(sg, sender));
    }
    most
}

/// The greatest lesser transmit interval with which an aperiodic table starts itself.
fn starting_interval(table: &Table) -> Option<u32>
    requires aperiodic { table.now.mode ≡ Aperiodic }
    requires waits { starts_itself table.now ≡ false }
    ensures { result ≡ advised.starting_interval table.now }
{
    let _valid = table.ti();
    let ti = greatest_start(table);
    if ti >= u64::from(LEAST_TI) {
        Some(ti as u32)
    } else {
        None
    }
}

/// Whether an accepted table may need a start: an aperiodic one that doesn't start itself.
pub fn lacks_start(table: &Table) -> bool
    ensures { result ≡ advised.lacks_start table.now.mode table.now }
{
    match table.mode() {
        Mode::Aperiodic => !starts_itself(table),
        Mode::Periodic => false,
    }
}

/// The advices on an accepted table. Fails only where memory runs out.
pub(crate) fn start_advices(alloc: Global, table: &Table) -> Result<Vec<Advice>, AllocError>
    ensures { IfOk result (λ advices. advices.items ≡ advised.start_advices table.now) }
{
    let mut advices = Vec::new(alloc);
    if lacks_start(table) {
        add(
            &mut advices,
            starting_interval(table).map(|ti| Advice::Start { ti }),
        )?;
    }
    Ok(advices)
}
