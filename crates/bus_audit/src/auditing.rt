//! The audit of a trace against a table.
ghost use Rattle.std.specs.Prelude.{◌≡◌, IfOk};
ghost use Rattle.bus_strings.specs.Transmissions.{IsAscending};
ghost use Rattle.bus_audit.specs.Breaches.{IsAnswer, answer_of, garbled_count};

use crate::answer::AuditAnswer;
use crate::laws::one_answer;
use crate::lazy_timers::lazy_all;
use crate::settle::settle_all;
use crate::walk::walk;
use bus_strings::laws::neighbours_tell;
use bus_strings::{Marks, Transmission};
use bus_table::Table;
use bus_trace::Trace;
use std::alloc::{AllocError, Global};

/// How many transmissions of a list are garbled. The list has to ascend by moment and, at the same moment, by terminal.
pub fn count_garbled(list: &[Transmission]) -> u64
    requires { IsAscending list.now }
    ensures { result ≡ garbled_count list.now }
{
    neighbours_tell();
    let _count = list.len();
    Marks::new(list).filter(|mark| *mark).count() as u64
}

/// The first breach of a trace for a table, or that there is none, with the number of garbled transmissions.
///
/// Pairs of a moment and a terminal are looked at by moment and then by number, up to the horizon of the trace; at a
/// pair the first [`BreachKind`](crate::BreachKind) that applies is told. The order is this project's profile. Time goes
/// with the entries times the senders and memory with the senders, whatever the horizon. The error is that of lists of
/// one record a sender for which there is no memory.
pub fn audit(alloc: Global, table: &Table, trace: &Trace) -> Result<AuditAnswer, AllocError>
    ensures is { IfOk result (λ answer. IsAnswer table.now trace.now answer) }
    ensures value { IfOk result (λ answer. answer ≡ answer_of table.now trace.now) }
    ensures only { IfOk result (λ answer. (other : AuditAnswer) → IsAnswer table.now trace.now other → other ≡ answer) }
{
    one_answer();
    let _valid = table.senders();
    let _ranges = trace.list();
    let watches = settle_all(alloc, table, trace.holds())?;
    let mut timers = lazy_all(alloc, &watches)?;
    match walk(table, trace, &mut timers) {
        Err(found) => Ok(AuditAnswer::Breach {
            moment: found.moment,
            terminal: found.terminal,
            kind: found.kind,
        }),
        Ok(()) => Ok(AuditAnswer::Lawful {
            collided: count_garbled(trace.list()),
        }),
    }
}
