//! The first breach of a trace, for the views that mark it.
ghost use Rattle.std.specs.Prelude.{◌≡◌, ◌<◌, IfOk, IfSome};
ghost use Rattle.bus_strings.specs.Limits.{horizon_limit};
ghost use Rattle.bus_trace.specs.Traces.{IsTrace};
ghost use Rattle.bus_view.specs.Due as due;

use bus_audit::{AuditAnswer, audit};
use bus_dump::FirstBreach;
use bus_table::Table;
use bus_trace::Trace;
use std::alloc::{AllocError, Global};

/// The moment of a breach, where an audit found one.
fn breach_moment(answer: &AuditAnswer) -> Option<u64>
    ensures { result ≡ due.breach_moment answer.now }
{
    match *answer {
        AuditAnswer::Lawful { .. } => None,
        AuditAnswer::Breach { moment, .. } => Some(moment),
    }
}

/// The moment of the first breach that an audit finds in a trace, where it finds one. The error is that of the audit's memory.
pub(crate) fn first_breach(
    alloc: Global,
    table: &Table,
    trace: &Trace,
) -> Result<Option<u64>, AllocError>
    requires { IsTrace trace.now }
    ensures value { IfOk result (λ breach. breach ≡ due.first_breach table.now trace.now) }
    ensures below { IfOk result (λ breach. IfSome breach (λ moment. moment < horizon_limit)) }
{
    match audit(alloc, table, trace) {
        Ok(answer) => Ok(breach_moment(&answer)),
        Err(error) => Err(error),
    }
}

/// A breach with the terminal that it names, where an audit found one.
fn breach_of(answer: &AuditAnswer) -> Option<FirstBreach>
    ensures { result ≡ due.breach_of answer.now }
{
    match *answer {
        AuditAnswer::Lawful { .. } => None,
        AuditAnswer::Breach {
            moment,
            terminal,
            ..
        } => Some(FirstBreach { moment, terminal }),
    }
}

/// The first breach that an audit finds in a trace, where it finds one, with the terminal that it names. The error is that of the audit's
/// memory.
pub(crate) fn named_breach(
    alloc: Global,
    table: &Table,
    trace: &Trace,
) -> Result<Option<FirstBreach>, AllocError>
    requires { IsTrace trace.now }
    ensures value { IfOk result (λ breach. breach ≡ due.named_breach table.now trace.now) }
    ensures below { IfOk result (λ breach. IfSome breach (λ b. b.moment < horizon_limit)) }
{
    match audit(alloc, table, trace) {
        Ok(answer) => Ok(breach_of(&answer)),
        Err(error) => Err(error),
    }
}
