//! How much is found.
ghost use Rattle.std.specs.Prelude.{◌≡◌, ◌+◌, ◌<◌, ◌≤◌, ◌^◌};
ghost use Rattle.bus_findings.specs.Terminals as counts;
ghost use Rattle.bus_findings.specs.inside.Standing as standing;

use crate::judgement::{Judgement, Late};

/// How many of each kind are found.
#[derive(Clone, Copy, Debug)]
pub struct Totals {
    /// Starts too early by a timer, once for each timer.
    pub early: u64,
    /// Late starts before which nobody else began.
    pub late: u64,
    /// Late starts before which others began.
    pub passed: u64,
    /// Transmissions of terminals that are no sender.
    pub strangers: u64,
    /// Messages that don't fit.
    pub misfits: u64,
}

/// Whether others began in between.
fn is_passed(late: Late) -> bool
    ensures { result ≡ counts.is_passed late }
{
    late.passed > 0
}

/// Whether a start is late, with or without others in between.
fn is_late(passed: bool, late: Option<Late>) -> bool
    ensures { result ≡ counts.is_late passed late }
{
    match late {
        Some(late) => {
            if passed {
                is_passed(late)
            } else {
                !is_passed(late)
            }
        }
        None => false,
    }
}

/// 1 where it is so, else 0.
pub(crate) fn once(so: bool) -> u64
    ensures value { result ≡ counts.once so }
    ensures most { result ≤ 1 }
{
    if so { 1 } else { 0 }
}

/// By how many timers a transmission is too early.
fn early_count(judgement: &Judgement) -> u64
    ensures value { result ≡ counts.early_count judgement.now }
    ensures most { result ≤ 3 }
{
    once(judgement.interval > 0) + once(judgement.sync_gap > 0) + once(judgement.terminal_gap > 0)
}

/// How many faults are found at a transmission.
pub(crate) fn fault_count(judgement: &Judgement) -> u64
    ensures value { result ≡ counts.fault_count judgement.now }
    ensures most { result ≤ 6 }
{
    once(judgement.stranger)
        + early_count(judgement)
        + once(judgement.late.is_some())
        + once(judgement.misfit)
}

impl Totals {
    /// Nothing is found.
    pub(crate) fn none() -> Totals
        ensures { result ≡ standing.no_totals }
    {
        Totals {
            early: 0,
            late: 0,
            passed: 0,
            strangers: 0,
            misfits: 0,
        }
    }

    /// With what is found at one more transmission.
    pub(crate) fn with(self, judgement: &Judgement) -> Totals
        requires { standing.AreFew self (2 ^ 56) }
        ensures { result ≡ standing.with_judgement self judgement.now }
    {
        Totals {
            early: self.early + early_count(judgement),
            late: self.late + once(is_late(false, judgement.late)),
            passed: self.passed + once(is_late(true, judgement.late)),
            strangers: self.strangers + once(judgement.stranger),
            misfits: self.misfits + once(judgement.misfit),
        }
    }

    /// How many faults there are.
    pub(crate) fn faults(self) -> u64
        requires { standing.AreFew self (2 ^ 56) }
        ensures { result ≡ self.early + self.late + self.passed + self.strangers + self.misfits }
    {
        self.early + self.late + self.passed + self.strangers + self.misfits
    }
}
