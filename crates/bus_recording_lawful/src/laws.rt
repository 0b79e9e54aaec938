//! Laws of recordings beside an audit. Each is the contract of a function that does nothing.
ghost use Rattle.bus_recording_lawful.specs.Faultless.{LawfulHasNoFault};
ghost use Rattle.bus_recording_lawful.specs.Lawful.{AuditedIsClean, LawfulIsClean, CleanStartIsAllowed, TableIsClean};
ghost use Rattle.bus_recording_lawful.specs.Whole.{AuditIsTold, LawfulIsTold};

use bus_audit::laws::{lawful_is_observed, no_breach_is_right, observed_is_lawful};
use bus_findings::laws::good_buses_have_no_fault;
use bus_recording::laws::{
    clean_starts_are_lawful, keeping_is_clean, recordings_count_from_anywhere,
};

/// What senders do whose clocks are exact, on a bus without delays, has no finding, from whichever moment on it is recorded. So it is where
/// an audit finds no breach.
pub fn lawful_is_clean()
    ensures stations { LawfulIsClean }
    ensures table { TableIsClean }
    ensures audited { AuditedIsClean }
{
    keeping_is_clean();
    recordings_count_from_anywhere();
    lawful_is_observed();
}

/// Of any list of transmissions in which a terminal's own don't overlap, a start behind another of that terminal has no finding exactly
/// where its timers let it start there, by the rule of an audit, and nowhere between the two.
pub fn clean_starts_are_allowed()
    ensures { CleanStartIsAllowed }
{
    clean_starts_are_lawful();
}

/// What is wanting to what is lawful, where no sender has a finding: that each begins, and ends, where its timers and its hand say. So it
/// is of traces in which an audit finds no breach.
pub fn lawful_is_told()
    ensures list { LawfulIsTold }
    ensures audit { AuditIsTold }
{
    lawful_is_clean();
    clean_starts_are_allowed();
    lawful_is_observed();
    observed_is_lawful();
}

/// So a trace in which an audit finds no breach has no fault, as a recording of a bus whose clocks are exact and that delays nothing.
pub fn lawful_has_no_fault()
    ensures { LawfulHasNoFault }
{
    lawful_is_clean();
    no_breach_is_right();
    good_buses_have_no_fault();
}
