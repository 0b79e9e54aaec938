//! What is told of the rows of a picture before they are drawn.
ghost use Rattle.std.specs.Prelude.{◌≡◌, ◌<◌, ◌≤◌, ◌-◌, ◌^◌, ◌∷◌, IfSome, length};
ghost use Rattle.std.specs.List.{AllByRecursion};
ghost use Rattle.bus_cycles.specs.Sents.{shown};
ghost use Rattle.bus_cycles.specs.inside.Bounds.{IsSeen, IsSent};
ghost use Rattle.bus_cycles.specs.Surveys as definition;

use crate::cut::Seen;
use crate::cycle::{Cycle, Extent};
use crate::one_row_more::{
    cut_with, garbled_with, least_where, longest_with, marked_with, most_where, next_with,
    plain_with, reach_of, whole_with,
};
use crate::shown::Shown;
use bus_audit::AuditAnswer;
use bus_shapes::{Sent, Told};
use bus_trace::{Trace, Window};

/// The most rows that are drawn.
pub(crate) const MOST_ROWS: u64 = 500;

/// What is told of the rows of a list in a window.
#[derive(Clone, Copy, Debug, PartialEq, Eq)]
pub(crate) struct Survey {
    /// How many rows there are.
    pub count: u64,
    /// How many bit times the picture needs: up to the greatest last end of the rows that are drawn, at least a transmit interval, and as
    /// far as the first breach.
    pub longest: u64,
    /// The moment at which the first row begins that isn't drawn.
    pub next: Option<u64>,
    /// The last row that takes the moment of the first breach.
    pub marked: Option<Extent>,
    /// How many of them are whole.
    pub whole: u64,
    /// How many bit times behind its begin all transmissions of a whole row have ended, drawn or not, at least; 0 where there is none.
    pub least: u64,
    /// The same at most.
    pub most: u64,
    /// Whether a row that is drawn has a plain transmission.
    pub plain: bool,
    /// Whether one has a garbled one.
    pub garbled: bool,
    /// Whether one is cut.
    pub cut: bool,
}

/// The moment of the first breach that an audit found, where there is one that the window holds.
fn audited_breach(window: &Window, answer: AuditAnswer) -> Option<u64>
    ensures value { result ≡ definition.audited_breach window.now answer }
    ensures low { IfSome result (λ moment. moment ≤ 2 ^ 40) }
{
    // Its end is below the limit of a horizon, and so is the moment.
    let _to = window.to();
    match answer {
        AuditAnswer::Breach { moment, .. } if window.holds(moment) => Some(moment),
        _ => None,
    }
}

/// The same of what is told of a trace: findings tell of no breach.
pub(crate) fn breach_in(window: &Window, told: &Told) -> Option<u64>
    ensures value { result ≡ definition.breach_in window.now told.now }
    ensures low { IfSome result (λ moment. moment ≤ 2 ^ 40) }
{
    match told {
        Told::Audit(answer) => audited_breach(window, *answer),
        Told::OnCable { .. } | Told::Findings { .. } => None,
    }
}

impl Survey {
    /// What is told where no row is looked at.
    fn nothing(cycle: &Cycle) -> Survey
        ensures value { result ≡ definition.nothing cycle.now }
        ensures low { result.longest < 2 ^ 32 }
    {
        Survey {
            count: 0,
            whole: 0,
            longest: u64::from(cycle.ti),
            next: None,
            marked: None,
            least: 0,
            most: 0,
            plain: false,
            garbled: false,
            cut: false,
        }
    }

    /// One row more.
    fn with_row(self, cycle: &Cycle, seen: Seen, breach: Option<u64>, row: Extent) -> Survey
        requires some { 0 < cycle.now.ti }
        requires seen { IsSeen seen }
        requires few { self.count < 2 ^ 64 - 1 }
        requires whole { self.whole ≤ self.count }
        requires begin { row.begin ≤ 2 ^ 42 }
        requires low { row.end ≤ 2 ^ 41 }
        requires moment { IfSome breach (λ moment. moment ≤ 2 ^ 40) }
        ensures { result ≡ definition.with_row cycle.now seen breach self row }
    {
        Survey {
            count: self.count + 1,
            whole: whole_with(cycle, seen, self.whole, row),
            longest: longest_with(cycle.origin_offset, self.longest, row),
            next: next_with(cycle.origin_offset, self.next, row),
            marked: marked_with(cycle, breach, self.marked, row),
            least: least_where(cycle, seen, self.whole, self.least, row),
            most: most_where(cycle, seen, self.most, row),
            plain: plain_with(self.plain, row),
            garbled: garbled_with(self.garbled, row),
            cut: cut_with(cycle, seen, self.cut, row),
        }
    }

    /// As long as the breach needs.
    fn with_breach(self, origin_offset: u32, breach: Option<u64>) -> Survey
        requires low { self.longest ≤ 2 ^ 41 }
        requires moment { IfSome breach (λ moment. moment ≤ 2 ^ 40) }
        ensures value { result ≡ definition.with_breach origin_offset breach self }
        ensures more { self.longest ≤ result.longest }
        ensures low { result.longest ≤ 2 ^ 41 }
    {
        Survey {
            count: self.count,
            whole: self.whole,
            longest: self
                .longest
                .max(reach_of(origin_offset, breach, self.marked)),
            next: self.next,
            marked: self.marked,
            least: self.least,
            most: self.most,
            plain: self.plain,
            garbled: self.garbled,
            cut: self.cut,
        }
    }
}

/// How many bit times behind the begin of a row all its transmissions have ended, given from how long before the settled start the begin
/// is counted.
pub(crate) fn last_end_of(origin_offset: u32, row: Extent) -> u64
    requires { row.end ≤ 2 ^ 41 }
    ensures { result ≡ definition.last_end_of origin_offset row }
{
    (row.end + u64::from(origin_offset)).saturating_sub(row.begin)
}

/// What is told of the rows of a transmission and those behind it.
fn survey_from(cycle: &Cycle, seen: Seen, breach: Option<u64>, first: &Sent, shown: Shown) -> Survey
    requires some { 0 < cycle.now.ti }
    requires seen { IsSeen seen }
    requires sent { IsSent first.now }
    requires each { AllByRecursion IsSent shown }
    requires few { length shown < 2 ^ 64 - 1 }
    requires low { IfSome breach (λ moment. moment ≤ 2 ^ 40) }
    ensures value { result ≡ definition.told_of cycle.now seen breach (first.now ∷ shown.entry) }
    ensures some { cycle.now.ti ≤ result.longest }
    ensures low { result.longest ≤ 2 ^ 41 }
{
    let mut survey = Survey::nothing(cycle);
    let mut row = cycle.row_at(0, first);
    for sent in shown {
        if cycle.is_new(row.begin, &sent) {
            survey = survey.with_row(cycle, seen, breach, row);
            row = cycle.row_at(row.place + 1, &sent);
        } else {
            row = row.with(&sent);
        }
    }
    survey.with_row(cycle, seen, breach, row)
}

/// What is told of all rows of a trace in a window.
fn tell(cycle: &Cycle, seen: Seen, breach: Option<u64>, window: &Window, trace: &Trace) -> Survey
    requires some { 0 < cycle.now.ti }
    requires seen { IsSeen seen }
    requires low { IfSome breach (λ moment. moment ≤ 2 ^ 40) }
    ensures value { result ≡ definition.told_of cycle.now seen breach (shown window.now trace.now.list) }
    ensures some { cycle.now.ti ≤ result.longest }
    ensures low { result.longest ≤ 2 ^ 41 }
{
    let mut shown = Shown::new(window, trace);
    match shown.next() {
        None => Survey::nothing(cycle),
        Some(first) => survey_from(cycle, seen, breach, &first, shown),
    }
}

/// What is told of the rows of a trace in a window.
pub(crate) fn take_survey(
    cycle: &Cycle,
    seen: Seen,
    breach: Option<u64>,
    window: &Window,
    trace: &Trace,
) -> Survey
    requires some { 0 < cycle.now.ti }
    requires seen { IsSeen seen }
    requires low { IfSome breach (λ moment. moment ≤ 2 ^ 40) }
    ensures value { result ≡ definition.survey_of cycle.now seen breach (shown window.now trace.now.list) }
    ensures some { cycle.now.ti ≤ result.longest }
    ensures low { result.longest ≤ 2 ^ 41 }
{
    tell(cycle, seen, breach, window, trace).with_breach(cycle.origin_offset, breach)
}
