//! What is kept of a sender.
ghost use Rattle.std.specs.Prelude.{◌≡◌, ◌+◌, ◌^◌, ◌<◌, length, slice_get, Some, min, max};
ghost use Rattle.bus_strings.specs.Messages.{Entry};
ghost use Rattle.bus_strings.specs.Transmissions.{IsAscending};
ghost use Rattle.bus_findings.specs.Judging.{judgement_of};
ghost use Rattle.bus_findings.specs.inside.Standing.{IsHeard, IsWatch};
ghost use Rattle.bus_findings.specs.inside.Counting as counting;

use crate::heard::Heard;
use crate::judgement::Judgement;
use crate::lengths::soonest;
use crate::totals::fault_count;
use bus_bounds::Bounds;
use bus_strings::Transmission;
use bus_table::Table;

/// The last start of a sender.
#[derive(Clone, Copy, Debug)]
pub struct Last {
    /// Where it stands in the list, from 0.
    pub place: usize,
    /// The greatest moment at which a transmission of another before it ends at the soonest, or 0.
    pub others: u64,
    /// The greatest moment at which the sender may hear one before it end, or 0.
    pub latest: u64,
}

/// What is kept of a sender.
#[derive(Clone, Copy, Debug)]
pub struct Watch {
    /// Its last start.
    pub last: Option<Last>,
    /// The greatest moment at which one of its own transmissions ends at the soonest, or 0.
    pub own_end: u64,
    /// How often it has started.
    pub starts: u64,
    /// How many faults were found.
    pub faults: u64,
    /// The least bit times from a start to the next.
    pub least: Option<u64>,
    /// And the most.
    pub most: Option<u64>,
}

/// The lesser of a number and another, if there is one.
fn lesser(so_far: Option<u64>, n: u64) -> u64
    ensures { result ≡ counting.lesser so_far n }
{
    match so_far {
        Some(least) => least.min(n),
        None => n,
    }
}

/// The greater of a number and another, if there is one.
fn greater(so_far: Option<u64>, n: u64) -> u64
    ensures { result ≡ counting.greater so_far n }
{
    match so_far {
        Some(most) => most.max(n),
        None => n,
    }
}

/// How far the transmission at a place stands from the last start, if there is one.
fn apart(last: Option<Last>, list: &[Transmission], i: usize) -> Option<u64>
    requires within { i < length list.now }
    requires last { (l : Last) → last ≡ Some l → l.place < i }
    ensures { result ≡ counting.apart_from list.now last i }
{
    let last = last?;
    let (o, x) = (&list[last.place], &list[i]);
    Some(x.moment.saturating_sub(o.moment))
}

impl Watch {
    /// It hasn't started.
    pub(crate) const NEW: Watch = Watch {
        last: None,
        own_end: 0,
        starts: 0,
        faults: 0,
        least: None,
        most: None,
    };

    /// It starts the transmission that stands at this place.
    pub(crate) fn started(
        self,
        bounds: Bounds,
        table: &Table,
        heard: Heard,
        list: &[Transmission],
        i: usize,
        judgement: &Judgement,
    ) -> Watch
        requires order { IsAscending list.now }
        requires within { i < length list.now }
        requires few { i < 2 ^ 50 }
        requires heard { IsHeard bounds list.now i heard }
        requires judged { (x : Entry) → slice_get list.now i ≡ Some x → judgement.now ≡ judgement_of bounds table.now list.now x }
        requires watch { (x : Entry) → slice_get list.now i ≡ Some x → IsWatch bounds table.now list.now x.terminal i self }
        ensures { (x : Entry) → slice_get list.now i ≡ Some x → IsWatch bounds table.now list.now x.terminal (i + 1) result }
    {
        let x = &list[i];
        let apart = apart(self.last, list, i);
        Watch {
            last: Some(Last {
                place: i,
                others: heard.soonest.of_others(x.terminal),
                latest: heard.latest,
            }),
            own_end: self.own_end.max(soonest(bounds, x)),
            starts: self.starts + 1,
            faults: self.faults + fault_count(judgement),
            least: with_least(self.least, apart),
            most: with_most(self.most, apart),
        }
    }
}

/// The least of what was and how far one more start stands from the last, if there is one.
fn with_least(so_far: Option<u64>, apart: Option<u64>) -> Option<u64>
    ensures { result ≡ counting.with_least so_far apart }
{
    let n = apart?;
    Some(lesser(so_far, n))
}

/// And the most.
fn with_most(so_far: Option<u64>, apart: Option<u64>) -> Option<u64>
    ensures { result ≡ counting.with_most so_far apart }
{
    let n = apart?;
    Some(greater(so_far, n))
}
