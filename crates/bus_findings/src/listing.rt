//! What is found at each transmission, as a list.
ghost use Rattle.std.specs.Prelude.{◌≡◌, ℕ, ◌<◌, ◌≤◌, ◌^◌, length, IfOk};
ghost use Rattle.bus_strings.specs.Transmissions.{IsAscending};
ghost use Rattle.bus_findings.specs.Judging as judged;
ghost use Rattle.bus_findings.specs.Terminals as counts;
ghost use Rattle.bus_findings.specs.inside.Sound.{AreLong};
ghost use Rattle.bus_findings.specs.inside.Standing.{AreWatched};

use crate::heard::Heard;
use crate::judgement::Judgement;
use crate::judging::judge;
use crate::lacks::shortest_sync;
use crate::lengths::settled;
use crate::totals::fault_count;
use crate::watch::Watch;
use bus_bounds::Bounds;
use bus_strings::Transmission;
use bus_table::{MOST_SENDERS, Table};
use bus_trace::Trace;
use std::alloc::{AllocError, Global};

/// What is found at each of these. The watches are those of before the first.
fn judge_all(
    alloc: Global,
    table: &Table,
    list: &[Transmission],
    bounds: Bounds,
    watches: &mut [Watch],
) -> Result<Vec<Judgement>, AllocError>
    requires near { bounds.delay ≤ 9 }
    requires order { IsAscending list.now }
    requires sound { AreLong bounds list.now }
    requires few { (i : ℕ) → i < length list.now → i < 2 ^ 50 }
    requires watched { AreWatched bounds table.now list.now 0 watches.old }
    ensures { IfOk result (λ all. all.items ≡ judged.judgements bounds table.now list.now) }
{
    let settled = settled(bounds, table);
    let mut heard = Heard::nothing(bounds, shortest_sync(bounds, table), list);
    let mut all = Vec::with_capacity(alloc, list.len())?;
    for i in 0..list.len() {
        let x = &list[i];
        heard = heard.at_moment(bounds, list, x.moment);
        let found = judge(bounds, table, settled, watches, heard, list, i);
        all.push(found)?;
        heard = heard.with(bounds, list, i);
    }
    Ok(all)
}

/// What is found at each transmission of a recording of a bus of this table, in order. The bounds are in bit times. It goes over the
/// recording once, as [`write_findings`](crate::write_findings) does. The error is that the memory of the list was refused.
pub fn judgements(
    alloc: Global,
    table: &Table,
    trace: &Trace,
    bounds: Bounds,
) -> Result<Vec<Judgement>, AllocError>
    requires near { bounds.delay ≤ 9 }
    ensures { IfOk result (λ all. all.items ≡ judged.judgements bounds table.now trace.now.list) }
{
    let _valid = table.senders();
    let _ranges = bounds.clocks();
    let mut watches = [Watch::NEW; MOST_SENDERS];
    judge_all(alloc, table, trace.list(), bounds, &mut watches)
}

/// How many faults these are.
pub fn fault_sum(judgements: &[Judgement]) -> u128
    ensures { result ≡ counts.fault_sum judgements.now }
{
    let mut faults: u128 = 0;
    for found in judgements {
        faults += u128::from(fault_count(found));
    }
    faults
}
