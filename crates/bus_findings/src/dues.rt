//! When a terminal was due for certain.
ghost use Rattle.std.specs.Prelude.{◌≡◌, ◌<◌, ◌≤◌, ◌+◌, ◌^◌, ℕ, Some, None};
ghost use Rattle.bus_recording.specs.Walk as walk;
ghost use Rattle.bus_findings.specs.Recorded.{recorded, reach as reach_of};
ghost use Rattle.bus_findings.specs.inside.Walked as walked;

use crate::judgement::{Due, Timer};
use crate::lengths::{latest, reach};
use bus_bounds::Bounds;
use bus_strings::Transmission;

/// Where the synchronization gap has elapsed for certain, if it has: a stretch from one moment to another is quiet for certain.
fn elapsed_by(sg: u64, from: u64, to: u64, elapsed: Option<u64>) -> Option<u64>
    requires from { from < 2 ^ 42 }
    requires sg { sg ≤ 2 ^ 20 }
    requires elapsed { (e : ℕ) → elapsed ≡ Some e → e < 2 ^ 43 }
    ensures value { result ≡ walk.elapsed_by sg from to elapsed }
    ensures bound { (e : ℕ) → result ≡ Some e → e < 2 ^ 43 }
{
    match elapsed {
        Some(moment) => Some(moment),
        None => {
            if from + sg <= to {
                Some(from + sg)
            } else {
                None
            }
        }
    }
}

/// The first moment of that stretch at which all timers are over for certain, if that is before the start.
fn due_in(tg: u64, over: u64, start: u64, from: u64, to: u64, elapsed: Option<u64>) -> Option<u64>
    requires from { from < 2 ^ 42 }
    requires tg { tg ≤ 2 ^ 20 }
    requires elapsed { (e : ℕ) → elapsed ≡ Some e → e < 2 ^ 43 }
    ensures { result ≡ walk.due_in tg over start from to elapsed }
{
    let elapsed = elapsed?;
    let due = over.max((elapsed + tg).max(from + tg));
    if due <= to && due < start {
        Some(due)
    } else {
        None
    }
}

/// Where the synchronization gap elapses first between these transmissions, the first stretch beginning at moment `from`.
fn first_elapsed(
    bounds: Bounds,
    between: &[Transmission],
    from: u64,
    sg: u64,
    start: u64,
) -> Option<u64>
    requires from { from < 2 ^ 42 }
    requires sg { sg ≤ 2 ^ 20 }
    ensures value { result ≡ walk.first_elapsed (reach_of bounds) sg start from None (recorded bounds between.now) }
    ensures bound { (e : ℕ) → result ≡ Some e → e < 2 ^ 43 }
{
    let reach = reach(bounds);
    let mut end = from;
    let mut elapsed = None;
    for x in between {
        elapsed = elapsed_by(sg, end, x.moment, elapsed);
        end = end.max(latest(bounds, x) + reach);
    }
    elapsed_by(sg, end, start, elapsed)
}

/// The first moment before the start at which all timers are over for certain, if there is one.
fn first_due(
    bounds: Bounds,
    between: &[Transmission],
    from: u64,
    sg: u64,
    tg: u64,
    over: u64,
    start: u64,
) -> Option<u64>
    requires from { from < 2 ^ 42 }
    requires sg { sg ≤ 2 ^ 20 }
    requires tg { tg ≤ 2 ^ 20 }
    ensures { result ≡ walk.first_due (reach_of bounds) sg tg over start from None (recorded bounds between.now) }
{
    let reach = reach(bounds);
    let mut end = from;
    let mut elapsed = None;
    for x in between {
        elapsed = elapsed_by(sg, end, x.moment, elapsed);
        if let Some(due) = due_in(tg, over, start, end, x.moment, elapsed) {
            return Some(due);
        }
        end = end.max(latest(bounds, x) + reach);
    }
    elapsed = elapsed_by(sg, end, start, elapsed);
    due_in(tg, over, start, end, start, elapsed)
}

/// The timer that was over last at a moment: the interval was at `over`, the terminal gap began where the synchronization gap elapsed.
fn last_over(over: u64, tg: u64, elapsed: Option<u64>, moment: u64) -> Timer
    requires tg { tg ≤ 2 ^ 20 }
    requires elapsed { (e : ℕ) → elapsed ≡ Some e → e < 2 ^ 43 }
    ensures { result ≡ walked.last_over over tg elapsed moment }
{
    if moment == over {
        return Timer::Interval;
    }
    match elapsed {
        Some(elapsed) => {
            if moment == elapsed + tg {
                Timer::SyncGap
            } else {
                Timer::TerminalGap
            }
        }
        None => Timer::TerminalGap,
    }
}

/// When the terminal was due for certain before a start, if it was, and by which timer.
pub(crate) fn due(
    bounds: Bounds,
    between: &[Transmission],
    from: u64,
    sg: u64,
    tg: u64,
    over: u64,
    start: u64,
) -> Option<Due>
    requires from { from < 2 ^ 42 }
    requires sg { sg ≤ 2 ^ 20 }
    requires tg { tg ≤ 2 ^ 20 }
    ensures { result ≡ walked.due (reach_of bounds) sg tg over start from (recorded bounds between.now) }
{
    let moment = first_due(bounds, between, from, sg, tg, over, start)?;
    let elapsed = first_elapsed(bounds, between, from, sg, start);
    Some(Due {
        moment,
        timer: last_over(over, tg, elapsed, moment),
    })
}
