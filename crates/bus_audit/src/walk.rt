//! The walk of an audit over a trace.
ghost use Rattle.std.specs.Prelude.{◌≡◌, ℕ, ◌+◌, ◌^◌, ◌<◌, ◌≤◌, ◌⊎◌, map, OnOk, IfOk, IfErr};
ghost use Rattle.bus_strings.specs.Members.{In};
ghost use Rattle.bus_medium.specs.Timings.{quiet_of};
ghost use Rattle.bus_audit.specs.Breaches.{IsFirstBreach, HasNoBreach};
ghost use Rattle.bus_audit.specs.inside.Watches as sums;
ghost use Rattle.bus_audit.specs.inside.Watches.{AreLow};
ghost use Rattle.bus_audit.specs.inside.Keeping.{lazy_of, watches_of, told_busy, AreKept, AreStill, NotSooner};
ghost use Rattle.bus_audit.specs.inside.Standing.{AreFar, Judged, Closed, Behind, Arrived};

use crate::answer::BreachKind;
use crate::check::{check_again, check_behind, soonest};
use crate::entry::judge;
use crate::finding::Finding;
use crate::lazy_timers::{Heard, LazyTimers};
use crate::progress::Progress;
use bus_medium::quiet;
use bus_strings::{Transmission, bits};
use bus_table::{Table, place_of};
use bus_timers::laws::test_decides;
use bus_trace::Trace;

/// The bus became busy at a place: each sender's synchronization gap may have elapsed before.
fn pass_each(timers: &mut [LazyTimers], heard: Heard, from: u64)
    requires low { AreLow (watches_of heard timers.old) }
    ensures { timers.new ≡ map (told_busy heard from) timers.old }
{
    for lazy in timers.iter_mut() {
        lazy.pass(heard, from);
    }
}

/// The bus was busy from one place to another. What is kept of the senders changes only where a synchronization gap may have
/// elapsed before.
fn pass_all(heard: Heard, timers: &mut [LazyTimers], from: u64, to: u64) -> Heard
    requires low { AreLow (watches_of heard timers.old) }
    requires kept { AreKept heard from to timers.old }
    requires order { from < to }
    requires to { to < 2 ^ 43 }
    ensures watches { watches_of result timers.new ≡ map (sums.passed from to) (watches_of heard timers.old) }
    ensures still { AreStill result to timers.new }
    ensures sooner { (first : ℕ) → NotSooner first (watches_of heard timers.old) → NotSooner first (watches_of result timers.new) }
{
    let now = Heard {
        from,
        ended: to,
        sg: heard.sg,
    };
    if from < heard.ended + u64::from(heard.sg) {
        return now;
    }
    pass_each(timers, heard, from);
    now
}

/// When the transmissions have ended that began at the moment to which the audit has come.
fn rest(quiet: u32, progress: Progress, heard: &mut Heard, timers: &mut [LazyTimers]) -> Progress
    requires quiet { quiet ≤ 1280 }
    requires far { AreFar (watches_of heard.old timers.old) progress }
    requires kept { AreKept heard.old (quiet + progress.moment) (quiet + progress.end) timers.old }
    ensures calm { progress.end ≤ progress.moment → result ≡ progress }
    ensures same { progress.end ≤ progress.moment → watches_of heard.new timers.new ≡ watches_of heard.old timers.old }
    ensures busy { progress.moment < progress.end → result ≡ record { moment = progress.end; end = progress.end } }
    ensures passed { progress.moment < progress.end → watches_of heard.new timers.new
        ≡ map (sums.passed (quiet + progress.moment) (quiet + progress.end)) (watches_of heard.old timers.old) }
    ensures far { AreFar (watches_of heard.new timers.new) result }
    ensures still { AreStill heard.new (quiet + result.moment) timers.new }
    ensures sooner { (first : ℕ) → NotSooner first (watches_of heard.old timers.old) → NotSooner first (watches_of heard.new timers.new) }
{
    if progress.end <= progress.moment {
        return progress;
    }
    let quiet = u64::from(quiet);
    *heard = pass_all(
        *heard,
        timers,
        quiet + progress.moment,
        quiet + progress.end,
    );
    Progress {
        moment: progress.end,
        end: progress.end,
    }
}

/// Closes that moment, where it lies before the one that is asked for.
fn close(
    table: &Table,
    trace: &Trace,
    quiet: u32,
    progress: Progress,
    heard: &mut Heard,
    timers: &mut [LazyTimers],
    first: u64,
    moment: u64,
    terminal: u8,
) -> Result<Progress, Finding>
    requires quiet { quiet ≡ quiet_of table.now }
    requires least { quiet ≤ 1280 }
    requires below { moment ≤ trace.now.horizon }
    requires judged { Judged table.now trace.now progress (watches_of heard.old timers.old) moment terminal }
    requires kept { AreKept heard.old (quiet + progress.moment) (quiet + progress.end) timers.old }
    requires first { NotSooner first (watches_of heard.old timers.old) }
    ensures ok { IfOk result (λ now. Closed table.now trace.now now (watches_of heard.new timers.new) moment terminal) }
    ensures kept { IfOk result (λ now. now.moment ≤ moment → AreKept heard.new (quiet + moment) (quiet + now.end) timers.new) }
    ensures first { OnOk result (NotSooner first (watches_of heard.new timers.new)) }
    ensures err { IfErr result (λ found. IsFirstBreach table.now trace.now found.moment found.terminal found.kind) }
{
    test_decides();
    let _valid = table.senders();
    let _ranges = trace.list();
    if moment == progress.moment {
        return Ok(progress);
    }
    check_behind(
        quiet,
        progress.moment,
        *heard,
        timers,
        first,
        progress.moment + 1,
        0,
    )?;
    Ok(rest(quiet, progress, heard, timers))
}

/// Goes on to a pair, over pairs without entries. The error is the first of them at which a sender is missed.
fn reach(
    table: &Table,
    trace: &Trace,
    quiet: u32,
    progress: Progress,
    heard: &mut Heard,
    timers: &mut [LazyTimers],
    moment: u64,
    terminal: u8,
) -> Result<Progress, Finding>
    requires quiet { quiet ≡ quiet_of table.now }
    requires least { quiet ≤ 1280 }
    requires below { (moment < trace.now.horizon) ⊎ ((moment ≡ trace.now.horizon) × (terminal ≡ 0)) }
    requires judged { Judged table.now trace.now progress (watches_of heard.old timers.old) moment terminal }
    requires kept { AreKept heard.old (quiet + progress.moment) (quiet + progress.end) timers.old }
    ensures ok { IfOk result (λ now. Arrived table.now trace.now (watches_of heard.new timers.new) now.moment now.end moment terminal) }
    ensures far { IfOk result (λ now. AreFar (watches_of heard.new timers.new) now) }
    ensures kept { IfOk result (λ now. now.moment ≤ moment → AreKept heard.new (quiet + moment) (quiet + now.end) timers.new) }
    ensures err { IfErr result (λ found. IsFirstBreach table.now trace.now found.moment found.terminal found.kind) }
{
    test_decides();
    let _valid = table.senders();
    let _ranges = trace.list();
    let first = soonest(*heard, timers);
    let progress = close(
        table, trace, quiet, progress, heard, timers, first, moment, terminal,
    )?;
    check_again(
        quiet,
        progress.moment,
        *heard,
        timers,
        first,
        moment,
        terminal,
    )?;
    Ok(progress)
}

/// Judges an entry that was reached, and lets its sender begin.
fn enter(
    table: &Table,
    trace: &Trace,
    quiet: u32,
    progress: Progress,
    heard: Heard,
    timers: &mut [LazyTimers],
    x: &Transmission,
) -> Result<Progress, Finding>
    requires quiet { quiet ≡ quiet_of table.now }
    requires least { quiet ≤ 1280 }
    requires there { In x.now trace.now.list }
    requires arrived { Arrived table.now trace.now (watches_of heard timers.old) progress.moment progress.end x.now.moment x.now.terminal }
    requires far { AreFar (watches_of heard timers.old) progress }
    requires kept { progress.moment ≤ x.now.moment → AreKept heard (quiet + x.now.moment) (quiet + progress.end) timers.old }
    ensures ok { IfOk result (λ now. Behind table.now trace.now now (watches_of heard timers.new) x.now.moment x.now.terminal) }
    ensures kept { IfOk result (λ now. AreKept heard (quiet + now.moment) (quiet + now.end) timers.new) }
    ensures err { IfErr result (λ found. IsFirstBreach table.now trace.now found.moment found.terminal found.kind) }
{
    test_decides();
    let _ranges = trace.list();
    let _length = bits(&x.message);
    let senders = table.senders();
    let place = u64::from(quiet) + x.moment;
    let Some(k) = place_of(senders, x.terminal) else {
        return Err(Finding {
            moment: x.moment,
            terminal: x.terminal,
            kind: BreachKind::Stranger,
        });
    };
    let watch = timers[k].watch(heard);
    if let Some(kind) = judge(place, &senders[k], watch, &x.message) {
        return Err(Finding {
            moment: x.moment,
            terminal: x.terminal,
            kind,
        });
    }
    timers[k] = timers[k].begun(heard, place);
    Ok(Progress {
        moment: x.moment,
        end: x.end().max(progress.end),
    })
}

/// Goes on over one entry.
fn step(
    table: &Table,
    trace: &Trace,
    quiet: u32,
    progress: Progress,
    heard: &mut Heard,
    timers: &mut [LazyTimers],
    x: &Transmission,
) -> Result<Progress, Finding>
    requires quiet { quiet ≡ quiet_of table.now }
    requires least { quiet ≤ 1280 }
    requires there { In x.now trace.now.list }
    requires judged { Judged table.now trace.now progress (watches_of heard.old timers.old) x.now.moment x.now.terminal }
    requires kept { AreKept heard.old (quiet + progress.moment) (quiet + progress.end) timers.old }
    ensures ok { IfOk result (λ now. Behind table.now trace.now now (watches_of heard.new timers.new) x.now.moment x.now.terminal) }
    ensures kept { IfOk result (λ now. AreKept heard.new (quiet + now.moment) (quiet + now.end) timers.new) }
    ensures err { IfErr result (λ found. IsFirstBreach table.now trace.now found.moment found.terminal found.kind) }
{
    let _ranges = trace.list();
    let progress = reach(
        table, trace, quiet, progress, heard, timers, x.moment, x.terminal,
    )?;
    enter(table, trace, quiet, progress, *heard, timers, x)
}

/// Goes over all entries of a trace and on to its horizon. The error is the first breach.
pub fn walk(table: &Table, trace: &Trace, timers: &mut [LazyTimers]) -> Result<(), Finding>
    requires { timers.old ≡ map lazy_of (map (sums.settled table.now trace.now.holds) table.now.senders) }
    ensures ok { OnOk result (HasNoBreach table.now trace.now) }
    ensures err { IfErr result (λ found. IsFirstBreach table.now trace.now found.moment found.terminal found.kind) }
{
    let quiet = quiet(table);
    let _valid = table.senders();
    let mut progress = Progress { moment: 0, end: 0 };
    let mut heard = Heard {
        from: 0,
        ended: 0,
        sg: table.sg(),
    };
    for x in trace.list() {
        progress = step(table, trace, quiet, progress, &mut heard, timers, x)?;
    }
    let horizon = trace.horizon();
    reach(
        table, trace, quiet, progress, &mut heard, timers, horizon, 0,
    )?;
    Ok(())
}
