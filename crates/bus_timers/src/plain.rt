//! When a terminal may start, tested on its whole past.
ghost use Rattle.std.specs.Prelude.{◌≡◌, ◌+◌, ◌-◌, ◌^◌, ◌≤◌, ◌<◌, ◌↔◌, length, IsTrue, nat_le};
ghost use Rattle.std.specs.List.{list_any, range_with_len};
ghost use Rattle.bus_timers.specs.Timings.{due_place};
ghost use Rattle.bus_timers.specs.MayStart.{MayStart};
ghost use Rattle.bus_timers.specs.MayStartTest.{is_quiet, is_behind, is_sync, may_start};

use crate::timing::Timing;

/// Whether no bit time of the past from place `from` to place `to` has carrier.
fn is_quiet(past: &[bool], from: usize, to: usize) -> bool
    requires order { from ≤ to }
    requires within { to ≤ length past.now }
    ensures { result ≡ is_quiet past.now from to }
{
    past[from..to].iter().all(|carrier| !*carrier)
}

/// Whether a place isn't before the last own start.
fn is_behind(last: Option<usize>, place: usize) -> bool
    ensures { result ≡ is_behind last place }
{
    match last {
        None => true,
        Some(start) => start <= place,
    }
}

/// Whether the synchronization gap has elapsed at a place of the past.
fn is_sync(sg: usize, past: &[bool], last: Option<usize>, place: usize) -> bool
    requires { place ≤ length past.now }
    ensures { result ≡ is_sync sg past.now last place }
{
    sg <= place && is_quiet(past, place - sg, place) && is_behind(last, place - sg)
}

/// Whether the synchronization gap has elapsed at some place of the past, with room for the terminal gap behind it.
fn is_synchronized(timing: Timing, past: &[bool], last: Option<usize>) -> bool
    requires { timing.tg ≤ length past.now }
    ensures { result ≡ list_any (λ e. is_sync timing.sg past.now last e) (range_with_len 0 (length past.now + 1 - timing.tg)) }
{
    (0..past.len() + 1 - timing.tg as usize).any(|place| is_sync(
        timing.sg as usize,
        past,
        last,
        place,
    ))
}

/// Whether the transmit interval has elapsed at the end of a past of this length.
fn is_due(timing: Timing, last: Option<usize>, length: usize) -> bool
    requires { length < 2 ^ 63 }
    ensures { result ≡ nat_le (due_place timing last) length }
{
    match last {
        None => timing.quiet as usize + timing.due as usize <= length,
        Some(start) => start <= length && start + timing.ti as usize <= length,
    }
}

/// The test that computes, computed.
fn tested(timing: Timing, past: &[bool], last: Option<usize>) -> bool
    ensures { result ≡ may_start timing past.now last }
{
    let length = past.len();
    let tg = timing.tg as usize;
    tg <= length
        && is_due(timing, last, length)
        && is_synchronized(timing, past, last)
        && is_quiet(past, length - tg, length)
}

/// Whether a terminal may start at the end of a past, by the definition alone: every place of the past is tried.
/// Plain and slow, to compare with. It takes no memory.
pub fn may_start(timing: Timing, past: &[bool], last: Option<usize>) -> bool
    ensures { IsTrue result ↔ MayStart timing past.now last }
{
    tested(timing, past, last)
}
