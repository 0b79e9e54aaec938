//! The terminals of which something may change from one scene to the next.
ghost use Rattle.std.specs.Prelude.{◌≡◌, ◌<◌, ℕ, false, length, slice_index_or, ◌∷◌, []};
ghost use Rattle.std.specs.List.{find, list_any};
ghost use Rattle.bus_dump.specs.inside.Layouts.{LeavesStill};
ghost use Rattle.bus_dump.specs.Signals as signals;
ghost use Rattle.bus_dump.specs.inside.TimerWalks.{TellsAs, scene_of};

use crate::scene::Scene;
use crate::sender_timers::Elapsed;
use crate::shown::Seen;

/// One more than the greatest number of a byte.
pub(crate) const NUMBERS: usize = 256;

/// Touches the terminals that are seen.
fn touch_seen(touched: &mut [bool; NUMBERS], seen: &[Seen])
    ensures { (n : ℕ) → n < NUMBERS → slice_index_or touched.new n false ≡ false
        → (slice_index_or touched.old n false ≡ false) × (list_any (signals.is_of n) seen.now ≡ false) }
{
    for one in seen {
        touched[one.terminal as usize] = true;
    }
}

/// Touches the terminals of what a timer told and tells, where this differs.
fn touch_timer(touched: &mut [bool; NUMBERS], was: Elapsed, is: Elapsed)
    ensures { (n : ℕ) → n < NUMBERS → slice_index_or touched.new n false ≡ false
        → (slice_index_or touched.old n false ≡ false) × (find (signals.tells_of n) (was ∷ []) ≡ find (signals.tells_of n) (is ∷ [])) }
{
    if was.is_same(is) {
        return;
    }
    touched[was.terminal as usize] = true;
    touched[is.terminal as usize] = true;
}

/// Touches the terminals whose timers tell otherwise than before, of as many senders.
fn touch_timers(touched: &mut [bool; NUMBERS], before: &[Elapsed], now: &[Elapsed])
    requires { length before.now ≡ length now.now }
    ensures { (n : ℕ) → n < NUMBERS → slice_index_or touched.new n false ≡ false
        → (slice_index_or touched.old n false ≡ false) × (find (signals.tells_of n) before.now ≡ find (signals.tells_of n) now.now) }
{
    for k in 0..before.len() {
        touch_timer(touched, before[k], now[k]);
    }
}

/// Touches the terminals whose timers tell otherwise than before: all of them where there are timers of more or fewer senders.
fn touch_told(touched: &mut [bool; NUMBERS], before: &[Elapsed], now: &[Elapsed])
    ensures { (n : ℕ) → n < NUMBERS → slice_index_or touched.new n false ≡ false
        → (slice_index_or touched.old n false ≡ false) × (find (signals.tells_of n) before.now ≡ find (signals.tells_of n) now.now) }
{
    if before.len() != now.len() {
        *touched = [true; NUMBERS];
        return;
    }
    touch_timers(touched, before, now);
}

/// Touches the terminals whose timers tell otherwise than in the scene before, if they were asked.
fn touch_asked(touched: &mut [bool; NUMBERS], before: &Scene, now: &Scene)
    requires { TellsAs before.now now.now }
    ensures { (n : ℕ) → n < NUMBERS → slice_index_or touched.new n false ≡ false
        → (slice_index_or touched.old n false ≡ false)
        × (find (signals.tells_of n) before.now.timers.items ≡ find (signals.tells_of n) now.now.timers.items) }
{
    if now.told {
        touch_told(touched, before.timers.as_slice(), now.timers.as_slice());
    }
}

/// For each terminal whether something of it may change: it is seen in either scene, or its timers tell otherwise than before. All may
/// where the scenes have timers of more or fewer senders.
pub(crate) fn touched(before: &Scene, now: &Scene) -> [bool; NUMBERS]
    requires { TellsAs before.now now.now }
    ensures { LeavesStill (scene_of before.now) (scene_of now.now) result }
{
    let mut touched = [false; NUMBERS];
    touch_seen(&mut touched, before.seen.as_slice());
    touch_seen(&mut touched, now.seen.as_slice());
    touch_asked(&mut touched, before, now);
    touched
}
