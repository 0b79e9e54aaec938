//! The tolerance of a periodic table: its gaps are wide enough, and each sender stays in sync. Turn order is found once, and
//! there is no other memory than that.
ghost use Rattle.std.specs.Prelude.{◌≡◌, ◌≢◌, ◌+◌, ◌++◌, ◌≤◌, ◌<◌, ◌^◌, ◌↔◌, ℕ, drop, take, length, slice_get};
ghost use Rattle.std.specs.Prelude.{Option, Some, IsNone, IsTrue, IfSome, IsSomeAnd};
ghost use Rattle.std.specs.List.{list_all};
ghost use Rattle.bus_table.specs.Turned.{AreTurned};
ghost use Rattle.bus_table.specs.declared.mode.Mode.TheVariants.{Periodic};
ghost use Rattle.bus_regime.specs.Ends.{AreEnds};
ghost use Rattle.bus_regime.specs.Gaps.{gaps};
ghost use Rattle.bus_regime.specs.Verdicts.{verdict_of, is_accepted};
ghost use Rattle.bus_schedule.specs.Slack as slacks;
ghost use Rattle.bus_reach.specs.Limits as limited;

use crate::laws::{accepted_bear_zero, borne_for_less};
use crate::limit::{Limit, Rule};
use bus_regime::{TurnGap, gap_at, turn_ends};
use bus_table::laws::table_is_valid;
use bus_table::{MOST_SENDERS, Table, turn_places};

/// Whether a gap is at least its sender's terminal gap and so many bit times.
fn is_wide(gap: &TurnGap<'_>, d: u64) -> bool
    ensures value { result ≡ slacks.is_wide d gap.now }
    ensures bound { IsTrue result → d ≤ 2 ^ 40 }
{
    let tg = u64::from(gap.sender().tg());
    gap.begin() + tg <= gap.end() && d <= gap.end() - gap.begin() - tg
}

/// What is left of a sender's slack behind this gap of another sender.
fn slack_behind(gap: &TurnGap<'_>, d: u64, sg: u32, slack: Option<u64>) -> Option<u64>
    requires wide { gap.now.from ≤ gap.now.to }
    requires most { d ≤ 2 ^ 40 }
    requires within { IfSome slack (λ slack. slack ≤ d) }
    ensures value { result ≡ slacks.slack_behind d sg slack gap.now }
    ensures bound { IfSome result (λ slack. slack ≤ d) }
{
    let Some(slack) = slack else {
        return None;
    };
    let needed = slack + u64::from(sg);
    if gap.begin() + needed <= gap.end() {
        return None;
    }
    let left = needed - 1 - (gap.end() - gap.begin());
    Some(if left < d { left } else { d })
}

/// Whether the sender of this gap, which has this slack, is in sync in time.
fn is_enough(gap: &TurnGap<'_>, sg: u32, slack: Option<u64>) -> bool
    requires { IfSome slack (λ slack. slack ≤ 2 ^ 40) }
    ensures { result ≡ slacks.is_enough sg slack gap.now }
{
    let Some(slack) = slack else {
        return true;
    };
    gap.begin() + (u64::from(sg) + u64::from(gap.sender().tg()) + slack) <= gap.end()
}

/// Whether each gap is at least its sender's terminal gap and so many bit times.
fn all_wide(
    table: &Table,
    places: &[usize; MOST_SENDERS],
    ends: &[u64; MOST_SENDERS],
    d: u64,
) -> bool
    requires turned { AreTurned table.now places.now }
    requires ends { AreEnds table.now ends.now }
    ensures value { result ≡ list_all (slacks.is_wide d) (gaps table.now) }
    ensures bound { IsTrue result → d ≤ 2 ^ 40 }
{
    for k in 0..table.senders().len() {
        if !is_wide(&gap_at(table, places, ends, k), d) {
            return false;
        }
    }
    true
}

/// The place of the gap that comes `step` gaps behind the next one of the `k`-th of `n`.
fn behind(n: usize, k: usize, step: usize) -> usize
    requires within { k < n }
    requires steps { step < n }
    ensures within { result < n }
    ensures place { (step + k + 1 < n → result ≡ k + 1 + step) × (n ≤ step + k + 1 → result + n ≡ k + 1 + step) }
{
    let later = n - k - 1;
    if step < later {
        k + 1 + step
    } else {
        step - later
    }
}

/// Whether the sender of the `k`-th gap stays in sync from its own message to its next one.
fn stays(
    table: &Table,
    places: &[usize; MOST_SENDERS],
    ends: &[u64; MOST_SENDERS],
    d: u64,
    k: usize,
) -> bool
    requires turned { AreTurned table.now places.now }
    requires ends { AreEnds table.now ends.now }
    requires place { k < length table.now.senders }
    requires wide { IsTrue (list_all (slacks.is_wide 0) (gaps table.now)) }
    requires most { d ≤ 2 ^ 40 }
    ensures { IsSomeAnd (slice_get (gaps table.now) k) (λ own. result
        ≡ slacks.stays d table.now.sg own.sender.number (Some 0) (drop (k + 1) (gaps table.now) ++ take (k + 1) (gaps table.now))) }
{
    let n = table.senders().len();
    let number = gap_at(table, places, ends, k).sender().number();
    let mut slack = Some(0);
    for step in 0..n {
        let gap = gap_at(table, places, ends, behind(n, k, step));
        if gap.sender().number() == number {
            return is_enough(&gap, table.sg(), slack);
        }
        slack = slack_behind(&gap, d, table.sg(), slack);
    }
    false
}

/// Whether the gaps of a table bear delays up to `d` bit times, where turn order is known.
fn gaps_bear(
    table: &Table,
    places: &[usize; MOST_SENDERS],
    ends: &[u64; MOST_SENDERS],
    d: u64,
) -> bool
    requires turned { AreTurned table.now places.now }
    requires ends { AreEnds table.now ends.now }
    ensures { result ≡ slacks.gaps_bear table.now d }
{
    let n = table.senders().len();
    if n == 1 {
        return true;
    }
    if !all_wide(table, places, ends, d) {
        return false;
    }
    for k in 0..n {
        if !stays(table, places, ends, d, k) {
            return false;
        }
    }
    true
}

/// Whether a periodic table that the verdict accepts bears delays up to `d` bit times.
pub(crate) fn bears(table: &Table, d: u64) -> bool
    ensures { result ≡ slacks.gaps_bear table.now d }
{
    let places = turn_places(table);
    gaps_bear(table, &places, &turn_ends(table, &places), d)
}

/// The tolerance of a periodic table that the verdict accepts: the greatest delay that it bears, in bit times, found by halving.
/// None exactly where there is one sender, which bears every delay. It takes no memory.
pub(crate) fn tolerance(table: &Table) -> Option<u64>
    requires mode { table.now.mode ≡ Periodic }
    requires accepted { IsTrue (is_accepted (verdict_of table.now)) }
    ensures alone { IsNone result ↔ (length table.now.senders ≡ 1) }
    ensures greatest { IfSome result (λ most. (d : ℕ) → (d ≤ most) ↔ IsTrue (slacks.gaps_bear table.now d)) }
{
    accepted_bear_zero();
    borne_for_less();
    if table.senders().len() == 1 {
        return None;
    }
    let places = turn_places(table);
    let ends = turn_ends(table, &places);
    let mut borne = 0;
    let first = gap_at(table, &places, &ends, 0);
    let mut above = first.end().saturating_sub(first.begin()) + 1;
    while above - borne > 1 {
        let middle = borne + (above - borne) / 2;
        if gaps_bear(table, &places, &ends, middle) {
            borne = middle;
        } else {
            above = middle;
        }
    }
    Some(borne)
}

/// A delay that, if a sender of the table stays in sync with it, it does with every delay.
fn farthest(table: &Table) -> u64
    ensures value { result ≡ limited.farthest table.now }
    ensures bound { result ≤ 2 ^ 40 }
{
    2 * u64::from(table.ti()) + table.senders().len() as u64 * u64::from(table.sg())
}

/// The greatest delay with which the sender of the `k`-th gap stays in sync from its own message to its next one, found by halving; None
/// where it does with every delay.
fn sync_bound(
    table: &Table,
    places: &[usize; MOST_SENDERS],
    ends: &[u64; MOST_SENDERS],
    k: usize,
) -> Option<u64>
    requires turned { AreTurned table.now places.now }
    requires ends { AreEnds table.now ends.now }
    requires place { k < length table.now.senders }
    requires several { length table.now.senders ≢ 1 }
    requires mode { table.now.mode ≡ Periodic }
    requires accepted { IsTrue (is_accepted (verdict_of table.now)) }
    ensures { IsSomeAnd (slice_get (gaps table.now) k) (λ own. result ≡ limited.greatest_taken
        (λ d. slacks.stays d table.now.sg own.sender.number (Some 0) (drop (k + 1) (gaps table.now) ++ take (k + 1) (gaps table.now)))
        (limited.farthest table.now)) }
{
    table_is_valid(table);
    let far = farthest(table);
    if stays(table, places, ends, far, k) {
        return None;
    }
    let mut kept = 0;
    let mut lost = far;
    while lost - kept > 1 {
        let middle = kept + (lost - kept) / 2;
        if stays(table, places, ends, middle, k) {
            kept = middle;
        } else {
            lost = middle;
        }
    }
    Some(kept)
}

/// With what delays the sender of the `k`-th gap stays in sync from its own message to its next one.
pub(crate) fn sync_limit(
    table: &Table,
    places: &[usize; MOST_SENDERS],
    ends: &[u64; MOST_SENDERS],
    k: usize,
) -> Limit
    requires turned { AreTurned table.now places.now }
    requires ends { AreEnds table.now ends.now }
    requires place { k < length table.now.senders }
    requires several { length table.now.senders ≢ 1 }
    requires mode { table.now.mode ≡ Periodic }
    requires accepted { IsTrue (is_accepted (verdict_of table.now)) }
    ensures { IsSomeAnd (slice_get (gaps table.now) k) (λ own. result
        ≡ limited.sync_limit table.now (drop (k + 1) (gaps table.now) ++ take (k + 1) (gaps table.now)) own) }
{
    let terminal = gap_at(table, places, ends, k).sender().number();
    Limit {
        rule: Rule::Sync { terminal },
        bears: sync_bound(table, places, ends, k),
    }
}
