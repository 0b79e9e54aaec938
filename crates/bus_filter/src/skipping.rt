//! Which transmissions a terminal has no look at: most of them.
ghost use Rattle.std.specs.Prelude.{◌≡◌, ℕ, ◌+◌, ◌<◌, ◌≤◌, true, length, get_or};
ghost use Rattle.bus_filter.specs.inside.Keys.{NoneTaken, key_count};

use crate::spans::{Spans, weight};

/// Nothing where no line takes of what has one of four keys, from an index on.
fn four_weights(spans: &Spans, keys: &[u16], at: usize) -> u32
    requires within { at + 4 ≤ length keys.now }
    requires range { (k : ℕ) → get_or keys.now k 0 < key_count }
    ensures none { result ≡ 0 → NoneTaken spans.now.behind keys.now at (at + 4) }
    ensures most { result < 1024 }
{
    let first = weight(spans, keys[at]) + weight(spans, keys[at + 1]);
    let second = weight(spans, keys[at + 2]) + weight(spans, keys[at + 3]);
    first + second
}

/// Nothing where no line takes of what has one of eight keys, from an index on.
fn eight_weights(spans: &Spans, keys: &[u16], at: usize) -> u32
    requires within { at + 8 ≤ length keys.now }
    requires range { (k : ℕ) → get_or keys.now k 0 < key_count }
    ensures none { result ≡ 0 → NoneTaken spans.now.behind keys.now at (at + 8) }
    ensures most { result < 2048 }
{
    four_weights(spans, keys, at) + four_weights(spans, keys, at + 4)
}

/// Whether no line takes of what has one of sixteen keys, from an index on.
fn are_skipped(spans: &Spans, keys: &[u16], at: usize) -> bool
    requires within { at + 16 ≤ length keys.now }
    requires range { (k : ℕ) → get_or keys.now k 0 < key_count }
    ensures { result ≡ true → NoneTaken spans.now.behind keys.now at (at + 16) }
{
    eight_weights(spans, keys, at) + eight_weights(spans, keys, at + 8) == 0
}

/// An index up to which no line takes of what has the keys. It is found by sixteens, with one test for each.
fn skip_sixteens(spans: &Spans, keys: &[u16], from: usize) -> usize
    requires from { from ≤ length keys.now }
    requires range { (k : ℕ) → get_or keys.now k 0 < key_count }
    ensures low { from ≤ result }
    ensures high { result ≤ length keys.now }
    ensures skipped { NoneTaken spans.now.behind keys.now from result }
{
    let mut at = from;
    while keys.len() - at >= 16 && are_skipped(spans, keys, at) {
        at += 16;
    }
    at
}

/// An index up to which no line takes of what has the keys. It is found by sixteens and then by eights.
fn skip_eights(spans: &Spans, keys: &[u16], from: usize) -> usize
    requires from { from ≤ length keys.now }
    requires range { (k : ℕ) → get_or keys.now k 0 < key_count }
    ensures low { from ≤ result }
    ensures high { result ≤ length keys.now }
    ensures skipped { NoneTaken spans.now.behind keys.now from result }
{
    let mut at = skip_sixteens(spans, keys, from);
    while keys.len() - at >= 8 && eight_weights(spans, keys, at) == 0 {
        at += 8;
    }
    at
}

/// An index, from one on, up to which no line takes of what has the keys; at it one may, or there is none.
#[inline(never)]
fn skip(spans: &Spans, keys: &[u16], from: usize) -> usize
    requires from { from ≤ length keys.now }
    requires range { (k : ℕ) → get_or keys.now k 0 < key_count }
    ensures low { from ≤ result }
    ensures high { result ≤ length keys.now }
    ensures skipped { NoneTaken spans.now.behind keys.now from result }
{
    let mut at = skip_eights(spans, keys, from);
    while at < keys.len() && weight(spans, keys[at]) == 0 {
        at += 1;
    }
    at
}

/// What [`skip`] gives, where what is taken stands side by side without a call.
#[inline(always)]
pub(crate) fn next_taken(spans: &Spans, keys: &[u16], from: usize) -> usize
    requires from { from ≤ length keys.now }
    requires range { (k : ℕ) → get_or keys.now k 0 < key_count }
    ensures low { from ≤ result }
    ensures high { result ≤ length keys.now }
    ensures skipped { NoneTaken spans.now.behind keys.now from result }
{
    if from < keys.len() && weight(spans, keys[from]) > 0 {
        return from;
    }
    skip(spans, keys, from)
}
