//! Stretches that meet or touch become one.
ghost use Rattle.std.specs.Prelude.{◌≡◌, ℕ, ◌<◌, ◌≤◌, ◌||◌, IfOk, OnOk, IsTrue};
ghost use Rattle.std.specs.List.{All};
ghost use Rattle.std.specs.List.Sorted.{IsNonDecreasingBy};
ghost use Rattle.bus_load.specs.Loads.{AreApart, has, is_within};

use crate::stretch::Stretch;
use std::alloc::{AllocError, Global};

/// Adds a stretch behind others. If it begins in the last of them or at its end, the last becomes longer.
pub(crate) fn add(stretches: &mut Vec<Stretch>, more: Stretch) -> Result<(), AllocError>
    requires some { more.from < more.to }
    ensures within { OnOk result ((t : ℕ) → is_within stretches.new.items t ≡ (is_within stretches.old.items t || has t more)) }
    ensures some { OnOk result (All (λ s. s.from < s.to) stretches.old.items → All (λ s. s.from < s.to) stretches.new.items) }
    ensures apart { OnOk result (All (λ s. s.from ≤ more.from) stretches.old.items → AreApart stretches.old.items
        → AreApart stretches.new.items) }
    ensures begun { OnOk result (All (λ s. s.from ≤ more.from) stretches.old.items
        → All (λ s. s.from ≤ more.from) stretches.new.items) }
{
    let count = stretches.len();
    if count > 0 {
        let last = stretches[count - 1];
        if last.from <= more.from && more.from <= last.to {
            stretches[count - 1] = Stretch {
                from: last.from,
                to: last.to.max(more.to),
            };
            return Ok(());
        }
    }
    stretches.push(more)?;
    Ok(())
}

/// Whether each stretch ends before the next begins.
pub(crate) fn are_apart(stretches: &[Stretch]) -> bool
    requires some { All (λ s. s.from < s.to) stretches.now }
    ensures { IsTrue result → AreApart stretches.now }
{
    for k in 1..stretches.len() {
        if stretches[k].from <= stretches[k - 1].to {
            return false;
        }
    }
    true
}

/// The same bit times in stretches that are apart. The given ones are ordered by where they begin.
pub(crate) fn joined(alloc: Global, stretches: &[Stretch]) -> Result<Vec<Stretch>, AllocError>
    requires some { All (λ s. s.from < s.to) stretches.now }
    requires order { IsNonDecreasingBy (λ s. s.from) stretches.now }
    ensures apart { IfOk result (λ joined. AreApart joined.items) }
    ensures within { IfOk result (λ joined. (t : ℕ) → is_within joined.items t ≡ is_within stretches.now t) }
{
    let mut joined = Vec::new(alloc);
    for stretch in stretches {
        add(&mut joined, *stretch)?;
    }
    Ok(joined)
}
