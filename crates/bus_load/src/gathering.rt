//! The stretches in which a list of transmissions has carrier.
ghost use Rattle.std.specs.Prelude.{◌≡◌, ℕ, ◌<◌, ◌||◌, IfOk, OnOk};
ghost use Rattle.std.specs.List.{All};
ghost use Rattle.bus_strings.specs.Transmissions.{carrier, pulses};
ghost use Rattle.bus_load.specs.Loads.{IsCarrierOf, is_within};

use crate::joining::{add, are_apart, joined};
use crate::stretch::Stretch;
use bus_strings::Transmission;
use bus_strings::limits::{INNER_GAP, WORD_BITS};
use std::alloc::{AllocError, Global};

/// Adds the pulses of a transmission.
fn add_pulses(stretches: &mut Vec<Stretch>, x: &Transmission) -> Result<(), AllocError>
    ensures within { OnOk result ((t : ℕ) → is_within stretches.new.items t ≡ (is_within stretches.old.items t || pulses t x.now)) }
    ensures some { OnOk result (All (λ s. s.from < s.to) stretches.old.items → All (λ s. s.from < s.to) stretches.new.items) }
{
    let mut from = x.moment;
    for string in x.message.strings() {
        let to = from + u64::from(WORD_BITS * string.word_count());
        add(stretches, Stretch { from, to })?;
        from = to + u64::from(INNER_GAP);
    }
    Ok(())
}

/// The pulses of a list. Where each begins no earlier than those before it, they are apart.
fn gathered(alloc: Global, list: &[Transmission]) -> Result<Vec<Stretch>, AllocError>
    ensures within { IfOk result (λ gathered. (t : ℕ) → is_within gathered.items t ≡ carrier list.now t) }
    ensures some { IfOk result (λ gathered. All (λ s. s.from < s.to) gathered.items) }
{
    let mut gathered = Vec::new(alloc);
    for x in list {
        add_pulses(&mut gathered, x)?;
    }
    Ok(gathered)
}

/// The stretches in which a list has carrier, in order, each as long as it can be. The error is that of stretches for which there is no
/// memory.
pub fn carrier_stretches(alloc: Global, list: &[Transmission]) -> Result<Vec<Stretch>, AllocError>
    ensures { IfOk result (λ stretches. IsCarrierOf stretches.items list.now) }
{
    let mut stretches = gathered(alloc, list)?;
    if are_apart(&stretches) {
        return Ok(stretches);
    }
    stretches.sort_unstable_by_key(|stretch| stretch.from);
    joined(alloc, &stretches)
}
