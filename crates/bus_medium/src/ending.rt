//! Where carrier ends.
ghost use Rattle.std.specs.Prelude.{◌≡◌, ℕ, ◌-◌, ◌<◌, ◌≤◌, true, false};
ghost use Rattle.bus_strings.specs.Transmissions.{pulses, carrier};

use bus_strings::{Transmission, bits, is_on};

/// Whether the transmission has a pulse at the bit time.
#[tactic(auto, using(crate::proofs::PastLaws::pulses_later, crate::proofs::PastLaws::pulses_ended, crate::proofs::PastLaws::pulses_on))]
fn sounds(x: &Transmission, bit_time: u64) -> bool
    ensures { result ≡ pulses bit_time x.now }
{
    if bit_time < x.moment {
        return false;
    }
    let place = bit_time - x.moment;
    if place >= bits(&x.message) as u64 {
        return false;
    }
    is_on(&x.message, place as u32)
}

/// Whether there is carrier at the bit time.
fn has_carrier(list: &[Transmission], bit_time: u64) -> bool
    ensures { result ≡ carrier list.now bit_time }
{
    list.iter().any(|x| sounds(x, bit_time))
}

/// The moment at which the last carrier before `most` ends, where there is some from `start` on.
pub fn carrier_end(list: &[Transmission], start: u64, most: u64) -> u64
    requires some { start < most }
    requires carrier { carrier list.now start ≡ true }
    ensures least { start < result }
    ensures most { result ≤ most }
    ensures last { carrier list.now (result - 1) ≡ true }
    ensures quiet { (u : ℕ) → result ≤ u → u < most → carrier list.now u ≡ false }
{
    let mut end = most;
    while !has_carrier(list, end - 1) {
        end -= 1;
    }
    end
}
