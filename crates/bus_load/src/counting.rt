//! How many bit times of a stretch of time have carrier.
ghost use Rattle.std.specs.Prelude.{◌≡◌, List, min, max, ◌-◌};
ghost use Rattle.bus_strings.specs.Messages.{Entry};
ghost use Rattle.bus_load.specs.Loads.{AreApart, IsCarrierOf, carrier_bits};

use crate::stretch::Stretch;

/// How many of the stretch's bit times there are from `from` up to, and without, `to`.
fn part(stretch: Stretch, from: u64, to: u64) -> u64
    ensures { result ≡ min stretch.to to - max stretch.from from }
{
    stretch.to.min(to).saturating_sub(stretch.from.max(from))
}

/// For how many bit times from `from` up to, and without, `to` there is carrier. It doesn't look at each stretch before `from`.
pub fn bits_within(stretches: &[Stretch], from: u64, to: u64) -> u64
    requires apart { AreApart stretches.now }
    ensures { (list : List Entry) → IsCarrierOf stretches.now list → result ≡ carrier_bits list from to }
{
    let first = stretches.partition_point(|stretch| stretch.to <= from);
    let mut bits = 0;
    for stretch in &stretches[first..] {
        if stretch.from >= to {
            break;
        }
        bits += part(*stretch, from, to);
    }
    bits
}
