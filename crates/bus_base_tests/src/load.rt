//! Carrier, by example.
ghost use Rattle.std.specs.Prelude.{IfOk};
ghost use Rattle.bus_load.specs.Loads.{AreApart};

use crate::strings::transmissions;
use bus_load::{Stretch, bits_within, carrier_stretches};
use std::alloc::Global;
use std::process::Abort;
use std::test::Fail;

/// The stretches of the carrier of these.
fn carrier_of(alloc: Global, sendings: &[(u64, &[usize])]) -> Result<Vec<Stretch>, Fail>
    ensures { IfOk result (λ carrier. AreApart carrier.items) }
{
    Ok(carrier_stretches(alloc, &transmissions(alloc, sendings)?)?)
}

/// The carrier of these transmissions has these stretches, and so many bit times from one moment up to another.
fn has_carrier(
    rt: &impl Abort,
    alloc: Global,
    sendings: &[(u64, &[usize])],
    stretches: &[Stretch],
    spans: &[(u64, u64, u64)],
) -> Result<(), Fail> {
    let carrier = carrier_of(alloc, sendings)?;
    assert_eq!(rt; carrier.as_slice(), stretches);
    for (from, to, bits) in spans {
        let (from, to) = (*from, *to);
        assert!(rt;
            bits_within(&carrier, from, to) == *bits,
            "from {from} to {to}"
        );
    }
    Ok(())
}

#[test]
fn the_quiet_between_two_wordstrings_has_no_carrier(rt: HostRuntime) -> Result<(), Fail> {
    let stretches = [
        Stretch { from: 10, to: 50 },
        Stretch { from: 54, to: 114 },
        Stretch { from: 200, to: 220 },
    ];
    let spans = [
        (0, 10, 0),
        (0, 11, 1),
        (0, 1000, 120),
        (49, 55, 2),
        (50, 54, 0),
        (60, 205, 59),
        (219, 300, 1),
        (220, 300, 0),
        (205, 60, 0),
    ];
    has_carrier(
        &rt,
        rt.alloc(),
        &[(10, &[1, 2]), (200, &[0])],
        &stretches,
        &spans,
    )
}

#[test]
fn what_several_send_at_once_counts_once(rt: HostRuntime) -> Result<(), Fail> {
    has_carrier(
        &rt,
        rt.alloc(),
        &[(100, &[1, 2]), (120, &[0]), (140, &[0]), (300, &[0])],
        &[
            Stretch { from: 100, to: 204 },
            Stretch { from: 300, to: 320 },
        ],
        &[(0, 1000, 124), (200, 301, 5)],
    )
}

#[test]
fn without_transmissions_there_is_no_carrier(rt: HostRuntime) -> Result<(), Fail> {
    has_carrier(&rt, rt.alloc(), &[], &[], &[(0, 1000, 0)])
}
