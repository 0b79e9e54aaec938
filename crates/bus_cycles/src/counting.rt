//! What a picture shows of a trace.
ghost use Rattle.std.specs.Prelude.{◌≡◌, ◌<◌, ◌≤◌, ◌^◌};
ghost use Rattle.bus_cycles.specs.Surveys as definition;

use crate::shown::Shown;
use bus_shapes::Counts;
use bus_trace::{Trace, Window};

/// How many transmissions begin in a window, and how many of them are garbled.
pub(crate) fn counts(window: &Window, trace: &Trace) -> Counts
    ensures value { result ≡ definition.counts window.now trace.now }
    ensures window { result.from < result.to }
    ensures low { result.to ≤ 2 ^ 40 }
{
    let mut count = 0;
    let mut garbled = 0;
    for sent in Shown::new(window, trace) {
        count += 1;
        if sent.garbled {
            garbled += 1;
        }
    }
    Counts {
        from: window.from(),
        to: window.to(),
        horizon: trace.horizon(),
        shown: count,
        garbled,
    }
}
