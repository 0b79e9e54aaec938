//! What a time line counts.
ghost use Rattle.std.specs.Prelude.{◌≡◌};
ghost use Rattle.bus_strings.specs.Transmissions.{IsByMoment};
ghost use Rattle.bus_pen.specs.Scales.{IsScale};
ghost use Rattle.bus_picture.specs.Kinds as definition;

use crate::cluster::is_thin;
use crate::places::meets;
use bus_pen::Scale;
use bus_shapes::{Counts, Sent, Sents};
use bus_strings::Transmission;
use bus_strings::laws::neighbours_tell;
use bus_trace::Trace;

/// The transmissions that meet the moments of a scale, and how many of them are garbled.
pub(crate) fn counts(scale: &Scale, trace: &Trace) -> Counts
    ensures { result ≡ definition.counts_of scale.now trace.now }
{
    neighbours_tell();
    let mut shown = 0;
    let mut garbled = 0;
    for sent in Sents::new(trace.list()) {
        if meets(scale, sent.moment, sent.end) {
            shown += 1;
            garbled += u64::from(sent.garbled);
        }
    }
    Counts {
        from: scale.from,
        to: scale.to,
        horizon: trace.horizon(),
        shown,
        garbled,
    }
}

/// Whether a transmission is shown and takes less than a pixel.
fn is_shown_thin(scale: &Scale, sent: &Sent) -> bool
    requires { IsScale scale.now }
    ensures { result ≡ definition.is_shown_thin scale.now sent.now }
{
    meets(scale, sent.moment, sent.end) && is_thin(scale, sent)
}

/// Whether a list has such a transmission. It goes over the list up to the first.
fn any_thin(scale: &Scale, list: &[Transmission]) -> bool
    requires scale { IsScale scale.now }
    requires by_moment { IsByMoment list.now }
    ensures { result ≡ definition.has_thin scale.now list.now }
{
    for sent in Sents::new(list) {
        if is_shown_thin(scale, &sent) {
            return true;
        }
    }
    false
}

/// Whether a trace has one.
pub(crate) fn has_thin(scale: &Scale, trace: &Trace) -> bool
    requires { IsScale scale.now }
    ensures { result ≡ definition.has_thin scale.now trace.now.list }
{
    neighbours_tell();
    let list = trace.list();
    any_thin(scale, list)
}
