//! Where wordstrings and their words are.
ghost use Rattle.std.specs.Prelude.{◌≡◌, ◌<◌, ◌≤◌, ◌^◌};
ghost use Rattle.bus_pen.specs.Scales.{IsScale};
ghost use Rattle.bus_picture.specs.Strings as definition;

use crate::measures::{STRING_BELOW, STRING_HEIGHT};
use bus_pen::{Area, Scale};

/// Whether what goes from one moment to another meets those of a scale.
pub(crate) fn meets(scale: &Scale, from: u64, to: u64) -> bool
    ensures { result ≡ definition.meets scale.now from to }
{
    from < scale.to && scale.from < to
}

/// Whether a scale has a moment.
pub(crate) fn has_moment(scale: &Scale, moment: u64) -> bool
    ensures { result ≡ definition.has_moment scale.now moment }
{
    scale.from <= moment && moment < scale.to
}

/// The area of a wordstring or of a word, from its first moment to its end, in a row with this upper edge.
pub(crate) fn string_area(scale: &Scale, top: u64, from: u64, to: u64) -> Area
    requires scale { IsScale scale.now }
    requires order { from ≤ to }
    requires top { top < 2 ^ 40 }
    ensures value { result ≡ definition.string_area scale.now top from to }
    ensures left { result.left < 2 ^ 22 }
    ensures width { result.width < 2 ^ 22 }
    ensures top { result.top < 2 ^ 41 }
{
    Area {
        left: scale.place(from),
        top: top + STRING_BELOW,
        width: scale.extent(from, to),
        height: STRING_HEIGHT,
    }
}
