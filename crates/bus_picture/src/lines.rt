//! The lines of timers, and the words of gaps.
ghost use Rattle.std.specs.Prelude.{◌≡◌, ◌<◌, ◌≤◌, ◌^◌, true};
ghost use Rattle.bus_pen.specs.Scales.{IsScale};
ghost use Rattle.bus_picture.specs.Timers as definition;

use crate::measures::{GAP_REACH, LINE_HEIGHT, PLOT_LEFT};
use bus_pen::measures::PIXEL;
use bus_pen::{Area, Scale};

/// Whether what goes from one moment to a later one is drawn: it takes a pixel.
pub(crate) fn is_drawn(scale: &Scale, from: u64, to: u64) -> bool
    requires { IsScale scale.now }
    ensures value { result ≡ definition.is_drawn scale.now from to }
    ensures order { (result ≡ true) → from < to }
{
    from < to && scale.place(from) + PIXEL <= scale.place(to)
}

/// A thin line from one moment to another.
pub(crate) fn line_area(scale: &Scale, top: u64, from: u64, to: u64) -> Area
    requires scale { IsScale scale.now }
    requires order { from ≤ to }
    ensures value { result ≡ definition.line_area scale.now top from to }
    ensures left { result.left < 2 ^ 22 }
    ensures width { result.width < 2 ^ 22 }
{
    Area {
        left: scale.place(from),
        top,
        width: scale.extent(from, to),
        height: LINE_HEIGHT,
    }
}

/// Whether a line has words: it takes the room that is asked for them, and they begin behind the left edge of the plot.
pub(crate) fn has_words(room: u64, area: Area) -> bool
    requires left { area.left < 2 ^ 22 }
    requires width { area.width < 2 ^ 22 }
    ensures { result ≡ definition.has_words room area }
{
    room <= area.width && PLOT_LEFT + GAP_REACH <= area.left + area.width
}
