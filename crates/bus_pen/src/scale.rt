//! Where moments are drawn.
ghost use Rattle.std.specs.Prelude.{◌≡◌, ◌≤◌, ◌+◌};
ghost use Rattle.bus_pen.specs.Scales as definition;
ghost use Rattle.bus_pen.specs.Scales.{IsScale};

use crate::measures::PIXEL;

/// Where moments are drawn: those from `from` to `to` from a left edge on, over a width. A unit is a tenth of a pixel.
#[derive(Clone, Copy, Debug, PartialEq, Eq)]
pub struct Scale {
    /// The moment at the left edge.
    pub from: u64,
    /// The moment at the right edge, above `from` and at most 2^41.
    pub to: u64,
    /// The left edge, below 2^20.
    pub left: u64,
    /// The width, 1 to below 2^20.
    pub width: u64,
}

impl Scale {
    /// The place of a moment, or of the end of the scale that is nearest to it.
    pub fn place(&self, t: u64) -> u64
        requires { IsScale self.now }
        ensures value { result ≡ definition.place self.now t }
        ensures left { self.now.left ≤ result }
        ensures right { result ≤ self.now.left + self.now.width }
    {
        let held = t.max(self.from).min(self.to);
        self.left + (held - self.from) * self.width / (self.to - self.from)
    }

    /// The width of the box of two moments, at least a pixel.
    pub fn extent(&self, from: u64, to: u64) -> u64
        requires scale { IsScale self.now }
        requires order { from ≤ to }
        ensures { result ≡ definition.extent self.now from to }
    {
        (self.place(to) - self.place(from)).max(PIXEL)
    }
}
