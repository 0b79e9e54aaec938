//! A stretch of a trace, of which alone something is shown.
ghost use Rattle.std.specs.Prelude.{◌≡◌, ◌≤◌, ◌<◌, ◌↔◌, IsSome, IfSome};
ghost use Rattle.bus_strings.specs.Limits.{horizon_limit};
ghost use Rattle.bus_trace.specs.Windows as definition;
ghost use Rattle.bus_trace.specs.Windows.{IsWindow};

use bus_strings::limits::HORIZON_LIMIT;
use std::marker::Model;

/// A stretch of a trace, of which alone something is shown: from a moment to a later one, which is not shown itself. It goes no further
/// than a trace may ([`HORIZON_LIMIT`]).
#[derive(Debug, Drop)]
pub struct Window {
    from: u64,
    to: u64,
}

impl Model for Window {
    ghost use Rattle.bus_trace.specs.Windows as windows;

    ghost Value = { windows.Window };

    ghost view = { λ s. record { from = s.from; to = s.to } };

    ghost invariant = { λ s. windows.IsWindow (record { from = s.from; to = s.to }) };
}

impl Window {
    /// The moments from `from` to below `to`; None where there is none, or `to` is above [`HORIZON_LIMIT`].
    pub fn new(from: u64, to: u64) -> Option<Window>
        ensures some { IsSome result ↔ IsWindow (record { from = from; to = to }) }
        ensures value { IfSome result (λ window. window ≡ record { from = from; to = to }) }
    {
        if to <= from || HORIZON_LIMIT < to {
            return None;
        }
        Some(Window { from, to })
    }

    /// All moments below a horizon, and at least one.
    pub fn whole(horizon: u64) -> Window
        requires { horizon ≤ horizon_limit }
        ensures { result ≡ definition.whole horizon }
    {
        Window {
            from: 0,
            to: horizon.max(1),
        }
    }

    /// The first moment that is shown.
    pub fn from(&self) -> u64
        ensures value { result ≡ self.now.from }
        ensures ranges { IsWindow self.now }
    {
        self.from
    }

    /// The first moment that isn't shown any more.
    pub fn to(&self) -> u64
        ensures value { result ≡ self.now.to }
        ensures ranges { IsWindow self.now }
    {
        self.to
    }

    /// Whether it holds a moment.
    pub fn holds(&self, t: u64) -> bool
        ensures { result ≡ definition.holds self.now t }
    {
        self.from <= t && t < self.to
    }
}
