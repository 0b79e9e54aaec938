//! The window of a view.
ghost use Rattle.std.specs.Prelude.{◌≡◌};
ghost use Rattle.bus_view.specs.Due as due;

use bus_trace::{Trace, Window};

/// The window that is asked for, or all of a trace.
pub(crate) fn window_or_whole(window: Option<Window>, trace: &Trace) -> Window
    ensures { result ≡ due.window_or_whole window trace.now }
{
    match window {
        Some(window) => window,
        None => Window::whole(trace.horizon()),
    }
}
