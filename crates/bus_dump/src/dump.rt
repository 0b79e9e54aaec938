//! The three dumps of a trace.
ghost use Rattle.std.specs.Prelude.{◌≡◌};
ghost use Rattle.bus_dump.specs.Signals as signals;

use crate::signal::Signal;

/// Which signals a dump has.
#[derive(Clone, Copy, Debug, PartialEq, Eq)]
pub enum Dump {
    /// All signals of the bus and of each lane.
    Vcd,
    /// The signals of one bit alone.
    Wires,
    /// All signals, and the timers of each sender.
    Timers,
}

impl Dump {
    /// Whether the dump has the signal, of a sender or not.
    pub(crate) fn has(self, sender: bool, signal: Signal) -> bool
        ensures { result ≡ signals.has self sender signal }
    {
        match self {
            Dump::Vcd => !signal.is_timer(),
            Dump::Wires => signal.is_wire() && !signal.is_timer(),
            Dump::Timers => sender || !signal.is_timer(),
        }
    }
}
