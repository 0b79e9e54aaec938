//! What only one program refuses, beside what every command does.
ghost use Rattle.std.specs.Prelude.{◌≡◌, List, ℕ};
ghost use Rattle.bus_command.specs.declared.status.Status.{Status as Ends};
ghost use Rattle.bus_outer.specs.Sinks.{WritesText};

use crate::status::Status;
use bus_outer::{Sink, WriteFault};

/// Where a refusal of a program's own stands in the order of refusals.
#[derive(Clone, Copy, Debug, PartialEq, Eq)]
pub enum Place {
    /// It refuses what the first text says, before the second source is pulled.
    First,
    /// It refuses what the second text says.
    Second,
    /// It refuses what comes of both texts.
    Both,
}

/// A refusal of a program's own: how the program ends with it, and its line.
pub trait Refusal: Copy {
    /// How the program ends.
    ghost ends: { Self → Ends };

    /// The line on the error output.
    ghost line: { Self → List ℕ };

    /// How the program ends with it.
    fn status(&self) -> Status
        ensures { result ≡ ends self.now };

    /// Writes its line. After a `WriteFault`, which comes only where the sink's count of faults rose, the sink has taken a beginning of it.
    fn write_line<K: Sink>(&self, err: &mut K) -> Result<(), WriteFault>
        ensures { WritesText K.held K.faults err.old err.new result (line self.now) };
}
