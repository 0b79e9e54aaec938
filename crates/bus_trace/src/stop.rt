//! What may stand behind lines of a trace text.
ghost use Rattle.std.specs.Prelude.{◌≡◌, IfOk};
ghost use Rattle.bus_trace.specs.States.{start};
ghost use Rattle.bus_trace.specs.Stops.{may_stand as stands, stop_behind as behind, stop_in};

use crate::format::Format;
use crate::keyword::Keyword;
use crate::limits::LINE_LIMIT;
use crate::position::{Position, may_follow};
use crate::walk::{Walk, Walked};
use std::alloc::{AllocError, Global};

/// Behind which lines of a trace text a line stands, as far as these decide what may stand there.
#[derive(Clone, Copy, Debug, PartialEq, Eq)]
pub struct Stop {
    position: Position,
    format: Format,
    // How many the last transmission has.
    strings: usize,
}

impl Stop {
    /// Behind the line of a position, where the last transmission has so many wordstrings.
    pub(crate) fn new(position: Position, format: Format, strings: usize) -> Stop
        ensures { result ≡ record { position = position; format = format; strings = strings } }
    {
        Stop {
            position,
            format,
            strings,
        }
    }

    /// Behind no line.
    fn at_start() -> Stop
        ensures { result ≡ stop_in start }
    {
        Stop::new(Position::Start, Format::One, 0)
    }

    /// Whether a line of a keyword may stand there.
    pub fn may_stand(&self, keyword: Keyword) -> bool
        ensures { result ≡ stands self.now keyword }
    {
        may_follow(self.position, self.format, self.strings, keyword)
    }
}

/// Behind which lines the next line of a trace text stands, where these are all the bytes in front of it, and with none of them anything
/// is wrong. Of bytes of which a line is refused nothing is told: they are as none.
///
/// # Errors
///
/// Want of memory.
pub fn stop_behind(alloc: Global, lines: &[u8]) -> Result<Stop, AllocError>
    ensures { IfOk result (λ stop. stop ≡ behind lines.now) }
{
    let line = Vec::with_capacity(alloc, LINE_LIMIT)?;
    let mut walk = Walk::new(alloc, line);
    match walk.walk(alloc, lines)? {
        Walked::Passed | Walked::Ended { .. } => Ok(walk.stop()),
        Walked::Failed { .. } => Ok(Stop::at_start()),
    }
}
