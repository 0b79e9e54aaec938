//! Which text stands beside a table: its first line tells.
ghost use Rattle.std.specs.Prelude.{◌≡◌};
ghost use Rattle.bus_diagnosis.specs.Kinds as kinds;

use bus_text::{Fields, Lines, line_after};

const MESSAGES: &[u8] = b"MESSAGES";

const CABLE: &[u8] = b"CABLE";

const TRACE: &[u8] = b"TRACE";

/// A text that stands beside a table.
#[derive(Clone, Copy, Debug, PartialEq, Eq)]
pub enum Kind {
    /// A messages text.
    Messages,
    /// A cable text.
    Cable,
    /// A trace text.
    Trace,
}

/// The first line of a text that isn't skipped.
#[derive(Clone, Copy, Debug, PartialEq, Eq)]
pub struct First {
    /// Its number among the physical lines, from 1; one past the last where there is none.
    pub line: u64,
    /// Which text begins so.
    pub kind: Option<Kind>,
}

/// Which text begins with this word.
fn kind_of(word: &[u8]) -> Option<Kind>
    ensures { result ≡ kinds.kind_of word.now }
{
    if word == MESSAGES {
        Some(Kind::Messages)
    } else if word == CABLE {
        Some(Kind::Cable)
    } else if word == TRACE {
        Some(Kind::Trace)
    } else {
        None
    }
}

/// The first line of a text.
pub(crate) fn first_of(text: &[u8]) -> First
    ensures { result ≡ kinds.first_of text.now }
{
    match Lines::new(text).next() {
        None => First {
            line: line_after(text),
            kind: None,
        },
        Some(line) => First {
            line: line.number,
            kind: kind_of(Fields::new(line.bytes).next_or_empty()),
        },
    }
}
