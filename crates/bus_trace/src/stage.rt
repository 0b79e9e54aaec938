//! How far a reader of a trace text has come.
use crate::reason::TraceReason;

/// Whether a reader takes more.
#[derive(Drop)]
pub(crate) enum Stage {
    /// Nothing is decided yet.
    Open,
    /// The END line was read.
    Whole,
    /// A line was refused, the limit was passed, or memory ran out.
    Shut,
}

/// What a piece of a stream gave.
#[derive(Clone, Copy, Debug, PartialEq, Eq)]
pub enum Fed {
    /// Nothing is decided yet.
    More,
    /// So many bytes of the piece end the trace text.
    Whole { used: usize },
    /// A line is refused, behind lines of so many bytes.
    Refused { byte: u64, reason: TraceReason },
    /// The limit of a trace text was passed.
    TooLarge,
}
