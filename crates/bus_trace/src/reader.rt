//! A reader of a trace text that is given piece by piece.
ghost use Rattle.std.specs.Prelude.{◌≡◌, ◌≢◌, ◌≤◌, ◌-◌, ◌+◌, ◌<◌, ◌++◌, ◌↔◌, [], length, take, IfOk, IsTrue, OnErr};
ghost use Rattle.bus_trace.specs.Limits.{line_limit, trace_limit};
ghost use Rattle.bus_trace.specs.Runs.{begin, stream_of};
ghost use Rattle.bus_trace.specs.Feeding.{ReaderIs};
ghost use Rattle.bus_trace.specs.inside.Feeds.{fed_of, FeedGives, LeadsOn, FinishGives};
ghost use Rattle.bus_trace.specs.Pieces.{stream, IsOpen, IsShut, IsPending, IsDue, Stands, Finishes};
ghost use Rattle.bus_trace.specs.declared.stage.Stage.TheVariants.{Open, Shut};

use crate::fault::TraceError;
use crate::limits::{LINE_LIMIT, TRACE_LIMIT};
use crate::reason::TraceReason;
use crate::stage::{Fed, Stage};
use crate::trace::Trace;
use crate::walk::{Walk, Walked};
use bus_strings::laws::neighbours_tell;
use std::alloc::{AllocError, Global};
use std::marker::Model;

/// The front of a piece, as far as so many bytes.
fn within(piece: &[u8], room: usize) -> &[u8]
    ensures { result.now ≡ take room piece.now }
{
    if piece.len() <= room {
        piece
    } else {
        &piece[..room]
    }
}

/// How the reader stands then, and what it answers.
fn fed(walked: Walked, longer: bool) -> (Stage, Fed)
    ensures { result ≡ fed_of walked longer }
{
    match walked {
        Walked::Passed if longer => (Stage::Shut, Fed::TooLarge),
        Walked::Passed => (Stage::Open, Fed::More),
        Walked::Ended { used } => (Stage::Whole, Fed::Whole { used }),
        Walked::Failed { byte, reason } => (Stage::Shut, Fed::Refused { byte, reason }),
    }
}

/// Reads a trace text of either format that comes in pieces, however they are cut, and keeps no more than one line of it beside the values
/// already read.
///
/// ```
/// let mut reader = TraceReader::new(alloc)?;
/// for piece in pieces {
///     match reader.feed(piece)? {
///         Fed::More => {}
///         answer => break,
///     }
/// }
/// let trace = reader.finish()?;
/// ```
#[derive(Drop)]
pub struct TraceReader {
    alloc: Global,
    walk: Walk,
    stage: Stage,
}

impl Model for TraceReader {
    ghost use Rattle.bus_trace.specs.Feeding.{Reader, ReaderIs};

    ghost Value = { Reader };

    ghost view = { λ r. record { stage = r.stage; at = r.walk } };

    ghost invariant = { λ r. ReaderIs r.stage r.walk };
}

impl TraceReader {
    /// A reader to which nothing came. `AllocError`: the room for a line was refused.
    pub fn new(alloc: Global) -> Result<TraceReader, AllocError>
        ensures is_open { IfOk result IsOpen }
        ensures nothing { IfOk result (λ r. stream r ≡ []) }
    {
        TraceReader::at_start(alloc)
    }

    /// Whether it takes more: true until a piece was answered by anything but `More`, or memory was refused.
    pub fn is_open(&self) -> bool
        ensures { IsTrue result ↔ IsOpen self.now }
    {
        matches!(self.stage, Stage::Open)
    }

    /// The bytes behind the last line feed of all that was fed.
    pub fn pending(&self) -> &[u8]
        requires { IsOpen self.now }
        ensures behind { IsPending (stream self.now) result.now }
        ensures short { length result.now ≤ line_limit }
    {
        self.walk.pending()
    }

    /// Takes the next piece of the stream, while the reader is open.
    ///
    /// `Whole` comes exactly where a trace text ends in this piece, within its limit, and `used` bytes of the piece belong to it. `Refused`
    /// comes exactly where no front of the stream is a trace text, and the offending line, or its first 1,802 bytes, has come within the
    /// limit; `byte` is the length of the lines before it. `TooLarge` comes exactly where the stream is past the limit and neither came
    /// before, and `More` in every other case. `AllocError`: memory was refused, and the reader takes no more.
    pub fn feed(&mut self, piece: &[u8]) -> Result<Fed, AllocError>
        requires { IsOpen self.old }
        // The answer is due for all that was fed.
        ensures due { IfOk result (IsDue (stream self.old ++ piece.now) (length (stream self.old))) }
        // No other answer is.
        ensures only { IfOk result (λ a. (b : Fed) → IsDue (stream self.old ++ piece.now) (length (stream self.old)) b → b ≡ a) }
        ensures stands { IfOk result (Stands self.old self.new piece.now) }
        ensures failed { OnErr result (IsShut self.new) }
    {
        neighbours_tell();
        self.take(piece)
    }

    /// Ends the stream. The reader is open, or its last answer was `Whole`; it takes no memory.
    ///
    /// Ok comes exactly where the last answer was `Whole`, and is the trace whose text was found. Else the error is `Text` with the reason
    /// `Ended`, at the place at which what is pending begins.
    pub fn finish(self) -> Result<Trace, TraceError>
        requires { IsShut self → ⊥ }
        ensures { Finishes self result }
    {
        neighbours_tell();
        self.end()
    }

    /// A reader to which nothing came.
    pub(crate) fn at_start(alloc: Global) -> Result<TraceReader, AllocError>
        ensures is_open { IfOk result (λ r. r.stage ≡ Open) }
        ensures begins { IfOk result (λ r. r.at ≡ begin) }
    {
        let line = Vec::with_capacity(alloc, LINE_LIMIT)?;
        Ok(TraceReader {
            alloc,
            walk: Walk::new(alloc, line),
            stage: Stage::Open,
        })
    }

    /// How many bytes may be looked at next, so that none is behind the one that decides: up to the first byte past the limit of a line,
    /// and up to the limit of the text, or the one byte past it.
    pub(crate) fn room(&self) -> usize
        requires { self.now.stage ≡ Open }
        ensures some { 0 < result }
        ensures line { length self.now.at.line + result ≤ line_limit + 1 }
        ensures text { length (stream_of self.now.at) + result ≤ trace_limit + 1 }
        ensures within { length (stream_of self.now.at) < trace_limit → length (stream_of self.now.at) + result ≤ trace_limit }
    {
        let line = LINE_LIMIT + 1 - self.walk.pending().len();
        let text = (TRACE_LIMIT - self.walk.length()).max(1);
        line.min(text)
    }

    /// Takes the next piece of the stream.
    pub(crate) fn take(&mut self, piece: &[u8]) -> Result<Fed, AllocError>
        requires { self.old.stage ≡ Open }
        ensures { FeedGives self.old self.new piece.now result }
    {
        self.stage = Stage::Shut;
        let used = self.walk.length();
        let front = within(piece, TRACE_LIMIT - used);
        let walked = self.walk.walk(self.alloc, front)?;
        let (stage, answer) = fed(walked, front.len() < piece.len());
        self.stage = stage;
        Ok(answer)
    }

    /// Takes the whole lines in front of a piece that are recognized as they are written, and says how many bytes these have.
    pub(crate) fn take_quickly(&mut self, piece: &[u8]) -> Result<usize, AllocError>
        requires { self.old.stage ≡ Open }
        ensures { LeadsOn self.old self.new piece.now result }
    {
        self.stage = Stage::Shut;
        let used = self.walk.length();
        let front = within(piece, TRACE_LIMIT - used);
        let count = self.walk.walk_quickly(self.alloc, front)?;
        self.stage = Stage::Open;
        Ok(count)
    }

    /// Ends the stream.
    pub(crate) fn end(self) -> Result<Trace, TraceError>
        requires { self.stage ≢ Shut }
        ensures gives { FinishGives self result }
        ensures is { ReaderIs self.stage self.at }
    {
        match self.stage {
            Stage::Whole => Ok(self.walk.into_trace()),
            Stage::Open => Err(TraceError::Text {
                byte: self.walk.used(),
                reason: TraceReason::Ended,
            }),
            Stage::Shut => unreachable!(),
        }
    }
}
