//! A walk over the lines of a trace text, piece by piece.
ghost use Rattle.std.specs.Prelude.{◌≡◌, ◌<◌, ◌≤◌, if◌then◌else◌, ◌+◌, ◌^◌, length, ◌++◌, ◌∷◌, [], MatchOption, IfOk};
ghost use Rattle.bus_trace.specs.Limits.{line_limit};
ghost use Rattle.bus_trace.specs.States.{step, text_of, recorded};
ghost use Rattle.bus_trace.specs.Stops.{stop_in};
ghost use Rattle.bus_trace.specs.Runs.{HasNoFeed, judged, run, begin, stream_of};
ghost use Rattle.bus_trace.specs.inside.Walking.{KeepGives, JudgedGives, TookFront, WalkGives, GoesOn};

use crate::draft::Draft;
use crate::limits::LINE_LIMIT;
use crate::reason::TraceReason;
use crate::stop::Stop;
use crate::trace::Trace;
use bus_text::{LineFault, first_feed};
use std::alloc::{AllocError, Global};
use std::marker::Model;

/// What the bytes of one line gave.
pub(crate) enum Judged {
    Passes,
    Ends,
    Fails { byte: u64, reason: TraceReason },
}

/// What a piece gave.
#[derive(Drop)]
pub(crate) enum Walked {
    Passed,
    Ended { used: usize },
    Failed { byte: u64, reason: TraceReason },
}

/// The first line, where it is complete, and what is behind its line feed.
fn first_line(text: &[u8]) -> Option<(&[u8], &[u8])>
    ensures { MatchOption result (HasNoFeed text.now) (λ r. (text.now ≡ r.0.now ++ 10 ∷ r.1.now) × HasNoFeed r.0.now) }
{
    let at = first_feed(text)?;
    Some((&text[..at], &text[at + 1..]))
}

/// What a line that was taken gave.
fn passes(ended: bool) -> Judged
    ensures { result ≡ (if ended then Judged.Ends else Judged.Passes) }
{
    if ended { Judged::Ends } else { Judged::Passes }
}

/// What whole lines gave, and the bytes behind the last line feed.
#[derive(Drop)]
pub(crate) struct Walk {
    draft: Draft,
    line: Vec<u8>,
    used: u64,
}

impl Model for Walk {
    ghost use Rattle.bus_trace.specs.Runs.{Standing};
    ghost use Rattle.bus_trace.specs.States.{recorded};
    ghost use Rattle.bus_trace.specs.inside.Walking.{WalkIs};

    ghost Value = { Standing };

    ghost view = { λ w. record { state = w.draft; line = w.line.items } };

    ghost invariant = { λ w. WalkIs w.draft w.line.items w.used };
}

impl Walk {
    /// Nothing came; `line` is the room for a line.
    pub(crate) fn new(alloc: Global, line: Vec<u8>) -> Walk
        requires { line.items ≡ [] }
        ensures { result ≡ begin }
    {
        Walk {
            draft: Draft::new(alloc),
            line,
            used: 0,
        }
    }

    /// How many bytes the whole lines have.
    pub(crate) fn used(&self) -> u64
        ensures { result ≡ length (text_of self.now.state) }
    {
        self.used
    }

    /// How many bytes came.
    pub(crate) fn length(&self) -> usize
        requires { length (stream_of self.now) < 2 ^ 63 }
        ensures { result ≡ length (stream_of self.now) }
    {
        self.used as usize + self.line.len()
    }

    /// The bytes behind the last line feed.
    pub(crate) fn pending(&self) -> &[u8]
        ensures value { result.now ≡ self.now.line }
        ensures short { length result.now ≤ line_limit }
    {
        &self.line
    }

    /// Takes bytes of one line, where there is room for them.
    fn keep(&mut self, bytes: &[u8]) -> Result<bool, AllocError>
        requires { HasNoFeed bytes.now }
        ensures { KeepGives self.old self.new bytes.now result }
    {
        if bytes.len() > LINE_LIMIT - self.line.len() {
            return Ok(false);
        }
        self.line.extend_from_slice(bytes)?;
        Ok(true)
    }

    /// The line is complete.
    fn judge(&mut self, alloc: Global) -> Result<Judged, AllocError>
        requires { length (stream_of self.old) < 2 ^ 63 }
        ensures { JudgedGives self.old self.new (10 ∷ []) result (judged self.old.state (step self.old.state self.old.line)) }
    {
        match self.draft.take_line(alloc, &self.line) {
            Ok(()) => {}
            Err(LineFault::Memory) => return Err(AllocError),
            Err(LineFault::Refused(reason)) => {
                return Ok(Judged::Fails {
                    byte: self.used,
                    reason,
                });
            }
        }
        self.used += self.line.len() as u64 + 1;
        self.line.clear();
        Ok(passes(self.draft.is_ended()))
    }

    /// The line is complete, and this is all of it.
    fn judge_front(&mut self, alloc: Global, line: &[u8]) -> Result<Judged, AllocError>
        requires room { length (stream_of self.old) + length line.now < 2 ^ 63 }
        requires empty { self.old.line ≡ [] }
        requires short { length line.now ≤ line_limit }
        ensures { JudgedGives self.old self.new (line.now ++ 10 ∷ []) result (judged self.old.state (step self.old.state line.now)) }
    {
        match self.draft.take_line(alloc, line) {
            Ok(()) => {}
            Err(LineFault::Memory) => return Err(AllocError),
            Err(LineFault::Refused(reason)) => {
                return Ok(Judged::Fails {
                    byte: self.used,
                    reason,
                });
            }
        }
        self.used += line.len() as u64 + 1;
        Ok(passes(self.draft.is_ended()))
    }

    /// Takes the rest of a line, and its line feed.
    fn close(&mut self, alloc: Global, front: &[u8]) -> Result<Judged, AllocError>
        requires room { length (stream_of self.old) + length front.now < 2 ^ 63 }
        requires one { HasNoFeed front.now }
        ensures { JudgedGives self.old self.new (front.now ++ 10 ∷ []) result (run self.old (front.now ++ 10 ∷ [])) }
    {
        if self.line.is_empty() && front.len() <= LINE_LIMIT {
            return self.judge_front(alloc, front);
        }
        if !self.keep(front)? {
            return Ok(Judged::Fails {
                byte: self.used(),
                reason: TraceReason::Long,
            });
        }
        self.judge(alloc)
    }

    /// Takes a whole line in front that is recognized as it is written, where none is begun, and gives what is behind its line feed.
    fn take_quickly<'a>(
        &mut self,
        alloc: Global,
        text: &'a [u8],
    ) -> Result<Option<&'a [u8]>, AllocError>
        requires room { length (stream_of self.old) + length text.now < 2 ^ 63 }
        requires empty { self.old.line ≡ [] }
        ensures { IfOk result (λ o. MatchOption o (self.new ≡ self.old) (λ r. TookFront self.old self.new text.now r.now)) }
    {
        let Some(rest) = self.draft.take_quickly(alloc, text, true)? else {
            return Ok(None);
        };
        self.used += (text.len() - rest.len()) as u64;
        Ok(Some(rest))
    }

    /// Takes the whole lines in front of a piece that are recognized as they are written, where no line is begun, and says how many bytes
    /// these have: they decide nothing.
    pub(crate) fn walk_quickly(&mut self, alloc: Global, piece: &[u8]) -> Result<usize, AllocError>
        requires { length (stream_of self.old) + length piece.now < 2 ^ 63 }
        ensures { GoesOn self.old self.new piece.now result }
    {
        if !self.pending().is_empty() {
            return Ok(0);
        }
        let mut rest = piece;
        while let Some(behind) = self.take_quickly(alloc, rest)? {
            rest = behind;
        }
        Ok(piece.len() - rest.len())
    }

    /// Takes the next piece of the stream.
    pub(crate) fn walk(&mut self, alloc: Global, piece: &[u8]) -> Result<Walked, AllocError>
        requires { length (stream_of self.old) + length piece.now < 2 ^ 63 }
        ensures { WalkGives self.old self.new piece.now result (run self.old piece.now) }
    {
        let mut rest = piece;
        while let Some((front, behind)) = first_line(rest) {
            match self.close(alloc, front)? {
                Judged::Passes => rest = behind,
                Judged::Ends => {
                    return Ok(Walked::Ended {
                        used: piece.len() - behind.len(),
                    });
                }
                Judged::Fails { byte, reason } => return Ok(Walked::Failed { byte, reason }),
            }
        }
        if !self.keep(rest)? {
            return Ok(Walked::Failed {
                byte: self.used(),
                reason: TraceReason::Long,
            });
        }
        Ok(Walked::Passed)
    }

    /// What decides which line may stand next.
    pub(crate) fn stop(&self) -> Stop
        ensures { result ≡ stop_in self.now.state }
    {
        self.draft.stop()
    }

    /// The trace of what was read.
    pub(crate) fn into_trace(self) -> Trace
        ensures { result ≡ recorded self.state }
    {
        self.draft.into_trace()
    }
}
