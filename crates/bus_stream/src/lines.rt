//! A line at a time, of a source that may have no end.
ghost use Rattle.std.specs.Prelude.{◌≡◌, ◌<◌, ◌-◌, length, take};
ghost use Rattle.bus_stream.specs.Lines.{CountsLine, HasNoFeed, ReadsLine};
ghost use Rattle.bus_stream.specs.inside.Pieces.{with_feed};

use bus_outer::{Pull, Source};
use std::alloc::AllocError;

/// How many bytes a line has at most, its line feed included.
pub const LINE_LIMIT: usize = 65_536;

/// How many bytes one pull asks for at most.
const PIECE: usize = 4096;

/// What a read of a line came to.
#[derive(Clone, Copy, Debug, PartialEq, Eq)]
pub enum LineRead {
    /// A whole line, without its line feed.
    Line,
    /// The source has ended; what stands behind the last line feed is no line.
    End,
    /// [`LINE_LIMIT`] bytes came without a line feed.
    Long,
    /// A pull failed: the count of faults of the source rose.
    Failed,
}

/// The bytes of a line among those of one pull, of which none but the last is a line feed, and whether that is one.
fn of_line(piece: &[u8]) -> (&[u8], bool)
    requires some { 0 < length piece.now }
    requires stops { HasNoFeed (take (length piece.now - 1) piece.now) }
    ensures none { HasNoFeed result.0.now }
    ensures all { piece.now ≡ with_feed result.0.now result.1 }
{
    let last = piece.len() - 1;
    if piece[last] == b'\n' {
        (&piece[..last], true)
    } else {
        (piece, false)
    }
}

/// Takes the next line of a source, and no byte behind its line feed. `line` has its bytes then; at every other answer those that came.
pub fn read_line<S: Source>(source: &mut S, line: &mut Vec<u8>) -> Result<LineRead, AllocError>
    ensures reads { ReadsLine (S.left source.old) (S.left source.new) result line.new.items }
    ensures counts { CountsLine (S.faults source.old) (S.faults source.new) result }
{
    line.clear();
    let mut piece = [0u8; PIECE];
    while line.len() < LINE_LIMIT {
        let room = PIECE.min(LINE_LIMIT - line.len());
        let n = match source.pull_line(&mut piece[..room]) {
            Pull::Got(n) => n,
            Pull::End => return Ok(LineRead::End),
            Pull::Failed => return Ok(LineRead::Failed),
        };
        let (bytes, ended) = of_line(&piece[..n]);
        line.extend_from_slice(bytes)?;
        if ended {
            return Ok(LineRead::Line);
        }
    }
    Ok(LineRead::Long)
}
