//! A reader behind a buffer, so that short reads make few calls of the system.
ghost use Rattle.std.specs.Prelude.{◌≡◌, ◌≤◌, ◌<◌, [], length, min, take, IfOk};
ghost use Rattle.std.specs.Io.KnownBytes.{Consumes, ReadConsumes};
ghost use Rattle.bus_outer.specs.Sources.{StopsAtFeed};
ghost use Rattle.bus_outer.specs.declared.read_ahead.TheConstants.{AHEAD};
ghost use Rattle.bus_outer.specs.declared.source.Pull.TheVariants.{Got};

use crate::line::copy_line;
use crate::piece::copy_piece;
use std::io;
use std::io::Read;

/// How many bytes are read ahead at most: no more, since each source sets so many to zero at the start of a command.
const AHEAD: usize = 4096;

/// A reader, and the bytes of it that were read ahead: those from `at` up to `end`.
#[derive(Drop)]
pub(crate) struct ReadAhead<F> {
    reader: F,
    bytes: [u8; AHEAD],
    at: usize,
    end: usize,
    ghost ordered: { at ≤ end },
    ghost within: { end ≤ AHEAD },
}

impl<F: Read> ReadAhead<F> {
    ghost use Rattle.bus_outer.specs.Ahead.{waiting, left_ahead};
    ghost use Rattle.bus_outer.specs.inside.Buffers.{Fills};

    /// Nothing is read ahead.
    pub(crate) fn new(reader: F) -> ReadAhead<F>
        ensures { left_ahead F.remaining result ≡ F.remaining reader }
    {
        ReadAhead {
            reader,
            bytes: [0; AHEAD],
            at: 0,
            end: 0,
        }
    }

    /// The bytes that were read ahead.
    pub(crate) fn at_hand(&self) -> &[u8]
        ensures { result.now ≡ waiting self.now }
    {
        &self.bytes[self.at..self.end]
    }

    /// Takes so many of the bytes that were read ahead.
    pub(crate) fn consume(&mut self, count: usize)
        requires { count ≤ length (waiting self.old) }
        ensures { Consumes (left_ahead F.remaining self.old) (left_ahead F.remaining self.new) (take count (waiting self.old)) }
    {
        self.at += count;
    }

    /// Reads some bytes into a buffer that isn't empty; none only at the end.
    pub(crate) fn read(&mut self, buf: &mut [u8]) -> io::Result<usize>
        requires { 0 < length buf.old }
        ensures bound { IfOk result (λ n. n ≤ length buf.new) }
        ensures bytes { ReadConsumes (left_ahead F.remaining self.old) (left_ahead F.remaining self.new) result buf.new }
    {
        if self.at == self.end {
            self.fill()?;
        }
        Ok(self.take(buf))
    }

    /// Reads as `read` does, and nothing behind a line feed.
    pub(crate) fn read_line(&mut self, buf: &mut [u8]) -> io::Result<usize>
        requires { 0 < length buf.old }
        ensures bound { IfOk result (λ n. n ≤ length buf.new) }
        ensures bytes { ReadConsumes (left_ahead F.remaining self.old) (left_ahead F.remaining self.new) result buf.new }
        ensures line { IfOk result (λ n. StopsAtFeed (Got n) buf.new) }
    {
        if self.at >= self.end {
            self.fill()?;
        }
        Ok(self.take_line(buf))
    }

    /// Reads ahead, where nothing that was read ahead is left.
    fn fill(&mut self) -> io::Result<()>
        requires { waiting self.old ≡ [] }
        ensures { Fills (left_ahead F.remaining self.old) (left_ahead F.remaining self.new) result (waiting self.new) }
    {
        self.at = 0;
        self.end = 0;
        self.end = self.reader.read(&mut self.bytes)?;
        Ok(())
    }

    /// Takes of what was read ahead as much as the buffer has room for.
    fn take(&mut self, buf: &mut [u8]) -> usize
        ensures count { result ≡ min (length buf.new) (length (waiting self.old)) }
        ensures bytes { Consumes (left_ahead F.remaining self.old) (left_ahead F.remaining self.new) (take result buf.new) }
        ensures nothing { result ≡ 0 → left_ahead F.remaining self.new ≡ left_ahead F.remaining self.old }
    {
        let n = copy_piece(&self.bytes[self.at..self.end], buf.len(), buf);
        self.at += n;
        n
    }

    /// Takes of the first line that was read ahead as much as the buffer has room for.
    fn take_line(&mut self, buf: &mut [u8]) -> usize
        ensures bound { result ≤ length buf.new }
        ensures some { 0 < length buf.old → 0 < length (waiting self.old) → 0 < result }
        ensures bytes { Consumes (left_ahead F.remaining self.old) (left_ahead F.remaining self.new) (take result buf.new) }
        ensures nothing { result ≡ 0 → left_ahead F.remaining self.new ≡ left_ahead F.remaining self.old }
        ensures line { StopsAtFeed (Got result) buf.new }
    {
        let n = copy_line(&self.bytes[self.at..self.end], buf.len(), buf);
        self.at += n;
        n
    }
}
