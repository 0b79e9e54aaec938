//! A source in memory that never fails.
ghost use Rattle.std.specs.Prelude.{◌≡◌, ◌≢◌, ◌<◌, ◌≤◌, ℕ, Some, drop, length, min, take, vec_len};
ghost use Rattle.bus_outer.specs.Sources.{Taken, Pulls, StopsAtFeed, CountsPull};

use crate::line::copy_line;
use crate::piece::copy_piece;
use crate::{Pull, Source};

/// Bytes in memory as a source, which gives them in pieces and never fails: its count of faults is the constant 0.
#[derive(Drop)]
pub struct SteadySource {
    bytes: Vec<u8>,
    at: usize,
    piece: usize,
    ghost positive: { 1 ≤ piece },
    ghost within: { at ≤ vec_len bytes },
}

impl SteadySource {
    ghost use Rattle.bus_outer.specs.Memory.{steady_left, steady_piece};

    /// A source of these bytes, of which a pull gives at most `piece`, at least 1.
    pub fn new(bytes: Vec<u8>, piece: usize) -> SteadySource
        requires { 1 ≤ piece }
        ensures left { steady_left result ≡ bytes.items }
        ensures piece { steady_piece result ≡ piece }
    {
        SteadySource {
            bytes,
            at: 0,
            piece,
        }
    }
}

impl Source for SteadySource {
    ghost use Rattle.bus_outer.specs.Memory.{steady_left, steady_piece, steady_lent, steady_faults, line_piece};

    ghost left = { λ s. Some (steady_left s) };

    ghost faults = { λ s. steady_faults s };

    ghost lent = { λ s. steady_lent s };

    /// Gives the least of a piece, the buffer and what is left.
    fn pull(&mut self, buf: &mut [u8]) -> Pull
        requires { 0 < length buf.old }
        ensures bytes { Pulls (Some (steady_left self.old)) (Some (steady_left self.new)) result buf.new }
        ensures counts { CountsPull 0 0 result }
        ensures steady { result ≢ Pull.Failed }
        ensures amount { (n : ℕ) → result ≡ Pull.Got n →
            n ≡ min (min (steady_piece self.old) (length buf.old)) (length (steady_left self.old)) }
        ensures piece { steady_piece self.new ≡ steady_piece self.old }
    {
        if self.at == self.bytes.len() {
            return Pull::End;
        }
        let n = copy_piece(&self.bytes[self.at..], self.piece, buf);
        self.at += n;
        Pull::Got(n)
    }

    /// Gives the least of a piece, the buffer and the line.
    fn pull_line(&mut self, buf: &mut [u8]) -> Pull
        requires { 0 < length buf.old }
        ensures bytes { Pulls (Some (steady_left self.old)) (Some (steady_left self.new)) result buf.new }
        ensures line { StopsAtFeed result buf.new }
        ensures counts { CountsPull 0 0 result }
        ensures steady { result ≢ Pull.Failed }
        ensures amount { (n : ℕ) → result ≡ Pull.Got n → n ≡ line_piece (steady_piece self.old) (steady_left self.old) (length buf.old) }
        ensures piece { steady_piece self.new ≡ steady_piece self.old }
    {
        if self.at == self.bytes.len() {
            return Pull::End;
        }
        let n = copy_line(&self.bytes[self.at..], self.piece, buf);
        self.at += n;
        Pull::Got(n)
    }

    /// A piece of what is left.
    fn at_hand(&self) -> &[u8]
        ensures { result.now ≡ steady_lent self.now }
    {
        let rest = &self.bytes[self.at..];
        &rest[..self.piece.min(rest.len())]
    }

    /// Takes so many bytes of a piece of what is left.
    fn consume(&mut self, count: usize)
        requires { count ≤ length (steady_lent self.old) }
        ensures bytes { Taken (Some (steady_left self.old)) (Some (steady_left self.new)) (take count (steady_lent self.old)) }
        ensures counts { steady_faults self.new ≡ steady_faults self.old }
        ensures left { steady_left self.new ≡ drop count (steady_left self.old) }
        ensures piece { steady_piece self.new ≡ steady_piece self.old }
    {
        self.at += count;
    }
}
