//! A source in memory, which fails at the pulls that it is told.
ghost use Rattle.std.specs.Prelude.{◌≡◌, ◌<◌, ◌≤◌, ◌↔◌, ℕ, Contains, IsTrue, Some, length, min, take, true, false};
ghost use Rattle.bus_outer.specs.Faults.{one_more, Fails};
ghost use Rattle.bus_outer.specs.Sources.{Taken, Pulls, StopsAtFeed, CountsPull};

use crate::{Pull, Source, SteadySource};

/// Bytes in memory as a source. It gives them in pieces, and fails exactly at the pulls listed.
///
/// Pulls are numbered from 0, and a failed one counts as one fault; the number and the count stop at the last
/// value of a `u64`. It has no bytes at hand, so that each is given by a pull that has a number.
#[derive(Drop)]
pub struct MemorySource {
    steady: SteadySource,
    failing: Vec<u64>,
    number: u64,
    faults: u64,
}

impl MemorySource {
    ghost use Rattle.bus_outer.specs.Memory.{source_left, source_piece, pull_number, failing_pulls, source_faults, PassesPull};

    /// A source of these bytes, of which a pull gives at most `piece`, at least 1. The pulls whose numbers
    /// are in `failing` fail.
    pub fn new(bytes: Vec<u8>, piece: usize, failing: Vec<u64>) -> MemorySource
        requires { 1 ≤ piece }
        ensures left { source_left result ≡ bytes.items }
        ensures piece { source_piece result ≡ piece }
        ensures failing { failing_pulls result ≡ failing.items }
        ensures number { pull_number result ≡ 0 }
        ensures faults { source_faults result ≡ 0 }
    {
        MemorySource {
            steady: SteadySource::new(bytes, piece),
            failing,
            number: 0,
            faults: 0,
        }
    }

    /// Whether the next pull is listed, which is counted, as is its fault.
    fn fails(&mut self) -> bool
        ensures listed { IsTrue result ↔ Contains (failing_pulls self.old) (pull_number self.old) }
        ensures counted { result ≡ true → source_faults self.new ≡ one_more (source_faults self.old) }
        ensures rises { result ≡ true → Fails (source_faults self.old) (source_faults self.new) }
        ensures kept { result ≡ false → source_faults self.new ≡ source_faults self.old }
        ensures left { source_left self.new ≡ source_left self.old }
        ensures passes { PassesPull self.old self.new }
    {
        let fails = self.failing.contains(&self.number);
        self.number = self.number.saturating_add(1);
        if fails {
            self.faults = self.faults.saturating_add(1);
        }
        fails
    }
}

impl Source for MemorySource {
    ghost use Rattle.bus_outer.specs.Memory.{source_left, source_lent, source_piece, pull_number, failing_pulls, source_faults};
    ghost use Rattle.bus_outer.specs.Memory.{PassesPull, line_piece};

    ghost left = { λ s. Some (source_left s) };

    ghost faults = { λ s. source_faults s };

    ghost lent = { λ s. source_lent s };

    /// Gives the least of a piece, the buffer and what is left, or fails where this pull is listed.
    fn pull(&mut self, buf: &mut [u8]) -> Pull
        requires { 0 < length buf.old }
        ensures bytes { Pulls (Some (source_left self.old)) (Some (source_left self.new)) result buf.new }
        ensures counts { CountsPull (source_faults self.old) (source_faults self.new) result }
        ensures once { result ≡ Pull.Failed → source_faults self.new ≡ one_more (source_faults self.old) }
        ensures listed { (result ≡ Pull.Failed) ↔ Contains (failing_pulls self.old) (pull_number self.old) }
        ensures amount { (n : ℕ) → result ≡ Pull.Got n →
            n ≡ min (min (source_piece self.old) (length buf.old)) (length (source_left self.old)) }
        ensures passes { PassesPull self.old self.new }
    {
        if self.fails() {
            return Pull::Failed;
        }
        self.steady.pull(buf)
    }

    /// Gives the least of a piece, the buffer and the line, or fails where this pull is listed.
    fn pull_line(&mut self, buf: &mut [u8]) -> Pull
        requires { 0 < length buf.old }
        ensures bytes { Pulls (Some (source_left self.old)) (Some (source_left self.new)) result buf.new }
        ensures line { StopsAtFeed result buf.new }
        ensures counts { CountsPull (source_faults self.old) (source_faults self.new) result }
        ensures once { result ≡ Pull.Failed → source_faults self.new ≡ one_more (source_faults self.old) }
        ensures listed { (result ≡ Pull.Failed) ↔ Contains (failing_pulls self.old) (pull_number self.old) }
        ensures amount { (n : ℕ) → result ≡ Pull.Got n → n ≡ line_piece (source_piece self.old) (source_left self.old) (length buf.old) }
        ensures passes { PassesPull self.old self.new }
    {
        if self.fails() {
            return Pull::Failed;
        }
        self.steady.pull_line(buf)
    }

    /// None.
    fn at_hand(&self) -> &[u8]
        ensures { result.now ≡ source_lent self.now }
    {
        &[]
    }

    /// Takes nothing, since nothing is at hand.
    fn consume(&mut self, count: usize)
        requires { count ≤ length (source_lent self.old) }
        ensures bytes { Taken (Some (source_left self.old)) (Some (source_left self.new)) (take count (source_lent self.old)) }
        ensures counts { source_faults self.new ≡ source_faults self.old }
        ensures nothing { self.new ≡ self.old }
    {}
}
