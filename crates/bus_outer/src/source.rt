//! What gives bytes.
ghost use Rattle.std.specs.Prelude.{◌≡◌, ◌<◌, ◌≤◌, List, ℕ, length, take};
ghost use Rattle.std.specs.declared.option.Option.{Option};
ghost use Rattle.bus_outer.specs.Sources.{Taken, Pulls, StopsAtFeed, CountsPull};

/// What a pull answers.
#[derive(Clone, Copy, Debug, PartialEq, Eq)]
pub enum Pull {
    /// So many bytes, at least one, stand at the front of the buffer.
    Got(usize),
    /// The source has no more bytes.
    End,
    /// The outside failed; nothing was taken, and the count of faults rose.
    Failed,
}

/// A source of bytes, which are pulled from its front piece by piece.
pub trait Source {
    /// The bytes that it still gives, where it tells them.
    ghost left: { Self → Option (List ℕ) };

    /// How often the outside has failed: a count that never falls.
    ghost faults: { Self → ℕ };

    /// The bytes at its front that it lends before they are taken.
    ghost lent: { Self → List ℕ };

    /// Takes bytes from the front into a buffer that isn't empty.
    ///
    /// `End` comes only where nothing is left. The count of faults rises where the answer is `Failed`, and at no other answer.
    fn pull(&mut self, buf: &mut [u8]) -> Pull
        requires { 0 < length buf.old }
        ensures bytes { Pulls (left self.old) (left self.new) result buf.new }
        ensures counts { CountsPull (faults self.old) (faults self.new) result };

    /// Takes bytes as [`Source::pull`] does, and none behind a line feed: up to and including the next one, where it has come and the
    /// buffer has room for it.
    ///
    /// By itself it takes a byte; a source that has bytes at hand looks for the line feed among them.
    fn pull_line(&mut self, buf: &mut [u8]) -> Pull
        requires { 0 < length buf.old }
        ensures bytes { Pulls (left self.old) (left self.new) result buf.new }
        ensures line { StopsAtFeed result buf.new }
        ensures counts { CountsPull (faults self.old) (faults self.new) result }
    {
        self.pull(&mut buf[..1])
    }

    /// The bytes at hand: those that are next and can be taken without a pull. Where there are none, a pull may still give some.
    fn at_hand(&self) -> &[u8]
        ensures { result.now ≡ lent self.now };

    /// Takes so many of the bytes at hand.
    fn consume(&mut self, count: usize)
        requires { count ≤ length (lent self.old) }
        ensures bytes { Taken (left self.old) (left self.new) (take count (lent self.old)) }
        ensures counts { faults self.new ≡ faults self.old };
}
