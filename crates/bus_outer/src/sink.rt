//! What takes bytes.
ghost use Rattle.std.specs.Prelude.{◌<◌, List, ℕ, length};
ghost use Rattle.std.specs.declared.option.Option.{Option};
ghost use Rattle.bus_outer.specs.Sinks.{Pushes, CountsPush};

/// What a push answers.
#[derive(Clone, Copy, Debug, PartialEq, Eq)]
pub enum Push {
    /// So many bytes, at least one, were taken from the front.
    Took(usize),
    /// The outside failed; nothing was taken, and the count of faults rose.
    Failed,
}

/// A text couldn't be written whole: the sink failed, and has taken a front of it.
#[derive(Clone, Copy, Debug, PartialEq, Eq)]
pub struct WriteFault;

/// A sink of bytes, to which they are pushed piece by piece.
pub trait Sink {
    /// The bytes that it has taken, where it tells them.
    ghost held: { Self → Option (List ℕ) };

    /// How often the outside has failed: a count that never falls.
    ghost faults: { Self → ℕ };

    /// Gives bytes, of which there is at least one, to the sink, which takes one or more from the front.
    ///
    /// The count of faults rises where the answer is `Failed`, and at no other answer.
    fn push(&mut self, bytes: &[u8]) -> Push
        requires { 0 < length bytes.now }
        ensures bytes { Pushes (held self.old) (held self.new) result bytes.now }
        ensures counts { CountsPush (faults self.old) (faults self.new) result };
}
