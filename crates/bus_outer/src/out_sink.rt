//! A writer of std as a sink: the trusted edge, which tells no content.
ghost use Rattle.std.specs.Prelude.{◌≡◌, ◌<◌, None, length};
ghost use Rattle.bus_outer.specs.Faults.{one_more};
ghost use Rattle.bus_outer.specs.Sinks.{Pushes, CountsPush};

use crate::{Push, Sink};
use std::io::Write;

/// A writer, as standard output, which is flushed before each answer.
///
/// It tells no content. Its count of faults rises by one where a write or a flush fails, and where a write
/// takes nothing; it stays at the last value of a `u64`, where `Failed` may come at any time.
#[derive(Drop)]
pub struct OutSink<W> {
    writer: W,
    faults: u64,
}

impl<W: Write> OutSink<W> {
    ghost use Rattle.bus_outer.specs.Edge.{writer_of, writer_faults};

    /// A sink over this writer.
    pub fn new(writer: W) -> OutSink<W>
        ensures writer { writer_of result ≡ writer }
        ensures faults { writer_faults result ≡ 0 }
    {
        OutSink { writer, faults: 0 }
    }
}

impl<W: Write> Sink for OutSink<W> {
    ghost use Rattle.bus_outer.specs.Edge.{writer_of, writer_faults, PushesOn};

    ghost held = { λ _. None };

    ghost faults = { λ s. writer_faults s };

    /// Writes the bytes once, and flushes. What it took went to the writer.
    fn push(&mut self, bytes: &[u8]) -> Push
        requires { 0 < length bytes.now }
        ensures bytes { Pushes None None result bytes.now }
        ensures counts { CountsPush (writer_faults self.old) (writer_faults self.new) result }
        ensures once { result ≡ Push.Failed → writer_faults self.new ≡ one_more (writer_faults self.old) }
        ensures writes { PushesOn (W.contents (writer_of self.old)) (W.contents (writer_of self.new)) result bytes.now }
    {
        if let Ok(n) = self.writer.write(bytes)
            && n > 0
            && self.writer.flush().is_ok()
        {
            return Push::Took(n);
        }
        self.faults = self.faults.saturating_add(1);
        Push::Failed
    }
}
