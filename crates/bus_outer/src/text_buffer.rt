//! A buffer of fixed size before a sink, so that a text of many fields comes in few pushes.
ghost use Rattle.std.specs.Prelude.{◌≡◌, [], ◌∷◌};
ghost use Rattle.std.specs.Fmt.{signed_decimal};
ghost use Rattle.bus_outer.specs.Texts.{IsFresh, Adds, Ends, has_failed};
ghost use Rattle.bus_outer.specs.Waiting.{waiting};
ghost use Rattle.bus_outer.specs.inside.Buffers.{Sends};

use crate::waiting::Waiting;
use crate::{Sink, WriteFault, write_all};
use itoa::{Buffer, Integer};

/// A text on its way to a sink, which is passed to each call. It takes no memory.
///
/// After a failed write it takes no more of the text, and `finish` says so: a writer puts its fields and
/// asks once. `specs/Texts.antt` has the words for its contracts and shows how a writer is stated.
#[derive(Drop)]
pub struct TextBuffer {
    buffer: Waiting,
    failed: bool,
}

impl TextBuffer {
    /// A text of which nothing is put yet.
    pub fn new() -> TextBuffer
        ensures { IsFresh result }
    {
        TextBuffer {
            buffer: Waiting::new(),
            failed: false,
        }
    }

    /// Adds bytes to the text.
    pub fn put<K: Sink>(&mut self, sink: &mut K, bytes: &[u8])
        ensures { Adds K.held K.faults sink.old sink.new self.old self.new bytes.now }
    {
        if !self.buffer.keep(bytes) {
            self.drain(sink);
            self.pass(sink, bytes);
        }
    }

    /// Adds one byte.
    pub fn put_byte<K: Sink>(&mut self, sink: &mut K, byte: u8)
        ensures { Adds K.held K.faults sink.old sink.new self.old self.new (byte ∷ []) }
    {
        self.put(sink, &[byte])
    }

    /// Adds a number in plain decimal digits, with `-` before a negative one.
    pub fn put_number<K: Sink, I: Integer>(&mut self, sink: &mut K, number: I)
        ensures { Adds K.held K.faults sink.old sink.new self.old self.new (I.text number) }
    {
        let mut buffer = Buffer::new();
        self.put(sink, buffer.format(number).as_bytes())
    }

    /// Adds a number that may be negative, in the same digits.
    pub fn put_signed<K: Sink>(&mut self, sink: &mut K, number: i64)
        ensures { Adds K.held K.faults sink.old sink.new self.old self.new (signed_decimal number) }
    {
        self.put_number(sink, number)
    }

    /// Whether a write has failed: then no more of the text is taken, and nothing is lost where no more is put.
    pub fn has_failed(&self) -> bool
        ensures { result ≡ has_failed self.now }
    {
        self.failed
    }

    /// Writes what still waits, and says whether the whole text has been written.
    pub fn finish<K: Sink>(mut self, sink: &mut K) -> Result<(), WriteFault>
        ensures { Ends K.held K.faults sink.old sink.new self result }
    {
        self.drain(sink);
        if self.failed { Err(WriteFault) } else { Ok(()) }
    }

    /// Writes the buffer.
    fn drain<K: Sink>(&mut self, sink: &mut K)
        ensures adds { Adds K.held K.faults sink.old sink.new self.old self.new [] }
        ensures empty { waiting self.new.buffer ≡ [] }
    {
        self.failed = send(sink, self.failed, self.buffer.bytes());
        self.buffer.clear();
    }

    /// Adds bytes where the buffer is empty.
    fn pass<K: Sink>(&mut self, sink: &mut K, bytes: &[u8])
        requires { waiting self.old.buffer ≡ [] }
        ensures { Adds K.held K.faults sink.old sink.new self.old self.new bytes.now }
    {
        if !self.buffer.keep(bytes) {
            self.failed = send(sink, self.failed, bytes);
        }
    }
}

/// Writes bytes, unless a write has failed before, and says whether one has.
fn send<K: Sink>(sink: &mut K, failed: bool, bytes: &[u8]) -> bool
    ensures { Sends K.held K.faults sink.old sink.new failed result bytes.now }
{
    if failed {
        return true;
    }
    match write_all(sink, bytes) {
        Ok(()) => false,
        Err(WriteFault) => true,
    }
}
