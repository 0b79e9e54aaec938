//! What bus629-view refuses beside what every command does.
ghost use Rattle.std.specs.Prelude.{◌≡◌, ◌++◌, codes, decimal};
ghost use Rattle.bus_outer.specs.Sinks.{WritesText};
ghost use Rattle.bus_outer.specs.Texts.{Adds};
ghost use Rattle.bus_view.specs.Refusals as refusals;
ghost use Rattle.bus_view.specs.Refusals.{ends_of, line_of};

use bus_command::{Place, Refusal, Status, put_error};
use bus_outer::{Sink, TextBuffer, WriteFault};

/// An entry of the trace in the second text, counted from 0, is the first that starts before an earlier one of its terminal has ended.
#[derive(Clone, Copy, Debug, PartialEq, Eq)]
pub struct Doubled {
    /// Its place.
    pub entry: u64,
}

/// What a command of bus629-view came to.
pub type Outcome = bus_command::Outcome<Doubled>;

/// What a command comes to that refuses a trace for the entry of this place.
pub fn refuse(entry: u64) -> Outcome
    ensures { result ≡ refusals.refuse entry }
{
    Outcome::Own {
        place: Place::Second,
        why: Doubled { entry },
    }
}

impl Refusal for Doubled {
    ghost ends = { ends_of };

    ghost line = { line_of };

    fn status(&self) -> Status {
        Status::InputRefused
    }

    fn write_line<K: Sink>(&self, err: &mut K) -> Result<(), WriteFault> {
        write_doubled(self.entry, err)
    }
}

/// Puts the entry that is doubled.
fn put_doubled<K: Sink>(text: &mut TextBuffer, sink: &mut K, entry: u64)
    ensures { Adds K.held K.faults sink.old sink.new text.old text.new (codes "trace entry " ++ (decimal entry ++ codes " Doubled")) }
{
    text.put(sink, b"trace entry ");
    text.put_number(sink, entry);
    text.put(sink, b" Doubled");
}

/// Writes the refusal of a trace in which a terminal starts before an earlier message of its own has ended.
fn write_doubled<K: Sink>(entry: u64, sink: &mut K) -> Result<(), WriteFault>
    ensures { WritesText K.held K.faults sink.old sink.new result (line_of (record { entry = entry })) }
{
    let mut text = TextBuffer::new();
    put_error(&mut text, sink, Status::InputRefused);
    put_doubled(&mut text, sink, entry);
    text.put_byte(sink, b'\n');
    text.finish(sink)
}
