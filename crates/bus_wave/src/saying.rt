//! The words of an entry of a trace that isn't spaced.
ghost use Rattle.std.specs.Prelude.{◌++◌, decimal};
ghost use Rattle.bus_outer.specs.Texts.{Adds};
ghost use Rattle.bus_wave.specs.Reasons.{entry_words};

use crate::fault::WaveFault;
use bus_outer::{Sink, TextBuffer};

/// Puts a number and a word.
fn put_entry<K: Sink>(text: &mut TextBuffer, sink: &mut K, number: u64, word: &[u8])
    ensures { Adds K.held K.faults sink.old sink.new text.old text.new (decimal number ++ word.now) }
{
    text.put_number(sink, number);
    text.put(sink, word);
}

/// Puts an entry of a trace that isn't spaced, and what is wrong with it.
pub fn put_fault<K: Sink>(text: &mut TextBuffer, sink: &mut K, fault: WaveFault)
    ensures { Adds K.held K.faults sink.old sink.new text.old text.new (entry_words fault) }
{
    match fault {
        WaveFault::Stranger(k) => put_entry(text, sink, k, b" Stranger"),
        WaveFault::Misfit(k) => put_entry(text, sink, k, b" Misfit"),
        WaveFault::Close(k) => put_entry(text, sink, k, b" Close"),
        WaveFault::Cut(k) => put_entry(text, sink, k, b" Cut"),
    }
}
