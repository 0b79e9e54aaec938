//! Writing the wave of a spaced trace.
ghost use Rattle.std.specs.Prelude.{◌≡◌, ◌-◌};
ghost use Rattle.std.specs.List.{flat_map};
ghost use Rattle.bus_outer.specs.Sinks.{WritesText};
ghost use Rattle.bus_outer.specs.Texts.{Adds};
ghost use Rattle.bus_wave.specs.inside.Puts.{word_put, data_put, string_put, silence_put, quiet_put, next_put, message_put};
ghost use Rattle.bus_wave.specs.inside.Puts.{entry_put, list_put};
ghost use Rattle.bus_wave.specs.Spacing.{AreApart};
ghost use Rattle.bus_wave.specs.WaveTexts.{last_end, wave_text};
ghost use Rattle.bus_wave.specs.WaveLaws.{HasOneText};

use crate::code::word_line;
use bus_outer::{Sink, TextBuffer, WriteFault};
use bus_strings::limits::INNER_GAP;
use bus_strings::{Transmission, Wordstring};
use bus_trace::Trace;
use bus_words::{Word, data_word, label_word};

/// Puts a W line.
fn put_word<K: Sink>(text: &mut TextBuffer, sink: &mut K, word: Word)
    ensures { Adds K.held K.faults sink.old sink.new text.old text.new (word_put word) }
{
    text.put(sink, &word_line(word));
}

/// Puts a W line for each data word.
fn put_data<K: Sink>(text: &mut TextBuffer, sink: &mut K, words: &[u16])
    ensures { Adds K.held K.faults sink.old sink.new text.old text.new (data_put words.now) }
{
    for word in words {
        put_word(text, sink, data_word(*word));
    }
}

/// Puts the lines of a wordstring.
fn put_string<K: Sink>(text: &mut TextBuffer, sink: &mut K, string: &Wordstring)
    ensures { Adds K.held K.faults sink.old sink.new text.old text.new (string_put string.now) }
{
    put_word(text, sink, label_word(string.label(), string.ext()));
    put_data(text, sink, string.words());
}

/// Puts a Q line.
fn put_silence<K: Sink>(text: &mut TextBuffer, sink: &mut K, bit_times: u64)
    ensures { Adds K.held K.faults sink.old sink.new text.old text.new (silence_put bit_times) }
{
    text.put(sink, b"Q ");
    text.put_number(sink, bit_times);
    text.put_byte(sink, b'\n');
}

/// Puts a Q line, where there is quiet.
fn put_quiet<K: Sink>(text: &mut TextBuffer, sink: &mut K, bit_times: u64)
    ensures { Adds K.held K.faults sink.old sink.new text.old text.new (quiet_put bit_times) }
{
    if bit_times > 0 {
        put_silence(text, sink, bit_times);
    }
}

/// Puts the lines of a further wordstring of a message.
fn put_next<K: Sink>(text: &mut TextBuffer, sink: &mut K, string: &Wordstring)
    ensures { Adds K.held K.faults sink.old sink.new text.old text.new (next_put string.now) }
{
    put_silence(text, sink, u64::from(INNER_GAP));
    put_string(text, sink, string);
}

/// Puts the lines of further wordstrings of a message.
fn put_others<K: Sink>(text: &mut TextBuffer, sink: &mut K, strings: &[Wordstring])
    ensures { Adds K.held K.faults sink.old sink.new text.old text.new (flat_map next_put strings.now) }
{
    for string in strings {
        put_next(text, sink, string);
    }
}

/// Puts the lines of a message.
fn put_message<K: Sink>(text: &mut TextBuffer, sink: &mut K, strings: &[Wordstring])
    ensures { Adds K.held K.faults sink.old sink.new text.old text.new (message_put strings.now) }
{
    if strings.is_empty() {
        return;
    }
    put_string(text, sink, &strings[0]);
    put_others(text, sink, strings.split_at(1).1);
}

/// Puts the lines of a transmission, behind the quiet since a moment.
fn put_entry<K: Sink>(text: &mut TextBuffer, sink: &mut K, from: u64, entry: &Transmission)
    ensures { Adds K.held K.faults sink.old sink.new text.old text.new (entry_put from entry.now) }
{
    put_quiet(text, sink, entry.moment.saturating_sub(from));
    put_message(text, sink, entry.message.strings());
}

/// Puts the lines of transmissions, and gives the moment at which the last has ended, or 0.
fn put_list<K: Sink>(text: &mut TextBuffer, sink: &mut K, list: &[Transmission]) -> u64
    ensures puts { Adds K.held K.faults sink.old sink.new text.old text.new (list_put 0 list.now) }
    ensures end { result ≡ last_end 0 list.now }
{
    let mut end = 0;
    for entry in list {
        put_entry(text, sink, end, entry);
        end = entry.end();
    }
    end
}

/// Writes the wave text of a trace whose transmissions stand apart up to its horizon, as those of a [`spaced`](crate::spacing::spaced)
/// trace do, in pushes of a few kilobytes. It goes over the trace once, and takes no memory.
///
/// At `WriteFault` the sink has taken a front of the text, and its count of faults rose.
pub fn write_wave<K: Sink>(trace: &Trace, sink: &mut K) -> Result<(), WriteFault>
    requires { AreApart 0 trace.now.horizon trace.now.list }
    ensures written { WritesText K.held K.faults sink.old sink.new result (wave_text trace.now) }
    // What is written is the wave text of the trace, and the only one.
    ensures one { HasOneText trace.now }
{
    let mut text = TextBuffer::new();
    text.put(sink, b"WAVE 1\n");
    let end = put_list(&mut text, sink, trace.list());
    put_quiet(&mut text, sink, trace.horizon().saturating_sub(end));
    text.put(sink, b"END\n");
    text.finish(sink)
}
