//! Writing the text of a trace, in format 2.
ghost use Rattle.std.specs.List.{flat_map};
ghost use Rattle.bus_strings.specs.Transmissions.{IsByMoment, IsClear};
ghost use Rattle.bus_outer.specs.Sinks.{WritesText};
ghost use Rattle.bus_outer.specs.Texts.{Adds};
ghost use Rattle.bus_trace.specs.Traces.{trace_text};
ghost use Rattle.bus_trace.specs.inside.Writing.{word_put, data_put, label_put, string_put, pair_put, hold_put, close_put, entry_put};
ghost use Rattle.bus_trace.specs.inside.Writing.{head_put, horizon_put, opening_put, list_put, clear_put};

use crate::format::TWO;
use crate::hold::Hold;
use crate::keyword::TRACE;
use crate::mark::marked_end;
use crate::trace::Trace;
use bus_outer::{Sink, TextBuffer, WriteFault};
use bus_strings::laws::neighbours_tell;
use bus_strings::{Marks, Transmission, Wordstring};
use bus_words::{Word, data_word, label_word, word_text};

/// A word behind its space.
fn put_word<K: Sink>(text: &mut TextBuffer, sink: &mut K, word: Word)
    ensures { Adds K.held K.faults sink.old sink.new text.old text.new (word_put word) }
{
    let [letter, a, b, c, d, parity] = word_text(word);
    text.put(sink, &[b' ', letter, a, b, c, d, parity]);
}

/// A label word behind its keyword.
fn put_label<K: Sink>(text: &mut TextBuffer, sink: &mut K, word: Word)
    ensures { Adds K.held K.faults sink.old sink.new text.old text.new (label_put word) }
{
    let [letter, a, b, c, d, parity] = word_text(word);
    text.put(sink, &[b'W', b'S', b' ', letter, a, b, c, d, parity]);
}

/// Data words, each behind its space.
fn put_data<K: Sink>(text: &mut TextBuffer, sink: &mut K, words: &[u16])
    ensures { Adds K.held K.faults sink.old sink.new text.old text.new (data_put words.now) }
{
    for word in words {
        put_word(text, sink, data_word(*word));
    }
}

/// A WS line.
fn put_string<K: Sink>(text: &mut TextBuffer, sink: &mut K, string: &Wordstring)
    ensures { Adds K.held K.faults sink.old sink.new text.old text.new (string_put string.now) }
{
    put_label(text, sink, label_word(string.label(), string.ext()));
    put_data(text, sink, string.words());
    text.put_byte(sink, b'\n');
}

/// The WS lines of a transmission.
fn put_strings<K: Sink>(text: &mut TextBuffer, sink: &mut K, strings: &[Wordstring])
    ensures { Adds K.held K.faults sink.old sink.new text.old text.new (flat_map string_put strings.now) }
{
    for string in strings {
        put_string(text, sink, string);
    }
}

/// A line of a keyword, its space included, and two numbers.
fn put_pair<K: Sink>(text: &mut TextBuffer, sink: &mut K, keyword: &[u8], first: u64, second: u64)
    ensures { Adds K.held K.faults sink.old sink.new text.old text.new (pair_put keyword.now first second) }
{
    text.put(sink, keyword);
    text.put_number(sink, first);
    text.put_byte(sink, b' ');
    text.put_number(sink, second);
    text.put_byte(sink, b'\n');
}

/// A HOLD line.
fn put_hold<K: Sink>(text: &mut TextBuffer, sink: &mut K, hold: Hold)
    ensures { Adds K.held K.faults sink.old sink.new text.old text.new (hold_put hold) }
{
    let (terminal, count) = (u64::from(hold.terminal), u64::from(hold.count));
    put_pair(text, sink, b"HOLD ", terminal, count);
}

/// The HOLD lines.
fn put_holds<K: Sink>(text: &mut TextBuffer, sink: &mut K, holds: &[Hold])
    ensures { Adds K.held K.faults sink.old sink.new text.old text.new (flat_map hold_put holds.now) }
{
    for hold in holds {
        put_hold(text, sink, *hold);
    }
}

/// A TE line.
fn put_close<K: Sink>(text: &mut TextBuffer, sink: &mut K, x: &Transmission, mark: bool)
    ensures { Adds K.held K.faults sink.old sink.new text.old text.new (close_put x.now mark) }
{
    text.put(sink, b"TE ");
    text.put_number(sink, x.end());
    text.put(sink, marked_end(mark));
}

/// The lines of a transmission with its mark.
fn put_transmission<K: Sink>(text: &mut TextBuffer, sink: &mut K, x: &Transmission, mark: bool)
    ensures { Adds K.held K.faults sink.old sink.new text.old text.new (entry_put (x.now, mark)) }
{
    put_pair(text, sink, b"TX ", x.moment, u64::from(x.terminal));
    put_strings(text, sink, x.message.strings());
    put_close(text, sink, x, mark);
}

/// The lines of all transmissions, of which one pass over the list tells which are garbled.
fn put_list<K: Sink>(text: &mut TextBuffer, sink: &mut K, list: &[Transmission])
    requires { IsByMoment list.now }
    ensures { Adds K.held K.faults sink.old sink.new text.old text.new (list_put list.now) }
{
    let mut marks = Marks::new(list);
    for x in list {
        let mark = marks.next() == Some(true);
        put_transmission(text, sink, x, mark);
    }
}

/// The lines of all transmissions where none overlap, so that none is garbled.
fn put_clear_list<K: Sink>(text: &mut TextBuffer, sink: &mut K, list: &[Transmission])
    requires { IsClear list.now }
    ensures { Adds K.held K.faults sink.old sink.new text.old text.new (clear_put list.now) }
{
    for x in list {
        put_transmission(text, sink, x, false);
    }
}

/// The first line.
fn put_head<K: Sink>(text: &mut TextBuffer, sink: &mut K)
    ensures { Adds K.held K.faults sink.old sink.new text.old text.new head_put }
{
    text.put(sink, TRACE);
    text.put_byte(sink, b' ');
    text.put(sink, TWO);
    text.put_byte(sink, b'\n');
}

/// The first two lines.
fn put_horizon<K: Sink>(text: &mut TextBuffer, sink: &mut K, horizon: u64)
    ensures { Adds K.held K.faults sink.old sink.new text.old text.new (horizon_put horizon) }
{
    put_head(text, sink);
    text.put(sink, b"HORIZON ");
    text.put_number(sink, horizon);
    text.put_byte(sink, b'\n');
}

/// What stands before the transmissions.
fn put_opening<K: Sink>(text: &mut TextBuffer, sink: &mut K, trace: &Trace)
    ensures { Adds K.held K.faults sink.old sink.new text.old text.new (opening_put trace.now) }
{
    put_horizon(text, sink, trace.horizon());
    put_holds(text, sink, trace.holds());
}

/// Writes the text of a trace in format 2, in pushes of a few kilobytes. It takes no memory.
///
/// At `WriteFault` the sink has taken a front of the text, and its count of faults rose.
pub fn write_trace<K: Sink>(trace: &Trace, sink: &mut K) -> Result<(), WriteFault>
    ensures { WritesText K.held K.faults sink.old sink.new result (trace_text trace.now) }
{
    neighbours_tell();
    let mut text = TextBuffer::new();
    put_opening(&mut text, sink, trace);
    put_list(&mut text, sink, trace.list());
    text.put(sink, b"END\n");
    text.finish(sink)
}

/// Writes what [`write_trace`] does, of a trace in which no two transmissions overlap: nobody has to be looked at for whom it garbles.
///
/// At `WriteFault` the sink has taken a front of the text, and its count of faults rose.
pub fn write_clear_trace<K: Sink>(trace: &Trace, sink: &mut K) -> Result<(), WriteFault>
    requires { IsClear trace.now.list }
    ensures { WritesText K.held K.faults sink.old sink.new result (trace_text trace.now) }
{
    neighbours_tell();
    let mut text = TextBuffer::new();
    put_opening(&mut text, sink, trace);
    put_clear_list(&mut text, sink, trace.list());
    text.put(sink, b"END\n");
    text.finish(sink)
}
