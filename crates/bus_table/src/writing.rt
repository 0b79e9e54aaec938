//! Writing the canonical text of a table.
ghost use Rattle.std.specs.Prelude.{◌≡◌, Ok};
ghost use Rattle.std.specs.List.{flat_map};
ghost use Rattle.bus_outer.specs.Sinks.{WritesText};
ghost use Rattle.bus_outer.specs.Texts.{Adds};
ghost use Rattle.bus_table.specs.Canonical.{table_text};
ghost use Rattle.bus_table.specs.inside.Puts as puts;
ghost use Rattle.bus_table.specs.inside.Puts.{number_bytes, mode_bytes, head_bytes, label_bytes, pair_bytes, send_bytes, take_bytes};
ghost use Rattle.bus_table.specs.inside.Puts.{offset_bytes, opening_bytes, sender_bytes, listener_bytes};
ghost use Rattle.bus_table.specs.Reading.{answer_of};
ghost use Rattle.bus_table.specs.Text.{IsTableText, mode_word};

use crate::line::{SendLine, TakeLine};
use crate::listener::Listener;
use crate::mode::Mode;
use crate::sender::Sender;
use crate::table::Table;
use bus_outer::{Sink, TextBuffer, WriteFault};
use bus_text::{hex_digit, three_digits};
use bus_words::{Ext, Label};

/// Puts a line of a keyword and a number.
fn put_number_line<K: Sink>(text: &mut TextBuffer, sink: &mut K, keyword: &[u8], number: u32)
    ensures { Adds K.held K.faults sink.old sink.new text.old text.new (number_bytes keyword.now number) }
{
    text.put(sink, keyword);
    text.put_byte(sink, b' ');
    text.put_number(sink, number);
    text.put_byte(sink, b'\n');
}

/// Puts the word that stands for a mode in texts.
pub fn put_mode<K: Sink>(text: &mut TextBuffer, sink: &mut K, mode: Mode)
    ensures { Adds K.held K.faults sink.old sink.new text.old text.new (mode_word mode) }
{
    text.put(sink, mode.word().as_bytes());
}

/// Puts the MODE line.
fn put_mode_line<K: Sink>(text: &mut TextBuffer, sink: &mut K, mode: Mode)
    ensures { Adds K.held K.faults sink.old sink.new text.old text.new (mode_bytes mode) }
{
    text.put(sink, b"MODE ");
    put_mode(text, sink, mode);
    text.put_byte(sink, b'\n');
}

/// Puts the four lines at the head.
fn put_head<K: Sink>(text: &mut TextBuffer, sink: &mut K, mode: Mode, ti: u32, sg: u32)
    ensures { Adds K.held K.faults sink.old sink.new text.old text.new (head_bytes mode ti sg) }
{
    text.put(sink, b"TABLE 1\n");
    put_mode_line(text, sink, mode);
    put_number_line(text, sink, b"TI", ti);
    put_number_line(text, sink, b"SG", sg);
}

/// Puts a label and the byte of an extension, each before a space.
fn put_label<K: Sink>(text: &mut TextBuffer, sink: &mut K, label: Label, ext: u8)
    ensures { Adds K.held K.faults sink.old sink.new text.old text.new (label_bytes label ext) }
{
    text.put(sink, &three_digits(label.value()));
    text.put(sink, &[b' ', ext, b' ']);
}

/// Puts two numbers at the end of a line.
fn put_pair<K: Sink>(text: &mut TextBuffer, sink: &mut K, first: u16, second: u16)
    ensures { Adds K.held K.faults sink.old sink.new text.old text.new (pair_bytes first second) }
{
    text.put_number(sink, first);
    text.put_byte(sink, b' ');
    text.put_number(sink, second);
    text.put_byte(sink, b'\n');
}

/// Puts a SEND line.
fn put_send<K: Sink>(text: &mut TextBuffer, sink: &mut K, line: &SendLine)
    ensures { Adds K.held K.faults sink.old sink.new text.old text.new (send_bytes line.now) }
{
    text.put(sink, b"SEND ");
    put_label(text, sink, line.label, hex_digit(line.ext.value()));
    put_pair(text, sink, line.least, line.most);
}

/// Puts the SEND lines of a sender.
fn put_sends<K: Sink>(text: &mut TextBuffer, sink: &mut K, sends: &[SendLine])
    ensures { Adds K.held K.faults sink.old sink.new text.old text.new (flat_map send_bytes sends.now) }
{
    for line in sends {
        put_send(text, sink, line);
    }
}

/// The digit of an extension, or `*` for every extension.
fn ext_byte(ext: Option<Ext>) -> u8
    ensures { result ≡ puts.ext_byte ext }
{
    match ext {
        Some(ext) => hex_digit(ext.value()),
        None => b'*',
    }
}

/// Puts a TAKE line.
fn put_take<K: Sink>(text: &mut TextBuffer, sink: &mut K, line: &TakeLine)
    ensures { Adds K.held K.faults sink.old sink.new text.old text.new (take_bytes line.now) }
{
    text.put(sink, b"TAKE ");
    put_label(text, sink, line.label, ext_byte(line.ext));
    put_pair(text, sink, line.first, line.count);
}

/// Puts the TAKE lines of a terminal.
fn put_takes<K: Sink>(text: &mut TextBuffer, sink: &mut K, takes: &[TakeLine])
    ensures { Adds K.held K.faults sink.old sink.new text.old text.new (flat_map take_bytes takes.now) }
{
    for line in takes {
        put_take(text, sink, line);
    }
}

/// Puts the end of a SENDER line, with the offset where the mode has offsets.
fn put_offset<K: Sink>(text: &mut TextBuffer, sink: &mut K, mode: Mode, at: u32)
    ensures { Adds K.held K.faults sink.old sink.new text.old text.new (offset_bytes mode at) }
{
    if mode == Mode::Periodic {
        text.put(sink, b" AT ");
        text.put_number(sink, at);
    }
    text.put_byte(sink, b'\n');
}

/// Puts the numbers of a SENDER line.
fn put_opening<K: Sink>(text: &mut TextBuffer, sink: &mut K, number: u8, tg: u32)
    ensures { Adds K.held K.faults sink.old sink.new text.old text.new (opening_bytes number tg) }
{
    text.put(sink, b"SENDER ");
    text.put_number(sink, number);
    text.put(sink, b" TG ");
    text.put_number(sink, tg);
}

/// Puts a sender block.
fn put_sender<K: Sink>(text: &mut TextBuffer, sink: &mut K, mode: Mode, sender: &Sender)
    ensures { Adds K.held K.faults sink.old sink.new text.old text.new (sender_bytes mode sender.now) }
{
    put_opening(text, sink, sender.number(), sender.tg());
    put_offset(text, sink, mode, sender.at());
    put_sends(text, sink, sender.sends());
    put_takes(text, sink, sender.takes());
}

/// Puts the sender blocks.
fn put_senders<K: Sink>(text: &mut TextBuffer, sink: &mut K, mode: Mode, senders: &[Sender])
    ensures { Adds K.held K.faults sink.old sink.new text.old text.new (flat_map (sender_bytes mode) senders.now) }
{
    for sender in senders {
        put_sender(text, sink, mode, sender);
    }
}

/// Puts a listener block.
fn put_listener<K: Sink>(text: &mut TextBuffer, sink: &mut K, listener: &Listener)
    ensures { Adds K.held K.faults sink.old sink.new text.old text.new (listener_bytes listener.now) }
{
    put_number_line(text, sink, b"LISTENER", u32::from(listener.number()));
    put_takes(text, sink, listener.takes());
}

/// Puts the listener blocks.
fn put_listeners<K: Sink>(text: &mut TextBuffer, sink: &mut K, listeners: &[Listener])
    ensures { Adds K.held K.faults sink.old sink.new text.old text.new (flat_map listener_bytes listeners.now) }
{
    for listener in listeners {
        put_listener(text, sink, listener);
    }
}

/// Puts the canonical text of a table.
pub fn put_table<K: Sink>(text: &mut TextBuffer, sink: &mut K, table: &Table)
    ensures { Adds K.held K.faults sink.old sink.new text.old text.new (table_text table.now) }
{
    put_head(text, sink, table.mode(), table.ti(), table.sg());
    put_senders(text, sink, table.mode(), table.senders());
    put_listeners(text, sink, table.listeners());
}

/// Writes the canonical text of a table: no skipped lines, one space between fields, hexadecimal digits in capitals. It
/// takes no memory. [`WriteFault`] comes only where the sink failed, which then has taken a front of the text.
pub fn write_table<K: Sink>(table: &Table, sink: &mut K) -> Result<(), WriteFault>
    ensures written { WritesText K.held K.faults sink.old sink.new result (table_text table.now) }
    // What is written stands for this table.
    ensures again { IsTableText table.now (table_text table.now) }
    // So it reads as this table.
    ensures read { answer_of (table_text table.now) ≡ Ok table.now }
{
    let _valid = table.mode();
    let mut text = TextBuffer::new();
    put_table(&mut text, sink, table);
    text.finish(sink)
}
