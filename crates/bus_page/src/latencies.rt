//! How old data are at most when they have been received: a row for each SEND line.
ghost use Rattle.std.specs.Prelude.{◌≡◌, ◌<◌, ◌≤◌, ◌^◌, IfSome, length, Some};
ghost use Rattle.std.specs.List.{flat_map};
ghost use Rattle.bus_outer.specs.Texts.{Adds};
ghost use Rattle.bus_page.specs.Latencies as definition;
ghost use Rattle.bus_page.specs.Rows.{rows};

use crate::message::put_terminal;
use bus_outer::{Sink, TextBuffer};
use bus_reach::latency;
use bus_say::put_time;
use bus_table::{SendLine, Sender, Table};
use bus_text::{hex_digit, three_digits};

/// Puts what stands between two fields of a row.
fn put_next<K: Sink>(text: &mut TextBuffer, sink: &mut K)
    ensures { Adds K.held K.faults sink.old sink.new text.old text.new definition.next_field }
{
    text.put(sink, b"</td><td>");
}

/// Puts the label and extension of a SEND line, and the terminal that sends it.
fn put_label<K: Sink>(text: &mut TextBuffer, sink: &mut K, number: u8, line: &SendLine)
    ensures { Adds K.held K.faults sink.old sink.new text.old text.new (definition.label_fields number line.now) }
{
    text.put(sink, &three_digits(line.label.value()));
    text.put(sink, b" ");
    text.put_byte(sink, hex_digit(line.ext.value()));
    put_next(text, sink);
    put_terminal(text, sink, number);
}

/// Puts how many data words it has.
fn put_count<K: Sink>(text: &mut TextBuffer, sink: &mut K, line: &SendLine)
    ensures { Adds K.held K.faults sink.old sink.new text.old text.new (definition.words_fields line.now) }
{
    text.put_number(sink, line.least);
    text.put(sink, b" to ");
    text.put_number(sink, line.most);
}

/// Puts the latency with delays up to the tolerance.
fn put_delayed<K: Sink>(
    text: &mut TextBuffer,
    sink: &mut K,
    table: &Table,
    most: u64,
    tolerance: Option<u64>,
    sender: &Sender,
    place: usize,
)
    requires most { most ≤ 2 ^ 40 }
    requires slow { IfSome tolerance (λ d. d ≤ 2 ^ 40) }
    requires place { place < length sender.now.sends }
    ensures { Adds K.held K.faults sink.old sink.new text.old text.new
        (definition.delayed_words table.now most tolerance sender.now place) }
{
    match tolerance {
        None => text.put(sink, b"-"),
        Some(d) => put_time(text, sink, latency(table, most, d, sender, place) as u128),
    }
}

/// Puts the latency without delays, and that with some.
fn put_latency<K: Sink>(
    text: &mut TextBuffer,
    sink: &mut K,
    table: &Table,
    most: u64,
    tolerance: Option<u64>,
    sender: &Sender,
    place: usize,
)
    requires most { most ≤ 2 ^ 40 }
    requires slow { IfSome tolerance (λ d. d ≤ 2 ^ 40) }
    requires place { place < length sender.now.sends }
    ensures { Adds K.held K.faults sink.old sink.new text.old text.new
        (definition.latency_fields table.now most tolerance sender.now place) }
{
    put_time(text, sink, latency(table, most, 0, sender, place) as u128);
    put_next(text, sink);
    put_delayed(text, sink, table, most, tolerance, sender, place);
}

/// Puts the row of the line at this place of a sender, from 0.
fn put_row<K: Sink>(
    text: &mut TextBuffer,
    sink: &mut K,
    table: &Table,
    most: u64,
    tolerance: Option<u64>,
    sender: &Sender,
    place: usize,
    line: &SendLine,
)
    requires most { most ≤ 2 ^ 40 }
    requires slow { IfSome tolerance (λ d. d ≤ 2 ^ 40) }
    requires place { place < length sender.now.sends }
    ensures { Adds K.held K.faults sink.old sink.new text.old text.new
        (definition.row_text table.now most tolerance sender.now place line.now) }
{
    text.put(sink, b"<tr><td>");
    put_label(text, sink, sender.number(), line);
    put_next(text, sink);
    put_count(text, sink, line);
    put_next(text, sink);
    put_latency(text, sink, table, most, tolerance, sender, place);
    text.put(sink, b"</td></tr>\n");
}

/// Puts the rows of the lines of a sender.
fn put_lines<K: Sink>(
    text: &mut TextBuffer,
    sink: &mut K,
    table: &Table,
    most: u64,
    tolerance: Option<u64>,
    sender: &Sender,
    lines: &[SendLine],
)
    requires own { lines.now ≡ sender.now.sends }
    requires most { most ≤ 2 ^ 40 }
    requires slow { IfSome tolerance (λ d. d ≤ 2 ^ 40) }
    ensures { Adds K.held K.faults sink.old sink.new text.old text.new
        (rows (definition.row_text table.now most tolerance sender.now) 1 0 lines.now) }
{
    for place in 0..lines.len() {
        let line = &lines[place];
        put_row(text, sink, table, most, tolerance, sender, place, line);
    }
}

/// Puts the rows of a sender.
fn put_sender<K: Sink>(
    text: &mut TextBuffer,
    sink: &mut K,
    table: &Table,
    most: u64,
    tolerance: Option<u64>,
    sender: &Sender,
)
    requires most { most ≤ 2 ^ 40 }
    requires slow { IfSome tolerance (λ d. d ≤ 2 ^ 40) }
    ensures { Adds K.held K.faults sink.old sink.new text.old text.new
        (definition.sender_rows table.now most tolerance sender.now) }
{
    let lines = sender.sends();
    put_lines(text, sink, table, most, tolerance, sender, lines);
}

/// Puts the rows of these senders.
fn put_senders<K: Sink>(
    text: &mut TextBuffer,
    sink: &mut K,
    table: &Table,
    most: u64,
    tolerance: Option<u64>,
    senders: &[Sender],
)
    requires most { most ≤ 2 ^ 40 }
    requires slow { IfSome tolerance (λ d. d ≤ 2 ^ 40) }
    ensures { Adds K.held K.faults sink.old sink.new text.old text.new
        (flat_map (definition.sender_rows table.now most tolerance) senders.now) }
{
    for k in 0..senders.len() {
        let sender = &senders[k];
        put_sender(text, sink, table, most, tolerance, sender);
    }
}

/// The names of the columns.
fn columns() -> &'static [u8]
    ensures { result.now ≡ definition.columns_text }
{
    b"<table>
<thead><tr><th>label, extension</th><th>sent by</th><th>data words</th>
<th>without delays</th><th>with delays up to the tolerance</th></tr></thead>
<tbody>
"
}

/// Puts the latencies of an accepted table, of which two starts of a sender are at most `most` bit times apart, and which bears delays up
/// to its tolerance.
pub(crate) fn put_latencies<K: Sink>(
    text: &mut TextBuffer,
    sink: &mut K,
    table: &Table,
    most: u64,
    tolerance: Option<u64>,
)
    requires most { most ≤ 2 ^ 40 }
    requires slow { IfSome tolerance (λ d. d ≤ 2 ^ 40) }
    ensures { Adds K.held K.faults sink.old sink.new text.old text.new (definition.latencies_text table.now most tolerance) }
{
    text.put(sink, columns());
    let senders = table.senders();
    put_senders(text, sink, table, most, tolerance, senders);
    text.put(sink, b"</tbody>\n</table>\n");
}
