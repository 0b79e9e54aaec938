//! What the terminals of a table receive, one after another.
ghost use Rattle.std.specs.Prelude.{◌≤◌, IfSome, length};
ghost use Rattle.std.specs.List.{flat_map, zip};
ghost use Rattle.bus_outer.specs.Sinks.{WritesText};
ghost use Rattle.bus_outer.specs.Texts.{Adds};
ghost use Rattle.bus_strings.specs.Transmissions.{IsByMoment, IsClear, marks};
ghost use Rattle.bus_table.specs.Ranges.{most_takes};
ghost use Rattle.bus_filter.specs.Received.{Taker};
ghost use Rattle.bus_filter.specs.ReceivedTexts.{taker_text, received_text};
ghost use Rattle.bus_filter.specs.inside.Putting.{marked_put, sender_put, listener_put};
ghost use Rattle.bus_filter.specs.inside.Keys.{AreKeys, AreNoSpans};

use crate::keys::{Keys, gathered, gathered_clear};
use crate::spans::{Spans, forget_all, no_spans, note_all};
use crate::writing::{put_gathered, put_list};
use bus_outer::{Sink, TextBuffer, WriteFault};
use bus_strings::Transmission;
use bus_table::{Listener, Sender, Table, TakeLine};

/// The RX lines of a terminal. One without receive lines needs no walk. In the spans no line is noted before and after.
fn put_heard<K: Sink>(
    text: &mut TextBuffer,
    sink: &mut K,
    spans: &mut Spans,
    number: u8,
    takes: &[TakeLine],
    keys: Option<&[u16]>,
    list: &[Transmission],
)
    requires spans { AreNoSpans spans.old.first spans.old.behind }
    requires order { IsByMoment list.now }
    requires few { length takes.now ≤ most_takes }
    requires keys { IfSome keys (λ keys. AreKeys keys.now list.now) }
    ensures spans { AreNoSpans spans.new.first spans.new.behind }
    ensures text { let taker : Taker = record { number = number; takes = takes.now } in
        Adds K.held K.faults sink.old sink.new text.old text.new (flat_map (marked_put taker) (zip list.now (marks list.now))) }
{
    if takes.is_empty() {
        return;
    }
    note_all(spans, takes);
    match keys {
        Some(keys) => put_gathered(text, sink, number, takes, spans, keys, list),
        None => put_list(text, sink, number, takes, spans, list),
    }
    forget_all(spans, takes);
}

/// A terminal, and what it receives.
fn put_taker<K: Sink>(
    text: &mut TextBuffer,
    sink: &mut K,
    spans: &mut Spans,
    number: u8,
    takes: &[TakeLine],
    keys: Option<&[u16]>,
    list: &[Transmission],
)
    requires spans { AreNoSpans spans.old.first spans.old.behind }
    requires order { IsByMoment list.now }
    requires few { length takes.now ≤ most_takes }
    requires keys { IfSome keys (λ keys. AreKeys keys.now list.now) }
    ensures spans { AreNoSpans spans.new.first spans.new.behind }
    ensures text { let taker : Taker = record { number = number; takes = takes.now } in
        Adds K.held K.faults sink.old sink.new text.old text.new (taker_text list.now taker) }
{
    text.put(sink, b"TERMINAL ");
    text.put_number(sink, number);
    text.put_byte(sink, b'\n');
    put_heard(text, sink, spans, number, takes, keys, list);
}

/// The senders of a table, and what they receive.
fn put_senders<K: Sink>(
    text: &mut TextBuffer,
    sink: &mut K,
    spans: &mut Spans,
    senders: &[Sender],
    keys: Option<&[u16]>,
    list: &[Transmission],
)
    requires spans { AreNoSpans spans.old.first spans.old.behind }
    requires order { IsByMoment list.now }
    requires keys { IfSome keys (λ keys. AreKeys keys.now list.now) }
    ensures spans { AreNoSpans spans.new.first spans.new.behind }
    ensures text { Adds K.held K.faults sink.old sink.new text.old text.new (flat_map (sender_put list.now) senders.now) }
{
    for sender in senders {
        put_taker(
            text,
            sink,
            spans,
            sender.number(),
            sender.takes(),
            keys,
            list,
        );
    }
}

/// The listeners of a table, and what they receive.
fn put_listeners<K: Sink>(
    text: &mut TextBuffer,
    sink: &mut K,
    spans: &mut Spans,
    listeners: &[Listener],
    keys: Option<&[u16]>,
    list: &[Transmission],
)
    requires spans { AreNoSpans spans.old.first spans.old.behind }
    requires order { IsByMoment list.now }
    requires keys { IfSome keys (λ keys. AreKeys keys.now list.now) }
    ensures spans { AreNoSpans spans.new.first spans.new.behind }
    ensures text { Adds K.held K.faults sink.old sink.new text.old text.new (flat_map (listener_put list.now) listeners.now) }
{
    for listener in listeners {
        put_taker(
            text,
            sink,
            spans,
            listener.number(),
            listener.takes(),
            keys,
            list,
        );
    }
}

/// Writes what each terminal of a table receives of a list of which the keys are gathered, where there is room for them.
fn write_keyed<K: Sink>(
    table: &Table,
    list: &[Transmission],
    keys: Option<&[u16]>,
    sink: &mut K,
) -> Result<(), WriteFault>
    requires order { IsByMoment list.now }
    requires keys { IfSome keys (λ keys. AreKeys keys.now list.now) }
    ensures { WritesText K.held K.faults sink.old sink.new result (received_text table.now list.now) }
{
    let mut text = TextBuffer::new();
    let mut spans = no_spans();
    text.put(sink, b"RECEIVED 1\n");
    put_senders(&mut text, sink, &mut spans, table.senders(), keys, list);
    put_listeners(&mut text, sink, &mut spans, table.listeners(), keys, list);
    text.put(sink, b"END\n");
    text.finish(sink)
}

/// Writes what each terminal of a table receives of a list of transmissions, in pushes of a few kilobytes. It takes no memory.
///
/// The list has to be ordered by moment. At `WriteFault` the sink has taken a front of the text, and its count of faults rose.
pub fn write_received<K: Sink>(
    table: &Table,
    list: &[Transmission],
    sink: &mut K,
) -> Result<(), WriteFault>
    requires { IsByMoment list.now }
    ensures { WritesText K.held K.faults sink.old sink.new result (received_text table.now list.now) }
{
    let mut room = Keys::new();
    let keys = gathered(&mut room, list);
    write_keyed(table, list, keys, sink)
}

/// Writes what [`write_received`] does, of a list in which no two transmissions overlap: nobody has to be looked at for whom it garbles.
///
/// The list has to be ordered by moment. At `WriteFault` the sink has taken a front of the text, and its count of faults rose.
pub fn write_clear_received<K: Sink>(
    table: &Table,
    list: &[Transmission],
    sink: &mut K,
) -> Result<(), WriteFault>
    requires order { IsByMoment list.now }
    requires clear { IsClear list.now }
    ensures { WritesText K.held K.faults sink.old sink.new result (received_text table.now list.now) }
{
    let mut room = Keys::new();
    let keys = gathered_clear(&mut room, list);
    write_keyed(table, list, keys, sink)
}
