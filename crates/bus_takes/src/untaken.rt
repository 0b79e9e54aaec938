//! The SEND lines that nobody takes.
ghost use Rattle.std.specs.Prelude.{◌≡◌};
ghost use Rattle.std.specs.List.{flat_map, list_any};
ghost use Rattle.bus_outer.specs.Texts.{Adds};
ghost use Rattle.bus_takes.specs.Takes as definition;

use crate::wordings::{IN_ALL, NO_TAKES, NOBODY_TAKES, UNTAKEN};
use bus_feeds::is_taken;
use bus_outer::{Sink, TextBuffer};
use bus_say::say;
use bus_table::{Listener, SendLine, Sender, Table};

/// How many SEND lines of a sender nobody takes.
fn untaken_of(table: &Table, sender: &Sender) -> usize
    ensures { result ≡ definition.untaken_of table.now sender.now }
{
    let number = sender.number();
    sender
        .sends()
        .iter()
        .filter(|send| !is_taken(table, number, send))
        .count()
}

/// How many SEND lines of a table nobody takes.
fn untaken(table: &Table) -> u128
    ensures { result ≡ definition.untaken table.now }
{
    let mut count = 0;
    for sender in table.senders() {
        count += untaken_of(table, sender) as u128;
    }
    count
}

/// How many SEND lines a table has.
fn all_sends(table: &Table) -> u128
    ensures { result ≡ definition.all_sends table.now }
{
    let mut count = 0;
    for sender in table.senders() {
        count += sender.sends().len() as u128;
    }
    count
}

/// Puts a SEND line of the terminal of this number, if nobody takes it.
fn put_send<K: Sink>(
    text: &mut TextBuffer,
    sink: &mut K,
    table: &Table,
    number: u8,
    send: &SendLine,
)
    ensures { Adds K.held K.faults sink.old sink.new text.old text.new (definition.send_text table.now number send.now) }
{
    if !is_taken(table, number, send) {
        let numbers = [
            number as u128,
            send.label.value() as u128,
            send.ext.value() as u128,
        ];
        say(text, sink, UNTAKEN, &numbers);
    }
}

/// Puts those of the terminal of this number that nobody takes.
fn put_sends<K: Sink>(
    text: &mut TextBuffer,
    sink: &mut K,
    table: &Table,
    number: u8,
    sends: &[SendLine],
)
    ensures { Adds K.held K.faults sink.old sink.new text.old text.new (flat_map (definition.send_text table.now number) sends.now) }
{
    for send in sends {
        put_send(text, sink, table, number, send);
    }
}

/// Puts those of these senders.
fn put_senders<K: Sink>(text: &mut TextBuffer, sink: &mut K, table: &Table, senders: &[Sender])
    ensures { Adds K.held K.faults sink.old sink.new text.old text.new (flat_map (definition.sends_text table.now) senders.now) }
{
    for sender in senders {
        put_sends(text, sink, table, sender.number(), sender.sends());
    }
}

/// Puts the sentence of the SEND lines that nobody takes, of which there are so many.
fn put_some<K: Sink>(text: &mut TextBuffer, sink: &mut K, table: &Table, count: u128)
    ensures { Adds K.held K.faults sink.old sink.new text.old text.new (definition.some_text table.now count) }
{
    say(text, sink, NOBODY_TAKES, &[]);
    put_senders(text, sink, table, table.senders());
    say(text, sink, IN_ALL, &[count, all_sends(table)]);
}

/// Whether any of these senders has a TAKE line.
fn any_sender_takes(senders: &[Sender]) -> bool
    ensures { result ≡ list_any definition.sender_has_take senders.now }
{
    senders.iter().any(|sender| !sender.takes().is_empty())
}

/// Whether any of these listeners has one.
fn any_listener_takes(listeners: &[Listener]) -> bool
    ensures { result ≡ list_any definition.listener_has_take listeners.now }
{
    listeners
        .iter()
        .any(|listener| !listener.takes().is_empty())
}

/// Whether any terminal has a TAKE line.
fn has_take_line(table: &Table) -> bool
    ensures { result ≡ definition.has_take_line table.now }
{
    any_sender_takes(table.senders()) || any_listener_takes(table.listeners())
}

/// Puts the sentence of the SEND lines that nobody takes, of which there are so many, one or more.
fn put_count<K: Sink>(text: &mut TextBuffer, sink: &mut K, table: &Table, count: u128)
    ensures { Adds K.held K.faults sink.old sink.new text.old text.new (definition.count_text table.now count) }
{
    if has_take_line(table) {
        put_some(text, sink, table, count);
    } else {
        say(text, sink, NO_TAKES, &[]);
    }
}

/// Puts the sentence of the SEND lines that nobody takes, if there are any.
pub(crate) fn put_untaken<K: Sink>(text: &mut TextBuffer, sink: &mut K, table: &Table)
    ensures { Adds K.held K.faults sink.old sink.new text.old text.new (definition.untaken_text table.now) }
{
    let count = untaken(table);
    if count != 0 {
        put_count(text, sink, table, count);
    }
}
