//! Which terminals take words of a wordstring.
ghost use Rattle.std.specs.Prelude.{◌≡◌, ◌<◌, ◌≤◌, ◌||◌, ◌&&◌, ◌==◌, map, not};
ghost use Rattle.std.specs.List.{list_any};
ghost use Rattle.bus_outer.specs.Texts.{Adds};
ghost use Rattle.bus_strings.specs.Limits.{most_terminal};
ghost use Rattle.bus_filter.specs.Received.{sender_taker, listener_taker};
ghost use Rattle.bus_picture.specs.Takings as definition;
ghost use Rattle.bus_picture.specs.inside.Noting as working;
ghost use Rattle.bus_picture.specs.inside.Noting.{AreNoted, KeepsNoted, LinesNoted};

use bus_filter::matches;
use bus_outer::{Sink, TextBuffer};
use bus_shapes::Sent;
use bus_strings::Wordstring;
use bus_strings::limits::{MOST_TERMINAL, TERMINALS};
use bus_table::{Listener, Sender, Table, TakeLine};
use bus_words::Label;
use std::marker::Model;

/// How many labels there are.
const LABELS: usize = 4096;

/// One place for each label and terminal number, and for 0.
const PLACES: usize = LABELS * TERMINALS;

/// The receive lines of a table, with a table by label and number that tells of which label a terminal takes nothing.
#[derive(Drop)]
pub(crate) struct Receivers<'a> {
    table: &'a Table,
    may: [bool; PLACES],
}

impl<'a> Model for Receivers<'a> {
    ghost use Rattle.bus_table.specs.Tables as tables;
    ghost use Rattle.bus_filter.specs.Received.{takers};
    ghost use Rattle.bus_picture.specs.inside.Noting.{AreNoted};

    ghost Value = { tables.Table };

    ghost view = { λ s. s.table.now };

    ghost invariant = { λ s. AreNoted (takers s.table.now) s.may };
}

/// The place of a label and a number.
fn place_of(label: Label, number: u8) -> usize
    requires { number ≤ most_terminal }
    ensures value { result ≡ working.place_of label number }
    ensures low { result < PLACES }
{
    usize::from(label.value()) * TERMINALS + usize::from(number)
}

/// Notes the receive lines of a terminal.
fn note(may: &mut [bool; PLACES], number: u8, takes: &[TakeLine])
    requires { number ≤ most_terminal }
    ensures kept { KeepsNoted may.old may.new }
    ensures noted { LinesNoted number takes.now may.new }
{
    for k in 0..takes.len() {
        let place = place_of(takes[k].label, number);
        may[place] = true;
    }
}

/// Notes those of senders.
fn note_senders(may: &mut [bool; PLACES], senders: &[Sender])
    ensures kept { KeepsNoted may.old may.new }
    ensures noted { AreNoted (map sender_taker senders.now) may.new }
{
    for k in 0..senders.len() {
        let sender = &senders[k];
        note(may, sender.number(), sender.takes());
    }
}

/// Notes those of listeners.
fn note_listeners(may: &mut [bool; PLACES], listeners: &[Listener])
    ensures kept { KeepsNoted may.old may.new }
    ensures noted { AreNoted (map listener_taker listeners.now) may.new }
{
    for k in 0..listeners.len() {
        let listener = &listeners[k];
        note(may, listener.number(), listener.takes());
    }
}

/// Whether a receive line takes words of a wordstring.
fn takes_words(string: &Wordstring, line: &TakeLine) -> bool
    ensures { result ≡ definition.takes_words string.now line.now }
{
    matches(line, string.label(), string.ext())
        && usize::from(line.first) < string.words().len()
        && 0 < line.count
}

/// Whether a terminal takes words of a transmission: it isn't its own, nor garbled.
fn is_heard(sent: &Sent, number: u8) -> bool
    ensures { result ≡ (not sent.now.garbled && not (sent.now.terminal == number)) }
{
    !sent.garbled && sent.terminal != number
}

/// Whether one of these receive lines takes words of a wordstring.
fn any_takes(string: &Wordstring, takes: &[TakeLine]) -> bool
    ensures { result ≡ list_any (definition.takes_words string.now) takes.now }
{
    takes.iter().any(|line| takes_words(string, line))
}

/// Whether a terminal with these receive lines takes words of a wordstring of a transmission.
fn does_take(sent: &Sent, string: &Wordstring, number: u8, takes: &[TakeLine]) -> bool
    ensures { result ≡ definition.does_take sent.now string.now (record { number = number; takes = takes.now }) }
{
    is_heard(sent, number) && any_takes(string, takes)
}

/// Whether a sender has a number and takes words.
fn sender_takes(sender: &Sender, sent: &Sent, string: &Wordstring, n: u8) -> bool
    ensures { result ≡ ((sender.now.number == n) && definition.does_take sent.now string.now (sender_taker sender.now)) }
{
    sender.number() == n && does_take(sent, string, sender.number(), sender.takes())
}

/// Whether a listener has a number and takes words.
fn listener_takes(listener: &Listener, sent: &Sent, string: &Wordstring, n: u8) -> bool
    ensures { result ≡ ((listener.now.number == n) && definition.does_take sent.now string.now (listener_taker listener.now)) }
{
    listener.number() == n && does_take(sent, string, listener.number(), listener.takes())
}

/// Whether one of the senders of a table does.
fn any_sender(table: &Table, sent: &Sent, string: &Wordstring, n: u8) -> bool
    ensures { result ≡ list_any (λ s. (s.number == n) && definition.does_take sent.now string.now (sender_taker s)) table.now.senders }
{
    table
        .senders()
        .iter()
        .any(|sender| sender_takes(sender, sent, string, n))
}

/// Whether one of the listeners of a table does.
fn any_listener(table: &Table, sent: &Sent, string: &Wordstring, n: u8) -> bool
    ensures { result ≡ list_any (λ s. (s.number == n) && definition.does_take sent.now string.now (listener_taker s)) table.now.listeners }
{
    table
        .listeners()
        .iter()
        .any(|listener| listener_takes(listener, sent, string, n))
}

/// Whether the terminal of a number takes words of a wordstring of a transmission.
fn is_taken(table: &Table, sent: &Sent, string: &Wordstring, n: u8) -> bool
    ensures { result ≡ definition.is_taken_by table.now sent.now string.now n }
{
    any_sender(table, sent, string, n) || any_listener(table, sent, string, n)
}

/// Whether one of two holds.
fn either(one: bool, other: bool) -> bool
    ensures { result ≡ (one || other) }
{
    one || other
}

/// A comma, where there are numbers before.
fn put_comma<K: Sink>(text: &mut TextBuffer, sink: &mut K, some: bool)
    ensures { Adds K.held K.faults sink.old sink.new text.old text.new (working.comma some) }
{
    if some {
        text.put(sink, b", ");
    }
}

/// One number more, where it is one of those.
fn put_more<K: Sink>(text: &mut TextBuffer, sink: &mut K, some: bool, takes: bool, n: u8)
    ensures { Adds K.held K.faults sink.old sink.new text.old text.new (working.number_more some takes n) }
{
    if takes {
        put_comma(text, sink, some);
        text.put_number(sink, n);
    }
}

/// What stands where there are none.
fn put_none<K: Sink>(text: &mut TextBuffer, sink: &mut K, some: bool)
    ensures { Adds K.held K.faults sink.old sink.new text.old text.new (working.none_words some) }
{
    if !some {
        text.put(sink, b"none");
    }
}

impl<'a> Receivers<'a> {
    /// Those of a table.
    pub fn new(table: &'a Table) -> Self
        ensures { result ≡ table.now }
    {
        let mut may = [false; PLACES];
        note_senders(&mut may, table.senders());
        note_listeners(&mut may, table.listeners());
        Receivers { table, may }
    }

    /// Whether the terminal of a number takes words of a wordstring of a transmission.
    fn is_taken_by(&self, sent: &Sent, string: &Wordstring, n: u8) -> bool
        requires { n ≤ most_terminal }
        ensures { result ≡ definition.is_taken_by self.now sent.now string.now n }
    {
        self.may[place_of(string.label(), n)] && is_taken(self.table, sent, string, n)
    }

    /// The numbers of the terminals that take words of a wordstring of a transmission, or that none does.
    fn put_numbers<K: Sink>(
        &self,
        text: &mut TextBuffer,
        sink: &mut K,
        sent: &Sent,
        string: &Wordstring,
    )
        ensures { Adds K.held K.faults sink.old sink.new text.old text.new
            (definition.numbers_words (definition.taken_by self.now sent.now string.now)) }
    {
        let mut some = false;
        for before in 0..MOST_TERMINAL {
            let takes = self.is_taken_by(sent, string, before + 1);
            put_more(text, sink, some, takes, before + 1);
            some = either(some, takes);
        }
        put_none(text, sink, some);
    }

    /// The same in words.
    pub fn put_words<K: Sink>(
        &self,
        text: &mut TextBuffer,
        sink: &mut K,
        sent: &Sent,
        string: &Wordstring,
    )
        ensures { Adds K.held K.faults sink.old sink.new text.old text.new (definition.taken_words self.now sent.now string.now) }
    {
        text.put(sink, b", taken by ");
        self.put_numbers(text, sink, sent, string);
    }
}
