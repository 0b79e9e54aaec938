//! Who takes a SEND line.
ghost use Rattle.std.specs.Prelude.{◌≡◌};
ghost use Rattle.std.specs.List.{list_any, position};
ghost use Rattle.bus_filter.specs.Received as received;
ghost use Rattle.bus_feeds.specs.Feeds as definitions;

use crate::places::{behind, counted_from};
use crate::share::feeds;
use bus_table::{Listener, SendLine, Sender, Table, TakeLine};

/// Whether TAKE lines have one that a SEND line feeds.
fn has_take(send: &SendLine, takes: &[TakeLine]) -> bool
    ensures { result ≡ definitions.has_take send.now takes.now }
{
    takes.iter().any(|take| feeds(send, take))
}

/// Whether a sender takes words of a SEND line of the terminal of this number: it is another, and has a TAKE line that is fed.
pub fn sender_takes(number: u8, send: &SendLine, sender: &Sender) -> bool
    ensures { result ≡ definitions.sender_takes number send.now sender.now }
{
    sender.number() != number && has_take(send, sender.takes())
}

/// Whether a listener takes words of a SEND line of the terminal of this number.
pub fn listener_takes(number: u8, send: &SendLine, listener: &Listener) -> bool
    ensures { result ≡ definitions.listener_takes number send.now listener.now }
{
    listener.number() != number && has_take(send, listener.takes())
}

/// Whether any of these senders takes words of a SEND line of the terminal of this number.
fn any_sender_takes(senders: &[Sender], number: u8, send: &SendLine) -> bool
    ensures { result ≡ list_any (definitions.sender_takes number send.now) senders.now }
{
    senders
        .iter()
        .any(|sender| sender_takes(number, send, sender))
}

/// Whether any of these listeners takes words of a SEND line of the terminal of this number.
fn any_listener_takes(listeners: &[Listener], number: u8, send: &SendLine) -> bool
    ensures { result ≡ list_any (definitions.listener_takes number send.now) listeners.now }
{
    listeners
        .iter()
        .any(|listener| listener_takes(number, send, listener))
}

/// Whether any other terminal takes words of a SEND line of the terminal of this number.
pub fn is_taken(table: &Table, number: u8, send: &SendLine) -> bool
    ensures { result ≡ definitions.is_taken table.now number send.now }
{
    any_sender_takes(table.senders(), number, send)
        || any_listener_takes(table.listeners(), number, send)
}

/// The place of the first of these senders that takes words of a SEND line of the terminal of this number.
fn first_sender(senders: &[Sender], number: u8, send: &SendLine) -> Option<usize>
    ensures { result ≡ position (definitions.sender_takes number send.now) senders.now }
{
    senders
        .iter()
        .position(|sender| sender_takes(number, send, sender))
}

/// The place of the first of these listeners that takes words of a SEND line of the terminal of this number.
fn first_listener(listeners: &[Listener], number: u8, send: &SendLine) -> Option<usize>
    ensures { result ≡ position (definitions.listener_takes number send.now) listeners.now }
{
    listeners
        .iter()
        .position(|listener| listener_takes(number, send, listener))
}

/// The place in the table of the first sender, at `from` or behind it, that takes words of a SEND line of the terminal of this number; None
/// where there is none.
pub fn next_sender(table: &Table, number: u8, send: &SendLine, from: usize) -> Option<usize>
    ensures { result ≡ definitions.next_sender table.now number send.now from }
{
    let senders = table.senders();
    let place = first_sender(behind(senders, from), number, send);
    counted_from(senders, from, place)
}

/// The place in the table of the first listener, at `from` or behind it, that takes words of a SEND line of the terminal of this number;
/// None where there is none.
pub fn next_listener(table: &Table, number: u8, send: &SendLine, from: usize) -> Option<usize>
    ensures { result ≡ definitions.next_listener table.now number send.now from }
{
    let listeners = table.listeners();
    let place = first_listener(behind(listeners, from), number, send);
    counted_from(listeners, from, place)
}
