//! How many RX lines the received text has.
ghost use Rattle.std.specs.Prelude.{◌≡◌, ◌+◌, ◌*◌, ◌≤◌, ◌<◌, ◌^◌, Bool, IfSome, length};
ghost use Rattle.std.specs.List.{sum_by};
ghost use Rattle.bus_strings.specs.Limits.{most_strings, most_terminal};
ghost use Rattle.bus_strings.specs.Transmissions.{IsByMoment, marks};
ghost use Rattle.bus_table.specs.Ranges.{most_takes};
ghost use Rattle.bus_filter.specs.Received.{Taker};
ghost use Rattle.bus_filter.specs.ReceivedTexts.{received_count};
ghost use Rattle.bus_filter.specs.inside.Keys.{key as key_in, key_count, AreKeys, AreSpans};
ghost use Rattle.bus_filter.specs.inside.Putting.{string_count, marked_count, taker_count, sender_count, listener_count};

use crate::keys::{Keys, gathered, key};
use crate::matching::matches;
use crate::spans::{Spans, is_taken, lines_of, spans_of};
use bus_strings::{Marks, Transmission, Wordstring};
use bus_table::{Listener, Sender, Table, TakeLine};

/// The RX lines of a wordstring for some receive lines.
fn count_takes(takes: &[TakeLine], string: &Wordstring) -> usize
    ensures count { result ≡ string_count takes.now string.now }
    ensures bound { result ≤ length takes.now }
{
    let (label, ext) = (string.label(), string.ext());
    takes
        .iter()
        .filter(|line| matches(line, label, ext))
        .count()
}

/// The RX lines of a wordstring, for which only the receive lines of its label are looked at.
fn count_string(takes: &[TakeLine], spans: &Spans, string: &Wordstring) -> usize
    requires { AreSpans takes.now (length takes.now) spans.now.first spans.now.behind }
    ensures count { result ≡ string_count takes.now string.now }
    ensures bound { result ≤ length takes.now }
{
    count_takes(lines_of(spans, takes, string.label()), string)
}

/// The RX lines of wordstrings.
#[inline(never)]
fn count_strings(takes: &[TakeLine], spans: &Spans, strings: &[Wordstring]) -> usize
    requires spans { AreSpans takes.now (length takes.now) spans.now.first spans.now.behind }
    requires takes { length takes.now ≤ most_takes }
    requires strings { length strings.now ≤ most_strings }
    ensures count { result ≡ sum_by (string_count takes.now) strings.now }
    ensures bound { result ≤ most_takes * most_strings }
{
    let mut lines = 0;
    for string in strings {
        lines += count_string(takes, spans, string);
    }
    lines
}

/// The RX lines of a transmission that has this key, as it has where it is garbled or where it isn't.
#[inline(always)]
fn count_keyed(number: u8, takes: &[TakeLine], spans: &Spans, key: u16, x: &Transmission) -> usize
    requires spans { AreSpans takes.now (length takes.now) spans.now.first spans.now.behind }
    requires takes { length takes.now ≤ most_takes }
    requires range { key < key_count }
    ensures count { let taker : Taker = record { number = number; takes = takes.now } in (garbled : Bool) → key ≡ key_in (x.now, garbled)
        → result ≡ marked_count taker (x.now, garbled) }
    ensures bound { result ≤ most_takes * most_strings }
{
    if is_taken(spans, key) && x.terminal != number {
        count_strings(takes, spans, x.message.strings())
    } else {
        0
    }
}

/// The RX lines of a list of which the keys are gathered.
fn count_gathered(
    number: u8,
    takes: &[TakeLine],
    spans: &Spans,
    keys: &[u16],
    list: &[Transmission],
) -> u128
    requires spans { AreSpans takes.now (length takes.now) spans.now.first spans.now.behind }
    requires takes { length takes.now ≤ most_takes }
    requires keys { AreKeys keys.now list.now }
    ensures count { let taker : Taker = record { number = number; takes = takes.now } in result ≡ taker_count list.now taker }
    ensures bound { result ≤ 2 ^ 75 }
{
    let mut lines = 0;
    for at in 0..list.len() {
        lines += count_keyed(number, takes, spans, keys[at], &list[at]) as u128;
    }
    lines
}

/// The RX lines of a list.
fn count_list(number: u8, takes: &[TakeLine], spans: &Spans, list: &[Transmission]) -> u128
    requires spans { AreSpans takes.now (length takes.now) spans.now.first spans.now.behind }
    requires takes { length takes.now ≤ most_takes }
    requires order { IsByMoment list.now }
    ensures count { let taker : Taker = record { number = number; takes = takes.now } in result ≡ taker_count list.now taker }
    ensures bound { result ≤ 2 ^ 75 }
{
    let mut marks = Marks::new(list);
    let mut lines = 0;
    for x in list {
        let garbled = marks.next() == Some(true);
        lines += count_keyed(number, takes, spans, key(x, garbled), x) as u128;
    }
    lines
}

/// The RX lines of a terminal. Of one without receive lines the list isn't looked at.
fn count_heard(number: u8, takes: &[TakeLine], keys: Option<&[u16]>, list: &[Transmission]) -> u128
    requires takes { length takes.now ≤ most_takes }
    requires order { IsByMoment list.now }
    requires keys { IfSome keys (λ keys. AreKeys keys.now list.now) }
    ensures count { let taker : Taker = record { number = number; takes = takes.now } in result ≡ taker_count list.now taker }
    ensures bound { result ≤ 2 ^ 75 }
{
    if takes.is_empty() {
        return 0;
    }
    let spans = spans_of(takes);
    match keys {
        Some(keys) => count_gathered(number, takes, &spans, keys, list),
        None => count_list(number, takes, &spans, list),
    }
}

/// The RX lines of the senders of a table.
fn count_senders(senders: &[Sender], keys: Option<&[u16]>, list: &[Transmission]) -> u128
    requires order { IsByMoment list.now }
    requires keys { IfSome keys (λ keys. AreKeys keys.now list.now) }
    requires few { length senders.now ≤ most_terminal }
    ensures count { result ≡ sum_by (sender_count list.now) senders.now }
    ensures bound { result ≤ 2 ^ 75 * most_terminal }
{
    let mut lines = 0;
    for sender in senders {
        lines += count_heard(sender.number(), sender.takes(), keys, list);
    }
    lines
}

/// The RX lines of the listeners of a table.
fn count_listeners(listeners: &[Listener], keys: Option<&[u16]>, list: &[Transmission]) -> u128
    requires order { IsByMoment list.now }
    requires keys { IfSome keys (λ keys. AreKeys keys.now list.now) }
    requires few { length listeners.now ≤ most_terminal }
    ensures count { result ≡ sum_by (listener_count list.now) listeners.now }
    ensures bound { result ≤ 2 ^ 75 * most_terminal }
{
    let mut lines = 0;
    for listener in listeners {
        lines += count_heard(listener.number(), listener.takes(), keys, list);
    }
    lines
}

/// How many RX lines the received text of a list of transmissions has, which has to be ordered by moment.
pub fn count_received(table: &Table, list: &[Transmission]) -> u128
    requires { IsByMoment list.now }
    ensures { result ≡ received_count table.now list.now }
{
    let mut room = Keys::new();
    let keys = gathered(&mut room, list);
    count_senders(table.senders(), keys, list) + count_listeners(table.listeners(), keys, list)
}
