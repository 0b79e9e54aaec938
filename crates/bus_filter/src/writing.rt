//! What a terminal receives of a list, line by line.
ghost use Rattle.std.specs.Prelude.{◌≡◌, ◌*◌, ◌<◌, ◌≤◌, ◌++◌, Bool, length, take};
ghost use Rattle.std.specs.List.{flat_map, zip};
ghost use Rattle.bus_outer.specs.Texts.{Adds};
ghost use Rattle.bus_strings.specs.Transmissions.{IsByMoment, marks};
ghost use Rattle.bus_filter.specs.Received.{Taker, received_line};
ghost use Rattle.bus_filter.specs.ReceivedTexts.{word_text, line_text};
ghost use Rattle.bus_filter.specs.inside.Putting.{take_put, string_put, marked_put};
ghost use Rattle.bus_filter.specs.inside.Keys.{key as key_in, key_count, AreKeys, AreSpans};

use crate::digits::{four_bytes, head_bytes, word_bytes};
use crate::keys::key;
use crate::matching::{matches, selection};
use crate::skipping::next_taken;
use crate::spans::{Spans, is_taken, lines_of};
use bus_outer::{Sink, TextBuffer};
use bus_strings::{Marks, Transmission, Wordstring};
use bus_table::TakeLine;

/// A word behind its space.
fn put_word<K: Sink>(text: &mut TextBuffer, sink: &mut K, word: u16)
    ensures { Adds K.held K.faults sink.old sink.new text.old text.new (word_text word) }
{
    text.put(sink, &word_bytes(word));
}

/// Four words, each behind its space, in one step.
fn put_four<K: Sink>(text: &mut TextBuffer, sink: &mut K, a: u16, b: u16, c: u16, d: u16)
    ensures { Adds K.held K.faults sink.old sink.new text.old text.new (word_text a ++ word_text b ++ word_text c ++ word_text d) }
{
    text.put(sink, &four_bytes(a, b, c, d));
}

/// The first words, four at a time, each behind its space.
fn put_fours<K: Sink>(text: &mut TextBuffer, sink: &mut K, words: &[u16], fours: usize)
    requires { 4 * fours ≤ length words.now }
    ensures { Adds K.held K.faults sink.old sink.new text.old text.new (flat_map word_text (take (4 * fours) words.now)) }
{
    for k in 0..fours {
        let at = 4 * k;
        put_four(
            text,
            sink,
            words[at],
            words[at + 1],
            words[at + 2],
            words[at + 3],
        );
    }
}

/// Words, one after another, each behind its space.
fn put_each<K: Sink>(text: &mut TextBuffer, sink: &mut K, words: &[u16])
    ensures { Adds K.held K.faults sink.old sink.new text.old text.new (flat_map word_text words.now) }
{
    for word in words {
        put_word(text, sink, *word);
    }
}

/// How often there are four words.
fn count_fours(words: &[u16]) -> usize
    ensures { 4 * result ≤ length words.now }
{
    words.len() / 4
}

/// Words, each behind its space, most of them in steps of four.
fn put_words<K: Sink>(text: &mut TextBuffer, sink: &mut K, words: &[u16])
    ensures { Adds K.held K.faults sink.old sink.new text.old text.new (flat_map word_text words.now) }
{
    let fours = count_fours(words);
    put_fours(text, sink, words, fours);
    put_each(text, sink, &words[4 * fours..]);
}

/// The RX line of a receive line that matches.
fn put_line<K: Sink>(
    text: &mut TextBuffer,
    sink: &mut K,
    moment: u64,
    string: &Wordstring,
    line: &TakeLine,
)
    ensures { Adds K.held K.faults sink.old sink.new text.old text.new (line_text (received_line moment string.now line.now)) }
{
    text.put(sink, b"RX ");
    text.put_number(sink, moment);
    text.put(sink, &head_bytes(string.label(), string.ext()));
    put_words(text, sink, selection(line, string.words()));
    text.put_byte(sink, b'\n');
}

/// The RX line of a receive line, where it matches.
fn put_take<K: Sink>(
    text: &mut TextBuffer,
    sink: &mut K,
    moment: u64,
    string: &Wordstring,
    line: &TakeLine,
)
    ensures { Adds K.held K.faults sink.old sink.new text.old text.new (take_put moment string.now line.now) }
{
    if matches(line, string.label(), string.ext()) {
        put_line(text, sink, moment, string, line);
    }
}

/// The RX lines of a wordstring for some receive lines.
fn put_takes<K: Sink>(
    text: &mut TextBuffer,
    sink: &mut K,
    takes: &[TakeLine],
    moment: u64,
    string: &Wordstring,
)
    ensures { Adds K.held K.faults sink.old sink.new text.old text.new (string_put takes.now moment string.now) }
{
    for line in takes {
        put_take(text, sink, moment, string, line);
    }
}

/// The RX lines of a wordstring, for which only the receive lines of its label are looked at.
fn put_string<K: Sink>(
    text: &mut TextBuffer,
    sink: &mut K,
    takes: &[TakeLine],
    spans: &Spans,
    moment: u64,
    string: &Wordstring,
)
    requires { AreSpans takes.now (length takes.now) spans.now.first spans.now.behind }
    ensures { Adds K.held K.faults sink.old sink.new text.old text.new (string_put takes.now moment string.now) }
{
    put_takes(
        text,
        sink,
        lines_of(spans, takes, string.label()),
        moment,
        string,
    );
}

/// The RX lines of wordstrings.
#[inline(never)]
fn put_strings<K: Sink>(
    text: &mut TextBuffer,
    sink: &mut K,
    takes: &[TakeLine],
    spans: &Spans,
    moment: u64,
    strings: &[Wordstring],
)
    requires { AreSpans takes.now (length takes.now) spans.now.first spans.now.behind }
    ensures { Adds K.held K.faults sink.old sink.new text.old text.new (flat_map (string_put takes.now moment) strings.now) }
{
    for string in strings {
        put_string(text, sink, takes, spans, moment, string);
    }
}

/// The RX lines of a transmission that has this key, as it has where it is garbled or where it isn't. Most have none, so that only the look
/// at the key stands in a walk.
#[inline(always)]
fn put_keyed<K: Sink>(
    text: &mut TextBuffer,
    sink: &mut K,
    number: u8,
    takes: &[TakeLine],
    spans: &Spans,
    key: u16,
    x: &Transmission,
)
    requires spans { AreSpans takes.now (length takes.now) spans.now.first spans.now.behind }
    requires range { key < key_count }
    ensures { let taker : Taker = record { number = number; takes = takes.now } in (garbled : Bool) → key ≡ key_in (x.now, garbled)
        → Adds K.held K.faults sink.old sink.new text.old text.new (marked_put taker (x.now, garbled)) }
{
    if is_taken(spans, key) && x.terminal != number {
        put_strings(text, sink, takes, spans, x.moment, x.message.strings());
    }
}

/// The RX lines of a list of which the keys are gathered.
pub(crate) fn put_gathered<K: Sink>(
    text: &mut TextBuffer,
    sink: &mut K,
    number: u8,
    takes: &[TakeLine],
    spans: &Spans,
    keys: &[u16],
    list: &[Transmission],
)
    requires spans { AreSpans takes.now (length takes.now) spans.now.first spans.now.behind }
    requires keys { AreKeys keys.now list.now }
    ensures { let taker : Taker = record { number = number; takes = takes.now } in
        Adds K.held K.faults sink.old sink.new text.old text.new (flat_map (marked_put taker) (zip list.now (marks list.now))) }
{
    let mut at = next_taken(spans, keys, 0);
    while at < list.len() {
        put_keyed(text, sink, number, takes, spans, keys[at], &list[at]);
        at = next_taken(spans, keys, at + 1);
    }
}

/// The RX lines of a list.
pub(crate) fn put_list<K: Sink>(
    text: &mut TextBuffer,
    sink: &mut K,
    number: u8,
    takes: &[TakeLine],
    spans: &Spans,
    list: &[Transmission],
)
    requires spans { AreSpans takes.now (length takes.now) spans.now.first spans.now.behind }
    requires order { IsByMoment list.now }
    ensures { let taker : Taker = record { number = number; takes = takes.now } in
        Adds K.held K.faults sink.old sink.new text.old text.new (flat_map (marked_put taker) (zip list.now (marks list.now))) }
{
    let mut marks = Marks::new(list);
    for x in list {
        let garbled = marks.next() == Some(true);
        put_keyed(text, sink, number, takes, spans, key(x, garbled), x);
    }
}
