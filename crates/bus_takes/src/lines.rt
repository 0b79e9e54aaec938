//! What is said of one TAKE line, and of it with a SEND line that feeds it.
ghost use Rattle.bus_outer.specs.Texts.{Adds};
ghost use Rattle.std.specs.Prelude.{◌≡◌};
ghost use Rattle.bus_takes.specs.Takes as definition;

use crate::wordings::{ITSELF_SENDS, NEVER_COME, NOBODY_SENDS, SOMETIMES_COME};
use bus_feeds::{feeds, only_itself_sends, share_of};
use bus_outer::{Sink, TextBuffer};
use bus_say::say;
use bus_table::{SendLine, Table, TakeLine};
use bus_words::Ext;

/// A TAKE line and a SEND line of two terminals.
#[derive(Clone, Copy)]
pub(crate) struct Pair<'a> {
    /// The number of the terminal that takes.
    pub(crate) number: u8,
    /// Its TAKE line.
    pub(crate) take: &'a TakeLine,
    /// The number of the one that sends.
    pub(crate) other: u8,
    /// Its SEND line.
    pub(crate) send: &'a SendLine,
}

/// An extension as a number; 16 stands for every extension.
fn ext_number(ext: Option<Ext>) -> u8
    ensures { result ≡ definition.ext_number ext }
{
    match ext {
        Some(ext) => ext.value(),
        None => 16,
    }
}

/// Puts a sentence about so many words of a TAKE line and a SEND line of another terminal, where there are any.
fn put_words<K: Sink>(
    text: &mut TextBuffer,
    sink: &mut K,
    sentence: &[u8],
    pair: Pair<'_>,
    count: u16,
)
    ensures { Adds K.held K.faults sink.old sink.new text.old text.new
        (definition.words_text sentence.now pair.entry.number pair.entry.take.now pair.entry.other pair.entry.send.now count) }
{
    let Pair { take, send, .. } = pair;
    if count != 0 {
        let numbers = [
            pair.number as u128,
            take.label.value() as u128,
            ext_number(take.ext) as u128,
            take.first as u128,
            take.count as u128,
            pair.other as u128,
            send.ext.value() as u128,
            send.least as u128,
            send.most as u128,
            count as u128,
        ];
        say(text, sink, sentence, &numbers);
    }
}

/// Puts what is odd about a TAKE line and a SEND line of another terminal that feeds it.
fn put_share<K: Sink>(text: &mut TextBuffer, sink: &mut K, pair: Pair<'_>)
    ensures { Adds K.held K.faults sink.old sink.new text.old text.new (definition.share_text pair.entry.number pair.entry.take.now pair.entry.other pair.entry.send.now) }
{
    let share = share_of(pair.send, pair.take);
    put_words(text, sink, NEVER_COME, pair, share.never);
    put_words(text, sink, SOMETIMES_COME, pair, share.sometimes);
}

/// Puts what is odd about a TAKE line and any SEND line of another terminal.
pub(crate) fn put_pair<K: Sink>(text: &mut TextBuffer, sink: &mut K, pair: Pair<'_>)
    ensures { Adds K.held K.faults sink.old sink.new text.old text.new (definition.pair_text pair.entry.number pair.entry.take.now pair.entry.other pair.entry.send.now) }
{
    if feeds(pair.send, pair.take) {
        put_share(text, sink, pair);
    }
}

/// Puts a sentence about a TAKE line of a terminal.
fn put_line<K: Sink>(
    text: &mut TextBuffer,
    sink: &mut K,
    sentence: &[u8],
    number: u8,
    take: &TakeLine,
)
    ensures { Adds K.held K.faults sink.old sink.new text.old text.new (definition.line_text sentence.now number take.now) }
{
    let numbers = [
        number as u128,
        take.label.value() as u128,
        ext_number(take.ext) as u128,
        take.first as u128,
        take.count as u128,
    ];
    say(text, sink, sentence, &numbers);
}

/// Puts what is said of a TAKE line that nothing feeds.
pub(crate) fn put_unfed<K: Sink>(
    text: &mut TextBuffer,
    sink: &mut K,
    table: &Table,
    number: u8,
    take: &TakeLine,
)
    ensures { Adds K.held K.faults sink.old sink.new text.old text.new (definition.unfed_text table.now number take.now) }
{
    if only_itself_sends(table, number, take) {
        put_line(text, sink, ITSELF_SENDS, number, take);
    } else {
        put_line(text, sink, NOBODY_SENDS, number, take);
    }
}
