//! Writing the canonical text of messages.
ghost use Rattle.std.specs.Prelude.{map};
ghost use Rattle.std.specs.List.{flat_map};
ghost use Rattle.bus_outer.specs.Sinks.{WritesText};
ghost use Rattle.bus_outer.specs.Texts.{Adds};
ghost use Rattle.bus_strings.specs.Items.{numbers};
ghost use Rattle.bus_strings.specs.Grammar.{IsMessagesText};
ghost use Rattle.bus_text.specs.Canonical.{spelled_lines};
ghost use Rattle.bus_strings.specs.Canonical.{item_fields, messages_text};
ghost use Rattle.bus_strings.specs.inside.Puts.{word_bytes, string_bytes, item_bytes};

use crate::payload::{Payload, Payloads};
use bus_outer::{Sink, TextBuffer, WriteFault};
use bus_text::four_digits;

/// Puts a data word.
fn put_word<K: Sink>(text: &mut TextBuffer, sink: &mut K, word: u16)
    ensures { Adds K.held K.faults sink.old sink.new text.old text.new (word_bytes word) }
{
    let [a, b, c, d] = four_digits(word);
    text.put(sink, &[b' ', a, b, c, d]);
}

/// Puts the data words of a wordstring.
fn put_words<K: Sink>(text: &mut TextBuffer, sink: &mut K, words: &[u16])
    ensures { Adds K.held K.faults sink.old sink.new text.old text.new (flat_map word_bytes words.now) }
{
    for word in words {
        put_word(text, sink, *word);
    }
}

/// Puts a wordstring.
fn put_string<K: Sink>(text: &mut TextBuffer, sink: &mut K, words: &[u16])
    ensures { Adds K.held K.faults sink.old sink.new text.old text.new (string_bytes words.now) }
{
    text.put(sink, b" :");
    put_words(text, sink, words);
}

/// Puts the wordstrings of an item.
fn put_strings<K: Sink>(text: &mut TextBuffer, sink: &mut K, strings: &[Vec<u16>])
    ensures { Adds K.held K.faults sink.old sink.new text.old text.new (flat_map string_bytes (numbers strings.now)) }
{
    for string in strings {
        put_string(text, sink, string);
    }
}

/// Puts the line of an item.
fn put_item<K: Sink>(text: &mut TextBuffer, sink: &mut K, item: &Payload)
    ensures { Adds K.held K.faults sink.old sink.new text.old text.new (item_bytes item.now) }
{
    text.put(sink, b"MSG ");
    text.put_number(sink, item.terminal);
    put_strings(text, sink, &item.strings);
    text.put_byte(sink, b'\n');
}

/// Puts the lines of items.
fn put_items<K: Sink>(text: &mut TextBuffer, sink: &mut K, items: &[Payload])
    ensures { Adds K.held K.faults sink.old sink.new text.old text.new (flat_map item_bytes items.now) }
{
    for item in items {
        put_item(text, sink, item);
    }
}

/// Puts the canonical lines of items, as they stand behind the first line of a messages text. It takes no memory.
pub fn put_payloads<K: Sink>(text: &mut TextBuffer, sink: &mut K, payloads: &Payloads)
    ensures { Adds K.held K.faults sink.old sink.new text.old text.new (spelled_lines (map item_fields payloads.now)) }
{
    put_items(text, sink, &payloads.items)
}

/// Writes the canonical messages text of items: one line an item, one space between fields, hexadecimal digits in
/// capitals. It takes no memory. [`WriteFault`] comes only where the sink failed, which then has taken a front of the
/// text.
pub fn write_messages<K: Sink>(payloads: &Payloads, sink: &mut K) -> Result<(), WriteFault>
    ensures written { WritesText K.held K.faults sink.old sink.new result (messages_text payloads.now) }
    // What is written stands for these items.
    ensures again { IsMessagesText payloads.now (messages_text payloads.now) }
{
    let mut text = TextBuffer::new();
    text.put(sink, b"MESSAGES 1\n");
    put_items(&mut text, sink, &payloads.items);
    text.finish(sink)
}
