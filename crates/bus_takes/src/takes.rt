//! What is odd about the TAKE lines of a table, one terminal behind another, and all that is odd.
ghost use Rattle.std.specs.List.{flat_map};
ghost use Rattle.bus_outer.specs.Sinks.{WritesText};
ghost use Rattle.bus_outer.specs.Texts.{Adds};
ghost use Rattle.bus_takes.specs.Takes as definition;

use crate::lines::{Pair, put_pair, put_unfed};
use crate::untaken::put_untaken;
use bus_feeds::is_fed;
use bus_outer::{Sink, TextBuffer, WriteFault};
use bus_table::{Listener, SendLine, Sender, Table, TakeLine};

/// Puts what is odd about a TAKE line and these SEND lines of another terminal.
fn put_pairs<K: Sink>(
    text: &mut TextBuffer,
    sink: &mut K,
    number: u8,
    other: u8,
    take: &TakeLine,
    sends: &[SendLine],
)
    ensures { Adds K.held K.faults sink.old sink.new text.old text.new (flat_map (definition.pair_text number take.now other) sends.now) }
{
    for send in sends {
        let pair = Pair {
            number,
            take,
            other,
            send,
        };
        put_pair(text, sink, pair);
    }
}

/// Puts what is odd about a TAKE line of a terminal and a sender.
fn put_sender<K: Sink>(
    text: &mut TextBuffer,
    sink: &mut K,
    number: u8,
    take: &TakeLine,
    sender: &Sender,
)
    ensures { Adds K.held K.faults sink.old sink.new text.old text.new (definition.sender_text number take.now sender.now) }
{
    let other = sender.number();
    if other != number {
        put_pairs(text, sink, number, other, take, sender.sends());
    }
}

/// Puts what is odd about a TAKE line of a terminal and these senders.
fn put_senders<K: Sink>(
    text: &mut TextBuffer,
    sink: &mut K,
    number: u8,
    take: &TakeLine,
    senders: &[Sender],
)
    ensures { Adds K.held K.faults sink.old sink.new text.old text.new (flat_map (definition.sender_text number take.now) senders.now) }
{
    for sender in senders {
        put_sender(text, sink, number, take, sender);
    }
}

/// Puts what is odd about a TAKE line of the terminal of this number.
fn put_take<K: Sink>(
    text: &mut TextBuffer,
    sink: &mut K,
    table: &Table,
    number: u8,
    take: &TakeLine,
)
    ensures { Adds K.held K.faults sink.old sink.new text.old text.new (definition.take_text table.now number take.now) }
{
    if is_fed(table, number, take) {
        put_senders(text, sink, number, take, table.senders());
    } else {
        put_unfed(text, sink, table, number, take);
    }
}

/// Puts what is odd about these TAKE lines of the terminal of this number.
fn put_lines<K: Sink>(
    text: &mut TextBuffer,
    sink: &mut K,
    table: &Table,
    number: u8,
    takes: &[TakeLine],
)
    ensures { Adds K.held K.faults sink.old sink.new text.old text.new (flat_map (definition.take_text table.now number) takes.now) }
{
    for take in takes {
        put_take(text, sink, table, number, take);
    }
}

/// Puts what is odd about the TAKE lines of senders.
fn put_of_senders<K: Sink>(text: &mut TextBuffer, sink: &mut K, table: &Table, senders: &[Sender])
    ensures { Adds K.held K.faults sink.old sink.new text.old text.new (flat_map (definition.of_sender table.now) senders.now) }
{
    for sender in senders {
        put_lines(text, sink, table, sender.number(), sender.takes());
    }
}

/// Puts what is odd about those of listeners.
fn put_of_listeners<K: Sink>(
    text: &mut TextBuffer,
    sink: &mut K,
    table: &Table,
    listeners: &[Listener],
)
    ensures { Adds K.held K.faults sink.old sink.new text.old text.new (flat_map (definition.of_listener table.now) listeners.now) }
{
    for listener in listeners {
        put_lines(text, sink, table, listener.number(), listener.takes());
    }
}

/// Puts all that is odd about the TAKE and SEND lines of a table: nothing, where nothing is.
pub fn put_takes<K: Sink>(text: &mut TextBuffer, sink: &mut K, table: &Table)
    ensures { Adds K.held K.faults sink.old sink.new text.old text.new (definition.takes_text table.now) }
{
    put_of_senders(text, sink, table, table.senders());
    put_of_listeners(text, sink, table, table.listeners());
    put_untaken(text, sink, table);
}

/// Writes the same. It takes no memory.
pub fn write_takes<K: Sink>(table: &Table, out: &mut K) -> Result<(), WriteFault>
    ensures { WritesText K.held K.faults out.old out.new result (definition.takes_text table.now) }
{
    let mut text = TextBuffer::new();
    put_takes(&mut text, out, table);
    text.finish(out)
}
