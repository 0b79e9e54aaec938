//! The heard text.
ghost use Rattle.std.specs.Prelude.{◌≡◌, ◌≤◌, ◌||◌, ℕ, nat_lt};
ghost use Rattle.std.specs.List.{flat_map, zip, AllByRecursion};
ghost use Rattle.bus_outer.specs.Sinks.{WritesText};
ghost use Rattle.bus_outer.specs.Texts.{Adds};
ghost use Rattle.bus_strings.specs.Transmissions.{IsAscending, IsTransmission, marks};
ghost use Rattle.bus_medium.specs.Delays.{cable};
ghost use Rattle.bus_cable.specs.Cables.{delays_on};
ghost use Rattle.bus_propagation.specs.Numbered.{most_place};
ghost use Rattle.bus_cable.specs.Hearing.{hearing};
ghost use Rattle.bus_cable.specs.HeardTexts.{mark_text, terminal_text, heard_text};
ghost use Rattle.bus_cable.specs.inside.Ranks.{marked_put, heard_put, sender_heard, listener_heard};
ghost use Rattle.bus_propagation.specs.Numbered.{numbered};

use crate::cable::Cable;
use crate::hearing::{Heard, begins_before, first_heard, hear, look_at, passed, rank_of};
use crate::spots::spots;
use bus_outer::{Sink, TextBuffer, WriteFault};
use bus_strings::Transmission;
use bus_table::{Listener, Sender, Table};

/// Puts the mark at the end of a line.
fn put_mark<K: Sink>(text: &mut TextBuffer, sink: &mut K, garbled: bool)
    ensures { Adds K.held K.faults sink.old sink.new text.old text.new (mark_text garbled) }
{
    if garbled {
        text.put(sink, b" C\n");
    } else {
        text.put(sink, b" -\n");
    }
}

/// Puts the line of a transmission that the terminal `number` hears, unless it is its own.
fn put_heard<K: Sink>(text: &mut TextBuffer, sink: &mut K, number: u8, heard: Heard, garbled: bool)
    ensures { Adds K.held K.faults sink.old sink.new text.old text.new (heard_put number heard garbled) }
{
    if heard.terminal == number {
        return;
    }
    text.put(sink, b"HT ");
    text.put_number(sink, heard.moment);
    text.put_byte(sink, b' ');
    text.put_number(sink, heard.terminal);
    put_mark(text, sink, garbled);
}

/// Whether something is garbled that begins at this moment: what was heard before has not ended, or the next begins before it ends.
fn is_garbled(moment: u64, end: u64, next: bool) -> bool
    ensures { result ≡ (nat_lt moment end || next) }
{
    moment < end || next
}

/// Puts the lines of what the terminal `number` hears of others.
fn put_hearings<K: Sink>(
    text: &mut TextBuffer,
    sink: &mut K,
    list: &[Transmission],
    places: &[u64],
    number: u8,
)
    requires places { (n : ℕ) → numbered places.now n ≤ most_place }
    requires order { IsAscending list.now }
    requires ranges { AllByRecursion IsTransmission list.now }
    ensures { let heard = hearing (cable (numbered places.now)) list.now number in
        Adds K.held K.faults sink.old sink.new text.old text.new (flat_map (marked_put number) (zip heard (marks heard))) }
{
    let mut at = first_heard(list, places, number, 0, 0);
    let mut from = 0;
    let mut latest = 0;
    for _ in 0..list.len() {
        let heard = hear(places, number, &list[at]);
        let bound = rank_of(heard.moment, heard.terminal) + 1;
        from = passed(list, places, number, from, bound);
        at = first_heard(list, places, number, from, bound);
        let next = begins_before(list, places, number, at, heard.end);
        let garbled = is_garbled(heard.moment, latest, next);
        put_heard(text, sink, number, heard, garbled);
        latest = latest.max(heard.end);
    }
}

/// Puts a terminal, and what it hears of others.
fn put_terminal<K: Sink>(
    text: &mut TextBuffer,
    sink: &mut K,
    list: &[Transmission],
    places: &[u64],
    number: u8,
)
    requires places { (n : ℕ) → numbered places.now n ≤ most_place }
    requires order { IsAscending list.now }
    requires ranges { AllByRecursion IsTransmission list.now }
    ensures { Adds K.held K.faults sink.old sink.new text.old text.new (terminal_text (cable (numbered places.now)) list.now number) }
{
    text.put(sink, b"TERMINAL ");
    text.put_number(sink, number);
    text.put_byte(sink, b'\n');
    put_hearings(text, sink, list, places, number);
}

/// Puts the senders of a table, and what they hear.
fn put_senders<K: Sink>(
    text: &mut TextBuffer,
    sink: &mut K,
    list: &[Transmission],
    places: &[u64],
    senders: &[Sender],
)
    requires places { (n : ℕ) → numbered places.now n ≤ most_place }
    requires order { IsAscending list.now }
    requires ranges { AllByRecursion IsTransmission list.now }
    ensures { Adds K.held K.faults sink.old sink.new text.old text.new
        (flat_map (sender_heard (cable (numbered places.now)) list.now) senders.now) }
{
    for sender in senders {
        put_terminal(text, sink, list, places, sender.number());
    }
}

/// Puts the listeners of a table, and what they hear.
fn put_listeners<K: Sink>(
    text: &mut TextBuffer,
    sink: &mut K,
    list: &[Transmission],
    places: &[u64],
    listeners: &[Listener],
)
    requires places { (n : ℕ) → numbered places.now n ≤ most_place }
    requires order { IsAscending list.now }
    requires ranges { AllByRecursion IsTransmission list.now }
    ensures { Adds K.held K.faults sink.old sink.new text.old text.new
        (flat_map (listener_heard (cable (numbered places.now)) list.now) listeners.now) }
{
    for listener in listeners {
        put_terminal(text, sink, list, places, listener.number());
    }
}

/// Writes what each terminal of a table hears of a list of transmissions on a cable, in pushes of a few kilobytes. It takes no memory.
///
/// The list has to ascend by moment and, at the same moment, by terminal. A moment of the text may be past that of any transmission, by the
/// length of the cable. At [`WriteFault`] the sink has taken a front of the text, and its count of faults rose.
pub fn write_heard<K: Sink>(
    table: &Table,
    cable: &Cable,
    list: &[Transmission],
    sink: &mut K,
) -> Result<(), WriteFault>
    requires { IsAscending list.now }
    ensures { WritesText K.held K.faults sink.old sink.new result (heard_text table.now (delays_on cable.now) list.now) }
{
    look_at(list);
    let places = spots(cable.places());
    let mut text = TextBuffer::new();
    text.put(sink, b"HEARD 1\n");
    put_senders(&mut text, sink, list, &places, table.senders());
    put_listeners(&mut text, sink, list, &places, table.listeners());
    text.put(sink, b"END\n");
    text.finish(sink)
}
