//! What stands behind, beside and in the lanes.
ghost use Rattle.std.specs.Prelude.{◌≡◌, ◌<◌, ◌≤◌, ◌++◌, [], codes, decimal, length};
ghost use Rattle.std.specs.Option.{option_map_or};
ghost use Rattle.bus_outer.specs.Texts.{Adds};
ghost use Rattle.bus_table.specs.Fits.{sender_of};
ghost use Rattle.bus_picture.specs.TimeLines as definition;

use crate::measures::{
    NAMES_RIGHT, PLOT_LEFT, PLOT_TOP, PLOT_WIDTH, ROW_HEIGHT, TERMINAL_LINE, TIMERS_LINE,
};
use bus_dump::Lane;
use bus_outer::{Sink, TextBuffer};
use bus_pen::{Area, Class, begin_words, end_words, put_box};
use bus_table::{Mode, Sender, Table, sender_of};

/// The upper edge of lane `k`.
pub(crate) fn lane_top(k: usize) -> u64
    requires { k ≤ 256 }
    ensures value { result ≡ definition.lane_top k }
    ensures low { result < 100000 }
{
    PLOT_TOP + ROW_HEIGHT * (k as u64 + 1)
}

/// The offset of a sender, which it has in periodic mode.
fn put_offset<K: Sink>(text: &mut TextBuffer, sink: &mut K, mode: Mode, at: u32)
    ensures { Adds K.held K.faults sink.old sink.new text.old text.new (definition.offset_words mode at) }
{
    match mode {
        Mode::Aperiodic => {}
        Mode::Periodic => put_periodic(text, sink, at),
    }
}

fn put_periodic<K: Sink>(text: &mut TextBuffer, sink: &mut K, at: u32)
    ensures { Adds K.held K.faults sink.old sink.new text.old text.new (codes " AT " ++ decimal at) }
{
    text.put(sink, b" AT ");
    text.put_number(sink, at);
}

/// The timers of a sender, from their numbers.
fn put_timers<K: Sink>(text: &mut TextBuffer, sink: &mut K, mode: Mode, tg: u32, at: u32)
    ensures { Adds K.held K.faults sink.old sink.new text.old text.new (definition.timer_words mode tg at) }
{
    text.put(sink, b"TG ");
    text.put_number(sink, tg);
    put_offset(text, sink, mode, at);
}

/// The timers of a sender, in a lane with this upper edge.
fn put_sender<K: Sink>(text: &mut TextBuffer, sink: &mut K, mode: Mode, top: u64, sender: &Sender)
    requires { top < 100000 }
    ensures { Adds K.held K.faults sink.old sink.new text.old text.new (definition.sender_text mode top sender.now) }
{
    begin_words(text, sink, Class::Detail, NAMES_RIGHT, top + TIMERS_LINE);
    let (tg, at) = (sender.tg(), sender.at());
    put_timers(text, sink, mode, tg, at);
    end_words(text, sink);
}

/// The band behind every second lane.
fn put_band<K: Sink>(text: &mut TextBuffer, sink: &mut K, k: usize, top: u64)
    ensures { Adds K.held K.faults sink.old sink.new text.old text.new (definition.band_text k top) }
{
    if k % 2 == 0 {
        let area = Area {
            left: PLOT_LEFT,
            top,
            width: PLOT_WIDTH,
            height: ROW_HEIGHT,
        };
        put_box(text, sink, Class::Band, area);
    }
}

/// The terminal of a lane.
fn put_terminal<K: Sink>(text: &mut TextBuffer, sink: &mut K, top: u64, terminal: u8)
    requires { top < 100000 }
    ensures { Adds K.held K.faults sink.old sink.new text.old text.new (definition.terminal_text top terminal) }
{
    begin_words(text, sink, Class::Counts, NAMES_RIGHT, top + TERMINAL_LINE);
    text.put_byte(sink, b'T');
    text.put_number(sink, terminal);
    end_words(text, sink);
}

/// The timers of the sender with this number, where there is one.
fn put_sender_of<K: Sink>(
    text: &mut TextBuffer,
    sink: &mut K,
    table: &Table,
    top: u64,
    terminal: u8,
)
    requires { top < 100000 }
    ensures { Adds K.held K.faults sink.old sink.new text.old text.new
        (option_map_or (definition.sender_text table.now.mode top) (sender_of table.now.senders terminal) []) }
{
    let mode = table.mode();
    if let Some(sender) = sender_of(table.senders(), terminal) {
        put_sender(text, sink, mode, top, sender);
    }
}

/// What stands behind and beside lane `k`.
fn put_front<K: Sink>(text: &mut TextBuffer, sink: &mut K, table: &Table, k: usize, lane: Lane)
    requires { k ≤ 256 }
    ensures { Adds K.held K.faults sink.old sink.new text.old text.new (definition.lane_front table.now k lane) }
{
    let top = lane_top(k);
    put_band(text, sink, k, top);
    put_terminal(text, sink, top, lane.terminal);
    put_sender_of(text, sink, table, top, lane.terminal);
}

/// What stands behind and beside each lane.
pub(crate) fn put_fronts<K: Sink>(
    text: &mut TextBuffer,
    sink: &mut K,
    table: &Table,
    lanes: &[Lane],
)
    requires { length lanes.now ≤ 256 }
    ensures { Adds K.held K.faults sink.old sink.new text.old text.new
        (definition.each_lane (definition.lane_front table.now) 0 lanes.now) }
{
    for k in 0..lanes.len() {
        put_front(text, sink, table, k, lanes[k]);
    }
}
