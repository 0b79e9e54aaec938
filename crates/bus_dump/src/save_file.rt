//! The text of a save file.
ghost use Rattle.std.specs.Prelude.{◌<◌, [], drop, IfSome, if◌then◌else◌};
ghost use Rattle.std.specs.List.{flat_map};
ghost use Rattle.std.specs.Option.{option_map_or};
ghost use Rattle.bus_outer.specs.Sinks.{WritesText};
ghost use Rattle.bus_outer.specs.Texts.{Adds};
ghost use Rattle.bus_strings.specs.Limits.{horizon_limit};
ghost use Rattle.bus_table.specs.Fits.{sender_of};
ghost use Rattle.bus_dump.specs.DumpTexts.{bits_text};
ghost use Rattle.bus_dump.specs.SaveFiles as texts;
ghost use Rattle.bus_dump.specs.inside.Standing.{lane_within};

use crate::breach::FirstBreach;
use crate::declaration::{bits_of, put_name};
use crate::lane::Lane;
use crate::lanes::lanes_of;
use crate::opening::{are_open, is_open, put_opening, shown_breach, stands, telling_breach};
use crate::signal::Signal;
use crate::writing::end_in;
use bus_outer::{Sink, TextBuffer, WriteFault};
use bus_table::{Mode, Sender, Table, sender_of};
use bus_trace::{Trace, Window};

/// Which bits a signal has, where they are several, with no space before them.
fn put_bits<K: Sink>(text: &mut TextBuffer, sink: &mut K, signal: Signal)
    ensures { Adds K.held K.faults sink.old sink.new text.old text.new (drop 1 (bits_text signal)) }
{
    if let Some((_, bits)) = bits_of(signal).split_first() {
        text.put(sink, bits);
    }
}

/// A signal is shown.
fn put_shown<K: Sink>(text: &mut TextBuffer, sink: &mut K, signal: Signal)
    ensures { Adds K.held K.faults sink.old sink.new text.old text.new (texts.shown signal) }
{
    text.put(sink, b"bus.");
    put_name(text, sink, signal);
    put_bits(text, sink, signal);
    text.put_byte(sink, b'\n');
}

/// The signals of the bus.
fn put_bus<K: Sink>(text: &mut TextBuffer, sink: &mut K)
    ensures { Adds K.held K.faults sink.old sink.new text.old text.new texts.bus_shown }
{
    text.put(sink, b"@200\n-bus\n@28\n");
    put_shown(text, sink, Signal::Carrier);
    text.put(sink, b"[color] 2\n");
    put_shown(text, sink, Signal::Overlap);
    put_shown(text, sink, Signal::Sync);
    text.put(sink, b"[color] 2\n");
    put_shown(text, sink, Signal::Breach);
    text.put(sink, b"@22\n");
    put_shown(text, sink, Signal::Word);
}

/// The beginning of a group, before its name.
fn put_group_mark<K: Sink>(text: &mut TextBuffer, sink: &mut K, folded: bool)
    ensures { Adds K.held K.faults sink.old sink.new text.old text.new (texts.group_mark folded) }
{
    if folded {
        text.put(sink, b"@c00200\n-");
    } else {
        text.put(sink, b"@800200\n-");
    }
}

/// The beginning of a group of this name.
fn begin_group<K: Sink>(text: &mut TextBuffer, sink: &mut K, folded: bool, name: &[u8])
    ensures { Adds K.held K.faults sink.old sink.new text.old text.new (texts.group_begin folded name.now) }
{
    put_group_mark(text, sink, folded);
    text.put(sink, name);
    text.put_byte(sink, b'\n');
}

/// The end of a group.
fn end_group<K: Sink>(text: &mut TextBuffer, sink: &mut K, folded: bool)
    ensures { Adds K.held K.faults sink.old sink.new text.old text.new (texts.group_end folded) }
{
    if folded {
        text.put(sink, b"@1401200\n-group_end\n");
    } else {
        text.put(sink, b"@1000200\n-group_end\n");
    }
}

/// The labels of a lane.
fn put_label<K: Sink>(text: &mut TextBuffer, sink: &mut K, lane: Lane)
    ensures { Adds K.held K.faults sink.old sink.new text.old text.new (texts.label_shown lane) }
{
    put_shown(text, sink, Signal::Label(lane.terminal));
}

/// The labels of each lane.
fn put_labels<K: Sink>(text: &mut TextBuffer, sink: &mut K, lanes: &[Lane])
    ensures { Adds K.held K.faults sink.old sink.new text.old text.new (flat_map texts.label_shown lanes.now) }
{
    for lane in lanes {
        put_label(text, sink, *lane);
    }
}

/// The labels of all lanes, as a group.
fn put_label_group<K: Sink>(text: &mut TextBuffer, sink: &mut K, folded: bool, lanes: &[Lane])
    ensures { Adds K.held K.faults sink.old sink.new text.old text.new (texts.labels_shown folded lanes.now) }
{
    begin_group(text, sink, folded, b"labels");
    text.put(sink, b"@22\n");
    put_labels(text, sink, lanes);
    end_group(text, sink, folded);
}

/// The timers of a sender, of its own in this mode.
fn put_timing<K: Sink>(text: &mut TextBuffer, sink: &mut K, mode: Mode, sender: &Sender)
    ensures { Adds K.held K.faults sink.old sink.new text.old text.new (texts.timing_text mode sender.now) }
{
    text.put(sink, b" TG ");
    text.put_number(sink, sender.tg());
    if matches!(mode, Mode::Periodic) {
        text.put(sink, b" AT ");
        text.put_number(sink, sender.at());
    }
}

/// The timers of a terminal, where it is a sender of the table.
fn put_timing_of<K: Sink>(text: &mut TextBuffer, sink: &mut K, table: &Table, terminal: u8)
    ensures { Adds K.held K.faults sink.old sink.new text.old text.new
        (option_map_or (texts.timing_text table.now.mode) (sender_of table.now.senders terminal) []) }
{
    if let Some(sender) = sender_of(table.senders(), terminal) {
        put_timing(text, sink, table.mode(), sender);
    }
}

/// The name of a lane.
fn put_title<K: Sink>(text: &mut TextBuffer, sink: &mut K, table: &Table, terminal: u8)
    ensures { Adds K.held K.faults sink.old sink.new text.old text.new (texts.lane_title table.now terminal) }
{
    text.put_byte(sink, b'T');
    text.put_number(sink, terminal);
    put_timing_of(text, sink, table, terminal);
}

/// The signals of a terminal's transmissions, but for its labels.
fn put_messages<K: Sink>(text: &mut TextBuffer, sink: &mut K, terminal: u8)
    ensures { Adds K.held K.faults sink.old sink.new text.old text.new (texts.messages_shown terminal) }
{
    text.put(sink, b"@28\n");
    put_shown(text, sink, Signal::Pulse(terminal));
    text.put(sink, b"[color] 2\n");
    put_shown(text, sink, Signal::Garbled(terminal));
    text.put(sink, b"@24\n");
    put_shown(text, sink, Signal::Message(terminal));
}

/// The signals of the timers of a sender.
fn put_timers<K: Sink>(text: &mut TextBuffer, sink: &mut K, terminal: u8)
    ensures { Adds K.held K.faults sink.old sink.new text.old text.new (texts.timers_shown terminal) }
{
    text.put(sink, b"@28\n");
    put_shown(text, sink, Signal::Interval(terminal));
    put_shown(text, sink, Signal::Synchronization(terminal));
    put_shown(text, sink, Signal::Gap(terminal));
    text.put(sink, b"[color] 2\n");
    put_shown(text, sink, Signal::May(terminal));
}

/// The signals of the timers of a lane, where it is of a sender.
fn put_timers_of<K: Sink>(text: &mut TextBuffer, sink: &mut K, lane: Lane)
    ensures { Adds K.held K.faults sink.old sink.new text.old text.new
        (if lane.sender then texts.timers_shown lane.terminal else []) }
{
    if lane.sender {
        put_timers(text, sink, lane.terminal);
    }
}

/// The signals of a lane, as a group.
fn show_lane<K: Sink>(text: &mut TextBuffer, sink: &mut K, folded: bool, table: &Table, lane: Lane)
    ensures { Adds K.held K.faults sink.old sink.new text.old text.new (texts.lane_shown folded table.now lane) }
{
    put_group_mark(text, sink, folded);
    put_title(text, sink, table, lane.terminal);
    text.put_byte(sink, b'\n');
    put_messages(text, sink, lane.terminal);
    put_timers_of(text, sink, lane);
    end_group(text, sink, folded);
}

/// A lane, with its group open or folded.
fn show_among<K: Sink>(
    text: &mut TextBuffer,
    sink: &mut K,
    breach: Option<FirstBreach>,
    table: &Table,
    lanes: &[Lane],
    lane: Lane,
)
    ensures { Adds K.held K.faults sink.old sink.new text.old text.new (texts.lane_among breach table.now lanes.now lane) }
{
    let folded = !is_open(breach, lanes, lane);
    show_lane(text, sink, folded, table, lane);
}

/// A lane, where it stands in this part.
fn show_within<K: Sink>(
    text: &mut TextBuffer,
    sink: &mut K,
    first: bool,
    breach: Option<FirstBreach>,
    table: &Table,
    lanes: &[Lane],
    lane: Lane,
)
    ensures { Adds K.held K.faults sink.old sink.new text.old text.new (lane_within first breach table.now lanes.now lane) }
{
    if stands(first, breach, lane) {
        show_among(text, sink, breach, table, lanes, lane);
    }
}

/// The lanes that stand in this part.
fn show_part<K: Sink>(
    text: &mut TextBuffer,
    sink: &mut K,
    first: bool,
    breach: Option<FirstBreach>,
    table: &Table,
    lanes: &[Lane],
)
    ensures { Adds K.held K.faults sink.old sink.new text.old text.new (flat_map (lane_within first breach table.now lanes.now) lanes.now) }
{
    for lane in lanes {
        show_within(text, sink, first, breach, table, lanes, *lane);
    }
}

/// All signals.
fn show_all<K: Sink>(
    text: &mut TextBuffer,
    sink: &mut K,
    breach: Option<FirstBreach>,
    table: &Table,
    lanes: &[Lane],
)
    ensures { Adds K.held K.faults sink.old sink.new text.old text.new (texts.all_shown breach table.now lanes.now) }
{
    let folded = !are_open(breach, lanes);
    put_bus(text, sink);
    put_label_group(text, sink, folded, lanes);
    show_part(text, sink, true, breach, table, lanes);
    show_part(text, sink, false, breach, table, lanes);
}

/// Writes the save file of GTKWave that shows each signal of the dumps of a window of a trace on a table: the bus, the labels of all lanes,
/// then each lane, with what is garbled and where a sender may start in a colour of its own. The viewer leaves out those that a dump
/// doesn't have. It opens zoomed out to the whole window, with its marker at the moment of the first breach, where the window holds that.
/// Labels and lanes are groups. Of more than two lanes, that of the terminal that the breach names stands first, and it alone is open;
/// without such a breach, and of no more than two, the first eight are. It takes no memory.
///
/// A breach is below 1,099,511,627,776. At `WriteFault` the sink has taken a front of the text, and its count of faults rose.
pub fn write_save_file<K: Sink>(
    window: &Window,
    breach: Option<FirstBreach>,
    table: &Table,
    trace: &Trace,
    sink: &mut K,
) -> Result<(), WriteFault>
    requires { IfSome breach (λ b. b.moment < horizon_limit) }
    ensures { WritesText K.held K.faults sink.old sink.new result (texts.save_text window.now breach table.now trace.now) }
{
    let all = lanes_of(table, trace.list());
    let lanes = all.as_slice();
    let seen = shown_breach(window, breach);
    let telling = telling_breach(lanes, seen);
    let end = end_in(window, trace.horizon());
    let mut text = TextBuffer::new();
    put_opening(&mut text, sink, window.from(), end, seen);
    show_all(&mut text, sink, telling, table, lanes);
    text.finish(sink)
}
