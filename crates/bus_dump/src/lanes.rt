//! The lanes of a dump and their signals.
ghost use Rattle.std.specs.Prelude.{◌≡◌, ◌≤◌, ◌<◌, ◌+◌, ◌++◌, ◌&&◌, not, List, [], ◌∷◌, IsTrue, length, map, filter};
ghost use Rattle.std.specs.List.{range_with_len};
ghost use Rattle.arrayvec.specs.ArrayVec.{array_vec_len};
ghost use Rattle.bus_strings.specs.Limits.{most_terminal};
ghost use Rattle.bus_strings.specs.Messages.{Entry};
ghost use Rattle.bus_table.specs.Valid.{is_valid};
ghost use Rattle.bus_table.specs.Turns.{turn_order};
ghost use Rattle.bus_dump.specs.Lanes as definition;
ghost use Rattle.bus_dump.specs.inside.Layouts.{AreSending};
ghost use Rattle.bus_dump.specs.Signals.{bus_signals, lane_signals};
ghost use Rattle.bus_dump.specs.Signals.{Label, Message, Interval, Synchronization, Gap, May};

use crate::dump::Dump;
use crate::lane::Lane;
use crate::signal::Signal;
use arrayvec::ArrayVec;
use bus_strings::Transmission;
use bus_strings::limits::{MOST_TERMINAL, TERMINALS};
use bus_table::{Table, turn_at, turn_places};

/// The most lanes, of 128 senders and 128 other terminals.
pub const MOST_LANES: usize = 256;

/// The signals of the bus, and of a lane.
const BUS_SIGNALS: usize = 5;

const LANE_SIGNALS: usize = 8;

/// Whether a terminal is a sender of the table.
fn is_sender(table: &Table, terminal: u8) -> bool
    ensures { result ≡ definition.is_sender table.now terminal }
{
    table
        .senders()
        .iter()
        .any(|sender| sender.number() == terminal)
}

/// Whether each terminal sends in the list.
fn sending_of(list: &[Transmission]) -> [bool; TERMINALS]
    ensures { AreSending list.now result }
{
    let mut sending = [false; TERMINALS];
    for k in 0..list.len() {
        let x = &list[k];
        let terminal = x.terminal as usize;
        sending[terminal] = true;
    }
    sending
}

/// Whether a terminal, which sends in the list or not, does so without being a sender of the table.
fn is_stranger(table: &Table, sends: bool, terminal: u8) -> bool
    ensures { result ≡ (not (definition.is_sender table.now terminal) && sends) }
{
    !is_sender(table, terminal) && sends
}

/// How many senders the table has.
pub(crate) fn sender_count(table: &Table) -> usize
    ensures valid { IsTrue (is_valid table.now) }
    ensures value { result ≡ length table.now.senders }
    ensures most { result ≤ most_terminal }
{
    table.senders().len()
}

/// Adds the senders in turn order, of which there are at most 128.
fn add_senders(lanes: &mut ArrayVec<Lane, MOST_LANES>, table: &Table)
    requires { lanes.old.items ≡ [] }
    ensures items { lanes.new.items ≡ map definition.sender_lane (turn_order table.now) }
    ensures few { array_vec_len lanes.new ≤ most_terminal }
{
    let places = turn_places(table);
    for k in 0..sender_count(table) {
        let terminal = turn_at(table, &places, k).number();
        lanes.push(Lane {
            terminal,
            sender: true,
        });
    }
}

/// Adds a terminal, which sends in the list or not, where it is a stranger.
fn add_stranger(lanes: &mut ArrayVec<Lane, MOST_LANES>, table: &Table, sends: bool, terminal: u8)
    requires { array_vec_len lanes.old < MOST_LANES }
    ensures items { (list : List Entry) → sends ≡ definition.sends list terminal → lanes.new.items
        ≡ lanes.old.items ++ map definition.stranger_lane (filter (definition.is_stranger table.now list) (terminal ∷ [])) }
    ensures few { array_vec_len lanes.new ≤ array_vec_len lanes.old + 1 }
{
    if is_stranger(table, sends, terminal) {
        lanes.push(Lane {
            terminal,
            sender: false,
        });
    }
}

/// Adds the strangers of the list by number.
fn add_strangers(lanes: &mut ArrayVec<Lane, MOST_LANES>, table: &Table, list: &[Transmission])
    requires { array_vec_len lanes.old ≤ most_terminal }
    ensures { lanes.new.items
        ≡ lanes.old.items
        ++ map definition.stranger_lane (filter (definition.is_stranger table.now list.now) (range_with_len 1 most_terminal)) }
{
    let sending = sending_of(list);
    for before in 0..MOST_TERMINAL {
        let sends = sending[before as usize + 1];
        add_stranger(lanes, table, sends, before + 1);
    }
}

/// The lanes of a dump: the senders in turn order, then the strangers of the list by number.
pub fn lanes_of(table: &Table, list: &[Transmission]) -> ArrayVec<Lane, MOST_LANES>
    ensures { result.items ≡ definition.lanes table.now list.now }
{
    let mut lanes = ArrayVec::new();
    add_senders(&mut lanes, table);
    add_strangers(&mut lanes, table, list);
    lanes
}

/// The signals of the bus that a dump has.
pub(crate) fn bus_signals(dump: Dump) -> ArrayVec<Signal, BUS_SIGNALS>
    ensures { result.items ≡ bus_signals dump }
{
    let mut signals = ArrayVec::new();
    signals.push(Signal::Carrier);
    signals.push(Signal::Overlap);
    signals.push(Signal::Sync);
    signals.push(Signal::Breach);
    if dump.has(false, Signal::Word) {
        signals.push(Signal::Word);
    }
    signals
}

/// Adds the signals of a lane that have more than one bit.
fn add_numbers(signals: &mut ArrayVec<Signal, LANE_SIGNALS>, terminal: u8)
    requires { array_vec_len signals.old ≤ 2 }
    ensures { signals.new.items ≡ signals.old.items ++ Label terminal ∷ (Message terminal ∷ []) }
{
    signals.push(Signal::Label(terminal));
    signals.push(Signal::Message(terminal));
}

/// Adds those of its timers.
fn add_timers(signals: &mut ArrayVec<Signal, LANE_SIGNALS>, terminal: u8)
    requires { array_vec_len signals.old ≤ 4 }
    ensures { signals.new.items
        ≡ signals.old.items ++ Interval terminal ∷ (Synchronization terminal ∷ (Gap terminal ∷ (May terminal ∷ []))) }
{
    signals.push(Signal::Interval(terminal));
    signals.push(Signal::Synchronization(terminal));
    signals.push(Signal::Gap(terminal));
    signals.push(Signal::May(terminal));
}

/// The signals of a lane that a dump has.
pub(crate) fn lane_signals(dump: Dump, lane: Lane) -> ArrayVec<Signal, LANE_SIGNALS>
    ensures { result.items ≡ lane_signals dump lane }
{
    let terminal = lane.terminal;
    let mut signals = ArrayVec::new();
    signals.push(Signal::Pulse(terminal));
    signals.push(Signal::Garbled(terminal));
    match dump {
        Dump::Wires => {}
        Dump::Vcd => add_numbers(&mut signals, terminal),
        Dump::Timers => {
            add_numbers(&mut signals, terminal);
            if lane.sender {
                add_timers(&mut signals, terminal);
            }
        }
    }
    signals
}
