//! A part of a stream: what stands between two stretches of which anything may lack.
ghost use Rattle.std.specs.Prelude.{◌≡◌, ◌+◌, ◌-◌, ◌<◌, ◌≤◌, ◌^◌, nat_lt, length, slice_get, IfOk, IfSome, OnErr, OnOk, Some, set, true, if◌then◌else◌};
ghost use Rattle.bus_outer.specs.Texts.{Adds};
ghost use Rattle.bus_strings.specs.Limits.{most_terminal};
ghost use Rattle.bus_table.specs.Tables.{Sender, Table};
ghost use Rattle.bus_findings.specs.Terminals.{is_faulty as is_faulty_test};
ghost use Rattle.bus_stream.specs.Places.{bit_of as bit_time};
ghost use Rattle.bus_watch.specs.Parts as parts;
ghost use Rattle.bus_watch.specs.Looks.{CanLook};
ghost use Rattle.bus_watch.specs.Standing.{AddsFront, CanTake};

use crate::at::{At, Looked};
use crate::lines::{put_found, put_part, put_silence};
use crate::setting::Setting;
use crate::window::Window;
use bus_findings::{Due, Judgement, is_faulty};
use bus_outer::{Sink, TextBuffer};
use bus_stream::bit_of;
use bus_strings::limits::TERMINALS;
use bus_strings::{Message, copy_message};
use bus_table::Table;
use std::alloc::{AllocError, Global};
use std::mem::replace;

/// How many transmissions a block has, or a few more.
const BLOCK: u64 = 1024;

/// How many bit times a window has at most: three days.
const MOST_SPAN: u64 = 500_000_000_000;

/// Tells a terminal to be silent, where it is.
fn tell(silent: &mut [bool], terminal: u8, so: bool)
    requires { terminal < length silent.old }
    ensures { silent.new ≡ (if so then set silent.old terminal true else silent.old) }
{
    if so {
        silent[usize::from(terminal)] = true;
    }
}

/// A part of a stream.
#[derive(Drop)]
pub struct Part<'t> {
    /// When its first transmission began, in nanoseconds.
    pub start: u64,
    /// The last moment that was told.
    pub told: u64,
    /// The window by which is judged.
    pub older: Window<'t>,
    /// The one that was begun with this block.
    pub newer: Window<'t>,
    /// How many transmissions this block has.
    pub count: u64,
    /// The bit time of the last one.
    pub last: u64,
    /// By number, whether a terminal was told to be silent since its last start.
    pub silent: [bool; TERMINALS],
    /// How many transmissions there were.
    pub sent: u64,
    /// How many of them had a fault.
    pub faults: u64,
}

impl<'t> Part<'t> {
    /// A part that begins at a moment.
    pub(crate) fn new(setting: &Setting<'t>, time: u64) -> Part<'t>
        requires { setting.now.bounds.delay ≤ 9 }
        ensures { result ≡ parts.begun setting.now.bounds setting.now.table.now time }
    {
        let bit = bit_of(time);
        Part {
            start: time,
            told: time,
            older: Window::new(setting, bit),
            newer: Window::new(setting, bit),
            count: 0,
            last: bit,
            silent: [false; TERMINALS],
            sent: 0,
            faults: 0,
        }
    }

    /// Whether a bit time is too far behind the beginning of its window.
    pub(crate) fn is_long(&self, bit: u64) -> bool
        ensures { result ≡ parts.is_long bit self.now }
    {
        bit.saturating_sub(self.older.base) > MOST_SPAN
    }

    /// Whether its block is over before a transmission at a bit time: nothing of one bit time is cut apart.
    fn is_over(&self, bit: u64) -> bool
        ensures { result ≡ parts.is_over self.now bit }
    {
        BLOCK <= self.count && self.last < bit
    }

    /// When the sender at a place was due that wasn't told to be silent, before a bit time up to which all is told, if it was.
    fn silence(&self, table: &Table, k: usize, bit: u64) -> Option<Due>
        requires look { CanLook table.now self.now bit }
        requires here { k < length table.now.senders }
        ensures value { (s : Sender) → slice_get table.now.senders k ≡ Some s → result ≡ parts.silence_of self.now bit s }
        ensures within { IfSome result (λ due. self.now.older.base + due.moment ≤ bit) }
    {
        if self.silent[usize::from(table.senders()[k].number())] {
            None
        } else {
            self.older.due(k, bit)
        }
    }

    /// Puts who was due before a bit time up to which all is told, hasn't started, and wasn't told so before.
    fn put_silences<K: Sink>(
        &self,
        text: &mut TextBuffer,
        sink: &mut K,
        table: &Table,
        line: u64,
        bit: u64,
    )
        requires look { CanLook table.now self.now bit }
        ensures { Adds K.held K.faults sink.old sink.new text.old text.new (parts.silences table.now self.now line bit) }
    {
        let senders = table.senders();
        for k in 0..senders.len() {
            let due = self.silence(table, k, bit);
            let looked = Looked {
                base: self.older.base,
                bit,
                line,
            };
            put_silence(text, sink, looked, senders[k].number(), due);
        }
    }

    /// Who is told to be silent then, by number.
    fn silent_at(&self, table: &Table, bit: u64) -> [bool; TERMINALS]
        requires look { CanLook table.now self.now bit }
        ensures { result ≡ parts.silent_at table.now self.now bit }
    {
        let mut silent = self.silent;
        let senders = table.senders();
        for k in 0..senders.len() {
            let terminal = senders[k].number();
            let due = self.older.due(k, bit);
            tell(&mut silent, terminal, due.is_some());
        }
        silent
    }

    /// All is told up to a bit time: puts who is silent.
    pub(crate) fn look<K: Sink>(
        &mut self,
        text: &mut TextBuffer,
        sink: &mut K,
        table: &Table,
        line: u64,
        bit: u64,
    )
        requires look { CanLook table.now self.old bit }
        ensures adds { Adds K.held K.faults sink.old sink.new text.old text.new (parts.silences table.now self.old line bit) }
        ensures looked { self.new ≡ parts.looked table.now self.old bit }
    {
        self.put_silences(text, sink, table, line, bit);
        self.silent = self.silent_at(table, bit);
    }

    /// Its block is over: from here on the newer window counts.
    fn turn(&mut self, setting: &Setting<'t>, bit: u64)
        requires { setting.now.bounds.delay ≤ 9 }
        ensures { self.new ≡ parts.turned setting.now.bounds setting.now.table.now self.old bit }
    {
        let fresh = Window::new(setting, bit);
        self.older = replace(&mut self.newer, fresh);
        self.count = 0;
    }

    /// Before a transmission at a bit time: where its block is over, puts who is silent, and turns to the next one.
    fn make_room<K: Sink>(
        &mut self,
        setting: &Setting<'t>,
        text: &mut TextBuffer,
        sink: &mut K,
        line: u64,
        bit: u64,
    )
        requires near { setting.now.bounds.delay ≤ 9 }
        requires look { CanLook setting.now.table.now self.old bit }
        ensures adds { Adds K.held K.faults sink.old sink.new text.old text.new (parts.room_text setting.now.table.now self.old line bit) }
        ensures made { self.new ≡ parts.made_room setting.now.bounds setting.now.table.now self.old bit }
    {
        if self.is_over(bit) {
            self.look(text, sink, setting.table, line, bit);
            self.turn(setting, bit);
        } else {
            text.put(sink, b"");
        }
    }

    /// Takes a transmission, and says what is found at it.
    fn take(
        &mut self,
        alloc: Global,
        time: u64,
        terminal: u8,
        message: Message,
    ) -> Result<Judgement, AllocError>
        requires room { (table : Table) × CanTake table self.old (bit_time time) terminal }
        requires terminal { (1 ≤ terminal) × (terminal ≤ most_terminal) }
        ensures found { IfOk result (λ found. found ≡ parts.found_in self.old.older (bit_time time) terminal message) }
        ensures taken { OnOk result (self.new ≡ parts.taken self.old time terminal message) }
    {
        let bit = bit_of(time);
        let copy = copy_message(alloc, &message)?;
        self.newer.take(bit, terminal, copy)?;
        let found = self.older.take(bit, terminal, message)?;
        self.told = time;
        self.last = bit;
        self.count += 1;
        self.sent += 1;
        self.silent[usize::from(terminal)] = false;
        Ok(found)
    }

    /// Counts a transmission with a fault, where it has one.
    fn count(&mut self, faulty: bool)
        requires { self.old.faults < 2 ^ 64 - 1 }
        ensures { self.new ≡ parts.with_fault faulty self.old }
    {
        if faulty {
            self.faults += 1;
        }
    }

    /// Takes a transmission, puts what is found at it, and says whether that is a fault.
    pub(crate) fn judge<K: Sink>(
        &mut self,
        setting: &Setting<'t>,
        text: &mut TextBuffer,
        sink: &mut K,
        at: At,
        message: Message,
    ) -> Result<bool, AllocError>
        requires near { setting.now.bounds.delay ≤ 9 }
        requires room { CanTake setting.now.table.now self.old (bit_time at.time) at.terminal }
        requires terminal { (1 ≤ at.terminal) × (at.terminal ≤ most_terminal) }
        ensures adds { OnOk result (Adds K.held K.faults sink.old sink.new text.old text.new
            (parts.judged_text setting.now.bounds setting.now.table.now self.old at message)) }
        ensures front { OnErr result (AddsFront K.held K.faults sink.old sink.new text.old text.new
            (parts.judged_text setting.now.bounds setting.now.table.now self.old at message)) }
        ensures judged { OnOk result
            (self.new ≡ parts.judged setting.now.bounds setting.now.table.now self.old at.time at.terminal message) }
        ensures fault { IfOk result (λ fault.
            fault ≡ is_faulty_test (parts.found_of setting.now.bounds setting.now.table.now self.old at.time at.terminal message)) }
    {
        self.make_room(setting, text, sink, at.line, bit_of(at.time));
        let found = self.take(setting.alloc, at.time, at.terminal, message)?;
        put_found(text, sink, at, &found);
        let faulty = is_faulty(&found);
        self.count(faulty);
        Ok(faulty)
    }

    /// All is told up to a moment: puts who is silent.
    pub(crate) fn told_to<K: Sink>(
        &mut self,
        text: &mut TextBuffer,
        sink: &mut K,
        table: &Table,
        line: u64,
        time: u64,
    )
        requires look { CanLook table.now self.old (bit_time time) }
        ensures adds { Adds K.held K.faults sink.old sink.new text.old text.new (parts.silences table.now self.old line (bit_time time)) }
        ensures told { self.new ≡ parts.told_to table.now time self.old }
    {
        self.look(text, sink, table, line, bit_of(time));
        self.told = time;
    }

    /// Puts that it ends at a moment up to which all is told.
    pub(crate) fn end<K: Sink>(
        &self,
        text: &mut TextBuffer,
        sink: &mut K,
        table: &Table,
        line: u64,
        time: u64,
    )
        requires look { CanLook table.now self.now (bit_time time) }
        ensures { Adds K.held K.faults sink.old sink.new text.old text.new (parts.end_text table.now self.now line time) }
    {
        self.put_silences(text, sink, table, line, bit_of(time));
        put_part(text, sink, self.start, time, self.sent, self.faults);
    }
}
