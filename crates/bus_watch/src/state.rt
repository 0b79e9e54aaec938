//! What is kept of a stream, and what one item more makes certain.
ghost use Rattle.std.specs.Prelude.{◌≡◌, ◌+◌, ◌*◌, ◌-◌, ◌%◌, ◌<◌, ◌≤◌, ◌^◌, ◌==◌, true, IfOk, IfSome, IsSomeAnd, OnErr, OnOk, Some, if◌then◌else◌};
ghost use Rattle.bus_outer.specs.Texts.{Adds};
ghost use Rattle.bus_strings.specs.Limits.{most_terminal};
ghost use Rattle.bus_table.specs.Tables.{Table};
ghost use Rattle.bus_stream.specs.declared.place.Place.{Place};
ghost use Rattle.bus_stream.specs.Places.{bit_of as bit_time, is_behind, place_after};
ghost use Rattle.bus_watch.specs.Streams as streams;
ghost use Rattle.bus_findings.specs.Terminals.{is_faulty};
ghost use Rattle.bus_watch.specs.Parts.{found_of, judged, judged_text};
ghost use Rattle.bus_watch.specs.Lines.{PutsLine, came_of, came_to};
ghost use Rattle.bus_watch.specs.Standing.{AddsFront, CanTake, IsItem, IsState};

use crate::at::At;
use crate::lines::put_unheard_where;
use crate::part::Part;
use crate::setting::Setting;
use bus_outer::{Sink, TextBuffer};
use bus_stream::{Item, Place, StreamReason, bit_of, read_item};
use bus_strings::Message;
use bus_strings::limits::TERMINALS;
use bus_table::Table;
use bus_text::LineFault;
use std::alloc::AllocError;

/// At each so many transmissions it is looked who wasn't heard.
const LOOK: u64 = 1024;

/// Whether it is told of a terminal that so many transmissions came since its last start: at one look alone.
fn is_told(missed: u64) -> bool
    ensures { result ≡ streams.is_told missed }
{
    LOOK <= missed && missed < 2 * LOOK
}

/// What is kept of a stream.
#[derive(Drop)]
pub struct State<'t> {
    /// Up to where all is told.
    pub place: Place,
    /// The part under way.
    pub part: Option<Part<'t>>,
    /// How many transmissions there were.
    pub number: u64,
    /// By number, how many there were up to a terminal's last start.
    pub heard: [u64; TERMINALS],
    /// Whether a fault was told.
    pub faulty: bool,
}

impl<'t> State<'t> {
    /// Before the first line.
    pub fn new() -> State<'t>
        ensures value { result ≡ streams.opening }
        ensures state { (table : Table) → IsState table result }
    {
        State {
            place: Place::START,
            part: None,
            number: 0,
            heard: [0; TERMINALS],
            faulty: false,
        }
    }

    /// Ends the part under way, if there is one, at a moment or at the last one that was told.
    pub fn end<K: Sink>(
        &mut self,
        text: &mut TextBuffer,
        sink: &mut K,
        table: &Table,
        line: u64,
        time: Option<u64>,
    )
        requires state { IsState table.now self.old }
        requires later { IfSome time (λ time. (self.old.place.bit ≤ bit_time time) × (time < 2 ^ 64)) }
        ensures adds { Adds K.held K.faults sink.old sink.new text.old text.new (streams.ended_text table.now self.old line time) }
        ensures ended { self.new ≡ streams.ended self.old }
    {
        match &self.part {
            Some(part) => part.end(text, sink, table, line, time.unwrap_or(part.told)),
            None => text.put(sink, b""),
        }
        self.part = None;
    }

    /// All is told up to a moment.
    fn told<K: Sink>(
        &mut self,
        text: &mut TextBuffer,
        sink: &mut K,
        table: &Table,
        line: u64,
        time: u64,
    )
        requires state { IsState table.now self.old }
        requires later { self.old.place.bit ≤ bit_time time }
        requires low { time < 2 ^ 64 }
        ensures adds { Adds K.held K.faults sink.old sink.new text.old text.new (streams.told_text table.now self.old line time) }
        ensures told { self.new ≡ streams.told table.now self.old time }
    {
        match &mut self.part {
            Some(part) => part.told_to(text, sink, table, line, time),
            None => text.put(sink, b""),
        }
    }

    /// Whether the window of the part under way would be too long by a bit time.
    fn is_part_long(&self, bit: u64) -> bool
        ensures { result ≡ streams.is_part_long self.now bit }
    {
        match &self.part {
            Some(part) => part.is_long(bit),
            None => false,
        }
    }

    /// Ends that part then.
    fn end_long<K: Sink>(
        &mut self,
        text: &mut TextBuffer,
        sink: &mut K,
        table: &Table,
        line: u64,
        bit: u64,
    )
        requires { IsState table.now self.old }
        ensures adds { Adds K.held K.faults sink.old sink.new text.old text.new (streams.part_text table.now self.old line bit) }
        ensures ended { self.new ≡ (if streams.is_part_long self.old bit then streams.ended self.old else self.old) }
    {
        if self.is_part_long(bit) {
            self.end(text, sink, table, line, None)
        } else {
            text.put(sink, b"")
        }
    }

    /// How many transmissions there were since a terminal's last start.
    fn missed(&self, terminal: u8) -> u64
        requires { terminal ≤ most_terminal }
        ensures { result ≡ streams.missed self.now terminal }
    {
        self.number
            .saturating_sub(self.heard[usize::from(terminal)])
    }

    /// Puts who wasn't heard for long, where it is looked for that.
    fn put_unheard<K: Sink>(
        &self,
        text: &mut TextBuffer,
        sink: &mut K,
        table: &Table,
        line: u64,
        time: u64,
    )
        ensures { Adds K.held K.faults sink.old sink.new text.old text.new (streams.unheard table.now self.now line time) }
    {
        if self.number % LOOK == 0 {
            self.put_each_unheard(text, sink, table, line, time)
        } else {
            text.put(sink, b"")
        }
    }

    /// Puts who wasn't heard for long.
    fn put_each_unheard<K: Sink>(
        &self,
        text: &mut TextBuffer,
        sink: &mut K,
        table: &Table,
        line: u64,
        time: u64,
    )
        ensures { Adds K.held K.faults sink.old sink.new text.old text.new (streams.each_unheard table.now self.now line time) }
    {
        let senders = table.senders();
        for k in 0..senders.len() {
            let terminal = senders[k].number();
            let missed = self.missed(terminal);
            let at = At {
                time,
                line,
                terminal,
            };
            put_unheard_where(text, sink, is_told(missed), at, missed);
        }
    }

    /// Begins a part at a moment, where none is under way.
    fn begin(&mut self, setting: &Setting<'t>, time: u64)
        requires { setting.now.bounds.delay ≤ 9 }
        ensures { self.new ≡ streams.with_part self.old (streams.part_or setting.now.bounds setting.now.table.now time self.old.part) }
    {
        if self.part.is_none() {
            self.part = Some(Part::new(setting, time));
        }
    }

    /// Takes a transmission into the part under way, puts what is found at it, and says whether that is a fault.
    fn judge<K: Sink>(
        &mut self,
        setting: &Setting<'t>,
        text: &mut TextBuffer,
        sink: &mut K,
        at: At,
        message: Message,
    ) -> Result<bool, AllocError>
        requires near { setting.now.bounds.delay ≤ 9 }
        requires room { IsSomeAnd self.old.part (λ part. CanTake setting.now.table.now part (bit_time at.time) at.terminal) }
        requires terminal { (1 ≤ at.terminal) × (at.terminal ≤ most_terminal) }
        ensures adds { IfSome self.old.part (λ part. OnOk result (Adds K.held K.faults sink.old sink.new text.old text.new
            (judged_text setting.now.bounds setting.now.table.now part at message))) }
        ensures front { IfSome self.old.part (λ part. OnErr result (AddsFront K.held K.faults sink.old sink.new text.old text.new
            (judged_text setting.now.bounds setting.now.table.now part at message))) }
        ensures judged { IfSome self.old.part (λ part. OnOk result (self.new ≡ streams.with_part self.old
            (judged setting.now.bounds setting.now.table.now part at.time at.terminal message))) }
        ensures fault { IfSome self.old.part (λ part. IfOk result (λ fault.
            fault ≡ is_faulty (found_of setting.now.bounds setting.now.table.now part at.time at.terminal message))) }
    {
        match &mut self.part {
            Some(part) => part.judge(setting, text, sink, at, message),
            None => Ok(false),
        }
    }

    /// Counts a start of a terminal, and keeps whether a fault was told.
    fn count(&mut self, terminal: u8, faulty: bool)
        requires terminal { terminal ≤ most_terminal }
        requires few { self.old.number < 2 ^ 64 - 1 }
        ensures { self.new ≡ streams.counted self.old terminal faulty }
    {
        self.number += 1;
        self.heard[usize::from(terminal)] = self.number;
        self.faulty |= faulty;
    }

    /// Takes a transmission.
    fn sent<K: Sink>(
        &mut self,
        setting: &Setting<'t>,
        text: &mut TextBuffer,
        sink: &mut K,
        at: At,
        message: Message,
    ) -> Result<(), AllocError>
        requires near { setting.now.bounds.delay ≤ 9 }
        requires state { IsState setting.now.table.now self.old }
        requires behind { is_behind self.old.place (bit_time at.time) at.terminal ≡ true }
        requires terminal { (1 ≤ at.terminal) × (at.terminal ≤ most_terminal) }
        requires low { at.time < 2 ^ 64 }
        requires few { self.old.number < 2 ^ 64 - 1 }
        ensures adds { OnOk result (Adds K.held K.faults sink.old sink.new text.old text.new
            (streams.sent_text setting.now.bounds setting.now.table.now self.old at message)) }
        ensures front { OnErr result (AddsFront K.held K.faults sink.old sink.new text.old text.new
            (streams.sent_text setting.now.bounds setting.now.table.now self.old at message)) }
        ensures sent { OnOk result
            (self.new ≡ streams.sent setting.now.bounds setting.now.table.now self.old at.time at.terminal message) }
    {
        self.end_long(text, sink, setting.table, at.line, bit_of(at.time));
        self.begin(setting, at.time);
        let faulty = self.judge(setting, text, sink, at, message)?;
        self.count(at.terminal, faulty);
        self.put_unheard(text, sink, setting.table, at.line, at.time);
        Ok(())
    }

    /// Takes an item, wherever it stands.
    fn next<K: Sink>(
        &mut self,
        setting: &Setting<'t>,
        text: &mut TextBuffer,
        sink: &mut K,
        line: u64,
        item: Item,
    ) -> Result<(), AllocError>
        requires near { setting.now.bounds.delay ≤ 9 }
        requires state { IsState setting.now.table.now self.old }
        requires item { IsItem item }
        requires here { (place : Place) × (place_after self.old.place item ≡ Some place) }
        requires few { self.old.number < 2 ^ 64 - 1 }
        ensures adds { OnOk result (Adds K.held K.faults sink.old sink.new text.old text.new
            (streams.text_of setting.now.bounds setting.now.table.now self.old line item)) }
        ensures front { OnErr result (AddsFront K.held K.faults sink.old sink.new text.old text.new
            (streams.text_of setting.now.bounds setting.now.table.now self.old line item)) }
        ensures next { OnOk result (self.new ≡ streams.next setting.now.bounds setting.now.table.now self.old item) }
    {
        match item {
            Item::Sent {
                time,
                terminal,
                message,
            } => {
                let at = At {
                    time,
                    line,
                    terminal,
                };
                self.sent(setting, text, sink, at, message)
            }
            Item::Told(time) => {
                self.told(text, sink, setting.table, line, time);
                Ok(())
            }
            Item::Lost { from, .. } => {
                self.end(text, sink, setting.table, line, Some(from));
                Ok(())
            }
        }
    }

    /// Takes the item of a line, behind which all is told up to a place, and puts what it makes certain.
    pub(crate) fn take<K: Sink>(
        &mut self,
        setting: &Setting<'t>,
        text: &mut TextBuffer,
        sink: &mut K,
        line: u64,
        item: Item,
        place: Place,
    ) -> Result<(), AllocError>
        requires near { setting.now.bounds.delay ≤ 9 }
        requires state { IsState setting.now.table.now self.old }
        requires item { IsItem item }
        requires here { place_after self.old.place item ≡ Some place }
        requires few { self.old.number < 2 ^ 64 - 1 }
        ensures adds { OnOk result (Adds K.held K.faults sink.old sink.new text.old text.new
            (streams.text_of setting.now.bounds setting.now.table.now self.old line item)) }
        ensures front { OnErr result (AddsFront K.held K.faults sink.old sink.new text.old text.new
            (streams.text_of setting.now.bounds setting.now.table.now self.old line item)) }
        ensures taken { OnOk result
            (self.new ≡ streams.with_item setting.now.bounds setting.now.table.now self.old item place) }
        ensures state { OnOk result (IsState setting.now.table.now self.new) }
    {
        self.next(setting, text, sink, line, item)?;
        self.place = place;
        Ok(())
    }

    /// Takes an item, the one of a line of a number, where it may come.
    fn take_item<K: Sink>(
        &mut self,
        setting: &Setting<'t>,
        text: &mut TextBuffer,
        sink: &mut K,
        number: u64,
        item: Item,
    ) -> Result<(), LineFault<StreamReason>>
        requires near { setting.now.bounds.delay ≤ 9 }
        requires state { IsState setting.now.table.now self.old }
        requires item { IsItem item }
        requires few { self.old.number < 2 ^ 64 - 1 }
        ensures puts { PutsLine K.held K.faults sink.old sink.new text.old text.new self.new result
            (came_to setting.now.bounds setting.now.table.now self.old number item (place_after self.old.place item)) }
        ensures state { OnOk result (IsState setting.now.table.now self.new) }
    {
        match self.place.after(&item) {
            Some(place) => match self.take(setting, text, sink, number, item, place) {
                Ok(()) => Ok(()),
                Err(AllocError) => Err(LineFault::Memory),
            },
            None => Err(LineFault::Refused(StreamReason::Order)),
        }
    }

    /// Takes a line behind the first, the one of a number, which is given without its line feed: puts what it makes certain.
    ///
    /// A refused line puts nothing. Where memory runs out a front of what the line makes certain is put.
    pub fn take_line<K: Sink>(
        &mut self,
        setting: &Setting<'t>,
        text: &mut TextBuffer,
        sink: &mut K,
        number: u64,
        line: &[u8],
    ) -> Result<(), LineFault<StreamReason>>
        requires near { setting.now.bounds.delay ≤ 9 }
        requires state { IsState setting.now.table.now self.old }
        requires few { self.old.number < 2 ^ 64 - 1 }
        ensures puts { PutsLine K.held K.faults sink.old sink.new text.old text.new self.new result
            (came_of setting.now.bounds setting.now.table.now self.old number line.now) }
        ensures state { OnOk result (IsState setting.now.table.now self.new) }
    {
        match read_item(setting.alloc, line) {
            Ok(item) => self.take_item(setting, text, sink, number, item),
            Err(fault) => Err(fault),
        }
    }
}
