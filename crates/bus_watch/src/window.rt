//! A window of a part: a recording that was begun at a bit time.
ghost use Rattle.std.specs.Prelude.{◌≡◌, ◌+◌, ◌-◌, ◌<◌, ◌≤◌, length, slice_get, IfOk, IfSome, OnOk, Some};
ghost use Rattle.bus_strings.specs.Limits.{horizon_limit, most_terminal};
ghost use Rattle.bus_table.specs.Tables.{Sender};
ghost use Rattle.bus_findings.specs.Growing.{AreBy, Precede};
ghost use Rattle.bus_watch.specs.Parts as parts;

use crate::setting::Setting;
use bus_findings::laws::findings_are_exact;
use bus_findings::{Due, Judgement, Live};
use bus_strings::{Message, Transmission};
use std::alloc::AllocError;

/// A recording that was begun at a bit time, and is counted from there.
#[derive(Drop)]
pub struct Window<'t> {
    /// The bit time.
    pub base: u64,
    /// What was recorded from there on.
    pub live: Live<'t>,
}

impl<'t> Window<'t> {
    /// Nothing is recorded yet.
    pub(crate) fn new(setting: &Setting<'t>, base: u64) -> Window<'t>
        requires { setting.now.bounds.delay ≤ 9 }
        ensures { result ≡ parts.opened setting.now.bounds setting.now.table.now base }
    {
        Window {
            base,
            live: Live::new(setting.alloc, setting.table, setting.bounds),
        }
    }

    /// Records one transmission more, and says what is found at it.
    pub(crate) fn take(
        &mut self,
        bit: u64,
        terminal: u8,
        message: Message,
    ) -> Result<Judgement, AllocError>
        requires begun { self.old.base ≤ bit }
        requires near { bit < self.old.base + horizon_limit }
        requires terminal { (1 ≤ terminal) × (terminal ≤ most_terminal) }
        requires behind { Precede self.old.live.list (parts.counted self.old.base bit terminal message) }
        ensures found { IfOk result (λ found. found ≡ parts.found_in self.old bit terminal message) }
        ensures taken { OnOk result (self.new ≡ parts.recorded self.old bit terminal message) }
    {
        self.live.take(Transmission {
            moment: bit - self.base,
            terminal,
            message,
        })
    }

    /// When the sender at a place of the table was due behind its last start, before a bit time up to which all is told, if it was.
    pub(crate) fn due(&self, place: usize, bit: u64) -> Option<Due>
        requires here { place < length self.now.live.table.senders }
        requires begun { self.now.base ≤ bit }
        requires all { AreBy self.now.live.list (bit - self.now.base) }
        ensures value { (s : Sender) → slice_get self.now.live.table.senders place ≡ Some s → result ≡ parts.due_in self.now s bit }
        ensures within { IfSome result (λ due. self.now.base + due.moment ≤ bit) }
    {
        findings_are_exact();
        self.live.due(place, bit - self.base)
    }
}
