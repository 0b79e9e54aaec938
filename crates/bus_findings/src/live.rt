//! A recording that grows: what is found at each transmission as soon as it has come.
ghost use Rattle.std.specs.Prelude.{◌≡◌, ◌+◌, ◌<◌, ◌≤◌, ◌^◌, ◌++◌, ◌∷◌, [], length, slice_get, OnOk, OnErr, IfOk, Some};
ghost use Rattle.bus_strings.specs.Messages.{Entry};
ghost use Rattle.bus_strings.specs.Transmissions.{IsAscending};
ghost use Rattle.bus_table.specs.Tables.{Sender};
ghost use Rattle.bus_findings.specs.Growing.{AreBy, Precede, due_until};
ghost use Rattle.bus_findings.specs.Judging.{judgement_of};
ghost use Rattle.bus_findings.specs.Recorded.{settled_of};
ghost use Rattle.bus_findings.specs.inside.Sound.{AreLong};
ghost use Rattle.bus_findings.specs.inside.Standing.{AreWatched, HasBegun, IsHeard};

use crate::heard::Heard;
use crate::judgement::{Due, Judgement};
use crate::judging::judge;
use crate::lacks::shortest_sync;
use crate::lateness::due_behind;
use crate::lengths::settled;
use crate::watch::Watch;
use bus_bounds::Bounds;
use bus_strings::Transmission;
use bus_table::{MOST_SENDERS, Table};
use std::alloc::{AllocError, Global};
use std::marker::Model;

/// What is found at the last transmission of a list, and what is heard then. What is heard and kept before is of those before it.
fn judge_last(
    bounds: Bounds,
    table: &Table,
    settled: u64,
    watches: &mut [Watch],
    heard: Heard,
    list: &[Transmission],
    i: usize,
) -> (Judgement, Heard)
    requires near { bounds.delay ≤ 9 }
    requires sound { AreLong bounds list.now }
    requires settled { settled ≡ settled_of bounds table.now }
    requires low { settled < 2 ^ 40 }
    requires order { IsAscending list.now }
    requires here { i < length list.now }
    requires few { i < 2 ^ 50 }
    requires heard { IsHeard bounds list.now i heard }
    requires begun { (x : Entry) → slice_get list.now i ≡ Some x → HasBegun bounds list.now x.moment heard }
    requires watched { AreWatched bounds table.now list.now i watches.old }
    ensures value { (x : Entry) → slice_get list.now i ≡ Some x → result.0 ≡ judgement_of bounds table.now list.now x }
    ensures heard { IsHeard bounds list.now (i + 1) result.1 }
    ensures begun { (x : Entry) → slice_get list.now i ≡ Some x → HasBegun bounds list.now x.moment result.1 }
    ensures watched { AreWatched bounds table.now list.now (i + 1) watches.new }
{
    let x = &list[i];
    let heard = heard.at_moment(bounds, list, x.moment);
    let found = judge(bounds, table, settled, watches, heard, list, i);
    (found, heard.with(bounds, list, i))
}

/// A recording that grows, of a bus of a table within bounds, which are in bit times. Contracts see these, and what came so far.
#[derive(Drop)]
pub struct Live<'t> {
    table: &'t Table,
    bounds: Bounds,
    settled: u64,
    list: Vec<Transmission>,
    heard: Heard,
    watches: [Watch; MOST_SENDERS],
}

impl<'t> Model for Live<'t> {
    ghost use Rattle.bus_findings.specs.Growing.{Growing};
    ghost use Rattle.bus_findings.specs.inside.Grown.{IsGrown};

    ghost Value = { Growing };

    ghost view = { λ l. record { bounds = l.bounds; table = l.table.now; list = l.list.items } };

    ghost invariant = { λ l. IsGrown l.bounds l.table.now l.settled l.list.items l.heard l.watches };
}

impl<'t> Live<'t> {
    /// Nothing came yet.
    pub fn new(alloc: Global, table: &'t Table, bounds: Bounds) -> Live<'t>
        requires { bounds.delay ≤ 9 }
        ensures { result ≡ record { bounds = bounds; table = table.now; list = [] } }
    {
        let _valid = table.senders();
        let _ranges = bounds.clocks();
        let list = Vec::new(alloc);
        let heard = Heard::nothing(bounds, shortest_sync(bounds, table), &list);
        Live {
            table,
            bounds,
            settled: settled(bounds, table),
            list,
            heard,
            watches: [Watch::NEW; MOST_SENDERS],
        }
    }

    /// One transmission more comes: what is found at it. The error is that the memory for it was refused; then it hasn't come.
    pub fn take(&mut self, x: Transmission) -> Result<Judgement, AllocError>
        requires { Precede self.old.list x }
        ensures found { IfOk result (λ found. found ≡ judgement_of self.old.bounds self.old.table (self.old.list ++ x ∷ []) x) }
        ensures taken { OnOk result (self.new ≡ record self.old { list = self.old.list ++ x ∷ [] }) }
        ensures err { OnErr result (self.new ≡ self.old) }
    {
        let _ranges = (x.end(), x.moment);
        let i = self.list.len();
        self.list.push(x)?;
        let (found, heard) = judge_last(
            self.bounds,
            self.table,
            self.settled,
            &mut self.watches,
            self.heard,
            &self.list,
            i,
        );
        self.heard = heard;
        Ok(found)
    }

    /// When the sender at a place of the table was due for certain behind its last start, before a moment up to which all has come, if it
    /// was.
    pub fn due(&self, place: usize, until: u64) -> Option<Due>
        requires here { place < length self.now.table.senders }
        requires all { AreBy self.now.list until }
        ensures { (s : Sender) → slice_get self.now.table.senders place ≡ Some s
            → result ≡ due_until self.now.bounds self.now.table self.now.list s until }
    {
        let sender = &self.table.senders()[place];
        let last = self.watches[place].last?;
        let to = self.list.len();
        due_behind(
            self.bounds,
            self.table,
            self.settled,
            sender,
            &self.list,
            last,
            to,
            until,
        )
    }
}
