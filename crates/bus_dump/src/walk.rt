//! A walk over a list from bit time to bit time.
ghost use Rattle.std.specs.Prelude.{◌≡◌, ◌==◌, ◌+◌, ◌≤◌, ◌<◌, true, false, filter, length, slice_get, Some};
ghost use Rattle.std.specs.Option.{option_map_or};
ghost use Rattle.bus_strings.specs.Messages.{Entry};
ghost use Rattle.bus_dump.specs.inside.Walks.{BeginsFrom, IsWalkable, Reaches, Stands, ends_after};

use crate::live::Live;
use arrayvec::ArrayVec;
use bus_strings::laws::neighbours_tell;
use bus_strings::limits::TERMINALS;
use bus_strings::{Marks, Transmission};

/// The transmissions of a list that are live at a bit time, in list order, and what is needed to go on from there.
#[derive(Drop)]
pub(crate) struct Walk<'a> {
    /// The list.
    pub list: &'a [Transmission],
    /// How many of them have begun.
    pub begun: usize,
    /// How many of them each terminal has begun.
    pub counts: [u64; TERMINALS],
    /// For those that have not begun, whether they are garbled.
    pub marks: Marks<'a>,
    /// Those that have begun and not ended.
    pub live: ArrayVec<Live, TERMINALS>,
}

/// Drops those that have ended at bit time t.
fn drop_ended(live: &mut ArrayVec<Live, TERMINALS>, t: u64)
    ensures { live.new.items ≡ filter (ends_after t) live.old.items }
{
    live.retain(|one| t < one.end);
}

impl<'a> Walk<'a> {
    /// A walk that has not begun.
    pub fn new(list: &'a [Transmission]) -> Self
        requires { IsWalkable list.now }
        ensures list { result.list.now ≡ list.now }
        ensures walkable { IsWalkable result.list.now }
        ensures reaches { Reaches result.list.now 0 result }
    {
        neighbours_tell();
        Walk {
            list,
            begun: 0,
            counts: [0; TERMINALS],
            marks: Marks::new(list),
            live: ArrayVec::new(),
        }
    }

    /// Begins the next transmission, which starts at bit time t.
    fn begin(&mut self, t: u64)
        requires walkable { IsWalkable self.old.list.now }
        requires reaches { Reaches self.old.list.now t self.old }
        requires within { self.old.begun < length self.old.list.now }
        requires now { (x : Entry) → slice_get self.old.list.now self.old.begun ≡ Some x → x.moment ≡ t }
        ensures list { self.new.list.now ≡ self.old.list.now }
        ensures begun { self.new.begun ≡ self.old.begun + 1 }
        ensures reaches { Reaches self.old.list.now t self.new }
    {
        let x = &self.list[self.begun];
        let terminal = x.terminal as usize;
        let number = self.counts[terminal] + 1;
        let garbled = self.marks.next() == Some(true);
        self.counts[terminal] = number;
        self.live.push(Live {
            at: self.begun,
            terminal: x.terminal,
            moment: t,
            end: x.end(),
            number,
            garbled,
        });
        self.begun += 1;
    }

    /// Whether the next transmission starts at bit time t.
    fn begins(&self, t: u64) -> bool
        requires { self.now.begun ≤ length self.now.list.now }
        ensures value { result ≡ option_map_or (λ x. x.moment == t) (slice_get self.now.list.now self.now.begun) false }
        ensures within { result ≡ true → self.now.begun < length self.now.list.now }
    {
        if self.begun == self.list.len() {
            return false;
        }
        let x = &self.list[self.begun];
        x.moment == t
    }

    /// Begins the transmissions that start at bit time t.
    pub fn begin_all(&mut self, t: u64)
        requires walkable { IsWalkable self.old.list.now }
        requires reaches { Reaches self.old.list.now t self.old }
        ensures list { self.new.list.now ≡ self.old.list.now }
        ensures walkable { IsWalkable self.new.list.now }
        ensures stands { Stands self.new.list.now t self.new }
    {
        while self.begins(t) {
            self.begin(t);
        }
    }

    /// Goes on to a later bit time, up to which no transmission begins.
    pub fn go_on(&mut self, from: u64, t: u64)
        requires walkable { IsWalkable self.old.list.now }
        requires stands { Stands self.old.list.now from self.old }
        requires later { from < t }
        requires next { BeginsFrom self.old.list.now self.old.begun t }
        ensures list { self.new.list.now ≡ self.old.list.now }
        ensures walkable { IsWalkable self.new.list.now }
        ensures stands { Stands self.new.list.now t self.new }
    {
        drop_ended(&mut self.live, t);
        self.begin_all(t);
    }

    /// The moment at which the next transmission begins, or the limit where that comes first.
    pub fn next_begin(&self, t: u64, limit: u64) -> u64
        requires walkable { IsWalkable self.now.list.now }
        requires stands { Stands self.now.list.now t self.now }
        requires later { t < limit }
        ensures later { t < result }
        ensures most { result ≤ limit }
        ensures ahead { BeginsFrom self.now.list.now self.now.begun result }
    {
        if self.begun == self.list.len() {
            return limit;
        }
        let x = &self.list[self.begun];
        x.moment.min(limit)
    }
}
