//! Which transmissions of a list garble each other.
ghost use Rattle.std.specs.Prelude.{◌≡◌, ◌<◌, length, take, slice_get, IsTrue, ◌↔◌, ◌||◌};
ghost use Rattle.std.specs.Iterator.{YieldsFirst, item_count};
ghost use Rattle.std.specs.List.{list_any};
ghost use Rattle.bus_strings.specs.Messages.{Entry, IsMessage};
ghost use Rattle.bus_strings.specs.Transmissions.{overlaps, garbled, marks, IsByMoment};

use crate::transmission::Transmission;
use std::marker::Model;

/// Whether the spans of two transmissions meet, from their first to their last bit time, inner quiet included.
pub fn overlaps(a: &Transmission, b: &Transmission) -> bool
    ensures value { result ≡ overlaps a.now b.now }
    ensures ranges { IsMessage a.now.message × IsMessage b.now.message }
{
    let (a_end, b_end) = (a.end(), b.end());
    a.moment < b_end && b.moment < a_end
}

/// Whether a list is ordered by moment, as [`garbled`] and [`Marks`] ask.
pub fn is_by_moment(list: &[Transmission]) -> bool
    ensures { IsTrue result ↔ IsByMoment list.now }
{
    let mut latest = 0;
    for entry in list {
        if entry.moment < latest {
            return false;
        }
        latest = entry.moment;
    }
    true
}

/// Whether some transmission of the list overlaps the entry.
fn overlaps_any(entry: &Transmission, list: &[Transmission]) -> bool
    ensures { result ≡ list_any (overlaps entry.now) list.now }
{
    list.iter().any(|other| overlaps(entry, other))
}

/// Whether the entry behind entry `k` overlaps it: no later one does, unless that one does too.
fn next_overlaps(list: &[Transmission], k: usize) -> bool
    requires order { IsByMoment list.now }
    requires within { k < length list.now }
    ensures { (x : Entry) → slice_get list.now k ≡ Some x → garbled list.now k ≡ (list_any (overlaps x) (take k list.now) || result) }
{
    match list.get(k + 1) {
        None => false,
        Some(next) => overlaps(&list[k], next),
    }
}

/// Whether entry `k` of the list, counted from 0, is garbled: another entry overlaps it. This call looks at each
/// earlier entry; where each entry of a list is wanted, [`Marks`] goes over the list once.
pub fn garbled(list: &[Transmission], k: usize) -> bool
    requires order { IsByMoment list.now }
    requires within { k < length list.now }
    ensures { result ≡ garbled list.now k }
{
    let entry = &list[k];
    next_overlaps(list, k) || overlaps_any(entry, &list[..k])
}

/// For each transmission of a list, in order, whether it is garbled. It goes over the list once, and keeps how
/// far the transmissions before reach.
#[derive(Drop)]
pub struct Marks<'a> {
    list: &'a [Transmission],
    at: usize,
    end: u64,
}

impl<'a> Model for Marks<'a> {
    ghost use Rattle.std.specs.Prelude.{List, Bool, drop};
    ghost use Rattle.bus_strings.specs.Transmissions.{marks};
    ghost use Rattle.bus_strings.specs.Marking.{IsMarking};

    ghost Value = { List Bool };

    ghost view = { λ s. drop s.at (marks s.list.now) };

    ghost invariant = { λ s. IsMarking s.list.now s.at s.end };
}

impl<'a> Marks<'a> {
    /// The list has to be ordered by moment.
    pub fn new(list: &'a [Transmission]) -> Self
        requires { IsByMoment list.now }
        ensures { result ≡ marks list.now }
    {
        Marks {
            list,
            at: 0,
            end: 0,
        }
    }
}

impl<'a> Iterator for Marks<'a> {
    type Item = bool;

    ghost next_gives = { YieldsFirst (λ s. s) };

    ghost remaining = { item_count (λ s. s) };

    fn next(&mut self) -> Option<bool> {
        if self.at == self.list.len() {
            return None;
        }
        let entry = &self.list[self.at];
        let mark = next_overlaps(self.list, self.at) || entry.moment < self.end;
        self.end = self.end.max(entry.end());
        self.at += 1;
        Some(mark)
    }
}
