//! The transmissions of one terminal in a list, one after another.
ghost use Rattle.std.specs.Prelude.{◌≡◌, ◌≤◌, ℕ, IsTrue, [], ◌∷◌, IfSome, IfNone, Some, length, slice_get, take, drop};
ghost use Rattle.std.specs.Option.{option_and_then, option_copied};
ghost use Rattle.bus_vote.specs.Rounds as rounds;
ghost use Rattle.bus_strings.specs.Messages.{Entry};
ghost use Rattle.bus_vote.specs.inside.Walks.{sent_from, IsSent, IsReach, IsPace, TwoAreOver};

use crate::mark::is_garbled;
use bus_strings::{Message, Transmission, Wordstring};
use bus_words::{Ext, Label};
use std::marker::Model;

/// Whether a wordstring has a label and an extension.
fn is_named(string: &Wordstring, label: Label, ext: Ext) -> bool
    ensures { result ≡ rounds.is_named label ext string.now }
{
    string.label() == label && string.ext() == ext
}

/// The data words of the first wordstring of a message with a label and an extension.
pub(crate) fn words_in(message: &Message, label: Label, ext: Ext) -> Option<&[u16]>
    ensures { option_copied result ≡ rounds.words_in label ext message.now }
{
    let strings = message.strings();
    for string in strings {
        if is_named(string, label, ext) {
            return Some(string.words());
        }
    }
    None
}

/// The place of the next transmission of a terminal from a place on; where there is none, a place behind the list.
fn next_place(list: &[Transmission], from: usize, terminal: u8) -> usize
    ensures low { from ≤ result }
    ensures own { (x : Entry) → slice_get list.now result ≡ Some x → x.terminal ≡ terminal }
    ensures left { sent_from terminal list.now from ≡ sent_from terminal list.now result }
{
    for at in from..list.len() {
        let x = &list[at];
        if x.terminal == terminal {
            return at;
        }
    }
    from.max(list.len())
}

/// The greatest end of the transmissions before a place, given that of those before an earlier place.
fn reach_to(list: &[Transmission], from: usize, to: usize, reach: u64) -> u64
    requires { (from ≤ to) × (to ≤ length list.now) × IsReach (take from list.now) reach }
    ensures { IsReach (take to list.now) result }
{
    let mut reach = reach;
    for at in from..to {
        reach = list[at].end().max(reach);
    }
    reach
}

/// A walk over the transmissions of a terminal, which goes over the list once. It is seen as what is left of them, each marked where it
/// is garbled. Where nothing of the list is garbled, it leaps as many places as its transmissions stand apart at least.
#[derive(Drop)]
pub(crate) struct Cursor<'a> {
    list: &'a [Transmission],
    terminal: u8,
    // How many places its transmissions stand apart at least. None where some transmission of the list is garbled.
    gap: Option<usize>,
    at: usize,
    // Without a gap, the greatest end of the transmissions before that place.
    reach: u64,
}

impl<'a> Model for Cursor<'a> {
    ghost use Rattle.std.specs.Prelude.{List, Bool};
    ghost use Rattle.bus_strings.specs.Messages.{Entry};
    ghost use Rattle.bus_vote.specs.inside.Walks.{sent_from, IsWalk};

    ghost Value = { List (Entry × Bool) };

    ghost view = { λ c. sent_from c.terminal c.list.now c.at };

    ghost invariant = { λ c. IsWalk c.list.now c.terminal c.gap c.at c.reach };
}

impl<'a> Cursor<'a> {
    /// A walk over the transmissions of a terminal in a list, with its gap where nothing of the list is garbled.
    pub fn new(list: &'a [Transmission], terminal: u8, gap: Option<usize>) -> Self
        requires sent { IsSent list.now }
        requires pace { (places : ℕ) → gap ≡ Some places → IsPace list.now terminal places }
        ensures { result ≡ rounds.sent_by terminal list.now }
    {
        Cursor {
            list,
            terminal,
            gap,
            at: 0,
            reach: 0,
        }
    }

    /// The next of its transmissions, and whether it is garbled.
    fn next(&mut self) -> Option<(&'a Transmission, bool)>
        ensures some { IfSome result (λ next. self.old ≡ (next.0.now, next.1) ∷ self.new) }
        ensures none { IfNone result ((self.old ≡ []) × (self.new ≡ [])) }
    {
        let place = next_place(self.list, self.at, self.terminal);
        if place >= self.list.len() {
            self.at = place;
            return None;
        }
        let x = &self.list[place];
        if let Some(gap) = self.gap {
            self.at = place.saturating_add(gap).max(place + 1);
            return Some((x, false));
        }
        let reach = reach_to(self.list, self.at, place, self.reach);
        self.at = place + 1;
        self.reach = x.end().max(reach);
        Some((x, is_garbled(self.list, place, reach)))
    }

    /// Whether it has come to the end of the list.
    fn is_over(&self) -> bool
        ensures { IsTrue result → self.now ≡ [] }
    {
        self.at >= self.list.len()
    }

    /// The words that the next of its transmissions gives of a label and an extension.
    pub fn words(&mut self, label: Label, ext: Ext) -> Option<&'a [u16]>
        ensures words { option_copied result ≡ option_and_then (rounds.words_of label ext) (slice_get self.old 0) }
        ensures rest { self.new ≡ drop 1 self.old }
    {
        let (x, garbled) = self.next()?;
        if garbled {
            return None;
        }
        words_in(&x.message, label, ext)
    }
}

/// Whether two of three walks have come to the end of their lists.
pub(crate) fn are_over(a: &Cursor, b: &Cursor, c: &Cursor) -> bool
    ensures { IsTrue result → TwoAreOver a.now b.now c.now }
{
    let (a, b, c) = (a.is_over(), b.is_over(), c.is_over());
    (a && b) || (a && c) || (b && c)
}
