//! The words of a channel, round by round, from finds.
ghost use Rattle.std.specs.Prelude.{◌≡◌, ℕ, ◌+◌, ◌<◌, ◌≤◌, IsTrue, Some, true, length, slice_get};
ghost use Rattle.std.specs.Option.{option_copied};
ghost use Rattle.bus_vote.specs.inside.Finds as definition;
ghost use Rattle.bus_vote.specs.inside.Finds.{AreFinds, IsSilent, TwoAreSilent, Find as Find_in};
ghost use Rattle.bus_vote.specs.Rounds.{channel_words};

use crate::cursor::words_in;
use crate::finds::Find;
use crate::label::Channel;
use bus_strings::Transmission;
use bus_words::Label;
use std::marker::Model;

/// Whether a find is of a label and a terminal.
fn is_own(find: &Find, label: Label, terminal: u8) -> bool
    ensures { result ≡ definition.is_own label terminal find.now }
{
    find.label == label.value() && find.terminal == terminal
}

/// The place, from one on, of the next find of a label and a terminal whose round isn't below this one; where there is none, a place
/// behind the finds.
fn next_own(finds: &[Find], from: usize, label: Label, terminal: u8, round: usize) -> usize
    ensures skipped { (j : ℕ) (f : Find_in) → from ≤ j → j < result → slice_get finds.now j ≡ Some f
        → definition.is_own label terminal f ≡ true → f.round < round }
    ensures own { (f : Find_in) → slice_get finds.now result ≡ Some f
        → (definition.is_own label terminal f ≡ true) × (round ≤ f.round) }
{
    for at in from..finds.len() {
        let find = &finds[at];
        if is_own(find, label, terminal) && find.round as usize >= round {
            return at;
        }
    }
    from.max(finds.len())
}

/// A reader of the words of a channel, round by round. It is seen as its channel, and the round that it reads next.
#[derive(Drop)]
pub(crate) struct Reader<'a> {
    list: &'a [Transmission],
    finds: &'a [Find],
    label: Label,
    channel: Channel,
    round: usize,
    // The place of the next find of the channel.
    at: usize,
}

impl<'a> Model for Reader<'a> {
    ghost use Rattle.bus_vote.specs.inside.Finds.{Hearing, IsHearing};

    ghost Value = { Hearing };

    ghost view = { λ r. record { list = r.list.now; label = r.label; channel = r.channel; round = r.round } };

    ghost invariant = { λ r. IsHearing r.list.now r.finds.now r.label r.channel r.round r.at };
}

impl<'a> Reader<'a> {
    /// A reader of a channel of a label, of which the finds are these.
    pub fn new(list: &'a [Transmission], finds: &'a [Find], label: Label, channel: Channel) -> Self
        requires { AreFinds list.now finds.now label }
        ensures { result ≡ record { list = list.now; label = label; channel = channel; round = 0 } }
    {
        let at = next_own(finds, 0, label, channel.terminal, 0);
        Reader {
            list,
            finds,
            label,
            channel,
            round: 0,
            at,
        }
    }

    /// Whether it has come to the end of the finds.
    pub fn is_over(&self) -> bool
        ensures { IsTrue result → IsSilent self.now }
    {
        self.at >= self.finds.len()
    }

    /// The words of its channel in the next round.
    pub fn words(&mut self) -> Option<&'a [u16]>
        requires { self.old.round < length self.old.list }
        ensures words { option_copied result ≡ channel_words self.old.list self.old.label self.old.channel self.old.round }
        ensures after { self.new ≡ record {
          list = self.old.list;
          label = self.old.label;
          channel = self.old.channel;
          round = self.old.round + 1;
        } }
    {
        let round = self.round;
        self.round = round + 1;
        let find = self.finds.get(self.at)?;
        if round < find.round as usize {
            return None;
        }
        self.at = next_own(
            self.finds,
            self.at + 1,
            self.label,
            self.channel.terminal,
            self.round,
        );
        let x = &self.list[find.place as usize];
        words_in(&x.message, self.label, self.channel.ext)
    }
}

/// Whether two of three readers have come to the end of their finds.
pub(crate) fn are_silent(a: &Reader, b: &Reader, c: &Reader) -> bool
    ensures { IsTrue result → TwoAreSilent a.now b.now c.now }
{
    let (a, b, c) = (a.is_over(), b.is_over(), c.is_over());
    (a && b) || (a && c) || (b && c)
}
