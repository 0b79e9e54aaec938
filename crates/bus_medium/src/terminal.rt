//! A sending terminal: its timers, its hand and what it is sending.
ghost use Rattle.std.specs.Prelude.{◌≡◌, ◌+◌, ◌<◌, ◌≤◌, ◌∷◌, [], true, false, length, replicate, slice_get};
ghost use Rattle.std.specs.Prelude.{Option, Some, None, MatchOption, nat_lt};
ghost use Rattle.bus_timers.specs.Told.{CountsOne, HasHeard, HasStarted};
ghost use Rattle.bus_timers.specs.Histories.{HasHeardAll};
ghost use Rattle.bus_strings.specs.Messages.{IsMessage};
ghost use Rattle.std.specs.Option.{option_and_then};
ghost use Rattle.bus_medium.specs.Terminals.{last_begun, next_place, sounds, with_begun, with_passed};
ghost use Rattle.bus_timers.specs.Wait.{longest_pass};
ghost use Rattle.bus_medium.specs.MessageStretches.{IsSteady, later_place, with_passed_many, StaysFor, StretchOf, QuietWait, TellsStart};
ghost use Rattle.bus_medium.specs.inside.Standing.{place_in, IsStanding};

use crate::place::Place;
use bus_strings::Message;
use bus_table::Hand;
use bus_timers::{Core, History, JumpCore};
use std::marker::Model;

/// Where the message begun last is a bit time later, if it is still running.
fn next_running(hand: &Hand, sent: usize, running: Option<Place>) -> Option<Place>
    requires { IsStanding hand.now sent running }
    ensures standing { IsStanding hand.now sent result }
    ensures place { place_in hand.now sent result ≡ option_and_then (next_place (last_begun hand.now sent))
        (place_in hand.now sent running) }
{
    let place = running?;
    place.next(&hand.messages[sent - 1])
}

/// Where the message begun last is so many bit times later, if it is still running then.
fn later_running(hand: &Hand, sent: usize, running: Option<Place>, bits: u64) -> Option<Place>
    requires standing { IsStanding hand.now sent running }
    requires some { 1 ≤ bits }
    requires steady { MatchOption (place_in hand.now sent running) (Unit {0}) (λ d. IsSteady (last_begun hand.now sent) d bits) }
    ensures standing { IsStanding hand.now sent result }
    ensures place { place_in hand.now sent result ≡ option_and_then (later_place (last_begun hand.now sent) bits)
        (place_in hand.now sent running) }
{
    let place = running?;
    place.later(&hand.messages[sent - 1], bits)
}

/// Where the message begun last is any number of bit times later, if it is still running then.
fn far_running(hand: &Hand, sent: usize, running: Option<Place>, bits: u64) -> Option<Place>
    requires { IsStanding hand.now sent running }
    ensures standing { IsStanding hand.now sent result }
    ensures place { place_in hand.now sent result ≡ option_and_then (later_place (last_begun hand.now sent) bits)
        (place_in hand.now sent running) }
{
    let place = running?;
    place.far(&hand.messages[sent - 1], bits)
}

/// One terminal: its timers, its messages, how many of them it has begun, and where the running one is.
#[derive(Drop)]
pub struct Terminal<C: Core> {
    core: C,
    hand: Hand,
    sent: usize,
    running: Option<Place>,
}

impl<C: Core> Model for Terminal<C> {
    ghost use Rattle.bus_medium.specs.Terminals as terminals;
    ghost use Rattle.bus_medium.specs.inside.Standing.{place_in, IsStanding};

    ghost Value = { terminals.Terminal C };

    ghost view = { λ t. record { core = t.core; hand = t.hand; sent = t.sent; running = place_in t.hand t.sent t.running } };

    ghost invariant = { λ t. IsStanding t.hand t.sent t.running };
}

impl<C: Core> Terminal<C> {
    /// A terminal with this core and this hand: nothing sent, and nothing running.
    pub fn new(core: C, hand: Hand) -> Self
        ensures { result ≡ record { core = core; hand = hand; sent = 0; running = None } }
    {
        Terminal {
            core,
            hand,
            sent: 0,
            running: None,
        }
    }

    /// Begins the next message, if the core is ready, none runs and one is left: then it is true, and the core is
    /// told that it started. Else nothing changes.
    pub fn decide(&mut self) -> bool
        ensures starts { TellsStart ⟦<C as Core>⟧ self.old result }
        ensures told { result ≡ true → HasStarted (C.stands self.old.core) (C.stands self.new.core) }
        // Also of a core that stands for nothing.
        ensures free { result ≡ true → (self.old.running ≡ None) × (self.old.sent < length self.old.hand.messages) }
        ensures begins { result ≡ true → self.new ≡ with_begun self.old self.new.core }
        ensures idle { result ≡ false → self.new ≡ self.old }
        ensures room { C.room self.new.core ≡ C.room self.old.core }
        ensures moves { C.moves self.new.core ≡ C.moves self.old.core }
    {
        if self.running.is_some() || self.sent == self.hand.messages.len() || !self.core.ready() {
            return false;
        }
        self.running = Some(Place::first(&self.hand.messages[self.sent]));
        self.sent += 1;
        self.core.started();
        true
    }

    /// Whether its running message has a pulse on the present bit time.
    pub fn is_on(&self) -> bool
        ensures { result ≡ sounds self.now }
    {
        match self.running {
            None => false,
            Some(place) => place.on,
        }
    }

    /// The present bit time is over, with carrier or without: the core is passed it once, and a message whose last
    /// bit time this was has ended. A terminal's own pulse is carrier, and no collision ends its message.
    pub fn pass(&mut self, carrier: bool)
        requires own { sounds self.old ≡ true → carrier ≡ true }
        requires room { 1 ≤ C.room self.old.core }
        ensures passed { self.new ≡ with_passed self.old self.new.core }
        ensures told { HasHeard (C.stands self.old.core) (C.stands self.new.core) (carrier ∷ []) }
        ensures room { C.room self.old.core ≤ C.room self.new.core + 1 }
        ensures moves { CountsOne (C.moves self.old.core) (C.moves self.new.core) }
    {
        self.running = next_running(&self.hand, self.sent, self.running);
        self.core.pass(carrier);
    }

    /// For how many bit times from the present one, at least 1, its running message stays as it is, on or quiet. None
    /// where no message runs.
    pub fn stretch(&self) -> Option<u64>
        ensures { StretchOf self.now result }
    {
        match self.running {
            None => None,
            Some(place) => Some(place.left as u64),
        }
    }

    /// How many messages it has begun.
    pub fn sent(&self) -> usize
        ensures value { result ≡ self.now.sent }
        ensures most { result ≤ length self.now.hand.messages }
    {
        self.sent
    }

    /// Whether a message is left that it has not begun.
    pub fn has_left(&self) -> bool
        ensures { result ≡ nat_lt self.now.sent (length self.now.hand.messages) }
    {
        self.sent < self.hand.messages.len()
    }

    /// The terminal's number.
    pub fn number(&self) -> u8
        ensures { result ≡ self.now.hand.terminal }
    {
        self.hand.terminal
    }

    /// Message `k` of its hand, from 0, begun or not.
    pub fn message(&self, k: usize) -> &Message
        requires { k < length self.now.hand.messages }
        ensures value { slice_get self.now.hand.messages k ≡ Some result.now }
        ensures ranges { IsMessage result.now }
    {
        let message = &self.hand.messages[k];
        let _ranges = message.strings();
        message
    }
}

impl<C: JumpCore> Terminal<C> {
    /// How many bit times it waits on a quiet bus until it may begin its next message. None where a message runs, or
    /// none is left.
    pub fn quiet_wait(&self) -> Option<u64>
        ensures { QuietWait ⟦<C as Core>⟧ self.now result }
    {
        if self.running.is_some() || self.sent == self.hand.messages.len() {
            return None;
        }
        Some(self.core.wait())
    }

    /// So many bit times are over, from 1 to 1,099,511,627,776, all with carrier or all without: it stands where as
    /// many calls of `pass` leave it, and its core makes one move. A message that runs stays on or quiet for that long.
    pub fn pass_many(&mut self, carrier: bool, bits: u64)
        requires some { 1 ≤ bits }
        requires few { bits ≤ longest_pass }
        requires room { bits ≤ C.room self.old.core }
        requires steady { StaysFor self.old bits }
        requires own { sounds self.old ≡ true → carrier ≡ true }
        ensures passed { self.new ≡ with_passed_many self.old bits self.new.core }
        ensures told { HasHeard (C.stands self.old.core) (C.stands self.new.core) (replicate bits carrier) }
        ensures room { C.room self.old.core ≤ C.room self.new.core + bits }
        ensures moves { CountsOne (C.moves self.old.core) (C.moves self.new.core) }
    {
        self.running = later_running(&self.hand, self.sent, self.running, bits);
        self.core.pass_many(carrier, bits);
    }

    /// A whole history has passed, of up to 1,099,511,627,776 bit times: it stands where as many calls of `pass` leave
    /// it, whichever bit times the history tells of, and its core makes one move. What runs goes on, or ends.
    pub fn hear(&mut self, history: History)
        requires few { history.bits ≤ longest_pass }
        requires room { history.bits ≤ C.room self.old.core }
        ensures passed { self.new ≡ with_passed_many self.old history.bits self.new.core }
        ensures told { HasHeardAll (C.stands self.old.core) (C.stands self.new.core) history }
        ensures room { C.room self.old.core ≤ C.room self.new.core + history.bits }
        ensures moves { CountsOne (C.moves self.old.core) (C.moves self.new.core) }
    {
        self.running = far_running(&self.hand, self.sent, self.running, history.bits);
        self.core.hear(history);
    }

    /// How often its core was moved since it was settled.
    pub fn moves(&self) -> u64
        ensures { result ≡ C.moves self.now.core }
    {
        self.core.moves()
    }
}
