//! A bus on a cable: the places of its terminals and the wakes of its senders, as a cable text names them.
ghost use Rattle.std.specs.Prelude.{◌≡◌, ◌≤◌, ◌==◌, IsTrue};
ghost use Rattle.std.specs.List.{find};
ghost use Rattle.std.specs.Option.{option_copied};
ghost use Rattle.bus_cable.specs.Cables as cables;
ghost use Rattle.bus_cable.specs.Cables.{may_name, may_name_all, is_cable, most_wake, bits_for, place_on, wakes_on};
ghost use Rattle.bus_propagation.specs.Numbered.{most_place};

use bus_propagation::MOST_PLACE;
use bus_strings::limits::MOST_TERMINAL;
use std::marker::Model;

/// The greatest wake of a sender, in bit times from the settled start.
pub const MOST_WAKE: u64 = 1_099_511_627_775;

/// A number of bit times that is named for a terminal: its place, or its wake.
#[derive(Clone, Copy, Debug, PartialEq, Eq)]
pub struct Named {
    /// The number of the terminal.
    pub terminal: u8,
    /// The bit times.
    pub bits: u64,
}

/// Whether these bit times may be named behind some for the terminal `last`.
pub(crate) fn may_name(most: u64, last: u8, terminal: u64, bits: u64) -> bool
    ensures { result ≡ may_name most last (record { terminal = terminal; bits = bits }) }
{
    terminal > u64::from(last) && terminal <= u64::from(MOST_TERMINAL) && bits <= most
}

/// Whether each of these may be named behind the one before it.
fn may_name_all(most: u64, named: &[Named]) -> bool
    ensures { result ≡ may_name_all most 0 named.now }
{
    let mut last = 0;
    for one in named {
        if !may_name(most, last, u64::from(one.terminal), one.bits) {
            return false;
        }
        last = one.terminal;
    }
    true
}

/// The first of these that is of a terminal.
fn named_for(named: &[Named], terminal: u8) -> Option<&Named>
    ensures { option_copied result ≡ find (λ one. one.terminal == terminal) named.now }
{
    named.iter().find(|one| one.terminal == terminal)
}

/// The bit times that are named for a terminal, 0 where none are.
fn bits_for(named: &[Named], terminal: u8) -> u64
    ensures { result ≡ bits_for named.now terminal }
{
    match named_for(named, terminal) {
        Some(one) => one.bits,
        None => 0,
    }
}

/// The places and the wakes that a cable text names. Zeros that are named are kept. It keeps that every terminal is 1 to 128, that they
/// ascend, and that places are at most [`MOST_PLACE`] and wakes at most [`MOST_WAKE`]: limits of this project's profile.
#[derive(Debug, Drop)]
pub struct Cable {
    places: Vec<Named>,
    wakes: Vec<Named>,
}

impl Model for Cable {
    ghost use Rattle.std.specs.Prelude.{IsTrue};
    ghost use Rattle.bus_cable.specs.Cables as cables;
    ghost use Rattle.bus_cable.specs.Cables.{is_cable};

    ghost Value = { cables.Cable };

    ghost view = { λ c. record { places = c.places.items; wakes = c.wakes.items } };

    ghost invariant = { λ c. IsTrue (is_cable (record { places = c.places.items; wakes = c.wakes.items })) };
}

impl Cable {
    ghost use Rattle.std.specs.Prelude.{◌↔◌, IsSome, IfSome};

    /// None exactly where a terminal isn't 1 to 128 or not above the one before it, or a place or a wake is above its limit.
    pub fn new(places: Vec<Named>, wakes: Vec<Named>) -> Option<Cable>
        ensures some { IsSome result ↔ IsTrue (is_cable (record { places = places.items; wakes = wakes.items })) }
        ensures value { IfSome result (λ c. c ≡ record { places = places.items; wakes = wakes.items }) }
    {
        if may_name_all(MOST_PLACE, &places) && may_name_all(MOST_WAKE, &wakes) {
            Some(Cable { places, wakes })
        } else {
            None
        }
    }

    /// The cable of what the lines of a text name.
    pub(crate) fn of_lines(places: Vec<Named>, wakes: Vec<Named>) -> Cable
        requires { IsTrue (is_cable (record { places = places.items; wakes = wakes.items })) }
        ensures { result ≡ record { places = places.items; wakes = wakes.items } }
    {
        Cable { places, wakes }
    }

    /// The places that are named, by ascending terminal.
    pub fn places(&self) -> &[Named]
        ensures value { result.now ≡ self.now.places }
        ensures ranges { IsTrue (may_name_all most_place 0 result.now) }
    {
        &self.places
    }

    /// The wakes that are named, by ascending terminal.
    pub fn wakes(&self) -> &[Named]
        ensures value { result.now ≡ self.now.wakes }
        ensures ranges { IsTrue (may_name_all most_wake 0 result.now) }
    {
        &self.wakes
    }

    /// The place of a terminal, 0 to [`MOST_PLACE`]: 0 where none is named.
    pub fn place(&self, terminal: u8) -> u64
        ensures value { result ≡ place_on self.now terminal }
        ensures most { result ≤ most_place }
    {
        bits_for(&self.places, terminal)
    }

    /// The wake of a terminal, 0 to [`MOST_WAKE`]: 0 where none is named.
    pub fn wake(&self, terminal: u8) -> u64
        ensures value { result ≡ wakes_on self.now terminal }
        ensures most { result ≤ most_wake }
    {
        bits_for(&self.wakes, terminal)
    }
}
