//! Where the senders of a table stand, by their numbers: found once for many items.
ghost use Rattle.std.specs.Prelude.{◌≡◌, ◌==◌, position};
ghost use Rattle.bus_hands.specs.inside.Placed.{ArePlaces};

use bus_table::{Sender, place_of};

/// As many as a `u8` has values.
const NUMBERS: usize = 256;

/// For each number where the sender with it stands in the list, from 0; None where there is none.
#[derive(Clone, Copy)]
pub(crate) struct Places {
    by_number: [Option<usize>; NUMBERS],
}

impl Places {
    /// The places of these senders.
    pub(crate) fn new(senders: &[Sender]) -> Places
        ensures { ArePlaces senders.now result.by_number }
    {
        let mut by_number = [None; NUMBERS];
        for number in 0..NUMBERS {
            by_number[number] = place_of(senders, number as u8);
        }
        Places { by_number }
    }

    /// Where the sender with this number stands in the list whose places these are, from 0; None where there is none.
    pub(crate) fn of(&self, _senders: &[Sender], number: u8) -> Option<usize>
        requires { ArePlaces _senders.now self.now.by_number }
        ensures { result ≡ position (λ sender. sender.number == number) _senders.now }
    {
        self.by_number[number as usize]
    }
}
