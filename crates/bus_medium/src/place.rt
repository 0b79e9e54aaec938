//! Where a running message is.
ghost use Rattle.std.specs.Prelude.{◌≡◌, ◌+◌, ◌<◌, ◌≤◌, MatchOption};
ghost use Rattle.bus_strings.specs.Messages.{bits as length_of, IsMessage};

use bus_strings::Message;
use bus_strings::limits::{INNER_GAP, WORD_BITS};
use std::cmp::min;

/// Where a running message is: at a pulse, or in the quiet behind it, and how many bit times of that are left.
#[derive(Clone, Copy)]
pub struct Place {
    /// The pulse, or the one before the quiet.
    pub pulse: usize,
    /// Whether it is in the pulse.
    pub on: bool,
    /// The bit times of the pulse or the quiet still to come, the present one included.
    pub left: u32,
}

impl Place {
    ghost use Rattle.bus_medium.specs.inside.Places.{place_of, IsPlace};

    /// The first bit time of a message.
    pub fn first(message: &Message) -> Place
        ensures place { IsPlace message.now result }
        ensures first { place_of message.now result ≡ 0 }
        ensures ranges { IsMessage message.now }
    {
        Place {
            pulse: 0,
            on: true,
            left: WORD_BITS * message.strings()[0].word_count(),
        }
    }

    /// The next bit time of the message, unless this was its last.
    pub fn next(self, message: &Message) -> Option<Place>
        requires { IsPlace message.now self }
        ensures { MatchOption result (place_of message.now self + 1 ≡ length_of message.now)
            (λ next. IsPlace message.now next × (place_of message.now next ≡ place_of message.now self + 1)) }
    {
        if self.left > 1 {
            return Some(Place {
                left: self.left - 1,
                ..self
            });
        }
        let strings = message.strings();
        if !self.on {
            return Some(Place {
                pulse: self.pulse + 1,
                on: true,
                left: WORD_BITS * strings[self.pulse + 1].word_count(),
            });
        }
        if self.pulse + 1 == strings.len() {
            return None;
        }
        Some(Place {
            on: false,
            left: INNER_GAP,
            ..self
        })
    }

    /// So many bit times later in the message, unless it has ended then: at most those left of the pulse or the quiet.
    pub fn later(self, message: &Message, bits: u64) -> Option<Place>
        requires place { IsPlace message.now self }
        requires some { 1 ≤ bits }
        requires steady { bits ≤ self.left }
        ensures { MatchOption result (place_of message.now self + bits ≡ length_of message.now)
            (λ next. IsPlace message.now next × (place_of message.now next ≡ place_of message.now self + bits)) }
    {
        let last = Place {
            left: self.left - (bits as u32 - 1),
            ..self
        };
        last.next(message)
    }

    /// So many bit times later in the message, unless it has ended then: whatever pulses lie in between.
    pub fn far(self, message: &Message, bits: u64) -> Option<Place>
        requires { IsPlace message.now self }
        ensures { MatchOption result (length_of message.now ≤ place_of message.now self + bits)
            (λ next. IsPlace message.now next × (place_of message.now next ≡ place_of message.now self + bits)) }
    {
        let mut place = self;
        let mut rest = bits;
        while rest > 0 {
            let steady = min(rest, place.left as u64);
            place = place.later(message, steady)?;
            rest -= steady;
        }
        Some(place)
    }
}
