//! The order of the items of a stream.
ghost use Rattle.std.specs.Prelude.{◌≡◌, ◌&&◌, nat_le, Some, None, if◌then◌else◌};
ghost use Rattle.bus_stream.specs.Places as places;

use crate::item::Item;

/// How many nanoseconds a bit time has.
const BIT: u64 = 500;

/// The bit time of a moment in nanoseconds, rounded down.
pub fn bit_of(time: u64) -> u64
    ensures { result ≡ places.bit_of time }
{
    time / BIT
}

/// Up to where a stream has told all.
#[derive(Clone, Copy, Debug, PartialEq, Eq)]
pub struct Place {
    /// The bit time of the last moment that was told.
    pub bit: u64,
    /// The terminal of the last transmission there, or 0.
    pub terminal: u8,
}

impl Place {
    /// Nothing is told.
    pub const START: Place = Place {
        bit: 0,
        terminal: 0,
    };

    /// With all told up to a bit time.
    fn told_to(self, bit: u64) -> Place
        ensures { result ≡ places.told_to self bit }
    {
        if self.bit == bit {
            self
        } else {
            Place { bit, terminal: 0 }
        }
    }

    /// The place behind a transmission; None where it may not come.
    fn behind(self, bit: u64, terminal: u8) -> Option<Place>
        ensures { result ≡ (if places.is_behind self bit terminal then Some (record { bit = bit; terminal = terminal }) else None) }
    {
        if self.bit < bit || (self.bit == bit && self.terminal < terminal) {
            Some(Place { bit, terminal })
        } else {
            None
        }
    }

    /// The place behind all up to a bit time; None where that was told before.
    fn up_to(self, bit: u64) -> Option<Place>
        ensures { result ≡ (if nat_le self.bit bit then Some (places.told_to self bit) else None) }
    {
        if self.bit <= bit {
            Some(self.told_to(bit))
        } else {
            None
        }
    }

    /// The place behind a stretch of which anything may lack; None where its beginning was told before, or its end is.
    fn past(self, from: u64, to: u64) -> Option<Place>
        ensures { result ≡ (if nat_le self.bit from && nat_le from to then Some (places.told_to self to) else None) }
    {
        if self.bit <= from && from <= to {
            Some(self.told_to(to))
        } else {
            None
        }
    }

    /// The place behind an item; None where the item may not come.
    pub fn after(self, item: &Item) -> Option<Place>
        ensures { result ≡ places.place_after self item.now }
    {
        match item {
            Item::Sent { time, terminal, .. } => self.behind(bit_of(*time), *terminal),
            Item::Told(time) => self.up_to(bit_of(*time)),
            Item::Lost { from, to } => self.past(bit_of(*from), bit_of(*to)),
        }
    }
}
