//! Whether hands are even.
ghost use Rattle.std.specs.Prelude.{◌≡◌, ◌↔◌, ◌<◌, IsNone, IsSomeAnd, IsTrue, length, slice_get};
ghost use Rattle.bus_table.specs.Hands.{are_hands};
ghost use Rattle.bus_table.specs.Turned.{AreTurned};
ghost use Rattle.bus_table.specs.Turns.{turn_order};
ghost use Rattle.bus_schedule.specs.Even.{are_even};
ghost use Rattle.bus_schedule.specs.Uneven.{count_of as number_of_messages, uneven_of};

use bus_table::{Hand, MOST_SENDERS, Table, turn_at, turn_places};

/// Two senders that have different numbers of messages: the first in turn order, and the first behind it whose number of
/// messages is another.
#[derive(Clone, Copy, Debug, PartialEq, Eq)]
pub struct Uneven {
    /// The number of the first sender in turn order.
    pub one: u8,
    /// How many messages it has.
    pub one_count: u64,
    /// The number of the sender that differs from it.
    pub other: u8,
    /// How many messages that one has.
    pub other_count: u64,
}

/// How many messages the terminal with this number has.
fn count_of(hands: &[Hand], number: u8) -> u64
    ensures { result ≡ number_of_messages hands.now number }
{
    for hand in hands {
        if hand.terminal == number {
            return hand.messages.len() as u64;
        }
    }
    0
}

/// The number of the `k`-th sender in turn order, from 0, where the places are known.
fn number_at(table: &Table, places: &[usize; MOST_SENDERS], k: usize) -> u8
    requires place { k < length table.now.senders }
    requires turned { AreTurned table.now places.now }
    ensures { IsSomeAnd (slice_get (turn_order table.now) k) (λ sender. result ≡ sender.number) }
{
    turn_at(table, places, k).number()
}

/// Why hands that were dealt to the senders of a table aren't even; None exactly where they are. It takes no memory.
pub fn find_uneven(table: &Table, hands: &[Hand]) -> Option<Uneven>
    requires dealt { IsTrue (are_hands table.now.senders hands.now) }
    ensures value { result ≡ uneven_of table.now hands.now }
    ensures even { IsNone result ↔ IsTrue (are_even table.now hands.now) }
{
    let senders = table.senders();
    let places = turn_places(table);
    let one = number_at(table, &places, 0);
    let one_count = count_of(hands, one);
    for k in 1..senders.len() {
        let other = number_at(table, &places, k);
        let other_count = count_of(hands, other);
        if other_count != one_count {
            return Some(Uneven {
                one,
                one_count,
                other,
                other_count,
            });
        }
    }
    None
}
