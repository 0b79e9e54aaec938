//! The last cycle: that of the senders that have the most messages.
ghost use Rattle.std.specs.Prelude.{◌≡◌, ◌+◌, ◌==◌, ◌≤◌, ◌^◌, length, IsTrue, if◌then◌else◌};
ghost use Rattle.bus_table.specs.declared.mode.Mode.TheVariants.{Aperiodic};
ghost use Rattle.bus_table.specs.Hands.{are_hands};
ghost use Rattle.bus_table.specs.Lengths.{shortest};
ghost use Rattle.bus_dropout.specs.DropOut as dropout;

use crate::left::most_messages;
use bus_table::{Hand, Sender, Table, shortest};

/// The terminal gap and the shortest message of a sender that has this many messages, in bit times, or 0 where it has another number.
fn turn_of_count(sender: &Sender, hand: &Hand, count: usize) -> u64
    ensures turn { result ≡ if length hand.now.messages == count then sender.now.tg + shortest sender.now else 0 }
    ensures most { result ≤ 2 ^ 33 }
{
    if hand.messages.len() == count {
        u64::from(sender.tg()) + u64::from(shortest(sender))
    } else {
        0
    }
}

/// The last cycle, in bit times: one synchronization gap, and the terminal gap and the shortest message of each sender that has the
/// most messages. None exactly where no sender has two messages or more. It takes no memory.
pub fn last_cycle(table: &Table, hands: &[Hand]) -> Option<u64>
    requires aperiodic { table.now.mode ≡ Aperiodic }
    requires hands { IsTrue (are_hands table.now.senders hands.now) }
    ensures value { result ≡ dropout.last_cycle table.now hands.now }
{
    let most = most_messages(hands);
    if most < 2 {
        return None;
    }
    let mut least = u64::from(table.sg());
    for (k, sender) in table.senders().iter().enumerate() {
        least += turn_of_count(sender, &hands[k], most);
    }
    Some(least)
}
