//! The messages of even hands, by sender and round.
ghost use Rattle.std.specs.Prelude.{◌≡◌, ◌<◌, Some, length, slice_get, IsTrue};
ghost use Rattle.bus_table.specs.Tables as tables;
ghost use Rattle.bus_schedule.specs.Even.{are_even, message_in, rounds};

use bus_strings::Message;
use bus_table::{Hand, Table};

/// How many rounds even hands have: the number of messages of each.
pub(crate) fn rounds(hands: &[Hand]) -> usize
    ensures { result ≡ rounds hands.now }
{
    hands.first().map_or(0, |hand| hand.messages.len())
}

/// The message of a round of the sender at a place of the table.
pub(crate) fn message_at<'a>(
    table: &Table,
    hands: &'a [Hand],
    place: usize,
    round: usize,
) -> &'a Message
    requires even { IsTrue (are_even table.now hands.now) }
    requires place { place < length table.now.senders }
    requires round { round < rounds hands.now }
    ensures { (sender : tables.Sender) → slice_get table.now.senders place ≡ Some sender
        → result.now ≡ message_in hands.now sender.number round }
{
    table.senders();
    let hand = &hands[place];
    &hand.messages[round]
}
