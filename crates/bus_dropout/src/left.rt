//! What is left in the hands.
ghost use Rattle.std.specs.Prelude.{◌≡◌};
ghost use Rattle.bus_dropout.specs.DropOut as dropout;

use bus_table::Hand;

/// The greatest number of messages in a hand: so many rounds there are.
pub(crate) fn most_messages(hands: &[Hand]) -> usize
    ensures { result ≡ dropout.most_messages hands.now }
{
    let mut most = 0;
    for hand in hands {
        most = most.max(hand.messages.len());
    }
    most
}
