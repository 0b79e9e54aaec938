//! What the senders of a run held, as the HOLD lines of its trace.
ghost use Rattle.std.specs.Prelude.{◌≡◌, ◌==◌, ◌≤◌, find, length, IfSome, IfOk};
ghost use Rattle.std.specs.List.{AllByRecursion};
ghost use Rattle.std.specs.Option.{option_copied};
ghost use Rattle.bus_command.specs.Readers.{text_limit};
ghost use Rattle.bus_hands.specs.Holds.{hand_hold, hand_holds, hold_of_hand};

use bus_strings::limits::MOST_TERMINAL;
use bus_table::Hand;
use bus_trace::Hold;
use std::alloc::{AllocError, Global};

/// The hand of the terminal with this number.
fn hand_at(hands: &[Hand], number: u8) -> Option<&Hand>
    requires { AllByRecursion (λ hand. length hand.messages ≤ text_limit) hands.now }
    ensures hand { option_copied result ≡ find (λ hand. hand.terminal == number) hands.now }
    ensures few { IfSome result (λ hand. length hand.now.messages ≤ text_limit) }
{
    hands.iter().find(|hand| hand.terminal == number)
}

/// How many messages a hand has, and whose it is.
fn hold_of(hand: &Hand) -> Hold
    requires { length hand.now.messages ≤ text_limit }
    ensures { result ≡ hold_of_hand hand.now }
{
    Hold {
        terminal: hand.terminal,
        count: hand.messages.len() as u32,
    }
}

/// How many messages the terminal with this number holds, where it has a hand.
fn hold_at(hands: &[Hand], number: u8) -> Option<Hold>
    requires { AllByRecursion (λ hand. length hand.messages ≤ text_limit) hands.now }
    ensures { result ≡ hand_hold hands.now number }
{
    let hand = hand_at(hands, number)?;
    Some(hold_of(hand))
}

/// How many messages each terminal holds, by rising number.
#[tactic(auto, unfolding(bus_hands::specs::Holds::hand_holds))]
pub fn holds(alloc: Global, hands: &[Hand]) -> Result<Vec<Hold>, AllocError>
    requires { AllByRecursion (λ hand. length hand.messages ≤ text_limit) hands.now }
    ensures { IfOk result (λ holds. holds.items ≡ hand_holds hands.now) }
{
    (1..MOST_TERMINAL + 1)
        .filter_map(|number| hold_at(hands, number))
        .collect(alloc)
}
