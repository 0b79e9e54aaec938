//! The hands of a number.
ghost use Rattle.std.specs.Prelude.{◌≡◌, ◌≤◌, IfOk};
ghost use Rattle.bus_table.specs.Hands.{message_of, hand_of, hands_of};
ghost use Rattle.bus_vectors.specs.Made as made;
ghost use Rattle.bus_vectors.specs.Made.{most_number, made_item, made_sender, made_table, made_items};

use crate::items::{round_count, words};
use crate::tables::{send_line, sender_count};
use bus_strings::{Message, Wordstring};
use bus_table::Hand;
use std::alloc::{AllocError, Global};

/// The message of sender `i` in a round.
fn message(alloc: Global, number: u32, round: u32, i: u8) -> Result<Message, AllocError>
    requires number { number ≤ most_number }
    requires round { round ≤ 500 }
    ensures { IfOk result (λ message. message ≡ message_of (made_sender i).sends (made_item number round i).strings) }
{
    let line = send_line(i);
    let words = words(number, round, i);
    let string = Wordstring::of(alloc, line.label, line.ext, words.as_slice())?;
    Ok(Message::one(alloc, string))
}

/// The hand of sender `i`: its messages, round by round.
fn hand(alloc: Global, number: u32, i: u8) -> Result<Hand, AllocError>
    requires number { number ≤ most_number }
    requires sender { (1 ≤ i) × (i ≤ made.sender_count number) }
    ensures { IfOk result (λ hand. hand ≡ hand_of (made_items number) (made_sender i)) }
{
    let rounds = round_count(number);
    let mut messages = Vec::with_capacity(alloc, rounds as usize)?;
    for round in 0..rounds {
        messages.push(message(alloc, number, round, i)?)?;
    }
    Ok(Hand {
        terminal: i,
        messages,
    })
}

/// The hands of a number, one for each sender.
pub(crate) fn hands(alloc: Global, number: u32) -> Result<Vec<Hand>, AllocError>
    requires { number ≤ most_number }
    ensures { IfOk result (λ hands. hands.items ≡ hands_of (made_table number) (made_items number)) }
{
    let count = sender_count(number);
    let mut hands = Vec::with_capacity(alloc, usize::from(count))?;
    for i in 1..count + 1 {
        hands.push(hand(alloc, number, i)?)?;
    }
    Ok(hands)
}
