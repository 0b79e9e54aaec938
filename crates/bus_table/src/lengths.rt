//! How long a sender's messages are.
ghost use Rattle.std.specs.Prelude.{◌≡◌, ◌<◌, ◌≤◌, ◌^◌, IsTrue};
ghost use Rattle.bus_strings.specs.Messages.{Message, bits, most_bits};
ghost use Rattle.bus_table.specs.Fits.{is_shortest, is_longest};
ghost use Rattle.bus_table.specs.Lengths as lengths;

use crate::line::SendLine;
use crate::sender::Sender;
use bus_strings::limits::{INNER_GAP, WORD_BITS};

/// The words of a message, label words included, with the least data words on each of these lines.
fn words_at_least(sends: &[SendLine]) -> u32
    requires { lengths.words_at_least sends.now < 2 ^ 32 }
    ensures { result ≡ lengths.words_at_least sends.now }
{
    sends.iter().map(|line| 1 + u32::from(line.least)).sum()
}

/// The words of a message, label words included, with the most data words on each of these lines.
fn words_at_most(sends: &[SendLine]) -> u32
    requires { lengths.words_at_most sends.now < 2 ^ 32 }
    ensures { result ≡ lengths.words_at_most sends.now }
{
    sends.iter().map(|line| 1 + u32::from(line.most)).sum()
}

/// The bit times of the sender's message with the least data words on each of its lines: at most 159,460.
#[tactic(auto, using(crate::proofs::LengthLemmas::word_bounds))]
pub fn shortest(sender: &Sender) -> u32
    ensures value { result ≡ lengths.shortest sender.now }
    ensures message { (message : Message) → IsTrue (is_shortest sender.now message) → bits message ≡ result }
    ensures bound { result ≤ most_bits }
{
    let sends = sender.sends();
    WORD_BITS * words_at_least(sends) + INNER_GAP * (sends.len() as u32 - 1)
}

/// The bit times of the sender's message with the most data words on each of its lines: at most 159,460.
#[tactic(auto, using(crate::proofs::LengthLemmas::word_bounds))]
pub fn longest(sender: &Sender) -> u32
    ensures value { result ≡ lengths.longest sender.now }
    ensures message { (message : Message) → IsTrue (is_longest sender.now message) → bits message ≡ result }
    ensures bound { result ≤ most_bits }
{
    let sends = sender.sends();
    WORD_BITS * words_at_most(sends) + INNER_GAP * (sends.len() as u32 - 1)
}
