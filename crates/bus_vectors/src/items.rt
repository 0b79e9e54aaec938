//! The messages of a number.
ghost use Rattle.std.specs.Prelude.{◌≡◌, ◌≤◌, ◌++◌, map, take, IfOk, OnOk};
ghost use Rattle.std.specs.List.{range_with_len};
ghost use Rattle.bus_vectors.specs.Made as made;
ghost use Rattle.bus_vectors.specs.declared.items.TheConstants.{LONGEST};
ghost use Rattle.bus_vectors.specs.Made.{most_number, made_word, made_words, made_item, made_round, made_items};

use crate::tables::sender_count;
use bus_strings::{Payload, Payloads};
use std::alloc::{AllocError, Global};

/// How many data words a message has at most.
const LONGEST: usize = 40;

/// How many messages each sender has in the input of a number: 10 to 500.
pub fn round_count(number: u32) -> u32
    ensures count { result ≡ made.round_count number }
    ensures most { result ≤ 500 }
{
    10 + 10 * (number % 50)
}

/// As many data words as a message of sender `i` has at most in a round: those that it has, and more behind them.
fn longest(number: u32, round: u32, i: u8) -> [u16; LONGEST]
    requires number { number ≤ most_number }
    requires round { round ≤ 500 }
    ensures { result ≡ map (made_word number round i) (range_with_len 0 40) }
{
    let i = u32::from(i);
    let mut words = [0; LONGEST];
    for place in 0..LONGEST as u32 {
        words[place as usize] = ((number + 7 * round + 13 * i + place) % 65536) as u16;
    }
    words
}

/// The data words of a message: the first `count` of these.
#[derive(Clone, Copy, Debug)]
pub(crate) struct DataWords {
    longest: [u16; LONGEST],
    count: usize,
    ghost within: { count ≤ LONGEST },
}

impl DataWords {
    /// These words.
    pub(crate) fn as_slice(&self) -> &[u16]
        ensures { result.now ≡ take self.now.count self.now.longest }
    {
        &self.longest[..self.count]
    }
}

/// The data words of sender `i` in a round. They take no memory.
pub(crate) fn words(number: u32, round: u32, i: u8) -> DataWords
    requires number { number ≤ most_number }
    requires round { round ≤ 500 }
    ensures { take result.count result.longest ≡ made_words number round i }
{
    let count = 30 + (number + round + u32::from(i)) % 11;
    DataWords {
        longest: longest(number, round, i),
        count: count as usize,
    }
}

/// The item of sender `i` in a round.
fn item(alloc: Global, number: u32, round: u32, i: u8) -> Result<Payload, AllocError>
    requires number { number ≤ most_number }
    requires round { round ≤ 500 }
    ensures { IfOk result (λ item. item ≡ made_item number round i) }
{
    let mut strings = Vec::with_capacity(alloc, 1)?;
    let words = words(number, round, i);
    strings.push(Vec::from_slice(alloc, words.as_slice())?)?;
    Ok(Payload {
        terminal: i,
        strings,
    })
}

/// Adds the items of a round.
fn add_round(
    alloc: Global,
    items: &mut Vec<Payload>,
    number: u32,
    round: u32,
) -> Result<(), AllocError>
    requires number { number ≤ most_number }
    requires round { round ≤ 500 }
    ensures { OnOk result (items.new.items ≡ items.old.items ++ made_round number round) }
{
    for i in 1..sender_count(number) + 1 {
        items.push(item(alloc, number, round, i)?)?;
    }
    Ok(())
}

/// The items of a number, round by round.
pub fn items(alloc: Global, number: u32) -> Result<Payloads, AllocError>
    requires { number ≤ most_number }
    ensures { IfOk result (λ items. items ≡ made_items number) }
{
    let mut items = Vec::new(alloc);
    for round in 0..round_count(number) {
        add_round(alloc, &mut items, number, round)?;
    }
    Ok(Payloads { items })
}
