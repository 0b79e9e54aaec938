//! The turns of an aperiodic table: where each message lies in the shortest and in the longest cycle.
ghost use Rattle.std.specs.Prelude.{◌≡◌, ◌≤◌, ◌+◌, ◌^◌, IfOk};
ghost use Rattle.bus_page.specs.Turns as definition;

use bus_table::{Sender, Table, longest, shortest, turn_at, turn_places};
use std::alloc::{AllocError, Global};

/// A message behind its terminal gap, in bit times from the beginning of a cycle.
#[derive(Clone, Copy, Debug, PartialEq, Eq)]
pub struct Stretch {
    /// Where the terminal gap begins.
    pub gap: u64,
    /// Where the message begins.
    pub from: u64,
    /// Where it has ended.
    pub to: u64,
}

/// The turn of a sender in the shortest cycle and in the longest.
#[derive(Clone, Copy, Debug, PartialEq, Eq)]
pub struct Turn {
    /// The number of the terminal: 1 to 128.
    pub number: u8,
    /// Its shortest message, in the shortest cycle.
    pub short: Stretch,
    /// Its longest message, in the longest cycle.
    pub long: Stretch,
}

/// A message behind a terminal gap that begins at a moment.
fn stretch_of(tg: u32, from: u64, bits: u32) -> Stretch
    requires { from ≤ 2 ^ 40 }
    ensures { result ≡ definition.stretch_of tg from bits }
{
    let begin = from + u64::from(tg);
    Stretch {
        gap: from,
        from: begin,
        to: begin + u64::from(bits),
    }
}

/// The turn of a sender, whose terminal gap begins at these moments of the shortest and of the longest cycle.
fn turn_of(sender: &Sender, short: u64, long: u64) -> Turn
    requires short { short ≤ 2 ^ 40 }
    requires long { long ≤ 2 ^ 40 }
    ensures value { result ≡ definition.turn_of short long sender.now }
    ensures short { result.short.to ≤ short + 200000 }
    ensures long { result.long.to ≤ long + 200000 }
{
    Turn {
        number: sender.number(),
        short: stretch_of(sender.tg(), short, shortest(sender)),
        long: stretch_of(sender.tg(), long, longest(sender)),
    }
}

/// The turns of a table, in turn order. Fails only where memory runs out.
pub(crate) fn turns(alloc: Global, table: &Table) -> Result<Vec<Turn>, AllocError>
    ensures { IfOk result (λ turns. turns.items ≡ definition.turns_of table.now) }
{
    let places = turn_places(table);
    let mut turns = Vec::new(alloc);
    let mut short = u64::from(table.sg());
    let mut long = u64::from(table.sg());
    for k in 0..table.senders().len() {
        let next = turn_of(turn_at(table, &places, k), short, long);
        turns.push(next)?;
        short = next.short.to;
        long = next.long.to;
    }
    Ok(turns)
}
