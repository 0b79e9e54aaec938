//! What the tests of several crates make and look at.
ghost use Rattle.std.specs.Prelude.{IfOk, IsTrue};
ghost use Rattle.bus_table.specs.Hands.{are_hands};

use bus_hands::{fits, hands};
use bus_strings::{Payloads, Transmission};
use bus_table::{Hand, Table};
use std::alloc::Global;
use std::test::Fail;

/// Two rounds of messages of 60 and 620 bit times.
pub(crate) const TWO_ROUNDS: &[u8] = b"MESSAGES 1
MSG 1 : 0000 0000
MSG 2 : 0000 0000 0000 0000 0000 0000 0000 0000 0000 0000 0000 0000 0000 0000 0000 \
0000 0000 0000 0000 0000 0000 0000 0000 0000 0000 0000 0000 0000 0000 0000
MSG 1 : 0000 0000
MSG 2 : 0000 0000 0000 0000 0000 0000 0000 0000 0000 0000 0000 0000 0000 0000 0000 \
0000 0000 0000 0000 0000 0000 0000 0000 0000 0000 0000 0000 0000 0000 0000
";

/// Whether a list has these starts: moments and terminals.
pub(crate) fn starts_are(list: &[Transmission], expected: &[(u64, u8)]) -> bool {
    list.iter()
        .map(|x| (x.moment, x.terminal))
        .eq(expected.iter().copied())
}

/// The hands that these items give, where they fit.
pub(crate) fn dealt(alloc: Global, table: &Table, items: Payloads) -> Result<Vec<Hand>, Fail>
    ensures { IfOk result (λ hands. IsTrue (are_hands table.now.senders hands.items)) }
{
    if fits(table, &items).is_err() {
        return Err("fitting items".into());
    }
    Ok(hands(alloc, table, items)?)
}
