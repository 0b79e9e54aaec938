//! The witness of a table: items for which a refused table fails.
ghost use Rattle.std.specs.Prelude.{◌≡◌, ◌++◌, length, IfOk, IsOk, OnOk};
ghost use Rattle.bus_strings.specs.Items.{numbers};
ghost use Rattle.bus_strings.specs.Members.{In};
ghost use Rattle.bus_table.specs.Filling as filling;
ghost use Rattle.bus_table.specs.Fits.{items_fit};
ghost use Rattle.bus_table.specs.Hands.{items_of};
ghost use Rattle.bus_table.specs.Tables as tables;
ghost use Rattle.bus_regime.specs.Witness.{filling_round, witness_of};

use bus_strings::{Payload, Payloads};
use bus_table::{Mode, SendLine, Sender, Table};
use std::alloc::{AllocError, Global};

/// How many data words the filling message of a sender has on a line.
fn filling_count(mode: Mode, line: &SendLine) -> u16
    ensures { result ≡ filling.filling_count mode line.now }
{
    match mode {
        Mode::Aperiodic => line.least,
        Mode::Periodic => line.most,
    }
}

/// The data words of a filling message on each of these lines.
fn filling_strings(
    alloc: Global,
    mode: Mode,
    sends: &[SendLine],
) -> Result<Vec<Vec<u16>>, AllocError>
    ensures { IfOk result (λ strings. numbers strings.items ≡ filling.filling_strings mode sends.now) }
{
    let mut strings = Vec::with_capacity(alloc, sends.len())?;
    for line in sends {
        let count = usize::from(filling_count(mode, line));
        strings.push(vec![in alloc; 0; count]?)?;
    }
    Ok(strings)
}

/// The item of the filling message of a sender.
fn filling_item(alloc: Global, mode: Mode, sender: &Sender) -> Result<Payload, AllocError>
    ensures { IfOk result (λ item. item ≡ filling.filling_item mode sender.now) }
{
    Ok(Payload {
        terminal: sender.number(),
        strings: filling_strings(alloc, mode, sender.sends())?,
    })
}

/// Adds a filling message of each sender.
fn add_round(alloc: Global, table: &Table, items: &mut Vec<Payload>) -> Result<(), AllocError>
    ensures { OnOk result (items.new.items ≡ items.old.items ++ filling_round table.now) }
{
    let mode = table.mode();
    let senders = table.senders();
    for sender in senders {
        items.push(filling_item(alloc, mode, sender)?)?;
    }
    Ok(())
}

/// The witness of a table, accepted or refused: two rounds of messages, the senders in the order of the table. Each data word
/// is 0. In aperiodic mode each line has its least number of them, in periodic mode its most.
///
/// Each item fits its sender, and each sender has two. For a refused table the closed schedule of these messages is not
/// what the bus does, or two of its transmissions overlap (`bus_schedule::laws::verdicts_are_exact`). Fails only where memory
/// runs out.
pub fn witness(alloc: Global, table: &Table) -> Result<Payloads, AllocError>
    ensures witness { IfOk result (λ made. made ≡ witness_of table.now) }
    ensures fits { IfOk result (λ made. IsOk (items_fit table.now made)) }
    ensures even { IfOk result (λ made. (sender : tables.Sender) → In sender table.now.senders → length (items_of sender.number made) ≡ 2) }
{
    let senders = table.senders();
    let mut items = Vec::with_capacity(alloc, 2 * senders.len())?;
    add_round(alloc, table, &mut items)?;
    add_round(alloc, table, &mut items)?;
    Ok(Payloads { items })
}
