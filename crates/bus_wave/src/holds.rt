//! The holds of a trace that is read from a wave.
ghost use Rattle.std.specs.Prelude.{◌≡◌, ◌≤◌, ◌<◌, ℕ, is_some, length, slice_index, IfOk};
ghost use Rattle.bus_table.specs.Fits as fits;
ghost use Rattle.bus_trace.specs.Limits.{most_count};
ghost use Rattle.bus_wave.specs.Counted as counted;
ghost use Rattle.bus_wave.specs.Counted.{entries_of};

use bus_strings::Transmission;
use bus_strings::limits::MOST_TERMINAL;
use bus_table::{Sender, Table, sender_of};
use bus_trace::Hold;
use std::alloc::{AllocError, Global};

/// Whether there is a sender with this number.
fn is_sender(senders: &[Sender], number: u8) -> bool
    ensures { result ≡ is_some (fits.sender_of senders.now number) }
{
    match sender_of(senders, number) {
        Some(_) => true,
        None => false,
    }
}

/// How many entries each terminal has, by its number.
fn counts(list: &[Transmission]) -> [u32; 256]
    requires { length list.now ≤ most_count }
    ensures { (number : ℕ) → number < 256 → slice_index result number ≡ entries_of list.now number }
{
    let mut counts = [0; 256];
    for entry in list {
        counts[entry.terminal as usize] += 1;
    }
    counts
}

/// The hold of the sender with this number, where there is one.
fn hold_at(senders: &[Sender], counts: &[u32; 256], number: u8) -> Option<Hold>
    ensures { result ≡ counted.hold_of senders.now number (slice_index counts.now number) }
{
    if !is_sender(senders, number) {
        return None;
    }
    Some(Hold {
        terminal: number,
        count: counts[number as usize],
    })
}

/// One hold for each sender of a table, by rising number, with the number of its entries.
#[tactic(auto, unfolding(crate::specs::Counted::holds_of))]
pub(crate) fn holds(
    alloc: Global,
    table: &Table,
    list: &[Transmission],
) -> Result<Vec<Hold>, AllocError>
    requires { length list.now ≤ most_count }
    ensures { IfOk result (λ holds. holds.items ≡ counted.holds_of table.now list.now) }
{
    let senders = table.senders();
    let counts = counts(list);
    (1..MOST_TERMINAL + 1)
        .filter_map(|number| hold_at(senders, &counts, number))
        .collect(alloc)
}
