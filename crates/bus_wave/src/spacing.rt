//! Whether a trace is spaced for a table.
ghost use Rattle.std.specs.Prelude.{◌≡◌, ◌↔◌, IsOk};
ghost use Rattle.bus_wave.specs.Spacing.{IsSpaced, entry_fault, spaced_of};
ghost use Rattle.bus_wave.specs.WaveLaws.{PassesRuns};

use crate::fault::WaveFault;
use crate::laws::runs_are_spaced;
use bus_strings::Transmission;
use bus_table::laws::table_is_valid;
use bus_table::{Sender, Table, message_fits, sender_of};
use bus_trace::Trace;

/// The least quiet between two transmissions of a wave, in bit times: more than within a message.
pub const LEAST_GAP: u64 = 8;

/// What is wrong with entry `k` of a trace, which may start from `from` on.
fn fault_of(
    senders: &[Sender],
    horizon: u64,
    from: u64,
    k: u64,
    entry: &Transmission,
) -> Option<WaveFault>
    ensures { result ≡ entry_fault senders.now horizon from k entry.now }
{
    let Some(sender) = sender_of(senders, entry.terminal) else {
        return Some(WaveFault::Stranger(k));
    };
    if !message_fits(sender, &entry.message) {
        return Some(WaveFault::Misfit(k));
    }
    if entry.moment < from {
        return Some(WaveFault::Close(k));
    }
    if entry.end() > horizon {
        return Some(WaveFault::Cut(k));
    }
    None
}

/// The first entry of a trace with which something is wrong, and what.
fn first_fault(table: &Table, trace: &Trace) -> Result<(), WaveFault>
    ensures { result ≡ spaced_of table.now trace.now }
{
    let (senders, horizon) = (table.senders(), trace.horizon());
    let (mut from, mut k) = (0, 0);
    for entry in trace.list() {
        if let Some(fault) = fault_of(senders, horizon, from, k, entry) {
            return Err(fault);
        }
        from = entry.end() + LEAST_GAP;
        k += 1;
    }
    Ok(())
}

/// Whether a trace is spaced for a table: each entry is of a sender and fits it, each but the first starts at least 8 bit times behind the
/// end of the one before it, and each ends at or before the horizon. Else the first entry with which something is wrong, from 0, and what.
/// The trace of a run of an accepted table is spaced. It takes no memory.
pub fn spaced(table: &Table, trace: &Trace) -> Result<(), WaveFault>
    ensures ok { IsOk result ↔ IsSpaced table.now trace.now }
    ensures exact { result ≡ spaced_of table.now trace.now }
    ensures runs { PassesRuns table.now trace.now result }
{
    table_is_valid(table);
    runs_are_spaced();
    first_fault(table, trace)
}
