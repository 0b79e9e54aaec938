//! How old data are at most when they have been received.
ghost use Rattle.std.specs.Prelude.{◌≡◌, ◌<◌, ◌≤◌, ◌^◌, length};
ghost use Rattle.bus_table.specs.Lengths as lengths;
ghost use Rattle.bus_reach.specs.Latency as latencies;
ghost use Rattle.bus_reach.specs.Runs as runs;

use bus_strings::limits::{INNER_GAP, WORD_BITS};
use bus_table::{Mode, SendLine, Sender, Table};

/// By how many bit times delays up to `d` lengthen a cycle of an aperiodic table at most.
fn cycle_delay(table: &Table, d: u64) -> u64
    requires { d ≤ 2 ^ 40 }
    ensures value { result ≡ runs.cycle_delay table.now d }
    ensures bound { result ≤ 2 ^ 48 }
{
    let senders = table.senders().len() as u64;
    if senders == 1 { 0 } else { senders * d }
}

/// The longest wait from one start of a sender to its next, in bit times, with delays up to `d`, where the verdict accepts the table with
/// two starts at most `most` apart.
pub fn longest_wait(table: &Table, most: u64, d: u64) -> u64
    requires most { most ≤ 2 ^ 40 }
    requires d { d ≤ 2 ^ 40 }
    ensures value { result ≡ latencies.longest_wait table.now most d }
    ensures bound { result ≤ 2 ^ 50 }
{
    match table.mode() {
        Mode::Aperiodic => most + cycle_delay(table, d),
        Mode::Periodic => most,
    }
}

/// The words of a message, label words included, with the most data words on each of these lines.
fn words_at_most(sends: &[SendLine]) -> u32
    requires { lengths.words_at_most sends.now < 2 ^ 32 }
    ensures { result ≡ lengths.words_at_most sends.now }
{
    sends.iter().map(|line| 1 + u32::from(line.most)).sum()
}

/// How many bit times behind its start the longest message of a sender ends the wordstring on the line at this place, from 0.
fn string_end(sender: &Sender, place: usize) -> u32
    requires { place < length sender.now.sends }
    ensures value { result ≡ latencies.string_end sender.now.sends place }
    ensures bound { result ≤ 2 ^ 20 }
{
    let sends = sender.sends();
    WORD_BITS * words_at_most(&sends[..place + 1]) + INNER_GAP * place as u32
}

/// The latency of data on the SEND line at this place, from 0, of a sender of a table: from a start that they just miss until the last word
/// of their wordstring has been received by every terminal, in bit times, with delays up to `d`, where the verdict accepts the table with
/// two starts at most `most` apart.
pub fn latency(table: &Table, most: u64, d: u64, sender: &Sender, place: usize) -> u64
    requires place { place < length sender.now.sends }
    requires most { most ≤ 2 ^ 40 }
    requires d { d ≤ 2 ^ 40 }
    ensures { result ≡ latencies.latency table.now most d sender.now place }
{
    longest_wait(table, most, d) + u64::from(string_end(sender, place)) + d
}
