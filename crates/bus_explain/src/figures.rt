//! The figures of an accepted table that its verdict doesn't tell.
ghost use Rattle.std.specs.Prelude.{◌≡◌, ◌<◌, ◌^◌};
ghost use Rattle.bus_outer.specs.Texts.{Adds};
ghost use Rattle.bus_explain.specs.Accepted.{HasLeast};
ghost use Rattle.bus_explain.specs.Figures as figures;

use crate::wordings::LITTLE_LOAD;
use bus_outer::{Sink, TextBuffer};
use bus_plan::least_interval;
use bus_regime::TurnGap;
use bus_strings::{put_share, tenths};
use bus_table::{Mode, Table, longest};

/// The bits of one message of each sender, each as long as it may be: at most 128 times 159,460.
pub fn longest_bits(table: &Table) -> u64
    ensures value { result ≡ figures.longest_bits table.now }
    ensures bound { result < 2 ^ 32 }
{
    let mut bits = 0;
    for sender in table.senders() {
        bits += u64::from(longest(sender));
    }
    bits
}

/// The load of a table whose longest cycle takes `most` bit times: the bits of all longest messages as a share of it, in tenths of a
/// percent.
pub fn load(table: &Table, most: u64) -> u128
    requires { 0 < most }
    ensures { result ≡ figures.load table.now most }
{
    tenths(u128::from(longest_bits(table)), most)
}

/// Puts a load, given in tenths of a percent; of one that rounds to none, that it is less than a tenth.
pub fn put_load<K: Sink>(text: &mut TextBuffer, sink: &mut K, load: u128)
    ensures { Adds K.held K.faults sink.old sink.new text.old text.new (figures.load_words load) }
{
    if load == 0 {
        text.put(sink, LITTLE_LOAD);
    } else {
        put_share(text, sink, load);
    }
}

/// The spare of an accepted table whose shortest cycle takes `least` bit times: by so many bit times its transmit interval could rise, or
/// in periodic mode fall, were its offsets planned anew.
pub fn spare(table: &Table, least: u64) -> u64
    requires { HasLeast table.now least }
    ensures { result ≡ figures.spare table.now least }
{
    match table.mode() {
        Mode::Aperiodic => least.saturating_sub(u64::from(table.ti())),
        Mode::Periodic => u64::from(table.ti()).saturating_sub(least_interval(table)),
    }
}

/// The bit times of the gap before a sender of a periodic table, from the end of the longest message of the sender before it; 0 of an
/// overlap, which an accepted table hasn't.
pub fn gap_bits(gap: &TurnGap<'_>) -> u64
    ensures { result ≡ figures.gap_bits gap.now }
{
    gap.end().saturating_sub(gap.begin())
}
