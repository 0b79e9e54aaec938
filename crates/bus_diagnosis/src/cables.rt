//! What is said of a cable.
ghost use Rattle.std.specs.Prelude.{◌≡◌};
ghost use Rattle.bus_outer.specs.Texts.{Adds};
ghost use Rattle.bus_diagnosis.specs.Sentences as sentences;

use crate::reach::{Pair, Reach};
use crate::wordings::{
    APART, BORNE, CABLE_FITS, FAR, FAR_OR_LATE, LATE, TOGETHER, WAKE_TOGETHER, WAKES_LATE,
};
use bus_outer::{Sink, TextBuffer};
use bus_say::say;
use bus_table::Mode;

/// Puts how far apart the terminals are.
fn put_pair<K: Sink>(text: &mut TextBuffer, sink: &mut K, pair: Pair)
    ensures { Adds K.held K.faults sink.old sink.new text.old text.new (sentences.pair_line pair) }
{
    if pair.bits == 0 {
        text.put(sink, TOGETHER);
    } else {
        say(
            text,
            sink,
            APART,
            &[
                pair.terminal as u128,
                pair.bits as u128,
                pair.sender as u128,
            ],
        );
    }
}

/// Puts when the senders wake.
fn put_wake<K: Sink>(text: &mut TextBuffer, sink: &mut K, wake: u64)
    ensures { Adds K.held K.faults sink.old sink.new text.old text.new (sentences.wake_line wake) }
{
    if wake == 0 {
        text.put(sink, WAKE_TOGETHER);
    } else {
        say(text, sink, WAKES_LATE, &[wake as u128]);
    }
}

/// What is said of a table of this mode that doesn't bear a cable.
fn tolerance_wording(mode: Mode) -> &'static [u8]
    ensures { result.now ≡ sentences.tolerance_wording mode }
{
    match mode {
        Mode::Aperiodic => FAR_OR_LATE,
        Mode::Periodic => FAR,
    }
}

/// Puts what a table bears.
fn put_limit<K: Sink>(text: &mut TextBuffer, sink: &mut K, mode: Mode, tolerance: Option<u64>)
    ensures { Adds K.held K.faults sink.old sink.new text.old text.new (sentences.limit_line mode tolerance) }
{
    match tolerance {
        None => text.put(sink, LATE),
        Some(tolerance) => say(text, sink, tolerance_wording(mode), &[tolerance as u128]),
    }
}

/// Puts whether a table bears a cable.
fn put_borne<K: Sink>(text: &mut TextBuffer, sink: &mut K, reach: &Reach)
    ensures { Adds K.held K.faults sink.old sink.new text.old text.new (sentences.borne_line reach.now) }
{
    if reach.borne {
        text.put(sink, BORNE);
    } else {
        put_limit(text, sink, reach.mode, reach.tolerance);
    }
}

/// Puts what is said of a cable, and of so many messages for each of so many senders.
pub(crate) fn put_cable<K: Sink>(
    text: &mut TextBuffer,
    sink: &mut K,
    rounds: u64,
    senders: u64,
    reach: &Reach,
)
    ensures { Adds K.held K.faults sink.old sink.new text.old text.new (sentences.cable_text rounds senders reach.now) }
{
    say(text, sink, CABLE_FITS, &[rounds as u128, senders as u128]);
    put_pair(text, sink, reach.pair);
    put_wake(text, sink, reach.wake);
    put_borne(text, sink, reach);
}
