//! The faults of a transmission, in one line.
ghost use Rattle.std.specs.Prelude.{◌≡◌, nat_lt, [], ◌∷◌};
ghost use Rattle.std.specs.Option.{option_map_or};
ghost use Rattle.bus_outer.specs.Texts.{Adds};
ghost use Rattle.bus_findings.specs.Terminals as counts;
ghost use Rattle.bus_findings.specs.Texts as texts;

use crate::judgement::{Judgement, Late, Timer};
use crate::lines::{put_early_words, put_late_words};
use crate::totals::fault_count;
use bus_outer::{Sink, TextBuffer};

/// Whether a fault is found at a transmission.
pub fn is_faulty(judgement: &Judgement) -> bool
    ensures { result ≡ counts.is_faulty judgement.now }
{
    fault_count(judgement) > 0
}

/// Puts these words, where it is so.
fn put_where<K: Sink>(text: &mut TextBuffer, sink: &mut K, so: bool, words: &[u8])
    ensures { Adds K.held K.faults sink.old sink.new text.old text.new (texts.where_so so words.now) }
{
    if so {
        text.put(sink, words);
    } else {
        text.put(sink, b"");
    }
}

/// Puts a blank and that a start is too early by a timer, where it is.
fn put_early<K: Sink>(text: &mut TextBuffer, sink: &mut K, timer: Timer, amount: u64)
    ensures { Adds K.held K.faults sink.old sink.new text.old text.new
        (texts.where_so (nat_lt 0 amount) (32 ∷ texts.early_words timer amount)) }
{
    if amount > 0 {
        text.put_byte(sink, b' ');
        put_early_words(text, sink, timer, amount);
    } else {
        text.put(sink, b"");
    }
}

/// Puts a blank and that a start is too late, where it is.
fn put_late<K: Sink>(text: &mut TextBuffer, sink: &mut K, late: Option<Late>)
    ensures { Adds K.held K.faults sink.old sink.new text.old text.new (option_map_or (λ late. 32 ∷ texts.late_words late) late []) }
{
    match late {
        Some(late) => {
            text.put_byte(sink, b' ');
            put_late_words(text, sink, late);
        }
        None => text.put(sink, b""),
    }
}

/// Puts the faults that are found at a transmission, each behind a blank; nothing where there is none.
pub fn put_fault_words<K: Sink>(text: &mut TextBuffer, sink: &mut K, found: &Judgement)
    ensures { Adds K.held K.faults sink.old sink.new text.old text.new (texts.fault_words found.now) }
{
    put_where(text, sink, found.stranger, b" Stranger");
    put_early(text, sink, Timer::Interval, found.interval);
    put_early(text, sink, Timer::SyncGap, found.sync_gap);
    put_early(text, sink, Timer::TerminalGap, found.terminal_gap);
    put_late(text, sink, found.late);
    put_where(text, sink, found.misfit, b" Misfit");
}

/// Puts the words of a mark at a transmission: its moment and its terminal, and the faults that are found at it.
pub fn put_fault_title<K: Sink>(
    text: &mut TextBuffer,
    sink: &mut K,
    moment: u64,
    terminal: u8,
    found: &Judgement,
)
    ensures { Adds K.held K.faults sink.old sink.new text.old text.new (texts.fault_title moment terminal found.now) }
{
    text.put(sink, b"FAULT ");
    text.put_number(sink, moment);
    text.put_byte(sink, b' ');
    text.put_number(sink, terminal);
    put_fault_words(text, sink, found);
}
