//! The lines of numbers, behind the findings.
ghost use Rattle.bus_outer.specs.Texts.{Adds};
ghost use Rattle.bus_findings.specs.Texts as texts;

use crate::totals::Totals;
use bus_outer::{Sink, TextBuffer};

/// Puts a number, if there is one.
fn put_some<K: Sink>(text: &mut TextBuffer, sink: &mut K, number: Option<u64>)
    ensures { Adds K.held K.faults sink.old sink.new text.old text.new (texts.some_word number) }
{
    match number {
        Some(number) => text.put_number(sink, number),
        None => text.put(sink, b"-"),
    }
}

/// Puts the line of a sender: its number, how often it starts, how many faults it has, and how far its starts lie apart.
pub(crate) fn put_terminal<K: Sink>(
    text: &mut TextBuffer,
    sink: &mut K,
    number: u8,
    starts: u64,
    faults: u64,
    least: Option<u64>,
    most: Option<u64>,
)
    ensures { Adds K.held K.faults sink.old sink.new text.old text.new (texts.numbers_line number starts faults least most) }
{
    text.put(sink, b"TERMINAL ");
    text.put_number(sink, number);
    text.put_byte(sink, b' ');
    text.put_number(sink, starts);
    text.put_byte(sink, b' ');
    text.put_number(sink, faults);
    text.put_byte(sink, b' ');
    put_some(text, sink, least);
    text.put_byte(sink, b' ');
    put_some(text, sink, most);
    text.put_byte(sink, b'\n');
}

/// Puts before which moment, and at how many starts, less was judged.
pub(crate) fn put_unjudged<K: Sink>(text: &mut TextBuffer, sink: &mut K, settled: u64, firsts: u64)
    ensures { Adds K.held K.faults sink.old sink.new text.old text.new (texts.unjudged_line settled firsts) }
{
    text.put(sink, b"UNJUDGED ");
    text.put_number(sink, settled);
    text.put_byte(sink, b' ');
    text.put_number(sink, firsts);
    text.put_byte(sink, b'\n');
}

/// Puts the numbers of faults.
fn put_fault_totals<K: Sink>(text: &mut TextBuffer, sink: &mut K, totals: Totals)
    ensures { Adds K.held K.faults sink.old sink.new text.old text.new (texts.fault_totals totals) }
{
    text.put(sink, b"TOTAL ");
    text.put_number(sink, totals.early);
    text.put_byte(sink, b' ');
    text.put_number(sink, totals.late);
    text.put_byte(sink, b' ');
    text.put_number(sink, totals.passed);
    text.put_byte(sink, b' ');
    text.put_number(sink, totals.strangers);
    text.put_byte(sink, b' ');
    text.put_number(sink, totals.misfits);
}

/// Puts the numbers of findings, and the last line.
pub(crate) fn put_totals<K: Sink>(
    text: &mut TextBuffer,
    sink: &mut K,
    totals: Totals,
    garbled: u64,
    silent: u64,
)
    ensures { Adds K.held K.faults sink.old sink.new text.old text.new (texts.totals_line totals garbled silent) }
{
    put_fault_totals(text, sink, totals);
    text.put_byte(sink, b' ');
    text.put_number(sink, garbled);
    text.put_byte(sink, b' ');
    text.put_number(sink, silent);
    text.put(sink, b"\nEND\n");
}
