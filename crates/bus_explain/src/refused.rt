//! A table that the verdict refuses: which sum or gap fails, by how many bit times, and what to change.
ghost use Rattle.std.specs.Prelude.{◌≡◌, false};
ghost use Rattle.bus_outer.specs.Sinks.{WritesText};
ghost use Rattle.bus_outer.specs.Texts.{Adds};
ghost use Rattle.bus_regime.specs.Verdicts.{is_accepted};
ghost use Rattle.bus_explain.specs.Refused as refused;

use crate::advised::put_advices;
use crate::wordings::{MADE, NO_SYNC, SHORT_CYCLE, SMALL_GAP};
use bus_advice::Advice;
use bus_outer::{Sink, TextBuffer, WriteFault};
use bus_regime::TableVerdict;
use bus_say::say;
use bus_table::{Table, put_table};
use bus_takes::put_takes;

/// By how much a gap is less than what it should be; a negative one is an overlap.
fn missing(gap: i64, needed: u64) -> u128
    ensures { result ≡ refused.missing gap needed }
{
    if gap < 0 {
        needed as u128 + gap.unsigned_abs() as u128
    } else {
        (needed as u128).saturating_sub(gap.unsigned_abs() as u128)
    }
}

/// Puts why a verdict refuses; nothing of one that accepts.
fn put_refusal<K: Sink>(text: &mut TextBuffer, sink: &mut K, verdict: &TableVerdict)
    ensures { Adds K.held K.faults sink.old sink.new text.old text.new (refused.refusal_text verdict.now) }
{
    match *verdict {
        TableVerdict::Accept { .. } => text.put(sink, b""),
        TableVerdict::ShortCycle { least, ti } => say(
            text,
            sink,
            SHORT_CYCLE,
            &[least as u128, ti.saturating_sub(least) as u128, ti as u128],
        ),
        TableVerdict::SmallGap {
            terminal,
            gap,
            needed,
        } => say(
            text,
            sink,
            SMALL_GAP,
            &[terminal as u128, missing(gap, needed), needed as u128],
        ),
        TableVerdict::NoSync {
            terminal,
            gap,
            needed,
        } => say(
            text,
            sink,
            NO_SYNC,
            &[
                terminal as u128,
                needed.saturating_sub(gap) as u128,
                needed as u128,
            ],
        ),
    }
}

/// Puts a planned table, where there is one.
fn put_planned<K: Sink>(text: &mut TextBuffer, sink: &mut K, planned: &Option<Table>)
    ensures { Adds K.held K.faults sink.old sink.new text.old text.new (refused.planned_text planned.now) }
{
    match planned {
        None => text.put(sink, b""),
        Some(table) => put_made(text, sink, table),
    }
}

/// Puts the table that an advice makes of another.
fn put_made<K: Sink>(text: &mut TextBuffer, sink: &mut K, table: &Table)
    ensures { Adds K.held K.faults sink.old sink.new text.old text.new (refused.made_text table.now) }
{
    say(text, sink, MADE, &[]);
    put_table(text, sink, table);
}

/// Writes what is said of a table that this verdict refuses, of these advices on it, what is odd about its lines, and the planned table that
/// the advice on periodic mode makes of it, where there is one. It takes no memory.
pub fn write_refused<K: Sink>(
    table: &Table,
    verdict: &TableVerdict,
    advices: &[Advice],
    planned: &Option<Table>,
    sink: &mut K,
) -> Result<(), WriteFault>
    requires { is_accepted verdict.now ≡ false }
    ensures { WritesText K.held K.faults sink.old sink.new result (refused.refused_text table.now verdict.now advices.now planned.now) }
{
    let mut text = TextBuffer::new();
    put_refusal(&mut text, sink, verdict);
    put_advices(&mut text, sink, advices);
    put_takes(&mut text, sink, table);
    put_planned(&mut text, sink, planned);
    text.finish(sink)
}
