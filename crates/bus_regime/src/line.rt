//! The words of a verdict, and its line.
ghost use Rattle.bus_outer.specs.Sinks.{WritesText};
ghost use Rattle.bus_outer.specs.Texts.{Adds};
ghost use Rattle.bus_regime.specs.declared.table_verdict.TableVerdict.TheVariants.{Accept, ShortCycle, SmallGap, NoSync};
ghost use Rattle.bus_regime.specs.Lines.{verdict_words, verdict_line};

use crate::table_verdict::TableVerdict;
use bus_outer::{Sink, TextBuffer, WriteFault};
use bus_table::{Mode, put_mode};

/// Puts an acceptance.
fn put_accept<K: Sink>(text: &mut TextBuffer, sink: &mut K, mode: Mode, least: u64, most: u64)
    ensures { Adds K.held K.faults sink.old sink.new text.old text.new (verdict_words (Accept mode least most)) }
{
    text.put(sink, b"ACCEPT ");
    put_mode(text, sink, mode);
    text.put_byte(sink, b' ');
    text.put_number(sink, least);
    text.put_byte(sink, b' ');
    text.put_number(sink, most);
}

/// Puts a refusal for a short cycle.
fn put_short_cycle<K: Sink>(text: &mut TextBuffer, sink: &mut K, least: u64, ti: u64)
    ensures { Adds K.held K.faults sink.old sink.new text.old text.new (verdict_words (ShortCycle least ti)) }
{
    text.put(sink, b"REFUSE short-cycle ");
    text.put_number(sink, least);
    text.put_byte(sink, b' ');
    text.put_number(sink, ti);
}

/// Puts a refusal for a small gap.
fn put_small_gap<K: Sink>(text: &mut TextBuffer, sink: &mut K, terminal: u8, gap: i64, needed: u64)
    ensures { Adds K.held K.faults sink.old sink.new text.old text.new (verdict_words (SmallGap terminal gap needed)) }
{
    text.put(sink, b"REFUSE small-gap ");
    text.put_number(sink, terminal);
    text.put_byte(sink, b' ');
    text.put_signed(sink, gap);
    text.put_byte(sink, b' ');
    text.put_number(sink, needed);
}

/// Puts a refusal for want of a synchronization gap.
fn put_no_sync<K: Sink>(text: &mut TextBuffer, sink: &mut K, terminal: u8, gap: u64, needed: u64)
    ensures { Adds K.held K.faults sink.old sink.new text.old text.new (verdict_words (NoSync terminal gap needed)) }
{
    text.put(sink, b"REFUSE no-sync ");
    text.put_number(sink, terminal);
    text.put_byte(sink, b' ');
    text.put_number(sink, gap);
    text.put_byte(sink, b' ');
    text.put_number(sink, needed);
}

/// Puts the words of a verdict, which are its line without the line feed: what it is called, and its numbers. It takes no memory. After a
/// failed write the text takes no more of them, as with every put of a `TextBuffer`.
pub fn put_verdict<K: Sink>(text: &mut TextBuffer, sink: &mut K, verdict: &TableVerdict)
    ensures { Adds K.held K.faults sink.old sink.new text.old text.new (verdict_words verdict.now) }
{
    match *verdict {
        TableVerdict::Accept { mode, least, most } => put_accept(text, sink, mode, least, most),
        TableVerdict::ShortCycle { least, ti } => put_short_cycle(text, sink, least, ti),
        TableVerdict::SmallGap {
            terminal,
            gap,
            needed,
        } => put_small_gap(text, sink, terminal, gap, needed),
        TableVerdict::NoSync {
            terminal,
            gap,
            needed,
        } => put_no_sync(text, sink, terminal, gap, needed),
    }
}

/// Writes the line of a verdict. It takes no memory. After a `WriteFault`, which comes only where the sink's count of faults rose,
/// the sink has taken a beginning of the line.
pub fn write_verdict<K: Sink>(verdict: &TableVerdict, sink: &mut K) -> Result<(), WriteFault>
    ensures { WritesText K.held K.faults sink.old sink.new result (verdict_line verdict.now) }
{
    let mut text = TextBuffer::new();
    put_verdict(&mut text, sink, verdict);
    text.put_byte(sink, b'\n');
    text.finish(sink)
}
