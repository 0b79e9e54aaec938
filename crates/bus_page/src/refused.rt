//! The page of a table that its verdict refuses.
ghost use Rattle.bus_outer.specs.Sinks.{WritesText};
ghost use Rattle.bus_page.specs.Findings.{IsRefusalOf};
ghost use Rattle.bus_page.specs.Pages as definition;

use crate::finding::Refusal;
use crate::foot::write_foot;
use crate::heading::{put_head, put_heading, put_section, put_verdict_line};
use bus_explain::write_refused;
use bus_outer::{Sink, TextBuffer, WriteFault};
use bus_table::Table;

/// Writes what stands before the sentences of a refused table.
fn write_refused_front<K: Sink>(refusal: &Refusal, sink: &mut K) -> Result<(), WriteFault>
    ensures { WritesText K.held K.faults sink.old sink.new result (definition.refused_front refusal.now.verdict) }
{
    let mut text = TextBuffer::new();
    put_head(&mut text, sink, &refusal.verdict);
    put_heading(&mut text, sink, false);
    put_verdict_line(&mut text, sink, &refusal.verdict);
    put_section(&mut text, sink, b"Why, and what to change");
    text.put(sink, b"<pre>");
    text.finish(sink)
}

/// Writes the sentences of a refused table, and the end of its page.
fn write_refused_end<K: Sink>(
    program: &[u8],
    bytes: &[u8],
    table: &Table,
    refusal: &Refusal,
    sink: &mut K,
) -> Result<(), WriteFault>
    requires { IsRefusalOf table.now refusal.now }
    ensures { WritesText K.held K.faults sink.old sink.new result
        (definition.refused_end program.now bytes.now refusal.now.verdict table.now) }
{
    write_refused(
        table,
        &refusal.verdict,
        &refusal.advices,
        &refusal.planned,
        sink,
    )?;
    write_foot(program, bytes, sink)
}

/// Writes the page of a refused table.
pub(crate) fn write_refused_page<K: Sink>(
    program: &[u8],
    bytes: &[u8],
    table: &Table,
    refusal: &Refusal,
    sink: &mut K,
) -> Result<(), WriteFault>
    requires { IsRefusalOf table.now refusal.now }
    ensures { WritesText K.held K.faults sink.old sink.new result
        (definition.refused_page program.now bytes.now refusal.now.verdict table.now) }
{
    write_refused_front(refusal, sink)?;
    write_refused_end(program, bytes, table, refusal, sink)
}
