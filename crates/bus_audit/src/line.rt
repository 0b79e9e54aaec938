//! The words of what an audit finds, and its line.
ghost use Rattle.bus_outer.specs.Sinks.{WritesText};
ghost use Rattle.bus_outer.specs.Texts.{Adds};
ghost use Rattle.bus_audit.specs.declared.answer.AuditAnswer.TheVariants.{Lawful, Breach};
ghost use Rattle.bus_audit.specs.Lines.{kind_name, answer_words, answer_line};

use crate::answer::{AuditAnswer, BreachKind};
use bus_outer::{Sink, TextBuffer, WriteFault};

/// Puts the word of a kind of breach.
fn put_kind<K: Sink>(text: &mut TextBuffer, sink: &mut K, kind: BreachKind)
    ensures { Adds K.held K.faults sink.old sink.new text.old text.new (kind_name kind) }
{
    match kind {
        BreachKind::Stranger => text.put(sink, b"Stranger"),
        BreachKind::Unheld => text.put(sink, b"Unheld"),
        BreachKind::Early => text.put(sink, b"Early"),
        BreachKind::Misfit => text.put(sink, b"Misfit"),
        BreachKind::Missing => text.put(sink, b"Missing"),
    }
}

/// Puts that nothing is wrong, and how many transmissions are garbled.
fn put_lawful<K: Sink>(text: &mut TextBuffer, sink: &mut K, collided: u64)
    ensures { Adds K.held K.faults sink.old sink.new text.old text.new (answer_words (Lawful collided)) }
{
    text.put(sink, b"LAWFUL ");
    text.put_number(sink, collided);
}

/// Puts where and what the first breach is.
fn put_breach<K: Sink>(
    text: &mut TextBuffer,
    sink: &mut K,
    moment: u64,
    terminal: u8,
    kind: BreachKind,
)
    ensures { Adds K.held K.faults sink.old sink.new text.old text.new (answer_words (Breach moment terminal kind)) }
{
    text.put(sink, b"BREACH ");
    text.put_number(sink, moment);
    text.put_byte(sink, b' ');
    text.put_number(sink, terminal);
    text.put_byte(sink, b' ');
    put_kind(text, sink, kind);
}

/// Puts the words of what an audit found, with no line feed.
pub fn put_answer<K: Sink>(text: &mut TextBuffer, sink: &mut K, answer: &AuditAnswer)
    ensures { Adds K.held K.faults sink.old sink.new text.old text.new (answer_words answer.now) }
{
    match *answer {
        AuditAnswer::Lawful { collided } => put_lawful(text, sink, collided),
        AuditAnswer::Breach {
            moment,
            terminal,
            kind,
        } => put_breach(text, sink, moment, terminal, kind),
    }
}

/// Writes the line of what an audit found. It takes no memory.
///
/// At `WriteFault`, which comes only where the sink's count of faults rose, the sink has taken a front of the line.
pub fn write_answer<K: Sink>(answer: &AuditAnswer, sink: &mut K) -> Result<(), WriteFault>
    ensures { WritesText K.held K.faults sink.old sink.new result (answer_line answer.now) }
{
    let mut text = TextBuffer::new();
    put_answer(&mut text, sink, answer);
    text.put_byte(sink, b'\n');
    text.finish(sink)
}
