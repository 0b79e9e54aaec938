//! The text of the answer.
ghost use Rattle.std.specs.Prelude.{◌≡◌};
ghost use Rattle.bus_outer.specs.Sinks.{WritesText};
ghost use Rattle.bus_outer.specs.Texts.{Adds};
ghost use Rattle.bus_made.specs.declared.answer.Answer.TheVariants.{Late};
ghost use Rattle.bus_made.specs.Texts as texts;
ghost use Rattle.bus_best.specs.declared.blame.Blame.TheVariants.{Gap};

use crate::answer::Answer;
use crate::wish::Lack;
use bus_best::{Blame, Needed, Rule};
use bus_outer::{Sink, TextBuffer, WriteFault};
use bus_table::write_table;

/// The greatest terminal gap, in bit times.
const MOST_TG: u64 = 256;

/// The greatest synchronization gap.
const MOST_SG: u64 = 1024;

/// Puts the line of a rule at a terminal.
fn put_blame_line<K: Sink>(
    text: &mut TextBuffer,
    sink: &mut K,
    rule: &[u8],
    terminal: u8,
    needed: u64,
    limit: u64,
)
    ensures { Adds K.held K.faults sink.old sink.new text.old text.new (texts.blame_line rule.now terminal needed limit) }
{
    text.put(sink, b"INFEASIBLE ");
    text.put(sink, rule);
    text.put_byte(sink, b' ');
    text.put_number(sink, terminal);
    text.put_byte(sink, b' ');
    text.put_number(sink, needed);
    text.put_byte(sink, b' ');
    text.put_number(sink, limit);
    text.put_byte(sink, b'\n');
}

/// Puts the line of the wish that is lacking.
fn put_age<K: Sink>(text: &mut TextBuffer, sink: &mut K, lack: Lack)
    ensures { Adds K.held K.faults sink.old sink.new text.old text.new (texts.answer_text (Late lack)) }
{
    text.put(sink, b"INFEASIBLE age ");
    text.put_number(sink, lack.terminal);
    text.put_byte(sink, b' ');
    text.put_number(sink, lack.least);
    text.put_byte(sink, b' ');
    text.put_number(sink, lack.wished);
    text.put_byte(sink, b'\n');
}

/// Puts the line of a rule of no terminal by itself.
fn put_whole_line<K: Sink>(
    text: &mut TextBuffer,
    sink: &mut K,
    rule: &[u8],
    needed: u64,
    limit: u64,
)
    ensures { Adds K.held K.faults sink.old sink.new text.old text.new (texts.whole_line rule.now needed limit) }
{
    text.put(sink, b"INFEASIBLE ");
    text.put(sink, rule);
    text.put(sink, b" - ");
    text.put_number(sink, needed);
    text.put_byte(sink, b' ');
    text.put_number(sink, limit);
    text.put_byte(sink, b'\n');
}

/// Puts the line of a rule that asks for a terminal gap.
fn put_gap<K: Sink>(text: &mut TextBuffer, sink: &mut K, terminal: u8, needed: Needed)
    ensures { Adds K.held K.faults sink.old sink.new text.old text.new (texts.blame_text terminal (Gap needed)) }
{
    match needed.rule {
        Rule::Joining => put_blame_line(text, sink, b"joining", terminal, needed.bits, MOST_TG),
        Rule::Drop => put_blame_line(text, sink, b"drop", terminal, needed.bits, MOST_TG),
        Rule::Opening => put_blame_line(text, sink, b"opening", terminal, needed.bits, MOST_TG),
    }
}

/// Puts the line of what asks for more where gaps are to be over before another's synchronization gap.
fn put_waiting<K: Sink>(text: &mut TextBuffer, sink: &mut K, terminal: u8, needed: Option<Needed>)
    ensures { Adds K.held K.faults sink.old sink.new text.old text.new (texts.waiting_line terminal needed) }
{
    match needed {
        Some(needed) => put_blame_line(text, sink, b"waiting", terminal, needed.bits, MOST_TG),
        None => put_whole_line(text, sink, b"waiting", MOST_SG + 1, MOST_SG),
    }
}

/// Puts the line of what is to blame.
fn put_blame<K: Sink>(text: &mut TextBuffer, sink: &mut K, terminal: u8, blame: Blame)
    ensures { Adds K.held K.faults sink.old sink.new text.old text.new (texts.blame_text terminal blame) }
{
    match blame {
        Blame::Lasts { needed, have, .. } => {
            put_blame_line(text, sink, b"lasts", terminal, needed, have);
        }
        Blame::Whole { needed } => put_whole_line(text, sink, b"whole", needed, MOST_SG),
        Blame::Gap(needed) => put_gap(text, sink, terminal, needed),
        Blame::Waiting(needed) => put_waiting(text, sink, terminal, needed),
        Blame::Interval => text.put(sink, b"INFEASIBLE interval - - -\n"),
    }
}

/// Writes the line of what is to blame.
fn write_blame<K: Sink>(terminal: u8, blame: Blame, sink: &mut K) -> Result<(), WriteFault>
    ensures { WritesText K.held K.faults sink.old sink.new result (texts.blame_text terminal blame) }
{
    let mut text = TextBuffer::new();
    put_blame(&mut text, sink, terminal, blame);
    text.finish(sink)
}

/// Writes the line of the wish that is lacking.
fn write_late<K: Sink>(lack: Lack, sink: &mut K) -> Result<(), WriteFault>
    ensures { WritesText K.held K.faults sink.old sink.new result (texts.answer_text (Late lack)) }
{
    let mut text = TextBuffer::new();
    put_age(&mut text, sink, lack);
    text.finish(sink)
}

/// Writes what is made of a table: the canonical text of the made one, or the line of what is to blame, or of the wish that is lacking. It
/// takes no memory.
pub fn write_design<K: Sink>(answer: &Answer, sink: &mut K) -> Result<(), WriteFault>
    ensures { WritesText K.held K.faults sink.old sink.new result (texts.answer_text answer.now) }
{
    match answer {
        Answer::Made(made) => write_table(made, sink),
        Answer::Infeasible { terminal, blame } => write_blame(*terminal, *blame, sink),
        Answer::Late(lack) => write_late(*lack, sink),
    }
}
