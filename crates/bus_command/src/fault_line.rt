//! The line of an outcome, on the error output.
ghost use Rattle.std.specs.Prelude.{◌++◌, codes, decimal, [], ◌∷◌};
ghost use Rattle.bus_command.specs.Outcomes.{error_head, error_line, fault_line, fault_words, plain_line, status_of};
ghost use Rattle.bus_command.specs.Statuses.{number_of};
ghost use Rattle.bus_outer.specs.Sinks.{WritesText};
ghost use Rattle.bus_outer.specs.Texts.{Adds};
ghost use Rattle.bus_table.specs.Reasons.{fit_words, whole_words};
ghost use Rattle.bus_text.specs.Reasons.{reason_word};
ghost use Rattle.bus_trace.specs.Reasons.{trace_reason_word};

use crate::outcome::Outcome;
use crate::refusal::Refusal;
use crate::status::Status;
use bus_outer::{Sink, TextBuffer, WriteFault};
use bus_table::{FitError, WholeReason, put_fit_error, put_numbered, put_whole};
use bus_text::Reason;
use bus_trace::TraceReason;

/// Puts the place and the reason of a text's refusal, behind the word of the text.
fn put_place<K: Sink>(text: &mut TextBuffer, sink: &mut K, word: &[u8], line: u64, reason: Reason)
    ensures { Adds K.held K.faults sink.old sink.new text.old text.new (word.now ++ decimal line ++ 32 ∷ [] ++ reason_word reason) }
{
    put_numbered(text, sink, word, line);
    text.put_byte(sink, b' ');
    text.put(sink, reason.word().as_bytes());
}

/// Puts the refusal of a line of a table text.
fn put_table_text<K: Sink>(text: &mut TextBuffer, sink: &mut K, line: u64, reason: Reason)
    ensures { Adds K.held K.faults sink.old sink.new text.old text.new
        (codes "table line " ++ decimal line ++ 32 ∷ [] ++ reason_word reason) }
{
    put_place(text, sink, b"table line ", line, reason)
}

/// Puts the refusal of a line of a messages text.
fn put_messages_text<K: Sink>(text: &mut TextBuffer, sink: &mut K, line: u64, reason: Reason)
    ensures { Adds K.held K.faults sink.old sink.new text.old text.new
        (codes "messages line " ++ decimal line ++ 32 ∷ [] ++ reason_word reason) }
{
    put_place(text, sink, b"messages line ", line, reason)
}

/// Puts the refusal of an item.
fn put_unfit<K: Sink>(text: &mut TextBuffer, sink: &mut K, error: FitError)
    ensures { Adds K.held K.faults sink.old sink.new text.old text.new (codes "messages item " ++ fit_words error) }
{
    text.put(sink, b"messages item ");
    put_fit_error(text, sink, error);
}

/// Puts the word of a reason against a line of a trace.
fn put_trace_reason<K: Sink>(text: &mut TextBuffer, sink: &mut K, reason: TraceReason)
    ensures { Adds K.held K.faults sink.old sink.new text.old text.new (trace_reason_word reason) }
{
    text.put(sink, reason.word().as_bytes());
}

/// Puts the refusal of a line of a trace.
fn put_trace_text<K: Sink>(text: &mut TextBuffer, sink: &mut K, byte: u64, reason: TraceReason)
    ensures { Adds K.held K.faults sink.old sink.new text.old text.new
        (codes "trace byte " ++ decimal byte ++ 32 ∷ [] ++ trace_reason_word reason) }
{
    put_numbered(text, sink, b"trace byte ", byte);
    text.put_byte(sink, b' ');
    put_trace_reason(text, sink, reason);
}

/// Puts why a table is refused as a whole.
fn put_table_whole<K: Sink>(text: &mut TextBuffer, sink: &mut K, reason: WholeReason)
    ensures { Adds K.held K.faults sink.old sink.new text.old text.new (codes "table " ++ whole_words reason) }
{
    text.put(sink, b"table ");
    put_whole(text, sink, reason);
}

/// Puts what a fault line says behind the status.
fn put_words<R: Refusal, K: Sink>(text: &mut TextBuffer, sink: &mut K, outcome: &Outcome<R>)
    ensures { Adds K.held K.faults sink.old sink.new text.old text.new (fault_words outcome.now) }
{
    match *outcome {
        Outcome::Done | Outcome::Answered | Outcome::Own { .. } => text.put(sink, b""),
        Outcome::Usage => text.put(sink, b"usage"),
        Outcome::TableText { line, reason } => put_table_text(text, sink, line, reason),
        Outcome::TableWhole(reason) => put_table_whole(text, sink, reason),
        Outcome::MessagesText { line, reason } => put_messages_text(text, sink, line, reason),
        Outcome::Unfit(error) => put_unfit(text, sink, error),
        Outcome::TraceText { byte, reason } => put_trace_text(text, sink, byte, reason),
        Outcome::ReadFault { source } => put_numbered(text, sink, b"read ", u64::from(source)),
        Outcome::WriteFault => text.put(sink, b"write"),
        Outcome::NoMemory => text.put(sink, b"memory"),
        Outcome::TooLarge { source } => put_numbered(text, sink, b"large ", u64::from(source)),
    }
}

/// Puts the number with which the process ends.
fn put_status<K: Sink>(text: &mut TextBuffer, sink: &mut K, status: Status)
    ensures { Adds K.held K.faults sink.old sink.new text.old text.new (decimal (number_of status)) }
{
    text.put_number(sink, status.number())
}

/// Puts the front of a fault line: the number with which the process ends.
pub fn put_error<K: Sink>(text: &mut TextBuffer, sink: &mut K, status: Status)
    ensures { Adds K.held K.faults sink.old sink.new text.old text.new (error_head status) }
{
    text.put(sink, b"ERROR ");
    put_status(text, sink, status);
    text.put_byte(sink, b' ');
}

/// Puts the front of the line of an outcome.
fn put_head<R: Refusal, K: Sink>(text: &mut TextBuffer, sink: &mut K, outcome: &Outcome<R>)
    ensures { Adds K.held K.faults sink.old sink.new text.old text.new (error_head (status_of R.ends outcome.now)) }
{
    put_error(text, sink, outcome.status())
}

/// Puts the line of an outcome whose answer isn't written.
fn put_error_line<R: Refusal, K: Sink>(text: &mut TextBuffer, sink: &mut K, outcome: &Outcome<R>)
    ensures { Adds K.held K.faults sink.old sink.new text.old text.new
        (error_line (status_of R.ends outcome.now) (fault_words outcome.now)) }
{
    put_head(text, sink, outcome);
    put_words(text, sink, outcome);
    text.put_byte(sink, b'\n');
}

/// Puts the line of an outcome that is no refusal of the program's own; nothing where the answer is written.
fn put_plain_line<R: Refusal, K: Sink>(text: &mut TextBuffer, sink: &mut K, outcome: &Outcome<R>)
    ensures { Adds K.held K.faults sink.old sink.new text.old text.new (plain_line R.ends outcome.now) }
{
    if outcome.is_written() {
        text.put(sink, b"");
    } else {
        put_error_line(text, sink, outcome);
    }
}

/// Writes the line of an outcome that is no refusal of the program's own.
fn plain_text<R: Refusal, K: Sink>(outcome: &Outcome<R>, err: &mut K) -> Result<(), WriteFault>
    ensures { WritesText K.held K.faults err.old err.new result (plain_line R.ends outcome.now) }
{
    let mut text = TextBuffer::new();
    put_plain_line(&mut text, err, outcome);
    text.finish(err)
}

/// Writes the line of an outcome: nothing where the answer is written, its own where the program refuses something of its own, else the
/// ERROR line. It takes no memory. After a `WriteFault`, which comes only where the sink's count of faults rose, the sink has taken a
/// beginning of the line.
pub fn outcome_text<R: Refusal, K: Sink>(
    outcome: &Outcome<R>,
    err: &mut K,
) -> Result<(), WriteFault>
    ensures { WritesText K.held K.faults err.old err.new result (fault_line R.ends R.line outcome.now) }
{
    match outcome.own() {
        None => plain_text(outcome, err),
        Some(why) => why.write_line(err),
    }
}
