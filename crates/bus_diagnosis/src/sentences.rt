//! What is said of a diagnosis, a sentence a line.
ghost use Rattle.std.specs.Prelude.{◌≡◌};
ghost use Rattle.bus_outer.specs.Sinks.{WritesText};
ghost use Rattle.bus_outer.specs.Texts.{Adds};
ghost use Rattle.bus_diagnosis.specs.Sentences as sentences;

use crate::cables::put_cable;
use crate::diagnosis::Diagnosis;
use crate::faults::{NO_KIND, TRACE_BYTE};
use crate::kind::Kind;
use crate::lines::{
    first_form, large_wording, line_wording, put_forms, reason_text, trace_reason_text,
};
use crate::unfits::{put_uneven, put_unfit};
use crate::wordings::{RECORDED, RUNS, SILENT, TOO_LONG};
use bus_command::TEXT_LIMIT;
use bus_outer::{Sink, TextBuffer, WriteFault};
use bus_say::say;
use bus_schedule::LONGEST_END;
use bus_text::Reason;
use bus_trace::TraceReason;

/// Puts that the first line begins no text that stands beside a table.
fn put_no_kind<K: Sink>(text: &mut TextBuffer, sink: &mut K, line: u64)
    ensures { Adds K.held K.faults sink.old sink.new text.old text.new (sentences.no_kind_text line) }
{
    say(text, sink, NO_KIND, &[line as u128]);
    text.put(sink, first_form(Kind::Messages));
    text.put(sink, first_form(Kind::Cable));
    text.put(sink, first_form(Kind::Trace));
}

/// Puts that a line of a messages text or of a cable text is refused, why, and which lines there are.
fn put_refused<K: Sink>(
    text: &mut TextBuffer,
    sink: &mut K,
    kind: Kind,
    first: bool,
    line: u64,
    reason: Reason,
)
    ensures { Adds K.held K.faults sink.old sink.new text.old text.new (sentences.refused_text kind first line reason) }
{
    say(text, sink, line_wording(kind), &[line as u128]);
    text.put(sink, reason_text(reason));
    put_forms(text, sink, kind, first);
}

/// Puts that a line of a trace is refused, why, and which lines there are.
fn put_refused_byte<K: Sink>(
    text: &mut TextBuffer,
    sink: &mut K,
    byte: u64,
    line: u64,
    reason: TraceReason,
)
    ensures { Adds K.held K.faults sink.old sink.new text.old text.new (sentences.refused_byte_text byte line reason) }
{
    say(text, sink, TRACE_BYTE, &[line as u128, byte as u128]);
    text.put(sink, trace_reason_text(reason));
    put_forms(text, sink, Kind::Trace, byte == 0);
}

/// What is said of a whole trace of so many transmissions.
fn recorded_wording(count: u64) -> &'static [u8]
    ensures { result.now ≡ sentences.recorded_wording count }
{
    if count == 0 { SILENT } else { RECORDED }
}

/// Puts all that is said of a diagnosis.
fn put_diagnosis<K: Sink>(text: &mut TextBuffer, sink: &mut K, diagnosis: &Diagnosis)
    ensures { Adds K.held K.faults sink.old sink.new text.old text.new (sentences.diagnosis_text diagnosis.now) }
{
    match *diagnosis {
        Diagnosis::NoKind { line } => put_no_kind(text, sink, line),
        Diagnosis::Large { kind } => say(text, sink, large_wording(kind), &[TEXT_LIMIT as u128]),
        Diagnosis::Line {
            kind,
            first,
            line,
            reason,
        } => put_refused(text, sink, kind, first, line, reason),
        Diagnosis::Byte { byte, line, reason } => put_refused_byte(text, sink, byte, line, reason),
        Diagnosis::Unfit(unfit) => put_unfit(text, sink, unfit),
        Diagnosis::Uneven(counts) => put_uneven(text, sink, counts),
        Diagnosis::TooLong { end } => say(text, sink, TOO_LONG, &[end, LONGEST_END as u128]),
        Diagnosis::Runs {
            rounds,
            senders,
            end,
        } => say(text, sink, RUNS, &[rounds as u128, senders as u128, end]),
        Diagnosis::OnCable {
            rounds,
            senders,
            reach,
        } => put_cable(text, sink, rounds, senders, &reach),
        Diagnosis::Recorded {
            count,
            horizon,
            end,
        } => say(
            text,
            sink,
            recorded_wording(count),
            &[count as u128, horizon as u128, end as u128],
        ),
    }
}

/// Writes what is said of a diagnosis. It takes no memory.
pub fn write_diagnosis<K: Sink>(diagnosis: &Diagnosis, sink: &mut K) -> Result<(), WriteFault>
    ensures { WritesText K.held K.faults sink.old sink.new result (sentences.diagnosis_text diagnosis.now) }
{
    let mut text = TextBuffer::new();
    put_diagnosis(&mut text, sink, diagnosis);
    text.finish(sink)
}
