//! A line that is refused: why, and which lines the text has.
ghost use Rattle.std.specs.Prelude.{◌≡◌, ◌++◌};
ghost use Rattle.bus_outer.specs.Texts.{Adds};
ghost use Rattle.bus_diagnosis.specs.Lines as lines;
ghost use Rattle.bus_diagnosis.specs.declared.faults.TheConstants as the;

use crate::faults::{
    CABLE_FIRST, CABLE_FORMS, CABLE_LINE, FIRST, ITEM_FORM, LARGE_CABLE, LARGE_MESSAGES,
    LARGE_TRACE, MESSAGES_FIRST, MESSAGES_FORMS, MESSAGES_LINE, NO_LINE, TRACE_ENDED, TRACE_FIELDS,
    TRACE_FIRST, TRACE_FORMS, TRACE_LINE, TRACE_LONG, TRACE_MARK, TRACE_MISPLACED, TRACE_ORDER,
    TRACE_PARITY, TRACE_SPELLING,
};
use crate::kind::Kind;
use bus_explain::{FIELDS, MISPLACED, RANGE, SPELLING};
use bus_outer::{Sink, TextBuffer};
use bus_text::Reason;
use bus_trace::TraceReason;

/// What is said of a text that is too large.
pub(crate) fn large_wording(kind: Kind) -> &'static [u8]
    ensures { result.now ≡ lines.large_wording kind }
{
    match kind {
        Kind::Messages => LARGE_MESSAGES,
        Kind::Cable => LARGE_CABLE,
        Kind::Trace => LARGE_TRACE,
    }
}

/// Which line is refused.
pub(crate) fn line_wording(kind: Kind) -> &'static [u8]
    ensures { result.now ≡ lines.line_wording kind }
{
    match kind {
        Kind::Messages => MESSAGES_LINE,
        Kind::Cable => CABLE_LINE,
        Kind::Trace => TRACE_LINE,
    }
}

/// What is said of a reason against a line of a messages text or a cable text.
pub(crate) fn reason_text(reason: Reason) -> &'static [u8]
    ensures { result.now ≡ lines.reason_text reason }
{
    match reason {
        Reason::Ended => NO_LINE,
        Reason::Keyword => MISPLACED,
        Reason::Fields => FIELDS,
        Reason::Spelling => SPELLING,
        Reason::Range => RANGE,
    }
}

/// What is said of a reason against a line of a trace text.
pub(crate) fn trace_reason_text(reason: TraceReason) -> &'static [u8]
    ensures { result.now ≡ lines.trace_reason_text reason }
{
    match reason {
        TraceReason::Ended => TRACE_ENDED,
        TraceReason::Long => TRACE_LONG,
        TraceReason::Keyword => TRACE_MISPLACED,
        TraceReason::Fields => TRACE_FIELDS,
        TraceReason::Spelling => TRACE_SPELLING,
        TraceReason::Parity => TRACE_PARITY,
        TraceReason::Range => RANGE,
        TraceReason::Order => TRACE_ORDER,
        TraceReason::Mark => TRACE_MARK,
    }
}

/// The first line of a text.
pub(crate) fn first_form(kind: Kind) -> &'static [u8]
    ensures { result.now ≡ lines.first_form kind }
{
    match kind {
        Kind::Messages => MESSAGES_FIRST,
        Kind::Cable => CABLE_FIRST,
        Kind::Trace => TRACE_FIRST,
    }
}

/// Puts these lines, and the form of an item.
fn put_item_form<K: Sink>(text: &mut TextBuffer, sink: &mut K, forms: &[u8])
    ensures { Adds K.held K.faults sink.old sink.new text.old text.new (forms.now ++ the.ITEM_FORM.now) }
{
    text.put(sink, forms);
    text.put(sink, ITEM_FORM);
}

/// Puts the lines behind the first.
fn put_other_forms<K: Sink>(text: &mut TextBuffer, sink: &mut K, kind: Kind)
    ensures { Adds K.held K.faults sink.old sink.new text.old text.new (lines.other_forms kind) }
{
    match kind {
        Kind::Messages => put_item_form(text, sink, MESSAGES_FORMS),
        Kind::Cable => put_item_form(text, sink, CABLE_FORMS),
        Kind::Trace => text.put(sink, TRACE_FORMS),
    }
}

/// Puts the first line that a text has to have.
fn put_needed<K: Sink>(text: &mut TextBuffer, sink: &mut K, kind: Kind)
    ensures { Adds K.held K.faults sink.old sink.new text.old text.new (lines.needed_text kind) }
{
    text.put(sink, FIRST);
    text.put(sink, first_form(kind));
}

/// Puts the lines that a text of this kind has where one is refused, which may be the first.
pub(crate) fn put_forms<K: Sink>(text: &mut TextBuffer, sink: &mut K, kind: Kind, first: bool)
    ensures { Adds K.held K.faults sink.old sink.new text.old text.new (lines.forms_text kind first) }
{
    if first {
        put_needed(text, sink, kind);
    } else {
        put_other_forms(text, sink, kind);
    }
}
