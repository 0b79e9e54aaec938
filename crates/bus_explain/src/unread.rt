//! A text that is refused: the line, why, and what may stand there.
ghost use Rattle.std.specs.List.{flat_map};
ghost use Rattle.std.specs.Prelude.{◌≡◌};
ghost use Rattle.bus_outer.specs.Sinks.{WritesText};
ghost use Rattle.bus_outer.specs.Texts.{Adds};
ghost use Rattle.bus_table.specs.Forms.{all_keywords};
ghost use Rattle.bus_table.specs.Stops.{fitting};
ghost use Rattle.bus_explain.specs.Unread as unread;

use crate::faults::{
    ALL_SENT, ALL_TAKEN, END, ENDED, FIELDS, HAS_TO_BE, LINE, MAY_STAND, MISPLACED, RANGE, SPELLING,
};
use crate::forms::put_form;
use bus_outer::{Sink, TextBuffer, WriteFault};
use bus_say::say;
use bus_strings::limits::MOST_STRINGS;
use bus_table::ranges::MOST_TAKES;
use bus_table::{Keyword, Stop};
use bus_text::Reason;

/// What is said of a line that can't stand there, by of which there are as many as there may be.
fn barred_wording(spent: Option<Keyword>) -> &'static [u8]
    ensures { result.now ≡ unread.barred_wording spent }
{
    match spent {
        Some(Keyword::Send) => ALL_SENT,
        Some(Keyword::Take) => ALL_TAKEN,
        _ => MISPLACED,
    }
}

/// What is said of a reason.
fn reason_wording(stop: &Stop, reason: Reason) -> &'static [u8]
    ensures { result.now ≡ unread.reason_wording stop.now reason }
{
    match reason {
        Reason::Ended => ENDED,
        Reason::Keyword => barred_wording(stop.spent()),
        Reason::Fields => FIELDS,
        Reason::Spelling => SPELLING,
        Reason::Range => RANGE,
    }
}

/// Puts it.
fn put_reason<K: Sink>(text: &mut TextBuffer, sink: &mut K, stop: &Stop, reason: Reason)
    ensures { Adds K.held K.faults sink.old sink.new text.old text.new (unread.reason_text stop.now reason) }
{
    say(
        text,
        sink,
        reason_wording(stop, reason),
        &[MOST_STRINGS as u128, MOST_TAKES as u128],
    );
}

/// Puts the form of a line of a keyword, where it may stand.
fn put_where<K: Sink>(text: &mut TextBuffer, sink: &mut K, stop: &Stop, keyword: Keyword)
    ensures { Adds K.held K.faults sink.old sink.new text.old text.new (unread.form_where stop.now keyword) }
{
    if stop.may_stand(keyword) {
        put_form(text, sink, stop.mode(), keyword);
    } else {
        text.put(sink, b"");
    }
}

/// Puts the forms of all lines that may stand.
fn put_forms<K: Sink>(text: &mut TextBuffer, sink: &mut K, stop: &Stop)
    ensures { Adds K.held K.faults sink.old sink.new text.old text.new (flat_map (unread.form_where stop.now) all_keywords) }
{
    put_where(text, sink, stop, Keyword::Table);
    put_where(text, sink, stop, Keyword::Mode);
    put_where(text, sink, stop, Keyword::Ti);
    put_where(text, sink, stop, Keyword::Sg);
    put_where(text, sink, stop, Keyword::Sender);
    put_where(text, sink, stop, Keyword::Send);
    put_where(text, sink, stop, Keyword::Take);
    put_where(text, sink, stop, Keyword::Listener);
}

/// The end of the text, where it may stand.
fn end_wording(ends: bool) -> &'static [u8]
    ensures { result.now ≡ unread.end_wording ends }
{
    if ends { END } else { b"" }
}

/// Puts any line that may stand where one is refused.
fn put_any<K: Sink>(text: &mut TextBuffer, sink: &mut K, stop: &Stop)
    ensures { Adds K.held K.faults sink.old sink.new text.old text.new (unread.any_text stop.now) }
{
    say(text, sink, MAY_STAND, &[]);
    put_forms(text, sink, stop);
    say(text, sink, end_wording(stop.may_end()), &[]);
}

/// Puts the line that has to stand.
fn put_one<K: Sink>(text: &mut TextBuffer, sink: &mut K, stop: &Stop, keyword: Keyword)
    ensures { Adds K.held K.faults sink.old sink.new text.old text.new (unread.one_text stop.now keyword) }
{
    say(text, sink, HAS_TO_BE, &[]);
    put_form(text, sink, stop.mode(), keyword);
}

/// Puts what may stand where a line is refused.
fn put_may_stand<K: Sink>(text: &mut TextBuffer, sink: &mut K, stop: &Stop)
    ensures { Adds K.held K.faults sink.old sink.new text.old text.new (unread.may_stand_text stop.now (fitting stop.now)) }
{
    match stop.keyword() {
        Some(keyword) => put_one(text, sink, stop, keyword),
        None => put_any(text, sink, stop),
    }
}

/// Writes what is said of a text of which this line is refused, where its reading stops so. It takes no memory.
pub fn write_unread<K: Sink>(
    line: u64,
    reason: Reason,
    stop: &Stop,
    sink: &mut K,
) -> Result<(), WriteFault>
    ensures { WritesText K.held K.faults sink.old sink.new result (unread.unread_text line reason stop.now) }
{
    let mut text = TextBuffer::new();
    say(&mut text, sink, LINE, &[line as u128]);
    put_reason(&mut text, sink, stop, reason);
    put_may_stand(&mut text, sink, stop);
    text.finish(sink)
}
