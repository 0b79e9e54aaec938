//! The lines of what is found in a stream.
ghost use Rattle.std.specs.Prelude.{◌+◌, ◌*◌, ◌<◌, ◌≤◌, ◌^◌, nat_lt, IfSome};
ghost use Rattle.bus_outer.specs.Texts.{Adds};
ghost use Rattle.bus_findings.specs.Terminals.{is_faulty as fault_test};
ghost use Rattle.bus_findings.specs.Texts.{where_so};
ghost use Rattle.bus_watch.specs.Texts as texts;

use crate::at::{At, Looked};
use bus_bounds::Bounds;
use bus_findings::{Due, Judgement, is_faulty, put_fault_words, put_timer, put_within};
use bus_outer::{Sink, TextBuffer};

/// Puts the first two lines.
pub fn put_head<K: Sink>(text: &mut TextBuffer, sink: &mut K, bounds: Bounds)
    ensures { Adds K.held K.faults sink.old sink.new text.old text.new (texts.head_lines bounds) }
{
    text.put(sink, b"WATCH 1\n");
    put_within(text, sink, bounds);
    text.put_byte(sink, b'\n');
}

/// Puts a keyword, and where a finding is.
fn put_place<K: Sink>(text: &mut TextBuffer, sink: &mut K, keyword: &[u8], at: At)
    ensures { Adds K.held K.faults sink.old sink.new text.old text.new (texts.place_words keyword.now at) }
{
    text.put(sink, keyword);
    text.put_number(sink, at.time);
    text.put_byte(sink, b' ');
    text.put_number(sink, at.line);
    text.put_byte(sink, b' ');
    text.put_number(sink, at.terminal);
}

/// Puts the faults that are found at a transmission, in one line.
fn put_fault<K: Sink>(text: &mut TextBuffer, sink: &mut K, at: At, found: &Judgement)
    ensures { Adds K.held K.faults sink.old sink.new text.old text.new (texts.fault_line at found.now) }
{
    put_place(text, sink, b"FAULT ", at);
    put_fault_words(text, sink, found);
    text.put_byte(sink, b'\n');
}

/// Puts that line, where there are some.
fn put_faults<K: Sink>(text: &mut TextBuffer, sink: &mut K, at: At, found: &Judgement)
    ensures { Adds K.held K.faults sink.old sink.new text.old text.new (where_so (fault_test found.now) (texts.fault_line at found.now)) }
{
    if is_faulty(found) {
        put_fault(text, sink, at, found);
    } else {
        text.put(sink, b"");
    }
}

/// Puts for how long an earlier transmission lasts beyond the beginning of another.
fn put_overlap<K: Sink>(text: &mut TextBuffer, sink: &mut K, at: At, amount: u64)
    ensures { Adds K.held K.faults sink.old sink.new text.old text.new (texts.overlap_line at amount) }
{
    put_place(text, sink, b"NOTE ", at);
    text.put(sink, b" Overlap ");
    text.put_number(sink, amount);
    text.put_byte(sink, b'\n');
}

/// Puts that line, where one does.
fn put_overlaps<K: Sink>(text: &mut TextBuffer, sink: &mut K, at: At, amount: u64)
    ensures { Adds K.held K.faults sink.old sink.new text.old text.new (where_so (nat_lt 0 amount) (texts.overlap_line at amount)) }
{
    if amount > 0 {
        put_overlap(text, sink, at, amount);
    } else {
        text.put(sink, b"");
    }
}

/// Puts what is found at a transmission.
pub(crate) fn put_found<K: Sink>(text: &mut TextBuffer, sink: &mut K, at: At, found: &Judgement)
    ensures { Adds K.held K.faults sink.old sink.new text.old text.new (texts.found_lines at found.now) }
{
    put_faults(text, sink, at, found);
    put_overlaps(text, sink, at, found.overlap);
}

/// Puts that a sender was due, and has been silent for so many bit times since.
fn put_silent<K: Sink>(text: &mut TextBuffer, sink: &mut K, at: At, due: Due, amount: u64)
    ensures { Adds K.held K.faults sink.old sink.new text.old text.new (texts.silent_words at due amount) }
{
    put_place(text, sink, b"NOTE ", at);
    text.put(sink, b" Silent ");
    put_timer(text, sink, due.timer);
    text.put_byte(sink, b' ');
    text.put_number(sink, amount);
    text.put_byte(sink, b'\n');
}

/// Puts who was due at a moment behind the beginning of a window, and hadn't started until a bit time, if it was.
pub(crate) fn put_silence<K: Sink>(
    text: &mut TextBuffer,
    sink: &mut K,
    looked: Looked,
    terminal: u8,
    due: Option<Due>,
)
    requires within { IfSome due (λ d. looked.base + d.moment ≤ looked.bit) }
    requires low { 500 * looked.bit < 2 ^ 64 }
    ensures { Adds K.held K.faults sink.old sink.new text.old text.new (texts.silence_lines looked terminal due) }
{
    match due {
        Some(due) => {
            let since = looked.base + due.moment;
            let at = At {
                time: 500 * since,
                line: looked.line,
                terminal,
            };
            put_silent(text, sink, at, due, looked.bit - since);
        }
        None => text.put(sink, b""),
    }
}

/// Puts that so many transmissions came since a sender's last start.
fn put_unheard<K: Sink>(text: &mut TextBuffer, sink: &mut K, at: At, count: u64)
    ensures { Adds K.held K.faults sink.old sink.new text.old text.new (texts.unheard_line at count) }
{
    put_place(text, sink, b"NOTE ", at);
    text.put(sink, b" Unheard ");
    text.put_number(sink, count);
    text.put_byte(sink, b'\n');
}

/// Puts that line, where it is so.
pub(crate) fn put_unheard_where<K: Sink>(
    text: &mut TextBuffer,
    sink: &mut K,
    so: bool,
    at: At,
    count: u64,
)
    ensures { Adds K.held K.faults sink.old sink.new text.old text.new (where_so so (texts.unheard_line at count)) }
{
    if so {
        put_unheard(text, sink, at, count);
    } else {
        text.put(sink, b"");
    }
}

/// Puts the end of a part: from one moment up to another, with so many transmissions, and so many of them with a fault.
pub(crate) fn put_part<K: Sink>(
    text: &mut TextBuffer,
    sink: &mut K,
    start: u64,
    end: u64,
    sent: u64,
    faults: u64,
)
    ensures { Adds K.held K.faults sink.old sink.new text.old text.new (texts.part_line start end sent faults) }
{
    text.put(sink, b"PART ");
    text.put_number(sink, start);
    text.put_byte(sink, b' ');
    text.put_number(sink, end);
    text.put_byte(sink, b' ');
    text.put_number(sink, sent);
    text.put_byte(sink, b' ');
    text.put_number(sink, faults);
    text.put_byte(sink, b'\n');
}
