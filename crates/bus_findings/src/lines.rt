//! The lines of findings.
ghost use Rattle.std.specs.Prelude.{◌-◌, nat_lt, decimal};
ghost use Rattle.bus_outer.specs.Texts.{Adds};
ghost use Rattle.bus_findings.specs.Texts as texts;

use crate::judgement::{Due, Judgement, Late, Timer};
use bus_outer::{Sink, TextBuffer};

/// Puts the word of a timer.
pub fn put_timer<K: Sink>(text: &mut TextBuffer, sink: &mut K, timer: Timer)
    ensures { Adds K.held K.faults sink.old sink.new text.old text.new (texts.timer_word timer) }
{
    match timer {
        Timer::Interval => text.put(sink, b"TI"),
        Timer::SyncGap => text.put(sink, b"SG"),
        Timer::TerminalGap => text.put(sink, b"TG"),
    }
}

/// Puts a keyword, and at which moment and of which terminal a finding is.
fn put_place<K: Sink>(
    text: &mut TextBuffer,
    sink: &mut K,
    keyword: &[u8],
    moment: u64,
    terminal: u8,
)
    ensures { Adds K.held K.faults sink.old sink.new text.old text.new (texts.place_words keyword.now moment terminal) }
{
    text.put(sink, keyword);
    text.put_byte(sink, b' ');
    text.put_number(sink, moment);
    text.put_byte(sink, b' ');
    text.put_number(sink, terminal);
    text.put_byte(sink, b' ');
}

/// Puts the line of a fault that has no amount.
fn put_plain<K: Sink>(text: &mut TextBuffer, sink: &mut K, moment: u64, terminal: u8, kind: &[u8])
    ensures { Adds K.held K.faults sink.old sink.new text.old text.new (texts.plain_line moment terminal kind.now) }
{
    put_place(text, sink, b"FAULT", moment, terminal);
    text.put(sink, kind);
    text.put_byte(sink, b'\n');
}

/// Puts that a start is too early by a timer.
pub(crate) fn put_early_words<K: Sink>(
    text: &mut TextBuffer,
    sink: &mut K,
    timer: Timer,
    amount: u64,
)
    ensures { Adds K.held K.faults sink.old sink.new text.old text.new (texts.early_words timer amount) }
{
    text.put(sink, b"Early ");
    put_timer(text, sink, timer);
    text.put_byte(sink, b' ');
    text.put_number(sink, amount);
}

/// Puts the line of that.
fn put_early<K: Sink>(
    text: &mut TextBuffer,
    sink: &mut K,
    moment: u64,
    terminal: u8,
    timer: Timer,
    amount: u64,
)
    ensures { Adds K.held K.faults sink.old sink.new text.old text.new (texts.early_line moment terminal timer amount) }
{
    put_place(text, sink, b"FAULT", moment, terminal);
    put_early_words(text, sink, timer, amount);
    text.put_byte(sink, b'\n');
}

/// Puts the word of a late start before which so many others began.
fn put_late_word<K: Sink>(text: &mut TextBuffer, sink: &mut K, passed: u64)
    ensures { Adds K.held K.faults sink.old sink.new text.old text.new (texts.late_word (nat_lt 0 passed)) }
{
    if passed > 0 {
        text.put(sink, b"Passed ");
    } else {
        text.put(sink, b"Late ");
    }
}

/// Puts how many others began, if some did.
fn put_passed<K: Sink>(text: &mut TextBuffer, sink: &mut K, passed: u64)
    ensures { Adds K.held K.faults sink.old sink.new text.old text.new (texts.passed_words (nat_lt 0 passed) passed) }
{
    if passed > 0 {
        text.put_byte(sink, b' ');
        text.put_number(sink, passed);
    } else {
        text.put(sink, b"");
    }
}

/// Puts that a start is too late.
pub(crate) fn put_late_words<K: Sink>(text: &mut TextBuffer, sink: &mut K, late: Late)
    ensures { Adds K.held K.faults sink.old sink.new text.old text.new (texts.late_words late) }
{
    put_late_word(text, sink, late.passed);
    put_timer(text, sink, late.timer);
    text.put_byte(sink, b' ');
    text.put_number(sink, late.amount);
    put_passed(text, sink, late.passed);
}

/// Puts the line of that.
fn put_late<K: Sink>(text: &mut TextBuffer, sink: &mut K, moment: u64, terminal: u8, late: Late)
    ensures { Adds K.held K.faults sink.old sink.new text.old text.new (texts.late_line moment terminal late) }
{
    put_place(text, sink, b"FAULT", moment, terminal);
    put_late_words(text, sink, late);
    text.put_byte(sink, b'\n');
}

/// Puts that a transmission begins while another lasts.
fn put_overlap<K: Sink>(text: &mut TextBuffer, sink: &mut K, moment: u64, terminal: u8, amount: u64)
    ensures { Adds K.held K.faults sink.old sink.new text.old text.new (texts.overlap_line moment terminal amount) }
{
    put_place(text, sink, b"NOTE", moment, terminal);
    text.put(sink, b"Overlap ");
    text.put_number(sink, amount);
    text.put_byte(sink, b'\n');
}

/// Puts the line of a fault that has no amount, where it is so.
fn put_plain_where<K: Sink>(
    text: &mut TextBuffer,
    sink: &mut K,
    so: bool,
    moment: u64,
    terminal: u8,
    kind: &[u8],
)
    ensures { Adds K.held K.faults sink.old sink.new text.old text.new (texts.where_so so (texts.plain_line moment terminal kind.now)) }
{
    if so {
        put_plain(text, sink, moment, terminal, kind);
    } else {
        text.put(sink, b"");
    }
}

/// Puts that a start is too early by a timer, where it is.
fn put_early_where<K: Sink>(
    text: &mut TextBuffer,
    sink: &mut K,
    moment: u64,
    terminal: u8,
    timer: Timer,
    amount: u64,
)
    ensures { Adds K.held K.faults sink.old sink.new text.old text.new (texts.early_lines moment terminal timer amount) }
{
    if amount > 0 {
        put_early(text, sink, moment, terminal, timer, amount);
    } else {
        text.put(sink, b"");
    }
}

/// Puts that a start is too late, where it is.
fn put_late_where<K: Sink>(
    text: &mut TextBuffer,
    sink: &mut K,
    moment: u64,
    terminal: u8,
    late: Option<Late>,
)
    ensures { Adds K.held K.faults sink.old sink.new text.old text.new (texts.late_lines moment terminal late) }
{
    match late {
        Some(late) => put_late(text, sink, moment, terminal, late),
        None => text.put(sink, b""),
    }
}

/// Puts that a transmission begins while another lasts, where it does.
fn put_overlap_where<K: Sink>(
    text: &mut TextBuffer,
    sink: &mut K,
    moment: u64,
    terminal: u8,
    amount: u64,
)
    ensures { Adds K.held K.faults sink.old sink.new text.old text.new (texts.overlap_lines moment terminal amount) }
{
    if amount > 0 {
        put_overlap(text, sink, moment, terminal, amount);
    } else {
        text.put(sink, b"");
    }
}

/// Puts the lines of a transmission.
pub(crate) fn put_judgement<K: Sink>(
    text: &mut TextBuffer,
    sink: &mut K,
    moment: u64,
    terminal: u8,
    found: Judgement,
)
    ensures { Adds K.held K.faults sink.old sink.new text.old text.new (texts.judgement_lines moment terminal found) }
{
    put_plain_where(text, sink, found.stranger, moment, terminal, b"Stranger");
    put_early_where(
        text,
        sink,
        moment,
        terminal,
        Timer::Interval,
        found.interval,
    );
    put_early_where(text, sink, moment, terminal, Timer::SyncGap, found.sync_gap);
    put_early_where(
        text,
        sink,
        moment,
        terminal,
        Timer::TerminalGap,
        found.terminal_gap,
    );
    put_late_where(text, sink, moment, terminal, found.late);
    put_plain_where(text, sink, found.misfit, moment, terminal, b"Misfit");
    put_overlap_where(text, sink, moment, terminal, found.overlap);
}

/// Puts how long it is from a moment to the horizon.
fn put_left<K: Sink>(text: &mut TextBuffer, sink: &mut K, horizon: u64, moment: u64)
    ensures { Adds K.held K.faults sink.old sink.new text.old text.new (decimal (horizon - moment)) }
{
    text.put_number(sink, horizon.saturating_sub(moment))
}

/// Puts that a sender was due for certain, and doesn't start any more.
fn put_silent<K: Sink>(text: &mut TextBuffer, sink: &mut K, horizon: u64, terminal: u8, due: Due)
    ensures { Adds K.held K.faults sink.old sink.new text.old text.new (texts.silent_line horizon terminal due) }
{
    put_place(text, sink, b"NOTE", due.moment, terminal);
    text.put(sink, b"Silent ");
    put_timer(text, sink, due.timer);
    text.put_byte(sink, b' ');
    put_left(text, sink, horizon, due.moment);
    text.put_byte(sink, b'\n');
}

/// Puts that, where it is so.
pub(crate) fn put_silence<K: Sink>(
    text: &mut TextBuffer,
    sink: &mut K,
    horizon: u64,
    terminal: u8,
    due: Option<Due>,
)
    ensures { Adds K.held K.faults sink.old sink.new text.old text.new (texts.silence_lines horizon terminal due) }
{
    match due {
        Some(due) => put_silent(text, sink, horizon, terminal, due),
        None => text.put(sink, b""),
    }
}
