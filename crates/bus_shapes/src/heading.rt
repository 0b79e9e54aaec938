//! The heading of a picture, in words.
ghost use Rattle.std.specs.Prelude.{◌≡◌, codes, Some};
ghost use Rattle.bus_outer.specs.Texts.{Adds};
ghost use Rattle.bus_audit.specs.declared.answer.AuditAnswer.TheVariants.{Breach};
ghost use Rattle.bus_regime.specs.declared.table_verdict.TableVerdict.TheVariants.{ShortCycle, SmallGap, NoSync};
ghost use Rattle.bus_table.specs.declared.mode.Mode.TheVariants.{Aperiodic, Periodic};
ghost use Rattle.bus_shapes.specs.Headings as definition;
ghost use Rattle.bus_pen.specs.Numbers.{plainly_counted};

use crate::later::later;
use crate::on_cable::{put_known, put_on_cable};
use crate::told::Told;
use bus_audit::{AuditAnswer, BreachKind, put_answer};
use bus_bounds::Bounds;
use bus_findings::{Judgement, fault_sum, put_within};
use bus_outer::{Sink, TextBuffer};
use bus_pen::{Class, put_counted, put_parted, put_parted_microseconds};
use bus_regime::TableVerdict;
use bus_strings::{Transmission, put_microseconds_unit};
use bus_table::Mode;

/// An acceptance in aperiodic mode.
fn put_aperiodic<K: Sink>(text: &mut TextBuffer, sink: &mut K, least: u64, most: u64)
    ensures { Adds K.held K.faults sink.old sink.new text.old text.new (definition.accept_heading Aperiodic least most) }
{
    text.put(sink, b"ACCEPT aperiodic, cycle ");
    put_parted(text, sink, least);
    text.put(sink, b" to ");
    put_parted(text, sink, most);
    text.put(sink, b" bit times (");
    put_parted_microseconds(text, sink, least);
    text.put(sink, b" to ");
    put_parted_microseconds(text, sink, most);
    put_microseconds_unit(text, sink);
    text.put(sink, b")");
}

/// An acceptance in periodic mode.
fn put_periodic<K: Sink>(text: &mut TextBuffer, sink: &mut K, least: u64, most: u64)
    ensures { Adds K.held K.faults sink.old sink.new text.old text.new (definition.accept_heading Periodic least most) }
{
    let _interval = most;
    text.put(sink, b"ACCEPT periodic, cycle ");
    put_parted(text, sink, least);
    text.put(sink, b" bit times (");
    put_parted_microseconds(text, sink, least);
    put_microseconds_unit(text, sink);
    text.put(sink, b")");
}

/// An acceptance.
fn put_accept<K: Sink>(text: &mut TextBuffer, sink: &mut K, mode: Mode, least: u64, most: u64)
    ensures { Adds K.held K.faults sink.old sink.new text.old text.new (definition.accept_heading mode least most) }
{
    match mode {
        Mode::Aperiodic => put_aperiodic(text, sink, least, most),
        Mode::Periodic => put_periodic(text, sink, least, most),
    }
}

/// A refusal for a short cycle.
fn put_short_cycle<K: Sink>(text: &mut TextBuffer, sink: &mut K, least: u64, ti: u64)
    ensures { Adds K.held K.faults sink.old sink.new text.old text.new (definition.verdict_heading (ShortCycle least ti)) }
{
    text.put(sink, b"REFUSE: shortest cycle ");
    put_parted(text, sink, least);
    text.put(sink, b" bit times, below TI ");
    put_parted(text, sink, ti);
}

/// A refusal for a small gap.
fn put_small_gap<K: Sink>(text: &mut TextBuffer, sink: &mut K, terminal: u8, gap: i64, needed: u64)
    ensures { Adds K.held K.faults sink.old sink.new text.old text.new (definition.verdict_heading (SmallGap terminal gap needed)) }
{
    text.put(sink, b"REFUSE: gap before terminal ");
    text.put_number(sink, terminal);
    text.put(sink, b" is ");
    text.put_signed(sink, gap);
    text.put(sink, b" bit times, below TG ");
    put_parted(text, sink, needed);
}

/// A refusal for want of a synchronization gap.
fn put_no_sync<K: Sink>(text: &mut TextBuffer, sink: &mut K, terminal: u8, gap: u64, needed: u64)
    ensures { Adds K.held K.faults sink.old sink.new text.old text.new (definition.verdict_heading (NoSync terminal gap needed)) }
{
    text.put(sink, b"REFUSE: no gap for SG, gap before terminal ");
    text.put_number(sink, terminal);
    text.put(sink, b" is ");
    put_parted(text, sink, gap);
    text.put(sink, b" bit times, below SG + TG ");
    put_parted(text, sink, needed);
}

/// Puts a verdict.
pub(crate) fn put_verdict_heading<K: Sink>(
    text: &mut TextBuffer,
    sink: &mut K,
    verdict: &TableVerdict,
)
    ensures { Adds K.held K.faults sink.old sink.new text.old text.new (definition.verdict_heading verdict.now) }
{
    match *verdict {
        TableVerdict::Accept { mode, least, most } => put_accept(text, sink, mode, least, most),
        TableVerdict::ShortCycle { least, ti } => put_short_cycle(text, sink, least, ti),
        TableVerdict::SmallGap {
            terminal,
            gap,
            needed,
        } => put_small_gap(text, sink, terminal, gap, needed),
        TableVerdict::NoSync {
            terminal,
            gap,
            needed,
        } => put_no_sync(text, sink, terminal, gap, needed),
    }
}

/// How a verdict looks.
pub(crate) fn verdict_class(verdict: &TableVerdict) -> Class
    ensures { result ≡ definition.verdict_class verdict.now }
{
    match *verdict {
        TableVerdict::Accept { .. } => Class::Verdict,
        TableVerdict::ShortCycle { .. } => Class::Refusal,
        TableVerdict::SmallGap { .. } => Class::Refusal,
        TableVerdict::NoSync { .. } => Class::Refusal,
    }
}

/// That a terminal is due, and next starts so many bit times later.
fn put_late<K: Sink>(text: &mut TextBuffer, sink: &mut K, n: u64)
    ensures { Adds K.held K.faults sink.old sink.new text.old text.new (definition.missing_words (Some n)) }
{
    text.put(sink, b" is due, next start in ");
    put_counted(text, sink, n, b"bit time");
}

/// What a terminal does that doesn't start where it should.
fn put_missing<K: Sink>(text: &mut TextBuffer, sink: &mut K, next: Option<u64>)
    ensures { Adds K.held K.faults sink.old sink.new text.old text.new (definition.missing_words next) }
{
    match next {
        None => text.put(sink, b" should start and doesn't"),
        Some(n) => put_late(text, sink, n),
    }
}

/// What a terminal does that breaches at a moment of a list.
fn put_breach_words<K: Sink>(
    text: &mut TextBuffer,
    sink: &mut K,
    list: &[Transmission],
    moment: u64,
    terminal: u8,
    kind: BreachKind,
)
    ensures { Adds K.held K.faults sink.old sink.new text.old text.new (definition.breach_words list.now moment terminal kind) }
{
    match kind {
        BreachKind::Stranger => text.put(sink, b" starts and is no sender"),
        BreachKind::Unheld => text.put(sink, b" starts and has no message left"),
        BreachKind::Early => text.put(sink, b" starts before its timers allow it"),
        BreachKind::Misfit => text.put(sink, b" sends what its lines don't allow"),
        BreachKind::Missing => put_missing(text, sink, later(list, moment, terminal)),
    }
}

/// That nothing is wrong.
fn put_lawful<K: Sink>(text: &mut TextBuffer, sink: &mut K, collided: u64)
    ensures { Adds K.held K.faults sink.old sink.new text.old text.new (definition.lawful_heading collided) }
{
    text.put(sink, b"LAWFUL, ");
    put_counted(text, sink, collided, b"transmission");
    text.put(sink, b" collided");
}

/// The first breach of a list.
fn put_breach<K: Sink>(
    text: &mut TextBuffer,
    sink: &mut K,
    list: &[Transmission],
    moment: u64,
    terminal: u8,
    kind: BreachKind,
)
    ensures { Adds K.held K.faults sink.old sink.new text.old text.new (definition.answer_heading list.now (Breach moment terminal kind)) }
{
    text.put(sink, b"BREACH at ");
    put_parted(text, sink, moment);
    text.put(sink, b" (");
    put_parted_microseconds(text, sink, moment);
    put_microseconds_unit(text, sink);
    text.put(sink, b"): terminal ");
    text.put_number(sink, terminal);
    put_breach_words(text, sink, list, moment, terminal, kind);
}

/// Puts what an audit found in a list.
fn put_answer_heading<K: Sink>(
    text: &mut TextBuffer,
    sink: &mut K,
    list: &[Transmission],
    answer: &AuditAnswer,
)
    ensures { Adds K.held K.faults sink.old sink.new text.old text.new (definition.answer_heading list.now answer.now) }
{
    match *answer {
        AuditAnswer::Lawful { collided } => put_lawful(text, sink, collided),
        AuditAnswer::Breach {
            moment,
            terminal,
            kind,
        } => put_breach(text, sink, list, moment, terminal, kind),
    }
}

/// Puts how many faults there are.
fn put_faults<K: Sink>(text: &mut TextBuffer, sink: &mut K, faults: u128)
    ensures { Adds K.held K.faults sink.old sink.new text.old text.new (plainly_counted faults (codes "fault")) }
{
    text.put_number(sink, faults);
    if faults == 1 {
        text.put(sink, b" fault");
    } else {
        text.put(sink, b" faults");
    }
}

/// Puts bounds, how many faults are found within them, and how many receptions are garbled, where that is known.
fn put_findings<K: Sink>(
    text: &mut TextBuffer,
    sink: &mut K,
    bounds: Bounds,
    judgements: &[Judgement],
    garbled: Option<u64>,
)
    ensures { Adds K.held K.faults sink.old sink.new text.old text.new (definition.findings_heading bounds judgements.now garbled) }
{
    put_within(text, sink, bounds);
    text.put(sink, b": ");
    put_faults(text, sink, fault_sum(judgements));
    put_known(text, sink, garbled);
}

/// Puts what is told of a trace, whose list this is.
pub(crate) fn put_told_heading<K: Sink>(
    text: &mut TextBuffer,
    sink: &mut K,
    told: &Told,
    list: &[Transmission],
)
    ensures { Adds K.held K.faults sink.old sink.new text.old text.new (definition.told_heading list.now told.now) }
{
    match told {
        Told::Audit(answer) => put_answer_heading(text, sink, list, answer),
        Told::OnCable { garbled } => put_on_cable(text, sink, *garbled),
        Told::Findings {
            bounds,
            judgements,
            garbled,
        } => put_findings(text, sink, *bounds, judgements, *garbled),
    }
}

/// Puts it as a title does.
pub(crate) fn put_told<K: Sink>(text: &mut TextBuffer, sink: &mut K, told: &Told)
    ensures { Adds K.held K.faults sink.old sink.new text.old text.new (definition.told_words told.now) }
{
    match told {
        Told::Audit(answer) => put_answer(text, sink, answer),
        Told::OnCable { garbled } => put_on_cable(text, sink, *garbled),
        Told::Findings {
            bounds,
            judgements,
            garbled,
        } => put_findings(text, sink, *bounds, judgements, *garbled),
    }
}
