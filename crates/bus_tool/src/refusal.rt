//! What bus629 refuses beside what every command does.
ghost use Rattle.std.specs.Prelude.{◌≡◌, ◌++◌, codes, decimal, [], ◌∷◌};
ghost use Rattle.bus_command.specs.Outcomes.{error_line};
ghost use Rattle.bus_text.specs.Reasons.{reason_word};
ghost use Rattle.bus_table.specs.Reasons.{fit_words};
ghost use Rattle.bus_outer.specs.Sinks.{WritesText};
ghost use Rattle.bus_outer.specs.Texts.{Adds};
ghost use Rattle.bus_table.specs.Text.{mode_word};
ghost use Rattle.bus_tool.specs.Due.{uneven_refusal};
ghost use Rattle.bus_tool.specs.Refusals as refusals;
ghost use Rattle.bus_tool.specs.Refusals.{count_words, ends_of, line_of, place_of, short_last_line, uneven_words};
ghost use Rattle.bus_tool.specs.inside.RefusalWords.{refusal_words};
ghost use Rattle.bus_wave.specs.Reasons.{entry_words, wave_reason_word};

use bus_command::{Place, Refusal, Status, put_error};
use bus_outer::{Sink, TextBuffer, WriteFault};
use bus_regime::{TableVerdict, write_verdict};
use bus_schedule::Uneven;
use bus_table::{FitError, Mode, put_fit_error, put_mode, put_numbered};
use bus_text::Reason;
use bus_wave::{WaveFault, WaveReason, put_fault};

/// What bus629 refuses beside what every command does.
#[derive(Clone, Copy, Debug, PartialEq, Eq)]
pub enum ToolRefusal {
    /// The table isn't of the mode that the command needs, which is this one.
    TableMode {
        needed: Mode,
    },
    /// The trace of the second text isn't spaced for the table: its first entry at fault, counted from 0, and what is wrong with it.
    Unspaced(WaveFault),
    /// The second text is no wave text of a trace that is spaced for the table: the offending line, counted from 1, and why.
    WaveText {
        line: u64,
        reason: WaveReason,
    },
    /// Two senders have different numbers of messages: the first in turn order, and the first behind it whose number is another.
    Uneven {
        one: u8,
        one_count: u64,
        other: u8,
        other_count: u64,
    },
    /// The table isn't accepted, so that its senders aren't run: its verdict.
    NotAccepted(TableVerdict),
    /// The last cycle, of the senders with the most messages, is shorter than the transmit interval: both, in bit times.
    ShortLast {
        least: u64,
        ti: u64,
    },
    /// The schedule ends at this moment, which is above the limit.
    TooLong {
        end: u128,
    },
    /// The second text is no cable text: the offending line, counted from 1, and why.
    CableText {
        line: u64,
        reason: Reason,
    },
    /// An item of the cable text doesn't fit its sender: the first such, counted from 1 among the items.
    CableUnfit(FitError),
}

/// What a command of bus629 came to.
pub type Outcome = bus_command::Outcome<ToolRefusal>;

impl ToolRefusal {
    /// Where it stands in the order of refusals.
    pub fn place(&self) -> Place
        ensures { result ≡ place_of self.now }
    {
        match self {
            ToolRefusal::TableMode { .. } => Place::First,
            ToolRefusal::Unspaced(_)
            | ToolRefusal::WaveText { .. }
            | ToolRefusal::CableText { .. }
            | ToolRefusal::CableUnfit(_) => Place::Second,
            ToolRefusal::Uneven { .. }
            | ToolRefusal::NotAccepted(_)
            | ToolRefusal::ShortLast { .. }
            | ToolRefusal::TooLong { .. } => Place::Both,
        }
    }
}

/// What a command comes to that refuses so.
pub fn refuse(why: ToolRefusal) -> Outcome
    ensures { result ≡ refusals.refuse why }
{
    Outcome::Own {
        place: why.place(),
        why,
    }
}

/// What a command comes to whose senders haven't as many messages each.
pub fn refuse_uneven(uneven: Uneven) -> Outcome
    ensures { result ≡ uneven_refusal uneven }
{
    refuse(ToolRefusal::Uneven {
        one: uneven.one,
        one_count: uneven.one_count,
        other: uneven.other,
        other_count: uneven.other_count,
    })
}

impl Refusal for ToolRefusal {
    ghost ends = { ends_of };

    ghost line = { line_of };

    fn status(&self) -> Status {
        match self {
            ToolRefusal::TableMode { .. } => Status::TableRefused,
            ToolRefusal::Unspaced(_)
            | ToolRefusal::WaveText { .. }
            | ToolRefusal::Uneven { .. }
            | ToolRefusal::CableText { .. }
            | ToolRefusal::CableUnfit(_) => Status::InputRefused,
            ToolRefusal::NotAccepted(_) | ToolRefusal::ShortLast { .. } => Status::Refused,
            ToolRefusal::TooLong { .. } => Status::TooLong,
        }
    }

    fn write_line<K: Sink>(&self, err: &mut K) -> Result<(), WriteFault> {
        match *self {
            ToolRefusal::NotAccepted(verdict) => write_verdict(&verdict, err),
            ToolRefusal::ShortLast { least, ti } => write_short_last(least, ti, err),
            ToolRefusal::TableMode { .. } => write_error(*self, err),
            ToolRefusal::Unspaced(_) => write_error(*self, err),
            ToolRefusal::WaveText { .. } => write_error(*self, err),
            ToolRefusal::Uneven { .. } => write_error(*self, err),
            ToolRefusal::TooLong { .. } => write_error(*self, err),
            ToolRefusal::CableText { .. } => write_error(*self, err),
            ToolRefusal::CableUnfit(_) => write_error(*self, err),
        }
    }
}

/// Puts what the ERROR line of a refusal says behind the status; nothing where the refusal has a line of its own.
fn put_words<K: Sink>(text: &mut TextBuffer, sink: &mut K, why: ToolRefusal)
    ensures { Adds K.held K.faults sink.old sink.new text.old text.new (refusal_words why) }
{
    match why {
        ToolRefusal::TableMode { needed } => put_table_mode(text, sink, needed),
        ToolRefusal::Unspaced(fault) => put_unspaced(text, sink, fault),
        ToolRefusal::WaveText { line, reason } => put_wave_text(text, sink, line, reason),
        ToolRefusal::Uneven {
            one,
            one_count,
            other,
            other_count,
        } => put_uneven(text, sink, one, one_count, other, other_count),
        ToolRefusal::NotAccepted(_) | ToolRefusal::ShortLast { .. } => text.put(sink, b""),
        ToolRefusal::TooLong { end } => put_too_long(text, sink, end),
        ToolRefusal::CableText { line, reason } => put_cable_text(text, sink, line, reason),
        ToolRefusal::CableUnfit(error) => put_cable_unfit(text, sink, error),
    }
}

/// Writes the ERROR line of a refusal.
fn write_error<K: Sink>(why: ToolRefusal, sink: &mut K) -> Result<(), WriteFault>
    ensures { WritesText K.held K.faults sink.old sink.new result (error_line (ends_of why) (refusal_words why)) }
{
    let mut text = TextBuffer::new();
    put_error(&mut text, sink, why.status());
    put_words(&mut text, sink, why);
    text.put_byte(sink, b'\n');
    text.finish(sink)
}

/// Puts that a table isn't of the mode that is needed.
fn put_table_mode<K: Sink>(text: &mut TextBuffer, sink: &mut K, needed: Mode)
    ensures { Adds K.held K.faults sink.old sink.new text.old text.new (codes "table mode " ++ mode_word needed) }
{
    text.put(sink, b"table mode ");
    put_mode(text, sink, needed);
}

/// Puts the refusal of a trace that isn't spaced.
fn put_unspaced<K: Sink>(text: &mut TextBuffer, sink: &mut K, fault: WaveFault)
    ensures { Adds K.held K.faults sink.old sink.new text.old text.new (codes "wave entry " ++ entry_words fault) }
{
    text.put(sink, b"wave entry ");
    put_fault(text, sink, fault);
}

/// Puts the word of a reason against a line of a wave.
fn put_wave_reason<K: Sink>(text: &mut TextBuffer, sink: &mut K, reason: WaveReason)
    ensures { Adds K.held K.faults sink.old sink.new text.old text.new (wave_reason_word reason) }
{
    text.put(sink, reason.word().as_bytes());
}

/// Puts the refusal of a line of a wave.
fn put_wave_text<K: Sink>(text: &mut TextBuffer, sink: &mut K, line: u64, reason: WaveReason)
    ensures { Adds K.held K.faults sink.old sink.new text.old text.new
        (codes "wave line " ++ decimal line ++ 32 ∷ [] ++ wave_reason_word reason) }
{
    put_numbered(text, sink, b"wave line ", line);
    text.put_byte(sink, b' ');
    put_wave_reason(text, sink, reason);
}

/// Puts a terminal and how many messages it has.
fn put_count<K: Sink>(text: &mut TextBuffer, sink: &mut K, terminal: u8, count: u64)
    ensures { Adds K.held K.faults sink.old sink.new text.old text.new (count_words terminal count) }
{
    text.put_number(sink, terminal);
    text.put_byte(sink, b' ');
    text.put_number(sink, count);
}

/// Puts two senders that have different numbers of messages.
fn put_uneven<K: Sink>(
    text: &mut TextBuffer,
    sink: &mut K,
    one: u8,
    one_count: u64,
    other: u8,
    other_count: u64,
)
    ensures { Adds K.held K.faults sink.old sink.new text.old text.new (uneven_words one one_count other other_count) }
{
    text.put(sink, b"messages uneven ");
    put_count(text, sink, one, one_count);
    text.put_byte(sink, b' ');
    put_count(text, sink, other, other_count);
}

/// Puts the line of a last cycle that is shorter than the transmit interval.
fn put_short_last<K: Sink>(text: &mut TextBuffer, sink: &mut K, least: u64, ti: u64)
    ensures { Adds K.held K.faults sink.old sink.new text.old text.new (short_last_line least ti) }
{
    text.put(sink, b"REFUSE short-last ");
    text.put_number(sink, least);
    text.put_byte(sink, b' ');
    text.put_number(sink, ti);
    text.put_byte(sink, b'\n');
}

/// Writes the line of a last cycle that is shorter than the transmit interval.
fn write_short_last<K: Sink>(least: u64, ti: u64, sink: &mut K) -> Result<(), WriteFault>
    ensures { WritesText K.held K.faults sink.old sink.new result (line_of (refusals.ShortLast least ti)) }
{
    let mut text = TextBuffer::new();
    put_short_last(&mut text, sink, least, ti);
    text.finish(sink)
}

/// Puts the end of a schedule that is too long.
fn put_too_long<K: Sink>(text: &mut TextBuffer, sink: &mut K, end: u128)
    ensures { Adds K.held K.faults sink.old sink.new text.old text.new (codes "long " ++ decimal end) }
{
    text.put(sink, b"long ");
    text.put_number(sink, end);
}

/// Puts the word of a reason against a line of a cable text.
fn put_reason<K: Sink>(text: &mut TextBuffer, sink: &mut K, reason: Reason)
    ensures { Adds K.held K.faults sink.old sink.new text.old text.new (reason_word reason) }
{
    text.put(sink, reason.word().as_bytes())
}

/// Puts the refusal of a line of a cable text.
fn put_cable_text<K: Sink>(text: &mut TextBuffer, sink: &mut K, line: u64, reason: Reason)
    ensures { Adds K.held K.faults sink.old sink.new text.old text.new
        (codes "cable line " ++ decimal line ++ 32 ∷ [] ++ reason_word reason) }
{
    put_numbered(text, sink, b"cable line ", line);
    text.put_byte(sink, b' ');
    put_reason(text, sink, reason);
}

/// Puts the item of a cable text that doesn't fit, and why.
fn put_cable_unfit<K: Sink>(text: &mut TextBuffer, sink: &mut K, error: FitError)
    ensures { Adds K.held K.faults sink.old sink.new text.old text.new (codes "cable item " ++ fit_words error) }
{
    text.put(sink, b"cable item ");
    put_fit_error(text, sink, error);
}
