//! What the lines of a wave text have given so far, and what a further line makes of it.
ghost use Rattle.std.specs.Prelude.{◌≡◌, ◌+◌, ◌*◌, ◌-◌, ◌/◌, ◌%◌, ◌<◌, ◌≤◌, ◌&&◌, ◌==◌, ◌++◌, ◌∷◌, [], true, length, find};
ghost use Rattle.std.specs.Prelude.{OnOk, Some};
ghost use Rattle.bus_words.specs.declared.word.Kind.TheVariants as kind;
ghost use Rattle.bus_strings.specs.Limits.{horizon_limit, most_strings, most_terminal, most_words};
ghost use Rattle.bus_wave.specs.declared.symbol.Symbol.TheVariants.{Quiet, Sent, End};
ghost use Rattle.bus_wave.specs.inside.Drafts.{Keeps, begun_of, state_of};
ghost use Rattle.bus_text.specs.inside.Gives.{StepGives};
ghost use Rattle.bus_wave.specs.Reading.{is_closed as closed_test};
ghost use Rattle.bus_wave.specs.Judging as judging;
ghost use Rattle.bus_wave.specs.Judging.{string_of, with_string, later as later_of, step, opening};
ghost use Rattle.bus_wave.specs.inside.Bounded.{begin_bounded, next_bounded, quiet_bounded, pause_bounded, last_bounded};

use crate::beginners::Beginners;
use crate::fault::WaveReason;
use crate::making::{clear_for, message, wordstring};
use crate::phase::Phase;
use crate::spacing::LEAST_GAP;
use crate::symbol::Symbol;
use bus_strings::limits::{HORIZON_LIMIT, INNER_GAP, WORD_BITS};
use bus_strings::{Transmission, Wordstring};
use bus_table::{SendLine, Sender};
use bus_text::LineFault;
use bus_words::{Ext, Kind, Label, Word};
use std::alloc::{AllocError, Global};

const WORD: u64 = WORD_BITS as u64;

const GAP: u64 = INNER_GAP as u64;

/// The least bit times of the wordstrings of SEND lines, each behind an inner gap.
fn later(left: &[SendLine]) -> u64
    requires { length left.now ≤ most_strings }
    ensures value { result ≡ later_of left.now }
    ensures few { result ≤ 1400000 * length left.now }
{
    let mut bits = 0;
    for line in left {
        bits += GAP + WORD * (1 + u64::from(line.least));
    }
    bits
}

/// Whether a label word is that of a label and an extension.
fn is_label_of(value: u16, label: Label, ext: Ext) -> bool
    ensures { result ≡ (value / 16 == label && value % 16 == ext) }
{
    value / 16 == label.value() && value % 16 == u16::from(ext.value())
}

/// What the lines so far have given. Room for data words is used again from wordstring to wordstring.
#[derive(Drop)]
pub(crate) struct Draft<'t> {
    at: u64,
    list: Vec<Transmission>,
    // Of the message under way: when it began, whose it is, and its complete wordstrings.
    moment: u64,
    terminal: u8,
    strings: Vec<Wordstring>,
    // The data words of its wordstring under way.
    words: Vec<u16>,
    phase: Phase<'t>,
}

impl<'t> Draft<'t> {
    /// Behind the first line.
    pub(crate) fn new(alloc: Global) -> Draft<'t>
        ensures state { state_of result ≡ opening }
        ensures keeps { Keeps result }
    {
        Draft {
            at: 0,
            list: Vec::new(alloc),
            moment: 0,
            terminal: 1,
            strings: Vec::new(alloc),
            words: Vec::new(alloc),
            phase: Phase::Opened,
        }
    }

    /// Whether the last line was END.
    pub(crate) fn is_closed(&self) -> bool
        ensures { result ≡ closed_test (state_of self.now).phase }
    {
        matches!(self.phase, Phase::Closed)
    }

    /// The bit times, and the transmissions.
    pub(crate) fn into_parts(self) -> (u64, Vec<Transmission>)
        ensures at { result.0 ≡ self.entry.at }
        ensures list { result.1.items ≡ self.entry.list.items }
    {
        (self.at, self.list)
    }

    /// Takes a data word.
    fn take_data(
        &mut self,
        beginners: &Beginners<'t>,
        value: u16,
    ) -> Result<(), LineFault<WaveReason>>
        requires { Keeps self.old }
        ensures gives { StepGives (state_of self.new) result
            (step beginners.now.senders.now (state_of self.old) (Sent (record { kind = kind.Plain; value = value }))) }
        ensures keeps { OnOk result (Keeps self.new) }
    {
        match self.phase {
            Phase::Opened => Err(LineFault::Refused(WaveReason::Order)),
            Phase::Silent { free: _ } => Err(LineFault::Refused(WaveReason::Order)),
            Phase::Waiting {
                next: _,
                left: _,
                later: _,
            } => Err(LineFault::Refused(WaveReason::Order)),
            Phase::Closed => Err(LineFault::Refused(WaveReason::Order)),
            Phase::Saying {
                line,
                left: _,
                later,
            } => {
                let count = self.words.len();
                if count >= usize::from(line.most) {
                    return Err(LineFault::Refused(WaveReason::Order));
                }
                let missing = u64::from(line.least).saturating_sub(count as u64 + 1);
                if self.at + WORD + WORD * missing + later > HORIZON_LIMIT {
                    return Err(LineFault::Refused(WaveReason::Range));
                }
                self.words.push(value)?;
                self.at += WORD;
                Ok(())
            }
        }
    }

    /// Begins a message of a sender with its first label word.
    fn begin(&mut self, alloc: Global, sender: &'t Sender) -> Result<(), LineFault<WaveReason>>
        requires { Keeps self.old }
        ensures gives { StepGives (state_of self.new) result (begin_bounded (state_of self.old) (Some sender.now)) }
        ensures keeps { OnOk result (Keeps self.new) }
    {
        let sends = sender.sends();
        let (line, left) = (sends[0], sends.split_at(1).1);
        let later = later(left);
        if self.at + WORD + WORD * u64::from(line.least) + later > HORIZON_LIMIT {
            return Err(LineFault::Refused(WaveReason::Range));
        }
        clear_for(&mut self.strings, sends.len())?;
        self.words.clear();
        self.moment = self.at;
        self.terminal = sender.number();
        self.at += WORD;
        self.phase = Phase::Saying { line, left, later };
        Ok(())
    }

    /// Takes a label word with which a message begins.
    fn take_first(
        &mut self,
        alloc: Global,
        beginners: &Beginners<'t>,
        value: u16,
    ) -> Result<(), LineFault<WaveReason>>
        requires { Keeps self.old }
        ensures gives { StepGives (state_of self.new) result
            (begin_bounded (state_of self.old) (judging.beginner beginners.now.senders.now value)) }
        ensures keeps { OnOk result (Keeps self.new) }
    {
        match beginners.find(value) {
            Some(sender) => self.begin(alloc, sender),
            None => Err(LineFault::Refused(WaveReason::Order)),
        }
    }

    /// Takes a label word behind the Q line behind a wordstring: `next` is the SEND line whose label word has to come.
    fn take_next(
        &mut self,
        value: u16,
        next: SendLine,
        left: &'t [SendLine],
        later: u64,
    ) -> Result<(), LineFault<WaveReason>>
        requires keeps { Keeps self.old }
        requires phase { self.old.phase ≡ Phase.Waiting next left later }
        ensures gives { StepGives (state_of self.new) result (next_bounded (state_of self.old) value (begun_of self.old) next left.now) }
        ensures keeps { OnOk result (Keeps self.new) }
    {
        if !is_label_of(value, next.label, next.ext) {
            return Err(LineFault::Refused(WaveReason::Order));
        }
        self.words.clear();
        self.at += WORD;
        self.phase = Phase::Saying {
            line: next,
            left,
            later,
        };
        Ok(())
    }

    /// Takes a label word.
    fn take_label(
        &mut self,
        alloc: Global,
        beginners: &Beginners<'t>,
        value: u16,
    ) -> Result<(), LineFault<WaveReason>>
        requires { Keeps self.old }
        ensures gives { StepGives (state_of self.new) result
            (step beginners.now.senders.now (state_of self.old) (Sent (record { kind = kind.Label; value = value }))) }
        ensures keeps { OnOk result (Keeps self.new) }
    {
        match self.phase {
            Phase::Opened => self.take_first(alloc, beginners, value),
            Phase::Silent { free } => {
                if free {
                    self.take_first(alloc, beginners, value)
                } else {
                    Err(LineFault::Refused(WaveReason::Order))
                }
            }
            Phase::Waiting { next, left, later } => self.take_next(value, next, left, later),
            Phase::Saying {
                line: _,
                left: _,
                later: _,
            } => Err(LineFault::Refused(WaveReason::Order)),
            Phase::Closed => Err(LineFault::Refused(WaveReason::Order)),
        }
    }

    /// Completes the wordstring of a SEND line.
    fn keep_string(&mut self, alloc: Global, line: SendLine) -> Result<(), AllocError>
        requires { length self.old.words.items ≤ most_words }
        ensures string { OnOk result (begun_of self.new ≡ with_string (begun_of self.old) (string_of line self.old.words.items)) }
        ensures list { OnOk result (self.new.list.items ≡ self.old.list.items) }
        ensures at { OnOk result (self.new.at ≡ self.old.at) }
    {
        let string = wordstring(alloc, line, &self.words)?;
        self.strings.push(string)?;
        Ok(())
    }

    /// Completes the message with the wordstring of its last SEND line.
    fn close(&mut self, alloc: Global, line: SendLine) -> Result<(), AllocError>
        requires words { length self.old.words.items ≤ most_words }
        requires strings { length self.old.strings.items < most_strings }
        requires low { 1 ≤ self.old.terminal }
        requires high { self.old.terminal ≤ most_terminal }
        requires moment { self.old.moment < horizon_limit }
        ensures list { OnOk result (self.new.list.items
            ≡ self.old.list.items ++ with_string (begun_of self.old) (string_of line self.old.words.items) ∷ []) }
        ensures at { OnOk result (self.new.at ≡ self.old.at) }
    {
        let last = wordstring(alloc, line, &self.words)?;
        let message = message(alloc, &mut self.strings, last)?;
        self.list.push(Transmission {
            moment: self.moment,
            terminal: self.terminal,
            message,
        })?;
        Ok(())
    }

    /// Takes quiet bit times behind the last wordstring of a message, which its words may end.
    fn take_silence(
        &mut self,
        alloc: Global,
        bit_times: u64,
        line: SendLine,
        left: &'t [SendLine],
        later: u64,
    ) -> Result<(), LineFault<WaveReason>>
        requires keeps { Keeps self.old }
        requires phase { self.old.phase ≡ Phase.Saying line left later }
        requires last { left.now ≡ [] }
        ensures gives { StepGives (state_of self.new) result
            (quiet_bounded (state_of self.old) bit_times (with_string (begun_of self.old) (string_of line self.old.words.items)) left.now) }
        ensures keeps { OnOk result (Keeps self.new) }
    {
        if bit_times > HORIZON_LIMIT - self.at {
            return Err(LineFault::Refused(WaveReason::Range));
        }
        self.close(alloc, line)?;
        self.at += bit_times;
        self.phase = Phase::Silent {
            free: bit_times >= LEAST_GAP,
        };
        Ok(())
    }

    /// Takes quiet bit times behind a wordstring that isn't the last of its message, which its words may end.
    fn take_gap(
        &mut self,
        alloc: Global,
        bit_times: u64,
        line: SendLine,
        left: &'t [SendLine],
        later: u64,
    ) -> Result<(), LineFault<WaveReason>>
        requires keeps { Keeps self.old }
        requires phase { self.old.phase ≡ Phase.Saying line left later }
        requires some { 0 < length left.now }
        requires least { line.least ≤ length self.old.words.items }
        ensures gives { StepGives (state_of self.new) result
            (quiet_bounded (state_of self.old) bit_times (with_string (begun_of self.old) (string_of line self.old.words.items)) left.now) }
        ensures keeps { OnOk result (Keeps self.new) }
    {
        if bit_times != GAP {
            return Err(LineFault::Refused(WaveReason::Order));
        }
        let (next, others) = (left[0], left.split_at(1).1);
        let rest = later - GAP - WORD * (1 + u64::from(next.least));
        self.keep_string(alloc, line)?;
        self.at += GAP;
        self.phase = Phase::Waiting {
            next,
            left: others,
            later: rest,
        };
        Ok(())
    }

    /// Takes quiet bit times within a message.
    fn take_pause(
        &mut self,
        alloc: Global,
        bit_times: u64,
        line: SendLine,
        left: &'t [SendLine],
        later: u64,
    ) -> Result<(), LineFault<WaveReason>>
        requires keeps { Keeps self.old }
        requires phase { self.old.phase ≡ Phase.Saying line left later }
        ensures gives { StepGives (state_of self.new) result
            (pause_bounded (state_of self.old) bit_times (begun_of self.old) line self.old.words.items left.now) }
        ensures keeps { OnOk result (Keeps self.new) }
    {
        if self.words.len() < usize::from(line.least) {
            return Err(LineFault::Refused(WaveReason::Order));
        }
        if left.is_empty() {
            self.take_silence(alloc, bit_times, line, left, later)
        } else {
            self.take_gap(alloc, bit_times, line, left, later)
        }
    }

    /// Takes a Q line.
    fn take_quiet(
        &mut self,
        alloc: Global,
        beginners: &Beginners<'t>,
        bit_times: u64,
    ) -> Result<(), LineFault<WaveReason>>
        requires { Keeps self.old }
        ensures gives { StepGives (state_of self.new) result (step beginners.now.senders.now (state_of self.old) (Quiet bit_times)) }
        ensures keeps { OnOk result (Keeps self.new) }
    {
        if bit_times == 0 {
            return Err(LineFault::Refused(WaveReason::Range));
        }
        match self.phase {
            Phase::Opened => {
                if bit_times > HORIZON_LIMIT - self.at {
                    return Err(LineFault::Refused(WaveReason::Range));
                }
                self.at += bit_times;
                self.phase = Phase::Silent { free: true };
                Ok(())
            }
            Phase::Silent { free: _ } => Err(LineFault::Refused(WaveReason::Order)),
            Phase::Saying { line, left, later } => self.take_pause(
                alloc, bit_times, line, left, later,
            ),
            Phase::Waiting {
                next: _,
                left: _,
                later: _,
            } => Err(LineFault::Refused(WaveReason::Order)),
            Phase::Closed => Err(LineFault::Refused(WaveReason::Order)),
        }
    }

    /// Takes the end behind a wordstring, where its message is whole.
    fn take_last(
        &mut self,
        alloc: Global,
        line: SendLine,
        left: &'t [SendLine],
        later: u64,
    ) -> Result<(), LineFault<WaveReason>>
        requires keeps { Keeps self.old }
        requires phase { self.old.phase ≡ Phase.Saying line left later }
        ensures gives { StepGives (state_of self.new) result
            (last_bounded (state_of self.old) (begun_of self.old) line self.old.words.items left.now) }
        ensures keeps { OnOk result (Keeps self.new) }
    {
        if self.words.len() < usize::from(line.least) || !left.is_empty() {
            return Err(LineFault::Refused(WaveReason::Order));
        }
        self.close(alloc, line)?;
        self.phase = Phase::Closed;
        Ok(())
    }

    /// Takes the last line.
    fn take_end(
        &mut self,
        alloc: Global,
        beginners: &Beginners<'t>,
    ) -> Result<(), LineFault<WaveReason>>
        requires { Keeps self.old }
        ensures gives { StepGives (state_of self.new) result (step beginners.now.senders.now (state_of self.old) End) }
        ensures keeps { OnOk result (Keeps self.new) }
    {
        match self.phase {
            Phase::Opened => {
                self.phase = Phase::Closed;
                Ok(())
            }
            Phase::Silent { free: _ } => {
                self.phase = Phase::Closed;
                Ok(())
            }
            Phase::Saying { line, left, later } => self.take_last(alloc, line, left, later),
            Phase::Waiting {
                next: _,
                left: _,
                later: _,
            } => Err(LineFault::Refused(WaveReason::Order)),
            Phase::Closed => Err(LineFault::Refused(WaveReason::Order)),
        }
    }

    /// Takes a symbol. After an error the draft is of no use.
    pub(crate) fn take(
        &mut self,
        alloc: Global,
        beginners: &Beginners<'t>,
        symbol: Symbol,
    ) -> Result<(), LineFault<WaveReason>>
        requires { Keeps self.old }
        ensures gives { StepGives (state_of self.new) result (step beginners.now.senders.now (state_of self.old) symbol) }
        ensures keeps { OnOk result (Keeps self.new) }
    {
        match symbol {
            Symbol::Quiet(bit_times) => self.take_quiet(alloc, beginners, bit_times),
            Symbol::Sent(word) => self.take_word(alloc, beginners, word),
            Symbol::End => self.take_end(alloc, beginners),
        }
    }

    /// Takes a word.
    fn take_word(
        &mut self,
        alloc: Global,
        beginners: &Beginners<'t>,
        word: Word,
    ) -> Result<(), LineFault<WaveReason>>
        requires { Keeps self.old }
        ensures gives { StepGives (state_of self.new) result (step beginners.now.senders.now (state_of self.old) (Sent word)) }
        ensures keeps { OnOk result (Keeps self.new) }
    {
        match word.kind {
            Kind::Label => self.take_label(alloc, beginners, word.value),
            Kind::Plain => self.take_data(beginners, word.value),
        }
    }
}
