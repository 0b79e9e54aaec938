//! What the lines of a trace text have given so far, and what a further line makes of it.
ghost use Rattle.std.specs.Prelude.{◌≡◌, ◌<◌, ◌≤◌, true, length};
ghost use Rattle.bus_text.specs.Entries.{texts};
ghost use Rattle.bus_trace.specs.inside.Gives.{StepGives};
ghost use Rattle.bus_strings.specs.Limits.{horizon_limit};
ghost use Rattle.bus_trace.specs.Limits.{line_limit};
ghost use Rattle.bus_trace.specs.States.{start, recorded, step, form_step, fields_step};
ghost use Rattle.bus_trace.specs.inside.Sound.{IsSound, TakesString};
ghost use Rattle.bus_trace.specs.States.{head_step, horizon_step, hold_step, begin_step, string_step, close_step, end_step};
ghost use Rattle.bus_trace.specs.States.{is_hit as hit_test, is_final as final_test, is_refuted as refuted_test, more_list};
ghost use Rattle.bus_trace.specs.Stops.{stop_in};
ghost use Rattle.bus_trace.specs.inside.Reach.{IsReach};
ghost use Rattle.bus_trace.specs.inside.Quick.{string_taken, BeginsRight, ClosesRight, TakesFront};
ghost use Rattle.std.specs.Prelude.{IsTrue, OnOk, OnErr, false, IfOk, MatchOption};
ghost use Rattle.bus_strings.specs.Messages.{Wordstring as AnyString};
ghost use Rattle.bus_trace.specs.States.{last_count as count_of, is_ended as ended_test, may_follow as may_stand};

use crate::fields::{below, bounded, fields, is_plain, writes};
use crate::format::{Format, format_of};
use crate::hold::Hold;
use crate::keyword::{Keyword, keyword_of};
use crate::list::{
    is_after, last_count, last_end, last_moment, last_sender, last_terminal, take_string,
};
use crate::mark::{is_mark, mark_of, starts_wrong, turns_wrong};
use crate::position::{Position, is_closed, is_ended, may_follow};
use crate::quick::{begin_line, behind_end, close_line, string_line};
use crate::reason::TraceReason;
use crate::stop::Stop;
use crate::trace::Trace;
use crate::words::{are_spelled, have_parity, wordstring};
use bus_strings::limits::{HORIZON_LIMIT, MOST_TERMINAL, MOST_WORDS};
use bus_strings::{Transmission, Wordstring};
use bus_text::{LineFault, field_at, fields_from};
use std::alloc::{AllocError, Global};
use std::marker::Model;

/// The most fields of a WS line: its keyword, a label word and the data words.
const MOST_FIELDS: usize = 2 + MOST_WORDS;

/// What the lines so far have given.
#[derive(Drop)]
pub(crate) struct Draft {
    position: Position,
    format: Format,
    // Of the last transmission that was closed.
    mark: bool,
    horizon: u64,
    holds: Vec<Hold>,
    list: Vec<Transmission>,
    // The greatest end of the transmissions before the last.
    reach: u64,
}

impl Model for Draft {
    ghost use Rattle.bus_trace.specs.inside.Reach.{IsReach};
    ghost use Rattle.bus_trace.specs.States.{State};

    ghost Value = { State };

    ghost view = { λ d. record {
      position = d.position;
      format = d.format;
      mark = d.mark;
      horizon = d.horizon;
      holds = d.holds.items;
      list = d.list.items;
    } };

    ghost invariant = { λ d. IsReach d.list.items d.reach };
}

impl Draft {
    /// No line was read.
    pub(crate) fn new(alloc: Global) -> Draft
        ensures { result ≡ start }
    {
        Draft {
            position: Position::Start,
            format: Format::One,
            mark: false,
            horizon: 0,
            holds: Vec::new(alloc),
            list: Vec::new(alloc),
            reach: 0,
        }
    }

    /// Whether the last line was END.
    pub(crate) fn is_ended(&self) -> bool
        ensures { result ≡ ended_test self.now.position }
    {
        is_ended(self.position)
    }

    /// What decides which line may stand next.
    pub(crate) fn stop(&self) -> Stop
        ensures { result ≡ stop_in self.now }
    {
        Stop::new(self.position, self.format, last_count(&self.list))
    }

    /// Whether an earlier transmission ends behind the moment of the last.
    fn is_hit(&self) -> bool
        ensures { result ≡ hit_test self.now.list }
    {
        last_moment(&self.list) < self.reach
    }

    /// Whether no transmission can come behind the last.
    fn is_final(&self) -> bool
        ensures { result ≡ final_test self.now.horizon self.now.list }
    {
        last_moment(&self.list) + 1 == self.horizon && last_sender(&self.list) == MOST_TERMINAL
    }

    /// Whether the mark of the last transmission shows wrong at a line that meets it or not.
    fn is_refuted(&self, met: bool) -> bool
        ensures { result ≡ refuted_test self.now met }
    {
        is_closed(self.position) && turns_wrong(self.mark, self.is_hit(), met)
    }

    /// How far the transmissions before the last reach, once a wordstring has come.
    fn reach_behind(&self) -> u64
        ensures { (string : AnyString) → IsReach (more_list self.now.position string self.now.list) result }
    {
        match self.position {
            Position::Begun { .. } => self.reach.max(last_end(&self.list)),
            _ => self.reach,
        }
    }

    /// Takes a TRACE line.
    #[tactic(auto, unfolding(crate::specs::States::head_step))]
    fn take_head(&mut self, fields: &[&[u8]]) -> Result<(), LineFault<TraceReason>>
        ensures { StepGives self.old self.new result (head_step self.old (texts fields.now)) }
    {
        if fields.len() != 2 {
            return Err(LineFault::Refused(TraceReason::Fields));
        }
        let Some(format) = format_of(field_at(fields, 1)) else {
            return Err(LineFault::Refused(TraceReason::Fields));
        };
        self.position = Position::Headed;
        self.format = format;
        Ok(())
    }

    /// Takes a HORIZON line.
    #[tactic(auto, unfolding(crate::specs::States::horizon_step))]
    fn take_horizon(&mut self, fields: &[&[u8]]) -> Result<(), LineFault<TraceReason>>
        ensures { StepGives self.old self.new result (horizon_step self.old (texts fields.now)) }
    {
        if fields.len() != 2 {
            return Err(LineFault::Refused(TraceReason::Fields));
        }
        if !is_plain(field_at(fields, 1)) {
            return Err(LineFault::Refused(TraceReason::Spelling));
        }
        let Some(horizon) = bounded(field_at(fields, 1), 0, HORIZON_LIMIT) else {
            return Err(LineFault::Refused(TraceReason::Range));
        };
        self.position = Position::Holding;
        self.horizon = horizon;
        Ok(())
    }

    /// Takes a HOLD line.
    #[tactic(auto, unfolding(crate::specs::States::hold_step))]
    fn take_hold(&mut self, fields: &[&[u8]]) -> Result<(), LineFault<TraceReason>>
        ensures { StepGives self.old self.new result (hold_step self.old (texts fields.now)) }
    {
        if fields.len() != 3 {
            return Err(LineFault::Refused(TraceReason::Fields));
        }
        if !is_plain(field_at(fields, 1)) || !is_plain(field_at(fields, 2)) {
            return Err(LineFault::Refused(TraceReason::Spelling));
        }
        let Some(terminal) = bounded(field_at(fields, 1), 1, MOST_TERMINAL as u64) else {
            return Err(LineFault::Refused(TraceReason::Range));
        };
        let Some(count) = bounded(field_at(fields, 2), 0, u32::MAX as u64) else {
            return Err(LineFault::Refused(TraceReason::Range));
        };
        if u64::from(last_terminal(&self.holds)) >= terminal {
            return Err(LineFault::Refused(TraceReason::Order));
        }
        self.holds.push(Hold {
            terminal: terminal as u8,
            count: count as u32,
        })?;
        self.position = Position::Holding;
        Ok(())
    }

    /// Takes a TX line.
    #[tactic(auto, unfolding(crate::specs::States::begin_step))]
    fn take_begin(&mut self, fields: &[&[u8]]) -> Result<(), LineFault<TraceReason>>
        requires { self.old.horizon ≤ horizon_limit }
        ensures { StepGives self.old self.new result (begin_step self.old (texts fields.now)) }
    {
        if fields.len() != 3 {
            return Err(LineFault::Refused(TraceReason::Fields));
        }
        if !is_plain(field_at(fields, 1)) || !is_plain(field_at(fields, 2)) {
            return Err(LineFault::Refused(TraceReason::Spelling));
        }
        let Some(moment) = below(field_at(fields, 1), self.horizon) else {
            return Err(LineFault::Refused(TraceReason::Range));
        };
        let Some(terminal) = bounded(field_at(fields, 2), 1, MOST_TERMINAL as u64) else {
            return Err(LineFault::Refused(TraceReason::Range));
        };
        if !is_after(&self.list, moment, terminal) {
            return Err(LineFault::Refused(TraceReason::Order));
        }
        if self.is_refuted(moment < last_end(&self.list)) {
            return Err(LineFault::Refused(TraceReason::Mark));
        }
        self.position = Position::Begun {
            moment,
            terminal: terminal as u8,
        };
        Ok(())
    }

    /// Takes a WS line.
    #[tactic(auto, unfolding(crate::specs::States::string_step))]
    fn take_string(&mut self, alloc: Global, fields: &[&[u8]]) -> Result<(), LineFault<TraceReason>>
        requires { TakesString self.old.position (count_of self.old.list) }
        ensures { StepGives self.old self.new result (string_step self.old (texts fields.now)) }
    {
        if fields.len() < 2 || fields.len() > MOST_FIELDS {
            return Err(LineFault::Refused(TraceReason::Fields));
        }
        let words = fields_from(fields, 1);
        if !are_spelled(words) {
            return Err(LineFault::Refused(TraceReason::Spelling));
        }
        if !have_parity(words) {
            return Err(LineFault::Refused(TraceReason::Parity));
        }
        let string = wordstring(alloc, words)?;
        self.add_string(alloc, string)?;
        Ok(())
    }

    /// Takes the wordstring of a WS line.
    fn add_string(&mut self, alloc: Global, string: Wordstring) -> Result<(), AllocError>
        requires { TakesString self.old.position (count_of self.old.list) }
        ensures ok { OnOk result (self.new ≡ string_taken self.old string) }
        ensures err { OnErr result (self.new ≡ self.old) }
    {
        let reach = self.reach_behind();
        take_string(alloc, &mut self.list, self.position, string)?;
        self.reach = reach;
        self.position = Position::Stringing;
        Ok(())
    }

    /// Takes a TE line.
    #[tactic(auto, unfolding(crate::specs::States::close_step))]
    fn take_close(&mut self, fields: &[&[u8]]) -> Result<(), LineFault<TraceReason>>
        ensures { StepGives self.old self.new result (close_step self.old (texts fields.now)) }
    {
        if fields.len() != 3 {
            return Err(LineFault::Refused(TraceReason::Fields));
        }
        if !is_plain(field_at(fields, 1)) || !is_mark(field_at(fields, 2)) {
            return Err(LineFault::Refused(TraceReason::Spelling));
        }
        let mark = mark_of(field_at(fields, 2));
        if !writes(field_at(fields, 1), last_end(&self.list)) {
            return Err(LineFault::Refused(TraceReason::Mark));
        }
        if starts_wrong(mark, self.is_hit(), self.is_final()) {
            return Err(LineFault::Refused(TraceReason::Mark));
        }
        self.position = Position::Closed;
        self.mark = mark;
        Ok(())
    }

    /// Takes an END line.
    #[tactic(auto, unfolding(crate::specs::States::end_step))]
    fn take_end(&mut self, fields: &[&[u8]]) -> Result<(), LineFault<TraceReason>>
        ensures { StepGives self.old self.new result (end_step self.old (texts fields.now)) }
    {
        if fields.len() != 1 {
            return Err(LineFault::Refused(TraceReason::Fields));
        }
        if self.is_refuted(false) {
            return Err(LineFault::Refused(TraceReason::Mark));
        }
        self.position = Position::Ended;
        Ok(())
    }

    /// Takes a line of the form that its keyword begins, where that keyword may stand.
    fn take_form(
        &mut self,
        alloc: Global,
        keyword: Keyword,
        fields: &[&[u8]],
    ) -> Result<(), LineFault<TraceReason>>
        requires sound { IsSound self.old }
        requires stands { may_stand self.old.position self.old.format (count_of self.old.list) keyword ≡ true }
        ensures { StepGives self.old self.new result (form_step keyword self.old (texts fields.now)) }
    {
        match keyword {
            Keyword::Trace => self.take_head(fields),
            Keyword::Horizon => self.take_horizon(fields),
            Keyword::Hold => self.take_hold(fields),
            Keyword::Tx => self.take_begin(fields),
            Keyword::Ws => self.take_string(alloc, fields),
            Keyword::Te => self.take_close(fields),
            Keyword::End => self.take_end(fields),
        }
    }

    /// Takes a line by its fields.
    fn take_fields(&mut self, alloc: Global, fields: &[&[u8]]) -> Result<(), LineFault<TraceReason>>
        requires sound { IsSound self.old }
        requires some { 0 < length fields.now }
        ensures { StepGives self.old self.new result (fields_step self.old (texts fields.now)) }
    {
        let Some(keyword) = keyword_of(field_at(fields, 0)) else {
            return Err(LineFault::Refused(TraceReason::Keyword));
        };
        if !may_follow(self.position, self.format, last_count(&self.list), keyword) {
            return Err(LineFault::Refused(TraceReason::Keyword));
        }
        self.take_form(alloc, keyword, fields)
    }

    /// Takes a WS line that is spelled as it is written, where all of it is right.
    #[inline(always)]
    fn take_quick_string<'a>(
        &mut self,
        alloc: Global,
        text: &'a [u8],
        feed: bool,
    ) -> Result<Option<&'a [u8]>, AllocError>
        requires { IsSound self.old }
        ensures ok { IfOk result (λ o. MatchOption o (self.new ≡ self.old) (λ r. TakesFront feed self.old self.new text.now r.now)) }
        ensures err { OnErr result (self.new ≡ self.old) }
    {
        if !may_follow(
            self.position,
            self.format,
            last_count(&self.list),
            Keyword::Ws,
        ) {
            return Ok(None);
        }
        let Some((string, rest)) = string_line(alloc, text, feed)? else {
            return Ok(None);
        };
        let Some(rest) = behind_end(rest, feed) else {
            return Ok(None);
        };
        let _ranges = string.words();
        self.add_string(alloc, string)?;
        Ok(Some(rest))
    }

    /// Whether a TX line of these numbers is right.
    fn begins_right(&self, moment: u64, terminal: u64) -> bool
        ensures { IsTrue result → BeginsRight self.now moment terminal }
    {
        may_follow(
            self.position,
            self.format,
            last_count(&self.list),
            Keyword::Tx,
        ) && moment < self.horizon
            && 1 <= terminal
            && terminal <= MOST_TERMINAL as u64
            && is_after(&self.list, moment, terminal)
            && !self.is_refuted(moment < last_end(&self.list))
    }

    /// Takes a TX line that is spelled as it is written, where all of it is right.
    #[inline(always)]
    fn take_quick_begin<'a>(&mut self, text: &'a [u8], feed: bool) -> Option<&'a [u8]>
        requires { IsSound self.old }
        ensures { MatchOption result (self.new ≡ self.old) (λ r. TakesFront feed self.old self.new text.now r.now) }
    {
        let (moment, terminal, rest) = begin_line(text)?;
        let rest = behind_end(rest, feed)?;
        if !self.begins_right(moment, terminal) {
            return None;
        }
        self.position = Position::Begun {
            moment,
            terminal: terminal as u8,
        };
        Some(rest)
    }

    /// Whether a TE line of this moment and this mark is right, or not yet wrong.
    fn closes_right(&self, end: u64, mark: bool) -> bool
        ensures { IsTrue result → ClosesRight self.now end mark }
    {
        may_follow(
            self.position,
            self.format,
            last_count(&self.list),
            Keyword::Te,
        ) && end == last_end(&self.list)
            && !starts_wrong(mark, self.is_hit(), self.is_final())
    }

    /// Takes a TE line that is spelled as it is written, where all of it is right.
    #[inline(always)]
    fn take_quick_close<'a>(&mut self, text: &'a [u8], feed: bool) -> Option<&'a [u8]>
        requires { IsSound self.old }
        ensures { MatchOption result (self.new ≡ self.old) (λ r. TakesFront feed self.old self.new text.now r.now) }
    {
        let (end, mark, rest) = close_line(text)?;
        let rest = behind_end(rest, feed)?;
        if !self.closes_right(end, mark) {
            return None;
        }
        self.position = Position::Closed;
        self.mark = mark;
        Some(rest)
    }

    /// Takes a line of a transmission in front of a text that is spelled as it is written, where all of it is right, and gives what is
    /// behind its line feed, or nothing, where the text is one line and given without one. It is a part of each loop that calls it.
    #[inline(always)]
    pub(crate) fn take_quickly<'a>(
        &mut self,
        alloc: Global,
        text: &'a [u8],
        feed: bool,
    ) -> Result<Option<&'a [u8]>, AllocError>
        requires { IsSound self.old }
        ensures ok { IfOk result (λ o. MatchOption o (self.new ≡ self.old) (λ r. TakesFront feed self.old self.new text.now r.now)) }
        ensures err { OnErr result (self.new ≡ self.old) }
    {
        match text {
            [b'W', ..] => self.take_quick_string(alloc, text, feed),
            [b'T', b'X', ..] => Ok(self.take_quick_begin(text, feed)),
            [b'T', b'E', ..] => Ok(self.take_quick_close(text, feed)),
            _ => Ok(None),
        }
    }

    /// Takes the next line by its fields.
    #[tactic(auto, unfolding(crate::specs::States::step))]
    fn take_slowly(&mut self, alloc: Global, line: &[u8]) -> Result<(), LineFault<TraceReason>>
        requires { IsSound self.old }
        ensures { StepGives self.old self.new result (step self.old line.now) }
    {
        let fields = fields(alloc, line)?;
        self.take_fields(alloc, &fields)
    }

    /// Takes the next line, which is given without its line feed.
    pub(crate) fn take_line(
        &mut self,
        alloc: Global,
        line: &[u8],
    ) -> Result<(), LineFault<TraceReason>>
        requires sound { IsSound self.old }
        requires short { length line.now ≤ line_limit }
        ensures { StepGives self.old self.new result (step self.old line.now) }
    {
        match self.take_quickly(alloc, line, false)? {
            Some(_) => Ok(()),
            None => self.take_slowly(alloc, line),
        }
    }

    /// The trace of what was read.
    pub(crate) fn into_trace(self) -> Trace
        requires { IsSound self }
        ensures { result ≡ recorded self }
    {
        let Draft {
            horizon,
            holds,
            list,
            ..
        } = self;
        Trace::of(horizon, holds, list)
    }
}
