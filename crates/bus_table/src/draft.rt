//! What the lines of a table text have given so far, and what a further line makes of it.
ghost use Rattle.std.specs.Prelude.{◌≡◌, ◌<◌, length, OnOk, IsTrue};
ghost use Rattle.bus_text.specs.Entries.{texts};
ghost use Rattle.bus_strings.specs.Limits.{most_strings};
ghost use Rattle.bus_table.specs.declared.keyword.Keyword.TheVariants as keywords;
ghost use Rattle.bus_table.specs.Drafts as drafts;
ghost use Rattle.bus_table.specs.Ranges.{is_send_line, is_take_line, most_takes};

use crate::error::TableError;
use crate::forms::{
    listener_line, mode_line, number_line, send_line, sender_line, table_line, take_line,
};
use crate::keyword::{Keyword, keyword_of};
use crate::line::{SendLine, TakeLine};
use crate::listener::Listener;
use crate::mode::Mode;
use crate::ranges::{LEAST_SG, LEAST_TI, MOST_SG, MOST_TAKES, MOST_TI};
use crate::sender::Sender;
use crate::stage::Stage;
use crate::stop::Stop;
use crate::table::Table;
use bus_strings::limits::MOST_STRINGS;
use bus_text::{Line, LineFault, Reason, take_fields};
use std::alloc::{AllocError, Global};
use std::marker::Model;

/// How many SEND lines the last sender has.
fn last_sends(senders: &[Sender]) -> usize
    ensures { result ≡ drafts.last_sends senders.now }
{
    match senders.last() {
        Some(sender) => sender.sends().len(),
        None => 0,
    }
}

/// How many TAKE lines the last sender has.
fn last_taken(senders: &[Sender]) -> usize
    ensures { result ≡ drafts.of_last (λ sender. length sender.takes) senders.now }
{
    match senders.last() {
        Some(sender) => sender.takes().len(),
        None => 0,
    }
}

/// How many TAKE lines the last listener has.
fn last_heard(listeners: &[Listener]) -> usize
    ensures { result ≡ drafts.of_last (λ listener. length listener.takes) listeners.now }
{
    match listeners.last() {
        Some(listener) => listener.takes().len(),
        None => 0,
    }
}

/// How many TAKE lines the terminal has that stands last.
fn last_takes(stage: Stage, senders: &[Sender], listeners: &[Listener]) -> usize
    ensures { result ≡ drafts.last_takes stage senders.now listeners.now }
{
    match stage {
        Stage::Listener => last_heard(listeners),
        _ => last_taken(senders),
    }
}

/// Gives the last sender one more SEND line.
fn send_by_last(senders: &mut Vec<Sender>, line: SendLine) -> Result<(), AllocError>
    requires room { drafts.last_sends senders.old.items < most_strings }
    requires range { IsTrue (is_send_line line) }
    ensures ok { OnOk result (senders.new.items ≡ drafts.with_last (drafts.with_send line) senders.old.items) }
{
    if let Some(sender) = senders.last_mut() {
        sender.add_send(line)?;
    }
    Ok(())
}

/// Gives the last sender one more TAKE line.
fn take_by_last(senders: &mut Vec<Sender>, line: TakeLine) -> Result<(), AllocError>
    requires room { drafts.of_last (λ sender. length sender.takes) senders.old.items < most_takes }
    requires range { IsTrue (is_take_line line) }
    ensures ok { OnOk result (senders.new.items ≡ drafts.with_last (drafts.with_take line) senders.old.items) }
{
    if let Some(sender) = senders.last_mut() {
        sender.add_take(line)?;
    }
    Ok(())
}

/// Gives the last listener one more TAKE line.
fn hear_by_last(listeners: &mut Vec<Listener>, line: TakeLine) -> Result<(), AllocError>
    requires room { drafts.of_last (λ listener. length listener.takes) listeners.old.items < most_takes }
    requires range { IsTrue (is_take_line line) }
    ensures ok { OnOk result (listeners.new.items ≡ drafts.with_last (drafts.with_heard line) listeners.old.items) }
{
    if let Some(listener) = listeners.last_mut() {
        listener.add_take(line)?;
    }
    Ok(())
}

/// Adds a SEND line, which behind a SENDER line is the first of a new sender.
fn add_send(
    alloc: Global,
    stage: Stage,
    senders: &mut Vec<Sender>,
    line: SendLine,
) -> Result<(), AllocError>
    requires room { IsTrue (drafts.may_follow stage (drafts.last_sends senders.old.items) 0 keywords.Send) }
    requires range { IsTrue (is_send_line line) }
    ensures ok { OnOk result (senders.new.items ≡ drafts.senders_after stage line senders.old.items) }
{
    match stage {
        Stage::Sender(head) => {
            senders.push(Sender::open(alloc, head, line)?)?;
            Ok(())
        }
        _ => send_by_last(senders, line),
    }
}

/// Whether a keyword may come at a stage, where the terminal that stands last has so many SEND lines and TAKE lines.
pub(crate) fn may_follow(stage: Stage, sends: usize, takes: usize, keyword: Keyword) -> bool
    ensures { result ≡ drafts.may_follow stage sends takes keyword }
{
    match (stage, keyword) {
        (Stage::Start, Keyword::Table) => true,
        (Stage::Table, Keyword::Mode) => true,
        (Stage::Mode, Keyword::Ti) => true,
        (Stage::Ti, Keyword::Sg) => true,
        (Stage::Sg, Keyword::Sender | Keyword::Listener) => true,
        (Stage::Sender(_), Keyword::Send) => true,
        (Stage::Send, Keyword::Send) => sends < MOST_STRINGS,
        (Stage::Send | Stage::Take | Stage::Listener, Keyword::Take) => takes < MOST_TAKES,
        (Stage::Send | Stage::Take, Keyword::Sender) => true,
        (Stage::Send | Stage::Take | Stage::Listener, Keyword::Listener) => true,
        _ => false,
    }
}

/// What the lines so far have given.
#[derive(Drop)]
pub struct Draft {
    stage: Stage,
    mode: Mode,
    ti: u32,
    sg: u32,
    senders: Vec<Sender>,
    listeners: Vec<Listener>,
}

impl Model for Draft {
    ghost use Rattle.bus_table.specs.Drafts as drafts;

    ghost Value = { drafts.Draft };

    ghost view = { λ d. drafts.draft_of d.stage d.mode d.ti d.sg d.senders.items d.listeners.items };
}

impl Draft {
    ghost use Rattle.bus_text.specs.Entries.{entry};
    ghost use Rattle.bus_text.specs.inside.Gives.{StepGives as FieldsGive};
    ghost use Rattle.bus_table.specs.inside.LineGives.{StepGives};
    ghost use Rattle.bus_table.specs.Reading.{step, table_of, judged};
    ghost use Rattle.bus_table.specs.Stops.{stop_in};
    ghost use Rattle.bus_table.specs.Valid.{is_in_range};

    /// What is known before the first line.
    pub fn new(alloc: Global) -> Draft
        ensures { result ≡ drafts.start }
    {
        Draft {
            stage: Stage::Start,
            mode: Mode::Aperiodic,
            ti: 0,
            sg: 0,
            senders: Vec::new(alloc),
            listeners: Vec::new(alloc),
        }
    }

    /// Whether a line of a keyword may come next.
    fn may_come(&self, keyword: Keyword) -> bool
        ensures { result ≡ drafts.may_come self.now keyword }
    {
        let takes = last_takes(self.stage, &self.senders, &self.listeners);
        may_follow(self.stage, last_sends(&self.senders), takes, keyword)
    }

    /// Takes a TAKE line, which is of the terminal that stands last.
    fn add_take(&mut self, line: TakeLine) -> Result<(), AllocError>
        requires room { IsTrue (drafts.may_come self.old keywords.Take) }
        requires range { IsTrue (is_take_line line) }
        ensures { OnOk result (self.new ≡ drafts.taken self.old.stage self.old line) }
    {
        match self.stage {
            Stage::Listener => hear_by_last(&mut self.listeners, line),
            _ => {
                take_by_last(&mut self.senders, line)?;
                self.stage = Stage::Take;
                Ok(())
            }
        }
    }

    /// Takes the fields of a line of this keyword, which may come next.
    fn take_form(
        &mut self,
        alloc: Global,
        keyword: Keyword,
        fields: &[&[u8]],
    ) -> Result<(), LineFault>
        requires { IsTrue (drafts.may_come self.old keyword) }
        ensures { FieldsGive self.new result (drafts.form_reading self.old keyword (texts fields.now)) }
    {
        match keyword {
            Keyword::Table => {
                table_line(fields)?;
                self.stage = Stage::Table;
            }
            Keyword::Mode => {
                self.mode = mode_line(fields)?;
                self.stage = Stage::Mode;
            }
            Keyword::Ti => {
                self.ti = number_line(fields, LEAST_TI, MOST_TI)?;
                self.stage = Stage::Ti;
            }
            Keyword::Sg => {
                self.sg = number_line(fields, LEAST_SG, MOST_SG)?;
                self.stage = Stage::Sg;
            }
            Keyword::Sender => self.stage = Stage::Sender(sender_line(self.mode, fields)?),
            Keyword::Send => {
                let line = send_line(fields)?;
                add_send(alloc, self.stage, &mut self.senders, line)?;
                self.stage = Stage::Send;
            }
            Keyword::Take => {
                let line = take_line(fields)?;
                // The checker knows of the option in the line only where it is named.
                let _ext = line.ext;
                self.add_take(line)?;
            }
            Keyword::Listener => {
                let number = listener_line(fields)?;
                self.listeners.push(Listener::open(alloc, number))?;
                self.stage = Stage::Listener;
            }
        }
        Ok(())
    }

    /// Takes the fields of a line.
    #[tactic(auto, unfolding(crate::specs::Drafts::line_reading))]
    fn take_fields(&mut self, alloc: Global, fields: &[&[u8]]) -> Result<(), LineFault>
        ensures { FieldsGive self.new result (drafts.line_reading self.old (texts fields.now)) }
    {
        let Some(keyword) = keyword_of(fields) else {
            return Err(LineFault::Refused(Reason::Keyword));
        };
        if !self.may_come(keyword) {
            return Err(LineFault::Refused(Reason::Keyword));
        }
        self.take_form(alloc, keyword, fields)
    }

    /// Takes a line. `fields` is room that is used again from line to line; it holds nothing of use.
    pub fn take_line<'a>(
        &mut self,
        alloc: Global,
        fields: &mut Vec<&'a [u8]>,
        line: Line<'a>,
    ) -> Result<(), TableError>
        ensures { StepGives self.new result (step self.old (entry line.entry)) }
    {
        take_fields(fields, line.bytes)?;
        match self.take_fields(alloc, fields) {
            Ok(()) => Ok(()),
            Err(LineFault::Memory) => Err(TableError::Memory),
            Err(LineFault::Refused(reason)) => Err(TableError::Text {
                line: line.number,
                reason,
            }),
        }
    }

    /// Where the reading stops, at a line of this keyword.
    pub fn stop(&self, word: Option<Keyword>) -> Stop
        ensures { result ≡ stop_in self.now word }
    {
        let takes = last_takes(self.stage, &self.senders, &self.listeners);
        Stop::new(
            self.stage,
            last_sends(&self.senders),
            takes,
            self.mode,
            word,
        )
    }

    /// Whether the text may end here.
    pub fn may_end(&self) -> bool
        ensures { result ≡ drafts.may_end self.now.stage }
    {
        self.stage.may_end()
    }

    /// The table, unless a whole reason applies.
    pub fn table(self) -> Result<Table, TableError>
        requires { IsTrue (is_in_range (table_of self)) }
        ensures { result ≡ judged (table_of self) }
    {
        Table::judged(self.mode, self.ti, self.sg, self.senders, self.listeners)
    }
}
