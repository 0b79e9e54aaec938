//! A terminal that sends.
ghost use Rattle.std.specs.Prelude.{◌≡◌, ◌<◌, length, IsTrue, IfOk, OnOk};
ghost use Rattle.bus_strings.specs.Limits.{most_strings};
ghost use Rattle.bus_table.specs.Ranges.{is_sender, is_send_line, is_take_line, most_takes, kept, most_ti};

use crate::head::Head;
use crate::line::{SendLine, TakeLine};
use crate::ranges::{are_send_lines, are_take_lines, is_number, is_offset, is_tg};
use std::alloc::{AllocError, Global};
use std::marker::Model;

/// A terminal that sends, and its gaps and lines. It keeps that each of them is in its range.
#[derive(Debug, Drop)]
pub struct Sender {
    number: u8,
    tg: u32,
    at: u32,
    sends: Vec<SendLine>,
    takes: Vec<TakeLine>,
}

impl Model for Sender {
    ghost use Rattle.std.specs.Prelude.{IsTrue};
    ghost use Rattle.bus_table.specs.Tables as tables;
    ghost use Rattle.bus_table.specs.Ranges.{is_sender};

    ghost Value = { tables.Sender };

    ghost view = { λ s. record { number = s.number; tg = s.tg; at = s.at; sends = s.sends.items; takes = s.takes.items } };

    ghost invariant = { λ s.
        IsTrue (is_sender (record { number = s.number; tg = s.tg; at = s.at; sends = s.sends.items; takes = s.takes.items })) };
}

impl Sender {
    ghost use Rattle.bus_table.specs.Drafts.{opened, with_send, with_take};
    ghost use Rattle.bus_table.specs.Offsets.{at_offset};

    /// None exactly where the number, the terminal gap or the offset is out of its range, where there are no SEND lines
    /// or more than 31, or more than 64 TAKE lines, or where a number of a line is out of its range.
    pub fn new(
        number: u8,
        tg: u32,
        at: u32,
        sends: Vec<SendLine>,
        takes: Vec<TakeLine>,
    ) -> Option<Sender>
        ensures { result ≡ kept is_sender (record { number = number; tg = tg; at = at; sends = sends.items; takes = takes.items }) }
    {
        if is_number(number)
            && is_tg(tg)
            && is_offset(at)
            && are_send_lines(&sends)
            && are_take_lines(&takes)
        {
            Some(Sender {
                number,
                tg,
                at,
                sends,
                takes,
            })
        } else {
            None
        }
    }

    /// A sender with its first SEND line.
    pub(crate) fn open(alloc: Global, head: Head, line: SendLine) -> Result<Sender, AllocError>
        requires { IsTrue (is_send_line line) }
        ensures { IfOk result (λ sender. sender ≡ opened head line) }
    {
        let mut sends = Vec::new(alloc);
        sends.push(line)?;
        Ok(Sender {
            number: head.number(),
            tg: head.tg(),
            at: head.at(),
            sends,
            takes: Vec::new(alloc),
        })
    }

    /// Adds a SEND line behind the others.
    pub(crate) fn add_send(&mut self, line: SendLine) -> Result<(), AllocError>
        requires room { length self.old.sends < most_strings }
        requires range { IsTrue (is_send_line line) }
        ensures ok { OnOk result (self.new ≡ with_send line self.old) }
    {
        self.sends.push(line)?;
        Ok(())
    }

    /// Adds a TAKE line behind the others.
    pub(crate) fn add_take(&mut self, line: TakeLine) -> Result<(), AllocError>
        requires room { length self.old.takes < most_takes }
        requires range { IsTrue (is_take_line line) }
        ensures ok { OnOk result (self.new ≡ with_take line self.old) }
    {
        // The checker knows of the option in the line only where it is named.
        let _ext = line.ext;
        self.takes.push(line)?;
        Ok(())
    }

    /// The same sender at another offset. Fails only where memory runs out.
    pub(crate) fn moved(&self, alloc: Global, at: u32) -> Result<Sender, AllocError>
        requires { at < most_ti }
        ensures { IfOk result (λ sender. sender ≡ at_offset at self.now) }
    {
        Ok(Sender {
            number: self.number,
            tg: self.tg,
            at,
            sends: Vec::from_slice(alloc, &self.sends)?,
            takes: Vec::from_slice(alloc, &self.takes)?,
        })
    }

    /// An equal sender. Fails only where memory runs out.
    pub(crate) fn copied(&self, alloc: Global) -> Result<Sender, AllocError>
        ensures { IfOk result (λ sender. sender ≡ self.now) }
    {
        self.moved(alloc, self.at)
    }

    /// Its terminal number: 1 to 128.
    pub fn number(&self) -> u8
        ensures value { result ≡ self.now.number }
        ensures ranges { IsTrue (is_sender self.now) }
    {
        self.number
    }

    /// Its terminal gap in bit times: 8 to 256.
    pub fn tg(&self) -> u32
        ensures value { result ≡ self.now.tg }
        ensures ranges { IsTrue (is_sender self.now) }
    {
        self.tg
    }

    /// Its offset in bit times: 0 to 127,999, and 0 in an aperiodic table.
    pub fn at(&self) -> u32
        ensures value { result ≡ self.now.at }
        ensures ranges { IsTrue (is_sender self.now) }
    {
        self.at
    }

    /// The wordstrings of its messages, in order: 1 to 31.
    pub fn sends(&self) -> &[SendLine]
        ensures value { result.now ≡ self.now.sends }
        ensures ranges { IsTrue (is_sender self.now) }
    {
        &self.sends
    }

    /// What it takes from others: 0 to 64 lines.
    pub fn takes(&self) -> &[TakeLine]
        ensures value { result.now ≡ self.now.takes }
        ensures ranges { IsTrue (is_sender self.now) }
    {
        &self.takes
    }
}
