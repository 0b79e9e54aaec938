//! A terminal that takes and never sends.
ghost use Rattle.std.specs.Prelude.{◌≡◌, ◌<◌, length, IsTrue, IfOk, OnOk};
ghost use Rattle.bus_table.specs.Ranges.{is_listener, is_number as is_terminal, is_take_line, most_takes, kept};

use crate::line::TakeLine;
use crate::ranges::{are_take_lines, is_number};
use std::alloc::{AllocError, Global};
use std::marker::Model;

/// A terminal that takes and never sends. It keeps that its number and its lines are in their ranges.
#[derive(Debug, Drop)]
pub struct Listener {
    number: u8,
    takes: Vec<TakeLine>,
}

impl Model for Listener {
    ghost use Rattle.std.specs.Prelude.{IsTrue};
    ghost use Rattle.bus_table.specs.Tables as tables;
    ghost use Rattle.bus_table.specs.Ranges.{is_listener};

    ghost Value = { tables.Listener };

    ghost view = { λ l. record { number = l.number; takes = l.takes.items } };

    ghost invariant = { λ l. IsTrue (is_listener (record { number = l.number; takes = l.takes.items })) };
}

impl Listener {
    ghost use Rattle.bus_table.specs.Drafts.{hearing, with_heard};

    /// None exactly where the number is out of its range, where there are more than 64 TAKE lines, or where a number of
    /// a line is out of its range.
    pub fn new(number: u8, takes: Vec<TakeLine>) -> Option<Listener>
        ensures { result ≡ kept is_listener (record { number = number; takes = takes.items }) }
    {
        if is_number(number) && are_take_lines(&takes) {
            Some(Listener { number, takes })
        } else {
            None
        }
    }

    /// A listener without TAKE lines.
    pub(crate) fn open(alloc: Global, number: u8) -> Listener
        requires { IsTrue (is_terminal number) }
        ensures { result ≡ hearing number }
    {
        Listener {
            number,
            takes: Vec::new(alloc),
        }
    }

    /// Adds a TAKE line behind the others.
    pub(crate) fn add_take(&mut self, line: TakeLine) -> Result<(), AllocError>
        requires room { length self.old.takes < most_takes }
        requires range { IsTrue (is_take_line line) }
        ensures ok { OnOk result (self.new ≡ with_heard line self.old) }
    {
        // The checker knows of the option in the line only where it is named.
        let _ext = line.ext;
        self.takes.push(line)?;
        Ok(())
    }

    /// An equal listener. Fails only where memory runs out.
    pub(crate) fn copied(&self, alloc: Global) -> Result<Listener, AllocError>
        ensures { IfOk result (λ listener. listener ≡ self.now) }
    {
        Ok(Listener {
            number: self.number,
            takes: Vec::from_slice(alloc, &self.takes)?,
        })
    }

    /// Its terminal number: 1 to 128.
    pub fn number(&self) -> u8
        ensures value { result ≡ self.now.number }
        ensures ranges { IsTrue (is_listener self.now) }
    {
        self.number
    }

    /// What it takes from others: 0 to 64 lines.
    pub fn takes(&self) -> &[TakeLine]
        ensures value { result.now ≡ self.now.takes }
        ensures ranges { IsTrue (is_listener self.now) }
    {
        &self.takes
    }
}
