//! The numbers of a SENDER line.
ghost use Rattle.std.specs.Prelude.{◌≡◌, IsTrue};
ghost use Rattle.bus_table.specs.Heads.{is_head};
ghost use Rattle.bus_table.specs.Ranges.{kept};

use crate::ranges::{LEAST_TG, MOST_TG, MOST_TI};
use bus_strings::limits::MOST_TERMINAL;
use std::marker::Model;

/// What a SENDER line says. It keeps that its numbers are in their ranges.
#[derive(Clone, Copy)]
pub struct Head {
    number: u8,
    tg: u32,
    at: u32,
}

impl Model for Head {
    ghost use Rattle.std.specs.Prelude.{IsTrue};
    ghost use Rattle.bus_table.specs.Heads as heads;

    ghost Value = { heads.Head };

    ghost view = { λ h. record { number = h.number; tg = h.tg; at = h.at } };

    ghost inverse = { λ h. record { number = h.number; tg = h.tg; at = h.at } };

    ghost invariant = { λ h. IsTrue (heads.is_head (record { number = h.number; tg = h.tg; at = h.at })) };
}

impl Head {
    /// None where the number, the gap or the offset is out of its range.
    pub fn new(number: u64, tg: u64, at: u64) -> Option<Head>
        ensures { result ≡ kept is_head (record { number = number; tg = tg; at = at }) }
    {
        if (1..=u64::from(MOST_TERMINAL)).contains(&number)
            && (u64::from(LEAST_TG)..=u64::from(MOST_TG)).contains(&tg)
            && at < u64::from(MOST_TI)
        {
            Some(Head {
                number: number as u8,
                tg: tg as u32,
                at: at as u32,
            })
        } else {
            None
        }
    }

    /// The terminal number: 1 to 128.
    pub fn number(&self) -> u8
        ensures value { result ≡ self.now.number }
        ensures ranges { IsTrue (is_head self.now) }
    {
        self.number
    }

    /// The terminal gap in bit times: 8 to 256.
    pub fn tg(&self) -> u32
        ensures value { result ≡ self.now.tg }
        ensures ranges { IsTrue (is_head self.now) }
    {
        self.tg
    }

    /// The offset in bit times: 0 to 127,999, and 0 in an aperiodic table.
    pub fn at(&self) -> u32
        ensures value { result ≡ self.now.at }
        ensures ranges { IsTrue (is_head self.now) }
    {
        self.at
    }
}
