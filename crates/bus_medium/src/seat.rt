//! A sender of the bus.

use crate::terminal::Terminal;
use bus_timers::{Core, Timing};
use std::marker::Model;

/// A sender of the bus: its timing, and its terminal.
#[derive(Drop)]
pub struct Seat<C: Core> {
    /// The numbers by which its timers run, in bit times.
    pub timing: Timing,
    /// Its core, its hand, and what it is sending.
    pub terminal: Terminal<C>,
}

impl<C: Core> Model for Seat<C> {
    ghost use Rattle.bus_medium.specs.Buses as buses;

    ghost Value = { buses.Seat C };

    ghost view = { λ s. record { timing = s.timing; terminal = s.terminal } };
}
