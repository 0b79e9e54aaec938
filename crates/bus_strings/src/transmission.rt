//! A message on the bus.
ghost use Rattle.std.specs.Prelude.{◌≡◌, ◌<◌};
ghost use Rattle.bus_strings.specs.Messages.{IsMessage};
ghost use Rattle.bus_strings.specs.Transmissions.{end_of};

use crate::message::Message;
use crate::pulses::bits;
use std::marker::Model;

/// A message on the bus. Its terminal is 1 to [`MOST_TERMINAL`](crate::limits::MOST_TERMINAL), and its moment below
/// [`HORIZON_LIMIT`](crate::limits::HORIZON_LIMIT); both limits are this project's profile.
#[derive(Debug, Drop)]
pub struct Transmission {
    /// When its first bit time begins, in bit times from the settled start.
    pub moment: u64,
    /// The number of the terminal that sends it.
    pub terminal: u8,
    /// What is sent.
    pub message: Message,
}

impl Model for Transmission {
    ghost use Rattle.std.specs.Prelude.{◌<◌, ◌≤◌};
    ghost use Rattle.bus_strings.specs.Limits.{horizon_limit, most_terminal};
    ghost use Rattle.bus_strings.specs.Messages.{Entry};

    ghost Value = { Entry };

    ghost view = { λ x. record { moment = x.moment; terminal = x.terminal; message = x.message } };

    ghost invariant = { λ x. (1 ≤ x.terminal) × (x.terminal ≤ most_terminal) × (x.moment < horizon_limit) };
}

impl Transmission {
    /// The moment at which it has ended: its own moment and the bit times of its message.
    pub fn end(&self) -> u64
        ensures value { result ≡ end_of self.now }
        ensures some { self.now.moment < result }
        ensures ranges { IsMessage self.now.message }
    {
        self.moment + bits(&self.message) as u64
    }
}
