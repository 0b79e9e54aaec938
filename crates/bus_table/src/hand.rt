//! What a terminal has to send.
ghost use Rattle.std.specs.Prelude.{◌≡◌, OnOk};
ghost use Rattle.bus_table.specs.Hands.{with_message};

use bus_strings::Message;
use std::alloc::AllocError;
use std::marker::Model;

/// What a terminal has to send: its messages, in the order of their starts.
#[derive(Debug, Drop)]
pub struct Hand {
    /// The terminal's number.
    pub terminal: u8,
    /// Its messages.
    pub messages: Vec<Message>,
}

impl Model for Hand {
    ghost use Rattle.bus_table.specs.Tables as tables;

    ghost Value = { tables.Hand };

    ghost view = { λ h. record { terminal = h.terminal; messages = h.messages.items } };
}

impl Hand {
    /// Adds a message behind the others. Fails only where memory runs out.
    pub fn push(&mut self, message: Message) -> Result<(), AllocError>
        ensures { OnOk result (self.new ≡ with_message self.old message) }
    {
        self.messages.push(message)?;
        Ok(())
    }
}
