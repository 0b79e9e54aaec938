//! The items of a messages text.
use std::marker::Model;

/// One item of a messages text: the data words of a message of a terminal, wordstring by wordstring, without its labels.
#[derive(Debug, Drop)]
pub struct Payload {
    /// The number of the terminal.
    pub terminal: u8,
    /// The data words of each wordstring.
    pub strings: Vec<Vec<u16>>,
}

impl Model for Payload {
    ghost use Rattle.bus_strings.specs.Items.{Item, numbers};

    ghost Value = { Item };

    ghost view = { λ p. record { terminal = p.terminal; strings = numbers p.strings.items } };
}

/// The items of a messages text, in order. A terminal's messages are its items. Each terminal is 1 to 128, and each item
/// has 1 to 31 wordstrings of at most 256 data words, in this project's profile.
#[derive(Debug, Drop)]
pub struct Payloads {
    /// The items.
    pub items: Vec<Payload>,
}

impl Model for Payloads {
    ghost use Rattle.std.specs.Prelude.{List};
    ghost use Rattle.std.specs.List.{AllByRecursion};
    ghost use Rattle.bus_strings.specs.Items.{Item, IsItem};

    ghost Value = { List Item };

    ghost view = { λ p. p.items.items };

    ghost invariant = { λ p. AllByRecursion IsItem p.items.items };
}
