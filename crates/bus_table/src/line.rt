//! The SEND and TAKE lines of a terminal.
use bus_words::{Ext, Label};

/// A wordstring that a terminal sends in each of its messages.
#[derive(Clone, Copy, Debug, PartialEq, Eq)]
pub struct SendLine {
    /// The label of its label word.
    pub label: Label,
    /// The extension of its label word.
    pub ext: Ext,
    /// The least number of data words: at most `most`.
    pub least: u16,
    /// The most data words: 0 to 256.
    pub most: u16,
}

/// Data words that a terminal takes from wordstrings of others.
#[derive(Clone, Copy, Debug, PartialEq, Eq)]
pub struct TakeLine {
    /// The label of the wordstrings.
    pub label: Label,
    /// Their extension; None stands for every extension.
    pub ext: Option<Ext>,
    /// The place of the first data word, counted from 0: 0 to 255.
    pub first: u16,
    /// How many data words: 1 to 256.
    pub count: u16,
}
