//! The labels of a table that are voted on.
use bus_words::{Ext, Label};

/// A SEND line of a label: its sender, and its extension.
#[derive(Clone, Copy, Debug, PartialEq, Eq)]
pub(crate) struct Channel {
    /// The number of the sender.
    pub terminal: u8,
    /// The extension.
    pub ext: Ext,
}

/// A label that exactly three SEND lines of a table have, each of another sender: its channels, in table order.
#[derive(Clone, Copy, Debug, PartialEq, Eq)]
pub(crate) struct VotedLabel {
    /// The label.
    pub label: Label,
    /// The channel of its first SEND line.
    pub first: Channel,
    /// The channel of its second SEND line.
    pub second: Channel,
    /// The channel of its third SEND line.
    pub third: Channel,
}
