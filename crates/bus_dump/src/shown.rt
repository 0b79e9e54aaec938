//! What is seen of a transmission at a bit time.

/// What a wordstring shows while it is on the bus.
#[derive(Clone, Copy, Debug, PartialEq, Eq)]
pub(crate) struct Shown {
    /// The value of its label word.
    pub label: u16,
    /// The value of the word that is on the bus.
    pub word: u16,
    /// Whether this is one of the bit times of sync at the front of that word.
    pub sync: bool,
}

/// What is seen at a bit time of a transmission whose span holds it.
#[derive(Clone, Copy, Debug, Default, PartialEq, Eq)]
pub(crate) struct Seen {
    /// The terminal that sends it.
    pub terminal: u8,
    /// Which transmission of its terminal it is, from 1.
    pub number: u64,
    /// Whether it is garbled.
    pub garbled: bool,
    /// What it has on the bus; None in the quiet between two wordstrings.
    pub shown: Option<Shown>,
}
