//! The transmissions whose spans hold a bit time.

/// A transmission whose span holds the present bit time.
#[derive(Clone, Copy, Debug, Default, PartialEq, Eq)]
pub(crate) struct Live {
    /// Its place in the list.
    pub at: usize,
    /// The terminal that sends it.
    pub terminal: u8,
    /// The moment at which it begins.
    pub moment: u64,
    /// The moment at which it has ended.
    pub end: u64,
    /// Which transmission of its terminal it is, from 1.
    pub number: u64,
    /// Whether it is garbled.
    pub garbled: bool,
}
