//! How many messages a terminal held.

/// How many messages a terminal held when the bus began to run.
#[derive(Clone, Copy, Debug, PartialEq, Eq)]
pub struct Hold {
    /// The number of the terminal.
    pub terminal: u8,
    /// How many messages.
    pub count: u32,
}
