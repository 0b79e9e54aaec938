//! Where a finding is.

/// At which moment of a stream, in which line and of which terminal a finding is.
#[derive(Clone, Copy, Debug)]
pub struct At {
    /// The moment, in nanoseconds.
    pub time: u64,
    /// The number of the line, from 1.
    pub line: u64,
    /// The number of the terminal.
    pub terminal: u8,
}

/// A look at who is silent: at which line and bit time, in a window that was begun at bit time `base`.
#[derive(Clone, Copy, Debug)]
pub struct Looked {
    /// The bit time at which the window was begun.
    pub base: u64,
    /// The bit time up to which all is told.
    pub bit: u64,
    /// The number of the line.
    pub line: u64,
}
