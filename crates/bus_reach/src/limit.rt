//! A limit of how much delay a table bears: one of its conditions, and what that alone bears.

/// A condition on which an accepted table bears delays. Each is of one sender, which is named.
#[derive(Clone, Copy, Debug, PartialEq, Eq)]
pub enum Rule {
    /// Aperiodic: no delay is longer than the least terminal gap, which is that of this terminal.
    LeastGap {
        /// The number of the terminal: 1 to 128.
        terminal: u8,
    },
    /// Aperiodic: the next longer terminal gap than that of this terminal, or the synchronization gap where there is none, is longer by
    /// more than twice the delays.
    NextGap {
        /// The number of the terminal: 1 to 128.
        terminal: u8,
    },
    /// Periodic: the gap before this terminal has room for its terminal gap and the delays.
    OwnGap {
        /// The number of the terminal: 1 to 128.
        terminal: u8,
    },
    /// Periodic: this terminal stays in sync from its own message to its next one.
    Sync {
        /// The number of the terminal: 1 to 128.
        terminal: u8,
    },
}

/// A condition of a table, and the greatest delay that it alone bears.
#[derive(Clone, Copy, Debug, PartialEq, Eq)]
pub struct Limit {
    /// The condition.
    pub rule: Rule,
    /// The greatest delay that it bears, in bit times; None where it bears every delay.
    pub bears: Option<u64>,
}
