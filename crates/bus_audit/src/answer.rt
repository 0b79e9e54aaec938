//! What an audit answers.

/// What is wrong at a pair of a moment and a terminal, in the order in which it is told. This project's profile.
#[derive(Clone, Copy, Debug, PartialEq, Eq)]
pub enum BreachKind {
    /// The terminal of an entry is no sender.
    Stranger,
    /// The sender of an entry already has as many entries before as it held messages.
    Unheld,
    /// The sender of an entry may not start.
    Early,
    /// The message of an entry doesn't fit its sender's lines.
    Misfit,
    /// A sender may start, has messages left, and doesn't start.
    Missing,
}

/// What an audit comes to.
#[derive(Clone, Copy, Debug, PartialEq, Eq)]
pub enum AuditAnswer {
    /// There is no breach.
    Lawful {
        /// How many of the transmissions are garbled.
        collided: u64,
    },
    /// The first breach.
    Breach {
        /// Its moment, in bit times from the settled start, below the horizon.
        moment: u64,
        /// The terminal, 1 to 128.
        terminal: u8,
        /// What is wrong there.
        kind: BreachKind,
    },
}
