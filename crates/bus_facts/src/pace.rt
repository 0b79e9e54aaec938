//! How long an accepted table lets its senders wait.

/// What tells how long a sender of an accepted table waits from one start to its next: the verdict's greatest distance of two starts, which
/// holds without delays, and how much delay the table bears. Both are bit times.
#[derive(Clone, Copy, Debug, PartialEq, Eq)]
pub struct Pace {
    /// The greatest distance of two starts of one sender, without delays.
    pub most: u64,
    /// The greatest delay that the table bears; None where it bears every delay.
    pub tolerance: Option<u64>,
}
