//! How far an audit has come.

/// How far an audit has come.
#[derive(Clone, Copy, Debug, PartialEq, Eq)]
pub struct Progress {
    /// The moment at which the watches stand, in bit times from the settled start.
    pub moment: u64,
    /// When the transmissions have ended that began then.
    pub end: u64,
}
