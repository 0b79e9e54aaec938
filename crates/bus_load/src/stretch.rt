//! A stretch of bit times.

/// Bit times from its first up to, and without, its end.
#[derive(Clone, Copy, Debug, PartialEq, Eq)]
pub struct Stretch {
    /// The first of its bit times.
    pub from: u64,
    /// The bit time behind its last.
    pub to: u64,
}
