//! A breach that was found.
use crate::answer::BreachKind;

/// A breach: where it is and what is wrong there.
#[derive(Clone, Copy, Debug, PartialEq, Eq)]
pub struct Finding {
    /// Its moment, in bit times from the settled start.
    pub moment: u64,
    /// The number of the terminal.
    pub terminal: u8,
    /// What is wrong there.
    pub kind: BreachKind,
}
