//! A fault that is marked.
use bus_findings::Judgement;

/// A transmission, and what is found at it.
#[derive(Clone, Copy, Debug)]
pub struct Fault {
    /// The moment at which it begins.
    pub moment: u64,
    /// Its terminal.
    pub terminal: u8,
    /// What is found at it.
    pub found: Judgement,
}
