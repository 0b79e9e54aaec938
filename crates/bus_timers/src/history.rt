//! What a terminal has heard, as far as its timers are concerned.
/// A whole history of bit times, as far as timers are concerned: its length, and how far the two gaps have come at
/// its end. All in bit times.
#[derive(Clone, Copy, Debug, PartialEq, Eq)]
pub struct History {
    /// How many bit times it has.
    pub bits: u64,
    /// How many quiet ones at its end count for the terminal gap, once the synchronization gap has elapsed; before
    /// that, for the synchronization gap. Those before the history count too.
    pub quiet: u64,
    /// Whether the synchronization gap has elapsed since the last own start.
    pub synchronized: bool,
}
