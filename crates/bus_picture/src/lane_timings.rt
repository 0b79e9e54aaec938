//! What is the same all along the lane of a sender.

/// What is the same all along the lane of a sender. Its timers are in bit times.
#[derive(Clone, Copy, Debug, PartialEq, Eq)]
pub struct LaneTimings {
    /// Which lane it is, from 0.
    pub k: usize,
    /// The upper edge of the lane.
    pub top: u64,
    /// The terminal.
    pub terminal: u8,
    /// Its terminal gap.
    pub tg: u32,
    /// The synchronization gap.
    pub sg: u32,
    /// The transmit interval.
    pub ti: u32,
    /// How long the bus was quiet before the settled start.
    pub quiet: u32,
    /// Up to which moment the bus was looked at.
    pub horizon: u64,
}
