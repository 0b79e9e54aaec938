//! The numbers by which timers run.
/// The numbers by which a terminal's timers run, all in bit times.
///
/// It is sound (`IsSound`) where each number lies in its range and the terminal gap is shorter than the
/// synchronization gap, which is a published fact of ARINC 629; the ranges are this project's profile.
#[derive(Clone, Copy, Debug, PartialEq, Eq)]
pub struct Timing {
    /// The transmit interval, from one own start to the next: 1000 to 128,000.
    pub ti: u32,
    /// The synchronization gap, the same for all terminals of a bus: 9 to 1024.
    pub sg: u32,
    /// The terminal gap, another for each terminal: 8 to 256.
    pub tg: u32,
    /// The quiet before the settled start: from `sg` to `sg + 256`.
    pub quiet: u32,
    /// When the transmit interval elapses for the first time, counted from the settled start: below 128,000.
    pub due: u32,
}
