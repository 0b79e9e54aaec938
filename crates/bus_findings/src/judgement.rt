//! What is found at a transmission.

/// One of the timers of a terminal.
#[derive(Clone, Copy, Debug)]
pub enum Timer {
    /// The transmit interval, TI.
    Interval,
    /// The synchronization gap, SG.
    SyncGap,
    /// The terminal gap, TG.
    TerminalGap,
}

/// When a terminal was due for certain.
#[derive(Clone, Copy, Debug)]
pub struct Due {
    /// The moment, in bit times of the recording.
    pub moment: u64,
    /// The timer that was over last.
    pub timer: Timer,
}

/// That a start is too late.
#[derive(Clone, Copy, Debug)]
pub struct Late {
    /// The timer that was over last.
    pub timer: Timer,
    /// By how many bit times at least: 1 or more.
    pub amount: u64,
    /// How many others began from when it was due on and before it.
    pub passed: u64,
}

/// What is found at a transmission. An amount is in bit times, and 0 where there is nothing of its kind.
#[derive(Clone, Copy, Debug)]
pub struct Judgement {
    /// Its terminal is no sender of the table.
    pub stranger: bool,
    /// By how much it is too early by the transmit interval, at least.
    pub interval: u64,
    /// By how much it is too early by the synchronization gap, at least.
    pub sync_gap: u64,
    /// By how much it is too early by the terminal gap, at least.
    pub terminal_gap: u64,
    /// That it is too late.
    pub late: Option<Late>,
    /// Its message doesn't fit the SEND lines of its sender.
    pub misfit: bool,
    /// For how long an earlier transmission lasts beyond its beginning.
    pub overlap: u64,
}
