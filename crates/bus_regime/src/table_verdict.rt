//! What a verdict tells.
ghost use Rattle.std.specs.Prelude.{◌≡◌};
ghost use Rattle.bus_regime.specs.Verdicts.{is_accepted};

use bus_table::Mode;

/// The verdict on a table, by the rule of this project's profile, and its numbers. All numbers but a terminal's are bit times.
#[derive(Clone, Copy, Debug, PartialEq, Eq)]
pub enum TableVerdict {
    /// Accepted. In aperiodic mode `least` and `most` are the lengths of the shortest and of the longest cycle; in periodic mode both
    /// are the transmit interval.
    Accept { mode: Mode, least: u64, most: u64 },
    /// Aperiodic: the shortest cycle is below the transmit interval.
    ShortCycle { least: u64, ti: u64 },
    /// Periodic: the gap before this sender is below its terminal gap. A negative gap is an overlap.
    SmallGap { terminal: u8, gap: i64, needed: u64 },
    /// Periodic: no other sender's gap has a synchronization gap, and this sender's own has none with its terminal gap behind it.
    NoSync { terminal: u8, gap: u64, needed: u64 },
}

impl TableVerdict {
    /// Whether the table is accepted.
    pub fn is_accepted(&self) -> bool
        ensures { result ≡ is_accepted self.now }
    {
        matches!(self, TableVerdict::Accept { .. })
    }
}
