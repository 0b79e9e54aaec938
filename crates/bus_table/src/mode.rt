//! The mode of a bus.
ghost use Rattle.std.specs.Prelude.{◌≡◌};
ghost use Rattle.bus_table.specs.Text.{mode_word};

/// What governs the starts of a bus.
#[derive(Clone, Copy, Debug, PartialEq, Eq)]
pub enum Mode {
    /// The gaps govern: a cycle is the sum of messages, terminal gaps and one synchronization gap.
    Aperiodic,
    /// The transmit interval governs: starts recur every interval.
    Periodic,
}

impl Mode {
    /// The word that stands for it in texts: `aperiodic` or `periodic`.
    pub fn word(self) -> &'static str
        ensures { result.now ≡ mode_word self }
    {
        match self {
            Mode::Aperiodic => "aperiodic",
            Mode::Periodic => "periodic",
        }
    }
}
