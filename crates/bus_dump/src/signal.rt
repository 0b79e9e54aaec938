//! The signals of a dump.
ghost use Rattle.std.specs.Prelude.{◌≡◌};
ghost use Rattle.bus_dump.specs.Signals as signals;

/// A signal of a dump. Those with a number are of the lane of that terminal.
#[derive(Clone, Copy, Debug, Default, PartialEq, Eq)]
pub(crate) enum Signal {
    /// Whether there is carrier.
    #[default]
    Carrier,
    /// Whether two spans meet here.
    Overlap,
    /// Whether a word on the bus is in its sync.
    Sync,
    /// Whether the first breach of the trace is here.
    Breach,
    /// The word on the bus.
    Word,
    /// Whether the terminal has a pulse.
    Pulse(u8),
    /// Whether the terminal's transmission is garbled.
    Garbled(u8),
    /// The label word of the wordstring that the terminal has on the bus.
    Label(u8),
    /// The number of the terminal's transmission.
    Message(u8),
    /// Whether the transmit interval of the sender has elapsed.
    Interval(u8),
    /// Whether its synchronization gap has elapsed since its last own start.
    Synchronization(u8),
    /// Whether its terminal gap has elapsed, behind the synchronization gap.
    Gap(u8),
    /// Whether it may start.
    May(u8),
}

impl Signal {
    /// Whether it has one bit.
    pub fn is_wire(self) -> bool
        ensures { result ≡ signals.is_wire self }
    {
        match self {
            Signal::Carrier
            | Signal::Overlap
            | Signal::Sync
            | Signal::Breach
            | Signal::Pulse(_)
            | Signal::Garbled(_) => true,
            Signal::Interval(_) | Signal::Synchronization(_) | Signal::Gap(_) | Signal::May(_) =>
                true,
            Signal::Word | Signal::Label(_) | Signal::Message(_) => false,
        }
    }

    /// Whether it tells of a timer.
    pub fn is_timer(self) -> bool
        ensures { result ≡ signals.is_timer self }
    {
        match self {
            Signal::Interval(_) | Signal::Synchronization(_) | Signal::Gap(_) | Signal::May(_) =>
                true,
            Signal::Carrier | Signal::Overlap | Signal::Sync | Signal::Breach | Signal::Word =>
                false,
            Signal::Pulse(_) | Signal::Garbled(_) | Signal::Label(_) | Signal::Message(_) => false,
        }
    }
}
