//! The keywords of a trace text.
ghost use Rattle.std.specs.Prelude.{◌≡◌};
ghost use Rattle.bus_trace.specs.States.{keyword_of as keyword_in};

/// The keyword of the first line.
pub(crate) const TRACE: &[u8] = b"TRACE";

const HORIZON: &[u8] = b"HORIZON";

const HOLD: &[u8] = b"HOLD";

const TX: &[u8] = b"TX";

const WS: &[u8] = b"WS";

const TE: &[u8] = b"TE";

const END: &[u8] = b"END";

/// What a line begins with.
#[derive(Clone, Copy, Debug, PartialEq, Eq)]
pub enum Keyword {
    /// The first line: the format.
    Trace,
    /// Up to when the bus was looked at.
    Horizon,
    /// How many messages a terminal held.
    Hold,
    /// A transmission.
    Tx,
    /// A wordstring of a transmission.
    Ws,
    /// The end of a transmission, and its mark.
    Te,
    /// The last line.
    End,
}

/// The keyword that a field is.
pub(crate) fn keyword_of(field: &[u8]) -> Option<Keyword>
    ensures { result ≡ keyword_in field.now }
{
    if field == TRACE {
        Some(Keyword::Trace)
    } else if field == HORIZON {
        Some(Keyword::Horizon)
    } else if field == HOLD {
        Some(Keyword::Hold)
    } else if field == TX {
        Some(Keyword::Tx)
    } else if field == WS {
        Some(Keyword::Ws)
    } else if field == TE {
        Some(Keyword::Te)
    } else if field == END {
        Some(Keyword::End)
    } else {
        None
    }
}
