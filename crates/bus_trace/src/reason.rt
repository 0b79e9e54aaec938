//! Why a line of a trace text is refused.
ghost use Rattle.std.specs.Prelude.{◌≡◌};
ghost use Rattle.bus_trace.specs.Reasons.{trace_reason_word};

/// Why a line of a trace text is refused: the first of these that applies to it.
#[derive(Clone, Copy, Debug, PartialEq, Eq)]
pub enum TraceReason {
    /// The source ends before the line's line feed, and fewer than 1,802 bytes of the line came.
    Ended,
    /// The first 1,802 bytes of the line have no line feed.
    Long,
    /// The first field is no keyword that may stand here.
    Keyword,
    /// The number of fields isn't that of the form, or a field that the form fixes is another.
    Fields,
    /// A number isn't a plain decimal, a word isn't of its form and kind, or a mark is neither `C` nor `-`.
    Spelling,
    /// A word's parity digit isn't that of its value.
    Parity,
    /// A number of a HORIZON, HOLD or TX line is out of its range, a moment that isn't below the horizon among these.
    Range,
    /// A HOLD or TX line doesn't ascend.
    Order,
    /// The moment of a TE line isn't the end of its transmission, or a mark is wrong, which shows at its own line or at the next.
    Mark,
}

impl TraceReason {
    /// The word of the reason in lines that say why a trace is refused.
    pub fn word(self) -> &'static str
        ensures { result.now ≡ trace_reason_word self }
    {
        match self {
            TraceReason::Ended => "Ended",
            TraceReason::Long => "Long",
            TraceReason::Keyword => "Keyword",
            TraceReason::Fields => "Fields",
            TraceReason::Spelling => "Spelling",
            TraceReason::Parity => "Parity",
            TraceReason::Range => "Range",
            TraceReason::Order => "Order",
            TraceReason::Mark => "Mark",
        }
    }
}
