//! Why a line of a stream is refused.
ghost use Rattle.std.specs.Prelude.{◌≡◌};
ghost use Rattle.bus_stream.specs.Items.{reason_word};

/// Why a line of a stream is refused: the first of these that applies to it.
#[derive(Clone, Copy, Debug, PartialEq, Eq)]
pub enum StreamReason {
    /// The first 65,536 bytes of the line have no line feed.
    Long,
    /// The first field is no keyword that may stand here.
    Keyword,
    /// The number of fields isn't that of the form.
    Fields,
    /// A number isn't a plain decimal, a word isn't of its form, the first word is no label word, or the word of a cause is empty.
    Spelling,
    /// A word's parity digit isn't that of its value.
    Parity,
    /// A number is out of its range, or there are more wordstrings or data words than may be.
    Range,
    /// The line stands before a moment that was told.
    Order,
}

impl StreamReason {
    /// Its word.
    pub fn word(self) -> &'static str
        ensures { result.now ≡ reason_word self }
    {
        match self {
            StreamReason::Long => "Long",
            StreamReason::Keyword => "Keyword",
            StreamReason::Fields => "Fields",
            StreamReason::Spelling => "Spelling",
            StreamReason::Parity => "Parity",
            StreamReason::Range => "Range",
            StreamReason::Order => "Order",
        }
    }
}
