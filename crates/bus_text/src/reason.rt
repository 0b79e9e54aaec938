//! Why a line of a table text or of a messages text is refused.
ghost use Rattle.std.specs.Prelude.{◌≡◌};
ghost use Rattle.bus_text.specs.Reasons.{reason_word};

/// Why a line of a table text or of a messages text is refused. Where several of Keyword, Fields, Spelling and Range
/// apply to a line, the first of them in this order stands.
#[derive(Clone, Copy, Debug, PartialEq, Eq)]
pub enum Reason {
    /// The text ends where it may not end.
    Ended,
    /// The first field is no keyword that may stand there.
    Keyword,
    /// The number of fields isn't that of the form, or a field that the form fixes is another.
    Fields,
    /// A field isn't a spelling of its kind.
    Spelling,
    /// A number is out of its range.
    Range,
}

impl Reason {
    /// The word of the reason in lines that say why a text is refused.
    pub fn word(self) -> &'static str
        ensures { result.now ≡ reason_word self }
    {
        match self {
            Reason::Ended => "Ended",
            Reason::Keyword => "Keyword",
            Reason::Fields => "Fields",
            Reason::Spelling => "Spelling",
            Reason::Range => "Range",
        }
    }
}
