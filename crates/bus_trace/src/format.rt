//! The two formats of a trace text.
ghost use Rattle.std.specs.Prelude.{◌≡◌};
ghost use Rattle.bus_trace.specs.States.{format_of as format_in, is_marked as marked_test};

/// The form of a trace text.
#[derive(Clone, Copy, Debug, PartialEq, Eq)]
pub(crate) enum Format {
    /// A transmission is a TX line and its WS lines.
    One,
    /// Each transmission is closed by a TE line, with its end and its mark.
    Two,
}

const ONE: &[u8] = b"1";

/// The number of format 2, which is written.
pub(crate) const TWO: &[u8] = b"2";

/// The format that a field is the number of.
pub(crate) fn format_of(field: &[u8]) -> Option<Format>
    ensures { result ≡ format_in field.now }
{
    if field == ONE {
        Some(Format::One)
    } else if field == TWO {
        Some(Format::Two)
    } else {
        None
    }
}

/// Whether transmissions have marks in this format, each in a TE line.
pub(crate) fn is_marked(format: Format) -> bool
    ensures { result ≡ marked_test format }
{
    matches!(format, Format::Two)
}
