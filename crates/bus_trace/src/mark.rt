//! The mark of a TE line: whether its transmission is garbled.
ghost use Rattle.std.specs.Prelude.{◌≡◌};
ghost use Rattle.bus_trace.specs.States.{is_mark as mark_test, mark_of as mark_in, starts_wrong as starts_test, turns_wrong as turns_test};
ghost use Rattle.bus_trace.specs.inside.Writing.{mark_put};

const GARBLED: &[u8] = b"C";

const CLEAR: &[u8] = b"-";

/// Whether a field is a mark.
pub(crate) fn is_mark(field: &[u8]) -> bool
    ensures { result ≡ mark_test field.now }
{
    field == GARBLED || field == CLEAR
}

/// The mark that a field is: whether the transmission is garbled.
pub(crate) fn mark_of(field: &[u8]) -> bool
    ensures { result ≡ mark_in field.now }
{
    field == GARBLED
}

/// The end of a TE line: its mark behind a space, and the line feed.
pub(crate) fn marked_end(mark: bool) -> &'static [u8]
    ensures { result.now ≡ mark_put mark }
{
    if mark { b" C\n" } else { b" -\n" }
}

/// Whether a mark is wrong at its own TE line. The transmission is hit where an earlier one ends behind its moment, and final where none
/// can come behind it.
pub(crate) fn starts_wrong(mark: bool, hit: bool, last: bool) -> bool
    ensures { result ≡ starts_test mark hit last }
{
    if mark { !hit && last } else { hit }
}

/// Whether a mark shows wrong at the line behind its TE line. The transmission is met where that line's begins before its end.
pub(crate) fn turns_wrong(mark: bool, hit: bool, met: bool) -> bool
    ensures { result ≡ turns_test mark hit met }
{
    if mark { !(hit || met) } else { met }
}
