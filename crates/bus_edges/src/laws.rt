//! Laws of lines, each the contract of a function that does nothing.
ghost use Rattle.bus_edges.specs.Laws.{BurstsAreSeen, BurstsStay, EdgesAreNear, NoMoreIsBorne, QuietIsSeen, QuietMends};

/// The bursts of a line are those that are seen, each run rounded by itself, so that errors don't add up; what was told stays; and behind a
/// quiet stretch nothing depends on what was before it.
pub fn lines_are_seen()
    ensures bursts { BurstsAreSeen }
    ensures stay { BurstsStay }
    ensures mends { QuietMends }
    ensures near { EdgesAreNear }
    ensures quiet { QuietIsSeen }
{}

/// The margin can't be wider: with a nanosecond more of errors a half bit may count as none.
pub fn no_more_is_borne()
    ensures { NoMoreIsBorne }
{}
