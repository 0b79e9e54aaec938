//! What stood last in a trace text, which decides what may follow.
ghost use Rattle.std.specs.Prelude.{◌≡◌};
ghost use Rattle.bus_trace.specs.States.{may_follow as may_stand, may_follow_string as may_stand_behind, is_ended as ended_test};
ghost use Rattle.bus_trace.specs.States.{is_closed as closed_test};

use crate::format::{Format, is_marked};
use crate::keyword::Keyword;
use bus_strings::limits::MOST_STRINGS;

/// Which line was read last, as far as the next one depends on it.
#[derive(Clone, Copy, Debug, PartialEq, Eq)]
pub(crate) enum Position {
    /// None.
    Start,
    /// TRACE.
    Headed,
    /// HORIZON or HOLD.
    Holding,
    /// TX: a transmission without a wordstring.
    Begun { moment: u64, terminal: u8 },
    /// WS.
    Stringing,
    /// TE.
    Closed,
    /// END.
    Ended,
}

/// Whether a keyword may stand behind a WS line, whose transmission has so many of them.
fn may_follow_string(format: Format, count: usize, keyword: Keyword) -> bool
    ensures { result ≡ may_stand_behind format count keyword }
{
    match keyword {
        Keyword::Ws => count < MOST_STRINGS,
        Keyword::Tx | Keyword::End => !is_marked(format),
        Keyword::Te => is_marked(format),
        Keyword::Trace | Keyword::Horizon | Keyword::Hold => false,
    }
}

/// Whether a keyword may stand at a position, where the last transmission has so many wordstrings.
pub(crate) fn may_follow(position: Position, format: Format, count: usize, keyword: Keyword) -> bool
    ensures { result ≡ may_stand position format count keyword }
{
    match position {
        Position::Start => matches!(keyword, Keyword::Trace),
        Position::Headed => matches!(keyword, Keyword::Horizon),
        Position::Holding => matches!(keyword, Keyword::Hold | Keyword::Tx | Keyword::End),
        Position::Begun { .. } => matches!(keyword, Keyword::Ws),
        Position::Stringing => may_follow_string(format, count, keyword),
        Position::Closed => matches!(keyword, Keyword::Tx | Keyword::End),
        Position::Ended => false,
    }
}

/// Whether the last line was END.
pub(crate) fn is_ended(position: Position) -> bool
    ensures { result ≡ ended_test position }
{
    matches!(position, Position::Ended)
}

/// Whether the last line was a TE line.
pub(crate) fn is_closed(position: Position) -> bool
    ensures { result ≡ closed_test position }
{
    matches!(position, Position::Closed)
}
