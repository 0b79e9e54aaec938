//! Which SEND lines feed a TAKE line, and how many of its words they give.
ghost use Rattle.std.specs.Prelude.{◌≡◌, ◌≤◌, ◌+◌};
ghost use Rattle.bus_feeds.specs.Feeds as definitions;

use bus_filter::matches;
use bus_table::{SendLine, TakeLine};

/// How many words of a TAKE line come with a SEND line: each from 0 to the line's count.
#[derive(Clone, Copy, Debug, PartialEq, Eq)]
pub struct Share {
    /// Those that come in each wordstring of the SEND line.
    pub always: u16,
    /// Those that come in some of its wordstrings.
    pub sometimes: u16,
    /// Those that come in none.
    pub never: u16,
}

/// Whether a SEND line feeds a TAKE line: the label is the same, and so is the extension, or the TAKE line has `*`.
pub fn feeds(send: &SendLine, take: &TakeLine) -> bool
    ensures { result ≡ definitions.feeds send.now take.now }
{
    matches(take, send.label, send.ext)
}

/// How many words a TAKE line takes of a wordstring of so many data words.
fn taken_of(take: &TakeLine, words: u16) -> u16
    ensures value { result ≡ definitions.taken_of take.now words }
    ensures few { result ≤ take.now.count }
{
    words.saturating_sub(take.first).min(take.count)
}

/// How many words of a TAKE line always, sometimes and never come with a SEND line. Of a SEND line whose least isn't above its most, as in
/// each table, the three are together the TAKE line's count.
pub fn share_of(send: &SendLine, take: &TakeLine) -> Share
    ensures value { result ≡ definitions.share_of send.now take.now }
    ensures whole { send.now.least ≤ send.now.most → result.always + result.sometimes + result.never ≡ take.now.count }
{
    let always = taken_of(take, send.least);
    let come = taken_of(take, send.most);
    Share {
        always,
        sometimes: come.saturating_sub(always),
        never: take.count - come,
    }
}
