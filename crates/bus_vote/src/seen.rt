//! The channels of a label that were seen, up to three.
ghost use Rattle.std.specs.Prelude.{◌≡◌};
ghost use Rattle.bus_vote.specs.Labels as labels;
ghost use Rattle.bus_vote.specs.inside.Scans.{after, voted_of};
ghost use Rattle.bus_vote.specs.declared.seen.Seen.TheVariants.{Three};

use crate::label::{Channel, VotedLabel};
use bus_words::Label;

/// The channels of a label that were seen so far, in table order.
#[derive(Clone, Copy, Debug, PartialEq, Eq)]
pub(crate) enum Seen {
    Nothing,
    One(Channel),
    Two(Channel, Channel),
    Three(Channel, Channel, Channel),
    /// More than three: the label isn't voted on.
    More,
}

/// Whether three channels are of three senders.
fn are_apart(a: &Channel, b: &Channel, c: &Channel) -> bool
    ensures { result ≡ labels.are_apart a.now b.now c.now }
{
    a.terminal != b.terminal && a.terminal != c.terminal && b.terminal != c.terminal
}

/// Those, and one more.
pub(crate) fn with_channel(channels: Seen, channel: Channel) -> Seen
    ensures { result ≡ after channels channel }
{
    match channels {
        Seen::Nothing => Seen::One(channel),
        Seen::One(first) => Seen::Two(first, channel),
        Seen::Two(first, second) => Seen::Three(first, second, channel),
        Seen::Three(..) | Seen::More => Seen::More,
    }
}

/// The voted label that a label with these three channels is, if they are of three senders.
fn voted_by(label: Label, first: Channel, second: Channel, third: Channel) -> Option<VotedLabel>
    ensures { result ≡ voted_of label (Three first second third) }
{
    if !are_apart(&first, &second, &third) {
        return None;
    }
    Some(VotedLabel {
        label,
        first,
        second,
        third,
    })
}

/// The voted label that a label with these channels is, if it is one.
pub(crate) fn voted(label: Label, channels: Seen) -> Option<VotedLabel>
    ensures { result ≡ voted_of label channels }
{
    match channels {
        Seen::Three(first, second, third) => voted_by(label, first, second, third),
        _ => None,
    }
}
