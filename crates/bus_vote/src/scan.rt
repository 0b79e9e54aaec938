//! Which label of a table is voted on, and which its channels are.
ghost use Rattle.std.specs.Prelude.{◌≡◌, List, ◌++◌};
ghost use Rattle.bus_vote.specs.Labels.{Channel as Channel_in, channels, sender_channels, voted as voted_in};
ghost use Rattle.bus_vote.specs.inside.Scans.{line_channels, seen};

use crate::label::{Channel, VotedLabel};
use crate::seen::{Seen, voted, with_channel};
use bus_table::{SendLine, Sender, Table};
use bus_words::Label;

/// What was seen, and a SEND line of a sender, where it has the label.
fn with_line(before: Seen, label: Label, terminal: u8, line: &SendLine) -> Seen
    ensures { (channels : List Channel_in) → before ≡ seen channels
        → result ≡ seen (channels ++ line_channels label terminal line.now) }
{
    if line.label != label {
        return before;
    }
    with_channel(
        before,
        Channel {
            terminal,
            ext: line.ext,
        },
    )
}

/// What was seen, and the SEND lines of a sender that have the label.
fn with_sender(before: Seen, label: Label, sender: &Sender) -> Seen
    ensures { (channels : List Channel_in) → before ≡ seen channels → result ≡ seen (channels ++ sender_channels label sender.now) }
{
    let terminal = sender.number();
    let lines = sender.sends();
    let mut seen = before;
    for line in lines {
        seen = with_line(seen, label, terminal, line);
    }
    seen
}

/// The voted label that a label is in a table, if it is one.
pub(crate) fn voted_label(table: &Table, label: Label) -> Option<VotedLabel>
    ensures { result ≡ voted_in label (channels table.now label) }
{
    let senders = table.senders();
    let mut seen = Seen::Nothing;
    for sender in senders {
        seen = with_sender(seen, label, sender);
    }
    voted(label, seen)
}
