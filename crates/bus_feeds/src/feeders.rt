//! What feeds a TAKE line.
ghost use Rattle.std.specs.Prelude.{◌≡◌};
ghost use Rattle.std.specs.List.{list_any, position};
ghost use Rattle.bus_feeds.specs.Feeds as definitions;

use crate::places::{behind, counted_from};
use crate::share::feeds;
use bus_table::{SendLine, Sender, Table, TakeLine};

/// Whether a sender has a SEND line that feeds a TAKE line.
fn has_feed(take: &TakeLine, sender: &Sender) -> bool
    ensures { result ≡ definitions.has_feed take.now sender.now }
{
    sender.sends().iter().any(|send| feeds(send, take))
}

/// Whether a sender feeds a TAKE line of the terminal of this number: it is another, and has a SEND line that does.
pub fn is_feeder(number: u8, take: &TakeLine, sender: &Sender) -> bool
    ensures { result ≡ definitions.is_feeder number take.now sender.now }
{
    sender.number() != number && has_feed(take, sender)
}

/// Whether a sender is the terminal of this number itself, and sends what the TAKE line asks for.
fn is_own_feed(number: u8, take: &TakeLine, sender: &Sender) -> bool
    ensures { result ≡ definitions.is_own_feed number take.now sender.now }
{
    sender.number() == number && has_feed(take, sender)
}

/// Whether any SEND line of another feeds a TAKE line of the terminal of this number.
pub fn is_fed(table: &Table, number: u8, take: &TakeLine) -> bool
    ensures { result ≡ definitions.is_fed table.now number take.now }
{
    table
        .senders()
        .iter()
        .any(|sender| is_feeder(number, take, sender))
}

/// Whether the terminal of this number itself sends what its TAKE line asks for.
fn has_own_feed(senders: &[Sender], number: u8, take: &TakeLine) -> bool
    ensures { result ≡ list_any (definitions.is_own_feed number take.now) senders.now }
{
    senders
        .iter()
        .any(|sender| is_own_feed(number, take, sender))
}

/// Whether only the terminal of this number itself sends what its TAKE line asks for: nothing feeds it then.
pub fn only_itself_sends(table: &Table, number: u8, take: &TakeLine) -> bool
    ensures { result ≡ definitions.only_itself_sends table.now number take.now }
{
    has_own_feed(table.senders(), number, take) && !is_fed(table, number, take)
}

/// The place of the first of these senders that feeds a TAKE line of the terminal of this number.
fn first_feeder(senders: &[Sender], number: u8, take: &TakeLine) -> Option<usize>
    ensures { result ≡ position (definitions.is_feeder number take.now) senders.now }
{
    senders
        .iter()
        .position(|sender| is_feeder(number, take, sender))
}

/// The place of the first of these SEND lines that feeds a TAKE line.
fn first_feed(sends: &[SendLine], take: &TakeLine) -> Option<usize>
    ensures { result ≡ position (λ send. definitions.feeds send take.now) sends.now }
{
    sends.iter().position(|send| feeds(send, take))
}

/// The place in the table of the first sender, at `from` or behind it, that feeds a TAKE line of the terminal of this number; None where
/// there is none. From 0 on, and each time from one behind the last, it goes over all of them.
pub fn next_feeder(table: &Table, number: u8, take: &TakeLine, from: usize) -> Option<usize>
    ensures { result ≡ definitions.next_feeder table.now number take.now from }
{
    let senders = table.senders();
    let place = first_feeder(behind(senders, from), number, take);
    counted_from(senders, from, place)
}

/// The place of the first SEND line of a sender, at `from` or behind it, that feeds a TAKE line; None where there is none.
pub fn next_feed(sender: &Sender, take: &TakeLine, from: usize) -> Option<usize>
    ensures { result ≡ definitions.next_feed sender.now take.now from }
{
    let sends = sender.sends();
    let place = first_feed(behind(sends, from), take);
    counted_from(sends, from, place)
}
