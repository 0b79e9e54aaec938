//! Which sender has a number, and whether messages fit its lines.
ghost use Rattle.std.specs.Prelude.{◌≡◌, ◌==◌, ◌&&◌, length, position};
ghost use Rattle.std.specs.Option.{option_copied};
ghost use Rattle.bus_table.specs.Fits as fits;

use crate::line::SendLine;
use crate::sender::Sender;
use bus_strings::{Message, Wordstring};

/// The first item that doesn't fit its sender. Items are counted from 1.
#[derive(Clone, Copy, Debug, PartialEq, Eq)]
pub enum FitError {
    /// The terminal of this item is no sender.
    Stranger(u64),
    /// This item has another number of wordstrings than its sender has SEND lines, or a wordstring whose number of
    /// data words isn't from the least to the most of its line.
    Shape(u64),
}

/// The sender with this number; None where there is none.
pub fn sender_of(senders: &[Sender], number: u8) -> Option<&Sender>
    ensures { option_copied result ≡ fits.sender_of senders.now number }
{
    senders.iter().find(|sender| sender.number() == number)
}

/// Where the sender with this number stands in the list, from 0; None where there is none.
pub fn place_of(senders: &[Sender], number: u8) -> Option<usize>
    ensures { result ≡ position (λ sender. sender.number == number) senders.now }
{
    senders.iter().position(|sender| sender.number() == number)
}

/// Whether a line may have so many data words.
pub fn allows(line: &SendLine, words: usize) -> bool
    ensures { result ≡ fits.allows line.now words }
{
    (usize::from(line.least)..=usize::from(line.most)).contains(&words)
}

/// Whether a wordstring is one of the line.
fn string_fits(line: &SendLine, string: &Wordstring) -> bool
    ensures { result ≡ (string.now.label == line.now.label
        && (string.now.ext == line.now.ext && fits.allows line.now (length string.now.words))) }
{
    string.label().value() == line.label.value()
        && string.ext().value() == line.ext.value()
        && allows(line, string.words().len())
}

/// Whether wordstrings are of the lines in order.
fn strings_fit(sends: &[SendLine], message: &[Wordstring]) -> bool
    ensures { result ≡ fits.matches fits.allows sends.now message.now }
{
    if sends.len() != message.len() {
        return false;
    }
    for (k, line) in sends.iter().enumerate() {
        if !string_fits(line, &message[k]) {
            return false;
        }
    }
    true
}

/// Whether a message fits a sender: it has one wordstring for each SEND line, in order, with the label and extension of the line, and from
/// the least to the most of its data words.
pub fn message_fits(sender: &Sender, message: &Message) -> bool
    ensures { result ≡ fits.fits sender.now message.now }
{
    strings_fit(sender.sends(), message.strings())
}
