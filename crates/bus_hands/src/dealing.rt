//! Dealing the items of a messages text out to the senders of a table.
ghost use Rattle.std.specs.Prelude.{◌≡◌, [], length, map, nat_eq, IfOk, OnOk, IsOk, IsTrue};
ghost use Rattle.std.specs.List.{IsDistinct};
ghost use Rattle.bus_strings.specs.Items.{numbers};
ghost use Rattle.bus_table.specs.Fits as fits;
ghost use Rattle.bus_table.specs.Hands.{message_of, hand_of, hands_of, are_hands};
ghost use Rattle.bus_table.specs.Ranges.{are_send_lines};
ghost use Rattle.bus_table.specs.inside.Fitting.{is_fit};
ghost use Rattle.bus_hands.specs.inside.Dealing.{IsDealt};
ghost use Rattle.bus_hands.specs.inside.Placed.{ArePlaces};

use crate::places::Places;
use bus_strings::{Message, Payload, Payloads, Wordstring};
use bus_table::{Hand, SendLine, Sender, Table};
use std::alloc::{AllocError, Global};

/// The message of these strings, with the labels and extensions of the lines, in memory for any number of them.
fn long_message(
    alloc: Global,
    sends: &[SendLine],
    strings: Vec<Vec<u16>>,
) -> Result<Message, AllocError>
    requires lines { IsTrue (are_send_lines sends.now) }
    requires shape { IsTrue (fits.has_shape sends.now (numbers strings.items)) }
    ensures { IfOk result (λ message. message ≡ message_of sends.now (numbers strings.items)) }
{
    let mut wordstrings = Vec::with_capacity(alloc, sends.len())?;
    let mut k = 0;
    for words in strings {
        let line = sends[k];
        wordstrings.push(Wordstring::new(line.label, line.ext, words)?.unwrap())?;
        k += 1;
    }
    Ok(Message::new(wordstrings).unwrap())
}

/// The message of these strings, with the labels and extensions of the lines. One of a single wordstring, as most are, takes no memory.
fn message(
    alloc: Global,
    sends: &[SendLine],
    mut strings: Vec<Vec<u16>>,
) -> Result<Message, AllocError>
    requires lines { IsTrue (are_send_lines sends.now) }
    requires shape { IsTrue (fits.has_shape sends.now (numbers strings.items)) }
    ensures { IfOk result (λ message. message ≡ message_of sends.now (numbers strings.items)) }
{
    let [line] = sends else {
        return long_message(alloc, sends, strings);
    };
    let words = strings.pop().unwrap();
    let string = Wordstring::new(line.label, line.ext, words)?.unwrap();
    Ok(Message::one(alloc, string))
}

/// One hand without messages for each sender, in order.
pub(crate) fn empty_hands(alloc: Global, senders: &[Sender]) -> Result<Vec<Hand>, AllocError>
    ensures { IfOk result (λ made. made.items ≡ map (hand_of []) senders.now) }
{
    let mut hands = Vec::with_capacity(alloc, senders.len())?;
    for sender in senders {
        hands.push(Hand {
            terminal: sender.number(),
            messages: Vec::new(alloc),
        })?;
    }
    Ok(hands)
}

/// Deals an item out that fits its sender: the sender's hand has one more message.
pub(crate) fn deal(
    alloc: Global,
    senders: &[Sender],
    places: &Places,
    item: Payload,
    hands: &mut Vec<Hand>,
) -> Result<(), AllocError>
    requires places { ArePlaces senders.now places.now.by_number }
    requires fit { IsTrue (is_fit senders.now item) }
    requires distinct { IsDistinct nat_eq (map (λ s. s.number) senders.now) }
    requires long { length hands.old.items ≡ length senders.now }
    ensures dealt { OnOk result (IsDealt senders.now item hands.old.items hands.new.items) }
    ensures long { OnOk result (length hands.new.items ≡ length senders.now) }
{
    let place = places.of(senders, item.terminal).unwrap();
    hands[place].push(message(alloc, senders[place].sends(), item.strings)?)?;
    Ok(())
}

/// The hands that the items give, under the condition that each item fits: one for each sender in the order of the
/// table. A sender's messages are its items in their order, with the labels and extensions of its SEND lines. Fails
/// only where memory runs out.
pub fn hands(alloc: Global, table: &Table, payloads: Payloads) -> Result<Vec<Hand>, AllocError>
    requires { IsOk (fits.items_fit table.now payloads) }
    ensures hands { IfOk result (λ made. made.items ≡ hands_of table.now payloads) }
    ensures fit { IfOk result (λ made. IsTrue (are_hands table.now.senders made.items)) }
{
    let senders = table.senders();
    let places = Places::new(senders);
    let mut hands = empty_hands(alloc, senders)?;
    for item in payloads.items {
        deal(alloc, senders, &places, item, &mut hands)?;
    }
    Ok(hands)
}
