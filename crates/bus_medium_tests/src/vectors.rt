//! What is made is accepted, and the rows are there.
use bus_hands::fits;
use bus_strings::{Message, Payload, Payloads};
use bus_table::{Hand, Table};
use bus_vectors::{make, make_hands, row};
use std::test::Fail;

/// What a made table and its payloads show: the transmit interval, how many senders, listeners and items there are, and whether they fit.
fn shown(table: &Table, payloads: &Payloads) -> (u32, [usize; 3], bool) {
    (
        table.ti(),
        [
            table.senders().len(),
            table.listeners().len(),
            payloads.items.len(),
        ],
        fits(table, payloads).is_ok(),
    )
}

/// The least number: two senders, and ten rounds.
#[test]
fn makes_the_least_input(rt: HostRuntime) -> Result<(), Fail> {
    let (table, payloads) = make(rt.alloc(), 0)?;
    assert!(rt; shown(&table, &payloads) == (300 + 628 + 632, [2, 1, 20], true));
    Ok(())
}

/// How many words there are, the first and the last.
fn ends(words: &[u16]) -> Option<(usize, u16, u16)> {
    match words {
        [first, .., last] => Some((words.len(), *first, *last)),
        _ => None,
    }
}

/// The terminal of an item, and how many words its only wordstring has, the first and the last.
fn words_of(item: &Payload) -> Option<(u8, (usize, u16, u16))> {
    match item.strings.as_slice() {
        [words] => Some((item.terminal, ends(words)?)),
        _ => None,
    }
}

/// The words of an item of a list.
fn item_words(items: &[Payload], k: usize) -> Option<(u8, (usize, u16, u16))> {
    words_of(items.get(k)?)
}

/// The words of the second sender in the second round of number 1.
#[test]
fn makes_the_words_of_a_round(rt: HostRuntime) -> Result<(), Fail> {
    let (table, payloads) = make(rt.alloc(), 1)?;
    assert!(rt; (table.senders().len(), payloads.items.len()) == (3, 60));
    let words = item_words(&payloads.items, 4);
    assert!(rt; words == Some((2, (34, 1 + 7 + 26, 1 + 7 + 26 + 33))));
    Ok(())
}

/// How many words the only wordstring of a message has, the first and the last.
fn words_sent(message: &Message) -> Option<(usize, u16, u16)> {
    match message.strings() {
        [string] => ends(string.words()),
        _ => None,
    }
}

/// The terminal of the second hand, how many messages it has, and the words of the second.
fn second_hand(hands: &[Hand]) -> Option<(u8, usize, (usize, u16, u16))> {
    let hand = hands.get(1)?;
    Some((
        hand.terminal,
        hand.messages.len(),
        words_sent(hand.messages.get(1)?)?,
    ))
}

/// The hand of the second sender of number 1, whose second message has these words.
#[test]
fn deals_the_words_of_a_round(rt: HostRuntime) -> Result<(), Fail> {
    let (table, hands) = make_hands(rt.alloc(), 1)?;
    assert!(rt; (table.senders().len(), hands.len()) == (3, 3));
    let second = second_hand(&hands);
    assert!(rt; second == Some((2, 20, (34, 1 + 7 + 26, 1 + 7 + 26 + 33))));
    Ok(())
}

#[test]
fn stores_eight_rows(rt: HostRuntime) {
    let stored = (0..100u32).filter(|k| row(*k).is_some()).count();
    assert!(rt; stored == 8);
}
