//! The hands that items give, and items that don't fit.
use bus_hands::{HandsError, fits, hands, read_hands};
use bus_strings::read_messages;
use bus_table::{FitError, Hand, Listener, Mode, SendLine, Sender, Table, TakeLine, read_table};
use bus_text::Reason;
use bus_words::{Ext, Label};
use std::alloc::{AllocError, Global};
use std::test::Fail;

const TABLE: &[u8] =
    b"TABLE 1\nMODE aperiodic\nTI 1000\nSG 1000\nSENDER 1 TG 20\nSEND 0A1 1 2 2\nSENDER 2 TG 30\nSEND 0B2 1 0 2\n";

/// Whether the items of a text fit `TABLE`.
fn fit(alloc: Global, text: &[u8]) -> Result<Result<(), FitError>, Fail> {
    let table = read_table(alloc, TABLE)?;
    Ok(fits(&table, &read_messages(alloc, text)?))
}

const FITTING: [(&[u8], Result<(), FitError>); 4] = [
    (b"MESSAGES 1\nMSG 3 : 0000\n", Err(FitError::Stranger(1))),
    (b"MESSAGES 1\nMSG 1 : 0000\n", Err(FitError::Shape(1))),
    (
        b"MESSAGES 1\nMSG 2 :\nMSG 1 : 0000 0001 : 0000\n",
        Err(FitError::Shape(2)),
    ),
    (b"MESSAGES 1\nMSG 1 : 0000 0001\nMSG 2 : 00FF\n", Ok(())),
];

#[test]
fn items_fit_the_lines_of_their_senders(rt: HostRuntime) -> Result<(), Fail> {
    for (text, answer) in &FITTING {
        assert!(rt; fit(rt.alloc(), text)? == *answer);
    }
    Ok(())
}

const THREE_ITEMS: &[u8] = b"MESSAGES 1\nMSG 2 : 00FF\nMSG 1 : 0000 0001\nMSG 2 :\n";

/// The terminals of two hands, and how many messages each has.
fn counts(hands: &[Hand]) -> Option<((u8, usize), (u8, usize))> {
    match hands {
        [first, second] => Some((
            (first.terminal, first.messages.len()),
            (second.terminal, second.messages.len()),
        )),
        _ => None,
    }
}

/// The label and the data words of the first wordstring of the last hand.
fn first_string(hands: &[Hand]) -> Option<(u16, &[u16])> {
    let message = hands.last()?.messages.first()?;
    let string = message.strings().first()?;
    Some((string.label().value(), string.words()))
}

#[test]
fn items_are_dealt_to_their_senders(rt: HostRuntime) -> Result<(), Fail> {
    let table = read_table(rt.alloc(), TABLE)?;
    let payloads = read_messages(rt.alloc(), THREE_ITEMS)?;
    assert!(rt; fits(&table, &payloads).is_ok());
    let hands = hands(rt.alloc(), &table, payloads)?;
    assert!(rt; counts(&hands) == Some(((1, 1), (2, 2))));
    assert!(rt; first_string(&hands) == Some((0x0b2, [0x00ff].as_slice())));
    Ok(())
}

#[test]
fn hands_are_read(rt: HostRuntime) -> Result<(), Fail> {
    let table = read_table(rt.alloc(), TABLE)?;
    let hands = read_hands(rt.alloc(), &table, THREE_ITEMS)?;
    assert!(rt; counts(&hands) == Some(((1, 1), (2, 2))));
    Ok(())
}

/// Why a text gives no hands, if it doesn't.
fn refusal(alloc: Global, text: &[u8]) -> Result<Option<HandsError>, Fail> {
    let table = read_table(alloc, TABLE)?;
    Ok(read_hands(alloc, &table, text).err())
}

const REFUSED: [(&[u8], HandsError); 2] = [
    (
        b"MESSAGES 1\nMSG 2 :\nMSG 3 :\nMSG 1 :\n",
        HandsError::Unfit(FitError::Stranger(2)),
    ),
    (
        b"MESSAGES 1\nMSG 3 :\nMSG 1\n",
        HandsError::Text {
            line: 3,
            reason: Reason::Fields,
        },
    ),
];

#[test]
fn hands_are_refused(rt: HostRuntime) -> Result<(), Fail> {
    for (text, error) in &REFUSED {
        assert!(rt; refusal(rt.alloc(), text)? == Some(*error));
    }
    Ok(())
}

/// A sender of one SEND line.
fn sender(alloc: Global, label: Label, ext: Ext) -> Result<Option<Sender>, AllocError> {
    let send = SendLine {
        label,
        ext,
        least: 2,
        most: 2,
    };
    let sends = vec![in alloc; send]?;
    Ok(Sender::new(1, 20, 90, sends, Vec::new(alloc)))
}

/// A listener of one TAKE line.
fn listener(alloc: Global, label: Label) -> Result<Option<Listener>, AllocError> {
    let take = TakeLine {
        label,
        ext: None,
        first: 1,
        count: 4,
    };
    Ok(Listener::new(3, vec![in alloc; take]?))
}

#[test]
fn a_table_is_made_of_its_parts(rt: HostRuntime) -> Result<(), Fail> {
    let label = Label::new(0x0a1).expect(&rt, "a label");
    let ext = Ext::new(1).expect(&rt, "an extension");
    let sender = sender(rt.alloc(), label, ext)?.expect(&rt, "a sender");
    let senders = vec![in rt.alloc(); sender]?;
    let listener = listener(rt.alloc(), label)?.expect(&rt, "a listener");
    let listeners = vec![in rt.alloc(); listener]?;
    let table = Table::new(Mode::Periodic, 2000, 300, senders, listeners).expect(&rt, "a table");
    assert_eq!(rt; table.mode(), Mode::Periodic);
    Ok(())
}
