//! Messages texts that are read, and that are refused.
use bus_outer::MemorySink;
use bus_strings::{MessagesError, Payload, read_messages, write_messages};
use bus_text::Reason;
use std::alloc::{AllocError, Global};
use std::test::Fail;

const TWO_ITEMS: &[u8] = b"MESSAGES 1\nMSG 1 : 0000 0001\nMSG 2 : 00FF\n";

/// How many items a text has.
fn item_count(alloc: Global, text: &[u8]) -> Result<usize, MessagesError> {
    Ok(read_messages(alloc, text)?.items.len())
}

/// That a text is refused at this line.
fn refused(line: u64, reason: Reason) -> Result<usize, MessagesError> {
    Err(MessagesError::Text { line, reason })
}

/// A text of one item with so many wordstrings of so many data words.
fn item_text(alloc: Global, strings: u32, words: u32) -> Result<Vec<u8>, AllocError> {
    let mut text = Vec::from_slice(alloc, b"MESSAGES 1\nMSG 128")?;
    for _ in 0..strings {
        text.extend_from_slice(b" :")?;
        for _ in 0..words {
            text.extend_from_slice(b" BEEF")?;
        }
    }
    Ok(text)
}

/// The terminal of an item, and the data words of its only wordstring.
fn only_string(item: &Payload) -> Option<(u8, &[u16])> {
    match item.strings.as_slice() {
        [words] => Some((item.terminal, words.as_slice())),
        _ => None,
    }
}

/// Those of the first of two items, and of the second.
fn two(items: &[Payload]) -> (Option<(u8, &[u16])>, Option<(u8, &[u16])>) {
    match items {
        [first, second] => (only_string(first), only_string(second)),
        _ => (None, None),
    }
}

/// A text, and that which is written of what it stands for; blanks, comments and small letters are read.
const WRITTEN: [(&[u8], &[u8]); 2] = [
    (TWO_ITEMS, TWO_ITEMS),
    (
        b"# hands\n\n\tMESSAGES 1 \r\n  # MSG\n MSG\t9 : : beef :",
        b"MESSAGES 1\nMSG 9 : : BEEF :\n",
    ),
];

/// Whether what a text stands for is written as another one, in pieces of five bytes, in a sink that has just the room for it.
fn is_written_as(alloc: Global, text: &[u8], written: &[u8]) -> Result<bool, Fail> {
    let payloads = read_messages(alloc, text)?;
    let mut sink = MemorySink::new(alloc, written.len(), 5, Vec::new(alloc))?;
    let answer = write_messages(&payloads, &mut sink);
    Ok(answer.is_ok() && sink.bytes() == written)
}

#[test]
fn two_items_are_read(rt: HostRuntime) -> Result<(), Fail> {
    let payloads = read_messages(rt.alloc(), TWO_ITEMS)?;
    let expected = (Some((1, [0, 1].as_slice())), Some((2, [0xFF].as_slice())));
    assert!(rt; two(&payloads.items) == expected);
    Ok(())
}

#[test]
fn items_are_written(rt: HostRuntime) -> Result<(), Fail> {
    for (text, written) in &WRITTEN {
        assert!(rt; is_written_as(rt.alloc(), text, written)?);
    }
    Ok(())
}

const ENDS: [(&[u8], Result<usize, MessagesError>); 3] = [
    (b"MESSAGES 1", Ok(0)),
    (
        b"",
        Err(MessagesError::Text {
            line: 1,
            reason: Reason::Ended,
        }),
    ),
    (
        b"\n# a\n \t\r",
        Err(MessagesError::Text {
            line: 4,
            reason: Reason::Ended,
        }),
    ),
];

#[test]
fn a_text_may_end_behind_its_header_and_not_before(rt: HostRuntime) {
    for (text, answer) in &ENDS {
        assert!(rt; item_count(rt.alloc(), text) == *answer);
    }
}

const WRONG_LINES: [(&[u8], u64, Reason); 11] = [
    (b"MESSAGE 1\n", 1, Reason::Keyword),
    (b"\n\nMESSAGES 2\n", 3, Reason::Fields),
    (b"MESSAGES 1 1\n", 1, Reason::Fields),
    (b"MESSAGES 1\n\x0cMSG 0 : 0000", 2, Reason::Keyword),
    (b"MESSAGES 1\nMSG 01", 2, Reason::Fields),
    (b"MESSAGES 1\nMSG 1 0000 :", 2, Reason::Fields),
    (b"MESSAGES 1\nMSG 01 : 0000", 2, Reason::Spelling),
    (b"MESSAGES 1\nMSG 0 : 000", 2, Reason::Spelling),
    (b"MESSAGES 1\nMSG 1 : 0000 :: 0000", 2, Reason::Spelling),
    (b"MESSAGES 1\nMSG 129 :", 2, Reason::Range),
    (b"MESSAGES 1\nMSG 0 :\nMSG 1 : x", 2, Reason::Range),
];

#[test]
fn the_first_reason_of_the_first_wrong_line_is_told(rt: HostRuntime) {
    for (text, line, reason) in &WRONG_LINES {
        assert!(rt; item_count(rt.alloc(), text) == refused(*line, *reason));
    }
}

/// How many items a text has of one item with so many wordstrings of so many data words.
fn count_of(
    alloc: Global,
    strings: u32,
    words: u32,
) -> Result<Result<usize, MessagesError>, AllocError> {
    Ok(item_count(alloc, &item_text(alloc, strings, words)?))
}

/// How many wordstrings an item has of how many words, and whether it is read.
const SIZES: [(u32, u32, Result<usize, MessagesError>); 3] = [
    (31, 256, Ok(1)),
    (32, 0, TOO_MANY),
    (1, 257, TOO_MANY),
];

const TOO_MANY: Result<usize, MessagesError> = Err(MessagesError::Text {
    line: 2,
    reason: Reason::Range,
});

#[test]
fn an_item_has_31_wordstrings_of_256_words_at_most(rt: HostRuntime) -> Result<(), Fail> {
    for (strings, words, answer) in &SIZES {
        assert!(rt; count_of(rt.alloc(), *strings, *words)? == *answer);
    }
    Ok(())
}
