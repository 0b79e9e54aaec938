//! Cable texts that are read, and that are refused.
use bus_cable::{Cable, CableError, Named, read_cable, write_cable};
use bus_outer::MemorySink;
use bus_text::Reason;
use std::alloc::{AllocError, Global};
use std::test::Fail;

const WHOLE: &[u8] =
    b"CABLE 1\nPLACE 1 0\nPLACE 2 1024\nWAKE 1 4\nWAKE 128 1099511627775\nMSG 1 : 0000 0001\nMSG 2 : 00FF\n";

/// How many items a text has.
fn item_count(alloc: Global, text: &[u8]) -> Result<usize, CableError> {
    let (_, payloads) = read_cable(alloc, text)?;
    Ok(payloads.items.len())
}

/// That a text is refused at this line.
const fn refused(line: u64, reason: Reason) -> Result<usize, CableError> {
    Err(CableError::Text { line, reason })
}

/// A text, and that which is written of what it stands for.
const WRITTEN: [(&[u8], &[u8]); 2] = [
    (WHOLE, WHOLE),
    // Blanks and comments are skipped.
    (
        b"# a cable\n\n\tCABLE 1 \r\n  # PLACE\n PLACE\t2  5\nMSG 9 : : beef :",
        b"CABLE 1\nPLACE 2 5\nMSG 9 : : BEEF :\n",
    ),
];

/// Whether what a text stands for is written as another one, in pieces of seven bytes.
fn is_written_as(alloc: Global, text: &[u8], written: &[u8]) -> Result<bool, Fail> {
    let (cable, payloads) = read_cable(alloc, text)?;
    let mut sink = MemorySink::new(alloc, 200, 7, Vec::new(alloc))?;
    let answer = write_cable(&cable, &payloads, &mut sink);
    Ok(answer.is_ok() && sink.bytes() == written)
}

/// The places of terminals 1 to 3, and the wakes of 1, 2 and 128.
fn numbers(cable: &Cable) -> ([u64; 3], [u64; 3]) {
    (
        [cable.place(1), cable.place(2), cable.place(3)],
        [cable.wake(1), cable.wake(2), cable.wake(128)],
    )
}

/// The terminals and the places of two.
fn two_places(places: &[Named]) -> Option<[(u8, u64); 2]> {
    match places {
        [first, second] => Some([(first.terminal, first.bits), (second.terminal, second.bits)]),
        _ => None,
    }
}

#[test]
fn places_wakes_and_items_are_read(rt: HostRuntime) -> Result<(), Fail> {
    let (cable, payloads) = read_cable(rt.alloc(), WHOLE)?;
    assert!(rt; two_places(cable.places()) == Some([(1, 0), (2, 1024)]));
    assert!(rt; numbers(&cable) == ([0, 1024, 0], [4, 0, 1_099_511_627_775]));
    assert!(rt; payloads.items.len() == 2);
    Ok(())
}

#[test]
fn places_wakes_and_items_are_written(rt: HostRuntime) -> Result<(), Fail> {
    for (k, (text, written)) in WRITTEN.iter().enumerate() {
        assert!(rt; is_written_as(rt.alloc(), text, written)?, "row {k}");
    }
    Ok(())
}

#[test]
fn a_text_may_end_behind_each_line_and_not_before_the_first(rt: HostRuntime) {
    let mut ends = 0u32;
    for end in 0..=WHOLE.len() {
        match item_count(rt.alloc(), &WHOLE[..end]) {
            Ok(_) => ends = ends.saturating_add(1),
            Err(error) => assert!(rt; matches!(error, CableError::Text { .. })),
        }
    }
    // Behind the header with its line feed and without; PLACE 1 0 (2), PLACE 2 with one to four digits and its feed (5), WAKE 1 4 (2),
    // WAKE 128 with up to thirteen digits and its feed (14), MSG 1 : with a colon, and with each whole word, a blank or feed behind
    // it (6), and MSG 2 : with a colon, a blank, one word and its feed (4).
    assert_eq!(rt; ends, 2 + 2 + 5 + 2 + 14 + 6 + 4);
}

/// A text, its first wrong line, and the first reason there.
type Case<'a> = (&'a [u8], u64, Reason);

/// Of the first wrong line: a header or a place, also one behind a wake; a text without a header ends behind its lines; then a wake or an
/// item, or what stands behind an item.
const REFUSED: [Case<'static>; 32] = [
    (b"", 1, Reason::Ended),
    (b"\n# a\n \t\r", 4, Reason::Ended),
    (b"MESSAGES 1\n", 1, Reason::Keyword),
    (b"\n\nCABLE 2\n", 3, Reason::Fields),
    (b"CABLE 1 1\n", 1, Reason::Fields),
    (b"CABLE\n", 1, Reason::Fields),
    (b"CABLE 1\nCABLE 1\n", 2, Reason::Keyword),
    (b"CABLE 1\nPLACE 1\n", 2, Reason::Fields),
    (b"CABLE 1\nPLACE 01 x y\n", 2, Reason::Fields),
    (b"CABLE 1\nPLACE 01 1\n", 2, Reason::Spelling),
    (b"CABLE 1\nPLACE 999 x\n", 2, Reason::Spelling),
    (b"CABLE 1\nPLACE 1 x\n", 2, Reason::Spelling),
    (b"CABLE 1\nPLACE 0 1\n", 2, Reason::Range),
    (b"CABLE 1\nPLACE 129 1\n", 2, Reason::Range),
    (b"CABLE 1\nPLACE 1 1025\n", 2, Reason::Range),
    (b"CABLE 1\nPLACE 18446744073709551617 1\n", 2, Reason::Range),
    (b"CABLE 1\nPLACE 1 1\nPLACE 1 1\n", 3, Reason::Range),
    (b"CABLE 1\nPLACE 2 1\nPLACE 1 1\n", 3, Reason::Range),
    (b"CABLE 1\nWAKE 1 1\nPLACE 1 1\n", 3, Reason::Keyword),
    (b"CABLE 1\nWAKE 1\n", 2, Reason::Fields),
    (b"CABLE 1\nWAKE 1 1 1\n", 2, Reason::Fields),
    (b"CABLE 1\nWAKE 1 -1\n", 2, Reason::Spelling),
    (b"CABLE 1\nWAKE 0 1\n", 2, Reason::Range),
    (b"CABLE 1\nWAKE 129 1\n", 2, Reason::Range),
    (b"CABLE 1\nWAKE 2 1\nWAKE 1 1\n", 3, Reason::Range),
    (b"CABLE 1\nWAKE 1 1099511627776\n", 2, Reason::Range),
    (
        b"CABLE 1\nPLACE 9 1\nWAKE 2 1\nWAKE 2 1\n",
        4,
        Reason::Range,
    ),
    (b"CABLE 1\nMSG 1 : 0000\nWAKE 1 1\n", 3, Reason::Keyword),
    (b"CABLE 1\nMSG 1 : 0000\nPLACE 1 1\n", 3, Reason::Keyword),
    (b"CABLE 1\nMSG 1 0000\n", 2, Reason::Fields),
    (b"CABLE 1\nPLACE 1 1\nMSG 1 : 000\n", 3, Reason::Spelling),
    (
        b"CABLE 1\nWAKE 1 1\nMSG 129 :\nPLACE 1 1\n",
        3,
        Reason::Range,
    ),
];

#[test]
fn the_first_reason_of_the_first_wrong_line_is_told(rt: HostRuntime) {
    for (k, (text, line, reason)) in REFUSED.iter().enumerate() {
        assert!(rt;
            item_count(rt.alloc(), text) == refused(*line, *reason),
            "row {k}"
        );
    }
}

/// Whether a cable can have these places.
fn has_places(alloc: Global, places: &[(u8, u64)]) -> Result<bool, AllocError> {
    let mut named = Vec::new(alloc);
    for (terminal, bits) in places {
        let (terminal, bits) = (*terminal, *bits);
        named.push(Named { terminal, bits })?;
    }
    Ok(Cable::new(named, Vec::new(alloc)).is_some())
}

const RANGES: [(&[(u8, u64)], bool); 3] = [
    (&[(1, 0), (3, 1024)], true),
    (&[(3, 0), (1, 0)], false),
    (&[(1, 1025)], false),
];

#[test]
fn a_cable_keeps_its_ranges(rt: HostRuntime) -> Result<(), Fail> {
    for (k, (places, fits)) in RANGES.iter().enumerate() {
        assert!(rt; has_places(rt.alloc(), places)? == *fits, "row {k}");
    }
    Ok(())
}
