//! Table texts that are refused.
use bus_table::{TableError, WholeReason, read_table};
use bus_text::Reason;
use bus_words::{Ext, Label};
use std::alloc::{AllocError, Global};
use std::test::Fail;

const HEAD: &[u8] = b"TABLE 1\nMODE aperiodic\nTI 1000\nSG 300\n";

/// Where a text is refused, and why.
fn refusal(alloc: Global, text: &[u8]) -> Option<(u64, Reason)> {
    let answer = read_table(alloc, text);
    match &answer {
        Err(TableError::Text { line, reason }) => Some((*line, *reason)),
        _ => None,
    }
}

/// Why a text is refused as a whole.
fn whole(alloc: Global, text: &[u8]) -> Option<WholeReason> {
    let answer = read_table(alloc, text);
    match &answer {
        Err(TableError::Whole(reason)) => Some(*reason),
        _ => None,
    }
}

fn with_head(alloc: Global, lines: &[u8]) -> Result<Vec<u8>, AllocError> {
    let mut text = Vec::from_slice(alloc, HEAD)?;
    text.extend_from_slice(lines)?;
    Ok(text)
}

/// A text, or the lines behind `HEAD`, the line where it is refused, and why.
type Row<'a> = (&'a [u8], u64, Reason);

const HEADS: [Row<'static>; 6] = [
    (b"", 1, Reason::Ended),
    (
        b"TABLE 1\nMODE aperiodic\nTI 999\nSG 300\n",
        3,
        Reason::Range,
    ),
    (
        b"TABLE 1\nMODE aperiodic\nTI 01000\nSG 300\n",
        3,
        Reason::Spelling,
    ),
    (b"TABLE 1\nMODE x\nTI 2000\n", 2, Reason::Spelling),
    (b"TABLE 1\nMODE periodic x\n", 2, Reason::Fields),
    (
        b"TABLE 1\r\n\t# a note\n\nMODE  aperiodic\r\nTI 1000 \nSG 300\nSENDER 999 TG x\n",
        7,
        Reason::Spelling,
    ),
];

#[test]
fn names_the_first_line_and_reason_of_a_head(rt: HostRuntime) {
    for (k, (text, line, reason)) in HEADS.iter().enumerate() {
        assert!(rt;
            refusal(rt.alloc(), text) == Some((*line, *reason)),
            "row {k}"
        );
    }
}

// The lines stand from line 5 on.
const TERMINALS: [Row<'static>; 10] = [
    (b"TAKE 0A1 * 1 4\n", 5, Reason::Keyword),
    (b"LISTENER\n", 5, Reason::Fields),
    (b"LISTENER 129\n", 5, Reason::Range),
    (b"SENDER 1 TG 20\n", 6, Reason::Ended),
    (b"SENDER 1 TG 20\nTAKE 0A1 * 1 4\n", 6, Reason::Keyword),
    (b"SENDER 1 TG 20 AT 0\n", 5, Reason::Fields),
    (b"SENDER 1 TG 20\nSEND 0A1 * 2 2\n", 6, Reason::Spelling),
    (
        b"SENDER 1 TG 20\nSEND 0A1 1 2 2\nTAKE 0A1 * 256 x\n",
        7,
        Reason::Spelling,
    ),
    (b"LISTENER 1\nTAKE 0A1 * 0 0\n", 6, Reason::Range),
    (b"LISTENER 1\nSENDER 2 TG 20\n", 6, Reason::Keyword),
];

#[test]
fn names_the_first_line_and_reason_of_a_terminal(rt: HostRuntime) -> Result<(), Fail> {
    for (k, (lines, line, reason)) in TERMINALS.iter().enumerate() {
        let text = with_head(rt.alloc(), lines)?;
        assert!(rt;
            refusal(rt.alloc(), &text) == Some((*line, *reason)),
            "row {k}"
        );
    }
    let text = b"TABLE 1\nMODE periodic\nTI 2000\nSG 300\nSENDER 1 TG 20\n";
    assert!(rt; refusal(rt.alloc(), text) == Some((5, Reason::Fields)));
    Ok(())
}

/// Where a text is refused that goes on with so many of the same, and why.
fn repeated(
    alloc: Global,
    begin: &[u8],
    line: &[u8],
    count: u32,
) -> Result<Option<(u64, Reason)>, AllocError> {
    let mut text = Vec::from_slice(alloc, begin)?;
    for _ in 0..count {
        text.extend_from_slice(line)?;
    }
    Ok(refusal(alloc, &text))
}

const TOO_MANY_LINES: [(&[u8], &[u8], u32, u64); 2] = [
    (
        b"TABLE 1\nMODE aperiodic\nTI 1000\nSG 300\nLISTENER 1\n",
        b"TAKE 0A1 * 1 4\n",
        65,
        70,
    ),
    (
        b"TABLE 1\nMODE aperiodic\nTI 1000\nSG 300\nSENDER 1 TG 20\n",
        b"SEND 0A1 1 2 4\n",
        32,
        37,
    ),
];

#[test]
fn a_listener_has_at_most_64_lines_and_a_sender_31(rt: HostRuntime) -> Result<(), Fail> {
    for (begin, line, count, refused) in &TOO_MANY_LINES {
        let answer = repeated(rt.alloc(), begin, line, *count)?;
        assert!(rt; answer == Some((*refused, Reason::Keyword)));
    }
    Ok(())
}

#[test]
fn long_lines_are_read_to_their_end(rt: HostRuntime) -> Result<(), Fail> {
    let note = repeated(rt.alloc(), b"", b"#", 1_048_576)?;
    let number = repeated(rt.alloc(), b"TABLE 1\nMODE aperiodic\nTI ", b"9", 1_000_000)?;
    assert_eq!(rt;
        (note, number),
        (Some((2, Reason::Ended)), Some((3, Reason::Range)))
    );
    Ok(())
}

const OUT_OF_BOUNDS: [(&[u8], WholeReason); 3] = [
    (
        b"TABLE 1\nMODE aperiodic\nTI 1000\nSG 30\nSENDER 1 TG 20\nSEND 0A1 1 2 4\nSENDER 2 TG 30\nSEND 0B2 1 30 40\n",
        WholeReason::GapNotShort(2),
    ),
    (HEAD, WholeReason::NoSender),
    (
        b"TABLE 1\nMODE periodic\nTI 2000\nSG 300\nSENDER 1 TG 20 AT 2000\nSEND 0A1 1 2 4\n",
        WholeReason::OffsetRange(1),
    ),
];

#[test]
fn gaps_and_offsets_are_below_their_bounds(rt: HostRuntime) {
    for (text, reason) in &OUT_OF_BOUNDS {
        assert!(rt; whole(rt.alloc(), text) == Some(*reason));
    }
}

#[test]
fn names_what_stands_twice(rt: HostRuntime) -> Result<(), Fail> {
    let label = Label::new(0x0a1).expect(&rt, "a label");
    let ext = Ext::new(1).expect(&rt, "an extension");
    let rows: [(&[u8], WholeReason); 5] = [
        (b"LISTENER 1\n", WholeReason::NoSender),
        (
            b"SENDER 1 TG 20\nSEND 0A1 1 2 4\nLISTENER 1\n",
            WholeReason::NumberTwice(1),
        ),
        (
            b"SENDER 1 TG 20\nSEND 0A1 1 2 4\nSENDER 1 TG 20\nSEND 0A1 1 2 4\n",
            WholeReason::NumberTwice(1),
        ),
        (
            b"SENDER 1 TG 20\nSEND 0A1 1 2 4\nSENDER 2 TG 20\nSEND 0A1 1 2 4\n",
            WholeReason::GapTwice(2),
        ),
        (
            b"SENDER 1 TG 20\nSEND 0A1 1 2 4\nSENDER 2 TG 30\nSEND 0A2 1 2 4\nSEND 0A1 1 0 0\n",
            WholeReason::PairTwice(label, ext),
        ),
    ];
    for (lines, reason) in rows {
        let text = with_head(rt.alloc(), lines)?;
        assert_eq!(rt; whole(rt.alloc(), &text), Some(reason));
    }
    Ok(())
}
