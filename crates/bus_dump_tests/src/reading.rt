//! A dump that is read back, bit time for bit time: a reader takes the last value of a signal that stands before a later stamp.
use crate::calls::{TABLE, Text, written};
use bus_dump::Dump;
use bus_text::plain_decimal;
use std::process::Abort;
use std::test::Fail;

/// Terminal 2 begins in the inner gap of terminal 1's message. A stranger follows it at its end. The horizon is inside two
/// messages that overlap, the first of which is garbled before the other begins.
const MIXED: &[u8] = b"TRACE 1
HORIZON 100
HOLD 1 2
HOLD 2 2
HOLD 7 1
TX 3 1
WS L0A111
WS L0A211 D00FF1
TX 24 2
WS L0B210
TX 67 7
WS L07110
TX 90 2
WS L0B210 D00FF1
TX 95 1
WS L0A111
END
";

/// Each signal, and a letter for its value at each bit time.
const ROWS: [(&[u8], &[u8]); 16] = [
    (
        b"c",
        b"---####################-###############################################################---##########",
    ),
    (
        b"o",
        b"------------------------####################---------------------------------------------------#####",
    ),
    (
        b"s",
        b"---###------------------######-----------------###-----------------###--------------------###--###--",
    ),
    (
        b"w",
        b"...AAAAAAAAAAAAAAAAAAAA.BBBxxxxxxxxxxxxxxxxxDDDFFFFFFFFFFFFFFFFFFFFGGGGGGGGGGGGGGGGGGGG...BBBBBxxxxx",
    ),
    (
        b"p1",
        b"---####################----########################################----------------------------#####",
    ),
    (
        b"g1",
        b"---################################################################----------------------------#####",
    ),
    (
        b"l1",
        b"...AAAAAAAAAAAAAAAAAAAA....DDDDDDDDDDDDDDDDDDDDDDDDDDDDDDDDDDDDDDDD............................AAAAA",
    ),
    (
        b"m1",
        b"...1111111111111111111111111111111111111111111111111111111111111111............................22222",
    ),
    (
        b"p2",
        b"------------------------####################----------------------------------------------##########",
    ),
    (
        b"g2",
        b"------------------------####################----------------------------------------------##########",
    ),
    (
        b"l2",
        b"........................BBBBBBBBBBBBBBBBBBBB..............................................BBBBBBBBBB",
    ),
    (
        b"m2",
        b"........................11111111111111111111..............................................2222222222",
    ),
    (
        b"p7",
        b"-------------------------------------------------------------------####################-------------",
    ),
    (
        b"g7",
        b"----------------------------------------------------------------------------------------------------",
    ),
    (
        b"l7",
        b"...................................................................GGGGGGGGGGGGGGGGGGGG.............",
    ),
    (
        b"m7",
        b"...................................................................11111111111111111111.............",
    ),
];

/// The value of each letter.
const LETTERS: [(u8, &[u8]); 11] = [
    (b'-', b"0"),
    (b'#', b"1"),
    (b'.', b"bz"),
    (b'x', b"bx"),
    (b'1', b"b1"),
    (b'2', b"b10"),
    (b'A', b"b101000010001"),
    (b'B', b"b101100100001"),
    (b'D', b"b101000100001"),
    (b'F', b"b11111111"),
    (b'G', b"b11100010001"),
];

/// The value that a line has for a signal, if it has one.
fn value_in<'a>(line: &'a [u8], name: &[u8]) -> Option<&'a [u8]> {
    match line {
        [b'0' | b'1', rest @ ..] if rest == name => line.get(..1),
        [b'b', ..] if line.ends_with(name) => { line.split(|byte| *byte == b' ').next() }
        _ => None,
    }
}

/// The value that a reader has of a signal at a place of the time scale.
fn value_at<'a>(lines: &[&'a [u8]], name: &[u8], place: u64) -> &'a [u8] {
    let mut value: &[u8] = b"";
    for line in lines {
        if let [b'#', number @ ..] = line {
            if plain_decimal(number).is_none_or(|stamp| stamp > place) {
                return value;
            }
        }
        value = value_in(line, name).unwrap_or(value);
    }
    value
}

/// The value of a letter.
fn value_of(letter: u8) -> &'static [u8] {
    for (own, value) in LETTERS {
        if own == letter {
            return value;
        }
    }
    b""
}

/// A reader has the value of each letter for a signal.
fn are_read(rt: &impl Abort, lines: &[&[u8]], name: &[u8], letters: &[u8]) {
    assert!(rt; letters.len() == 100);
    for (t, letter) in letters.iter().enumerate() {
        let found = value_at(lines, name, 5 * t as u64);
        assert!(rt; found == value_of(*letter), "bit time {t}");
    }
}

#[test]
fn each_signal_is_read_at_each_bit_time(rt: HostRuntime) -> Result<(), Fail> {
    let text = written(rt.alloc(), Text::Dump(Dump::Vcd), TABLE, MIXED)?;
    let lines: Vec<&[u8]> = text.split(|byte| *byte == b'\n').collect(rt.alloc())?;
    for (name, letters) in ROWS {
        are_read(&rt, &lines, name, letters);
    }
    assert!(rt; text.ends_with(b"\n#500\n"));
    Ok(())
}
