//! Texts that are no wave: which line is refused, and why.
use crate::lines::{LINES, read, with_line};
use bus_wave::{WaveError, WaveReason};
use std::alloc::Global;
use std::test::Fail;

/// What a text of the lines is without each of them: which line is refused, and why.
const LEFT_OUT: [Option<(u64, WaveReason)>; 9] = [
    Some((1, WaveReason::Keyword)),
    None,
    Some((3, WaveReason::Order)),
    Some((5, WaveReason::Order)),
    Some((5, WaveReason::Order)),
    Some((6, WaveReason::Order)),
    Some((7, WaveReason::Order)),
    None,
    Some((9, WaveReason::Ended)),
];

/// The same with each of them twice.
const TWICE: [Option<(u64, WaveReason)>; 9] = [
    Some((2, WaveReason::Keyword)),
    Some((3, WaveReason::Order)),
    Some((4, WaveReason::Order)),
    Some((6, WaveReason::Order)),
    Some((6, WaveReason::Order)),
    Some((7, WaveReason::Order)),
    Some((8, WaveReason::Order)),
    None,
    Some((10, WaveReason::Keyword)),
];

/// Which line of a text is refused, and why.
pub(crate) fn refused(alloc: Global, text: &[u8]) -> Result<Option<(u64, WaveReason)>, Fail> {
    match read(alloc, text)? {
        Ok(_) => Ok(None),
        Err(WaveError::Text { line, reason }) => Ok(Some((line, reason))),
        Err(WaveError::Memory) => Err(Fail::new("no memory")),
    }
}

/// A line twice.
fn twice(alloc: Global, line: &[u8]) -> Result<Vec<u8>, Fail> {
    let mut lines = Vec::from_slice(alloc, line)?;
    lines.extend_from_slice(line)?;
    Ok(lines)
}

#[test]
fn each_reason_has_its_line(rt: HostRuntime) -> Result<(), Fail> {
    let cases: [(usize, &[u8], u64, WaveReason); 16] = [
        (4, b"W 1D55555558\n", 5, WaveReason::Code),
        (4, b"W 1D5555555A\n", 5, WaveReason::Parity),
        (4, b"", 5, WaveReason::Order),
        (4, b"W 1d55555559\n", 5, WaveReason::Spelling),
        (4, b"W 1D55555559 \n", 5, WaveReason::Fields),
        (4, b"w 1D55555559\n", 5, WaveReason::Keyword),
        (1, b"Q 0\n", 2, WaveReason::Range),
        (1, b"Q 1099511627717\n", 3, WaveReason::Range),
        (5, b"Q 7\n", 7, WaveReason::Order),
        (5, b"Q 30\nQ 30\n", 7, WaveReason::Order),
        (5, b"Q 0\nQ 30\n", 6, WaveReason::Range),
        (2, b"W 1D55555556\n", 3, WaveReason::Order),
        (8, b"END", 9, WaveReason::Ended),
        (8, b"", 9, WaveReason::Ended),
        (8, b"END\nEND\n", 10, WaveReason::Keyword),
        (0, b"WAVE 2\n", 1, WaveReason::Fields),
    ];
    for (place, line, number, reason) in cases {
        let text = with_line(rt.alloc(), place, line)?;
        assert!(rt; refused(rt.alloc(), &text)? == Some((number, reason)));
    }
    Ok(())
}

#[test]
fn each_line_left_out(rt: HostRuntime) -> Result<(), Fail> {
    for (k, answer) in LEFT_OUT.iter().enumerate() {
        let text = with_line(rt.alloc(), k, b"")?;
        assert!(rt; refused(rt.alloc(), &text)? == *answer);
    }
    Ok(())
}

#[test]
fn each_line_twice(rt: HostRuntime) -> Result<(), Fail> {
    for (k, (line, answer)) in LINES.iter().zip(TWICE.iter()).enumerate() {
        let text = with_line(rt.alloc(), k, &twice(rt.alloc(), line)?)?;
        assert!(rt; refused(rt.alloc(), &text)? == *answer);
    }
    Ok(())
}
