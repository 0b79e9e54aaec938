//! The digits of words: each of them counts.
use crate::lines::{LINES, with_line};
use crate::refused::refused;
use bus_wave::WaveReason;
use std::alloc::Global;
use std::test::Fail;

/// A line with another digit.
fn with_digit(alloc: Global, line: &[u8], place: usize, digit: u8) -> Result<Vec<u8>, Fail> {
    let mut changed = Vec::from_slice(alloc, line)?;
    match changed.get_mut(place) {
        Some(byte) => *byte = digit,
        None => return Err(Fail::new("a short line")),
    }
    Ok(changed)
}

/// A digit of a word with another last bit; of the first digit, which is of the sync alone, another.
fn with_other_bit(digit: u8) -> u8 {
    match digit {
        b'5' => b'6',
        b'6' => b'5',
        b'9' => b'A',
        b'A' => b'9',
        b'1' => b'2',
        b'D' => b'E',
        _ => b'D',
    }
}

/// What a text of the lines is with another digit in one of them.
fn changed(
    alloc: Global,
    k: usize,
    line: &[u8],
    place: usize,
    digit: u8,
) -> Result<Option<(u64, WaveReason)>, Fail> {
    let text = with_line(alloc, k, &with_digit(alloc, line, place, digit)?)?;
    refused(alloc, &text)
}

/// Whether a W line is refused for its code with the pairs 00 in place of a digit, and for its parity with another bit there; the first
/// digit is of the sync alone.
fn is_held_to(alloc: Global, k: usize, line: &[u8], place: usize) -> Result<bool, Fail> {
    let Some(digit) = line.get(place) else {
        return Err(Fail::new("a short line"));
    };
    let none = changed(alloc, k, line, place, b'0')?;
    let other = changed(alloc, k, line, place, with_other_bit(*digit))?;
    let reason = if place == 2 {
        WaveReason::Code
    } else {
        WaveReason::Parity
    };
    let number = (k as u64).saturating_add(1);
    Ok(none == Some((number, WaveReason::Code)) && other == Some((number, reason)))
}

#[test]
fn each_digit_of_a_word_changed(rt: HostRuntime) -> Result<(), Fail> {
    for (k, line) in LINES.iter().enumerate() {
        if line.len() < 13 {
            continue;
        }
        for place in 2..12 {
            assert!(rt; is_held_to(rt.alloc(), k, line, place)?);
        }
    }
    Ok(())
}
