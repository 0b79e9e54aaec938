//! Lines, fields and numbers, by example.
use bus_text::{
    Lines, capital_digit, fields, four_digits, hex_digit, hexadecimal, line_after, plain_decimal,
    three_digits,
};
use std::test::Fail;

#[test]
fn lines_are_numbered_and_skipped(rt: HostRuntime) {
    let lines = Lines::new(b"\nA 1\n # b\n \t\r\n\x0c\nEND");
    assert!(rt; lines.map(|line| line.number).eq([2, 5, 6]));
}

#[test]
fn a_text_ends_behind_its_last_line(rt: HostRuntime) {
    assert!(rt;
        [
            line_after(b"A\n\nB"),
            line_after(b"A\n\nB\n"),
            line_after(b"")
        ] == [4, 4, 1]
    );
}

#[test]
fn blanks_part_fields(rt: HostRuntime) -> Result<(), Fail> {
    let parts = fields(rt.alloc(), b"\r TI\t\t1000 ")?;
    let expected: [&[u8]; 2] = [b"TI", b"1000"];
    assert!(rt; parts.as_slice() == expected.as_slice());
    Ok(())
}

const DECIMALS: [(&[u8], Option<u64>); 10] = [
    (b"0", Some(0)),
    (b"128000", Some(128_000)),
    (b"99999999999999999999999", Some(u64::MAX)),
    (b"", None),
    (b"00", None),
    (b"01", None),
    (b"+1", None),
    (b"-0", None),
    (b"1 ", None),
    (b"1A", None),
];

#[test]
fn numbers_are_plain_decimals(rt: HostRuntime) {
    for (field, number) in &DECIMALS {
        assert!(rt; plain_decimal(field) == *number);
    }
}

#[test]
fn hexadecimal_digits_are_counted(rt: HostRuntime) {
    assert!(rt; hexadecimal(b"BeeF", 4) == Some(0xBEEF) && hexadecimal(b"0a1", 3) == Some(0x0A1));
    assert!(rt; hexadecimal(b"0a1", 4).is_none() && hexadecimal(b"0x01", 4).is_none());
}

#[test]
fn digits_are_written_in_capitals(rt: HostRuntime) {
    assert!(rt;
        hex_digit(11) == b'B' && three_digits(0x0A1) == *b"0A1" && four_digits(0xBEEF) == *b"BEEF"
    );
    assert!(rt; capital_digit(b'F') == Some(15) && capital_digit(b'f').is_none());
}
