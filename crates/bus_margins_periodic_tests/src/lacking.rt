//! Rules that hold by nothing, and that lack a nanosecond. What is wanted was reckoned from the definitions apart from this program.
use crate::margins::{Row, has_margins};
use std::test::Fail;

const HEARING: &[u8] =
    b"TABLE 1\nMODE periodic\nTI 4000\nSG 300\nSENDER 1 TG 8 AT 0\nSEND 001 0 1 1\nSENDER 2 TG 20 AT 400\nSEND 002 0 1 1\n";

const SYNC: &[u8] =
    b"TABLE 1\nMODE periodic\nTI 1000\nSG 445\nSENDER 1 TG 20 AT 0\nSEND 001 0 1 1\nSENDER 2 TG 30 AT 150\nSEND 002 0 1 1\n";

const ORDER: &[u8] =
    b"TABLE 1\nMODE periodic\nTI 128000\nSG 300\nSENDER 1 TG 20 AT 0\nSEND 001 0 1 1\nSENDER 2 TG 30 AT 20000\nSEND 002 0 1 1\n";

const BEGIN: &[u8] =
    b"TABLE 1\nMODE periodic\nTI 4000\nSG 300\nSENDER 1 TG 20 AT 0\nSEND 001 0 1 1\nSENDER 2 TG 30 AT 90\nSEND 002 0 1 1\n";

const ROWS: [Row; 8] = [
    // The least terminal gap is as long as the quiet within a message that a terminal may hear.
    Row {
        table: HEARING,
        bounds: (1999, 0, 0),
        lines: b"MARGINS periodic turns 2000000 2001999
ROOM hearing 1 - 0
ROOM sync 2 - 1648002
ROOM order 2 2 1 22000
ROOM begin 2 1 8001
BEARS delay 1999 jitter 0 clocks 0
",
    },
    // It is shorter by a nanosecond.
    Row {
        table: HEARING,
        bounds: (2000, 0, 0),
        lines: b"MARGINS periodic none - -
ROOM hearing 1 - -1
ROOM sync 2 - 1648001
ROOM order 2 2 1 21999
ROOM begin 2 1 8000
BEARS delay - jitter - clocks -
",
    },
    // In an interval all send, and there is just the quiet that synchronizes one that waits for it.
    Row {
        table: SYNC,
        bounds: (1, 0, 0),
        lines: b"MARGINS periodic turns 500000 500001
ROOM hearing 1 - 7998
ROOM sync 2 - 0
ROOM order 2 2 1 29998
ROOM begin 2 1 14999
BEARS delay 1 jitter 0 clocks 996
",
    },
    // It is shorter by a nanosecond.
    Row {
        table: SYNC,
        bounds: (2, 0, 0),
        lines: b"MARGINS periodic leads 459998 540002
ROOM hearing 1 - 7997
ROOM sync 2 - -1
ROOM order 2 2 1 29997
ROOM begin 2 1 14998
BEARS delay 7999 jitter 0 clocks 0
",
    },
    // Clocks drift over an interval by as much as a message and a gap bear.
    Row {
        table: ORDER,
        bounds: (4385, 0, 200),
        lines: b"MARGINS periodic turns 63987197 64017206
ROOM hearing 1 - 3610
ROOM sync 2 - 63653343
ROOM order 2 2 1 0
ROOM begin 2 1 10550
BEARS delay 4385 jitter 0 clocks 200
",
    },
    // They drift by a nanosecond more.
    Row {
        table: ORDER,
        bounds: (4386, 0, 200),
        lines: b"MARGINS periodic none - -
ROOM hearing 1 - 3609
ROOM sync 2 - 63653342
ROOM order 2 2 1 -1
ROOM begin 2 1 10549
BEARS delay - jitter - clocks -
",
    },
    // The second sender is due just when the first has been heard and its gap has elapsed.
    Row {
        table: BEGIN,
        bounds: (5000, 0, 0),
        lines: b"MARGINS periodic turns 2000000 2005000
ROOM hearing 1 - 2999
ROOM sync 2 - 1640001
ROOM order 2 2 1 24999
ROOM begin 1 2 0
BEARS delay 5000 jitter 0 clocks 0
",
    },
    // It is due a nanosecond too early.
    Row {
        table: BEGIN,
        bounds: (4998, 0, 5),
        lines: b"MARGINS periodic none - -
ROOM hearing 1 - 2999
ROOM sync 2 - 1640009
ROOM order 2 2 1 24977
ROOM begin 1 2 -1
BEARS delay - jitter - clocks -
",
    },
];

#[test]
fn a_rule_holds_by_nothing_and_lacks_a_nanosecond(rt: HostRuntime) -> Result<(), Fail> {
    for (k, row) in ROWS.iter().enumerate() {
        assert!(rt; has_margins(rt.alloc(), row)?, "row {k}");
    }
    Ok(())
}
