//! Tables of one sender: the numbers are those of a program of another language.
use crate::tables::{BACK, E, Row, SHORT, tells};
use std::test::Fail;

const ROWS: [Row; 5] = [
    // One sender alone.
    Row {
        table: E,
        bounds: (500, 125, 100),
        lines: b"MARGINS aperiodic any 618061 618939
ROOM whole 1 - 1747
ROOM drop - - -
ROOM turns - - -
ROOM opening - - -
ROOM waiting - - -
ROOM joining 1 - 7748
ROOM interval 1 - 118137
ROOM cycle 1 - 118389
BEARS delay 2247 jitter 998 clocks 1000
",
    },
    // A level that is lost.
    Row {
        table: BACK,
        bounds: (0, 0, 359),
        lines: b"MARGINS aperiodic common 743731 744269
ROOM whole 1 - 81967
ROOM drop - - -
ROOM turns - - -
ROOM opening - - -
ROOM waiting - - -
ROOM joining 1 - 133951
ROOM interval 1 - -1
ROOM cycle 1 - 61
BEARS delay 81967 jitter 40983 clocks 410
",
    },
    // A level that comes back.
    Row {
        table: BACK,
        bounds: (0, 0, 360),
        lines: b"MARGINS aperiodic any 743730 744270
ROOM whole 1 - 81967
ROOM drop - - -
ROOM turns - - -
ROOM opening - - -
ROOM waiting - - -
ROOM joining 1 - 133950
ROOM interval 1 - 0
ROOM cycle 1 - 62
BEARS delay 81967 jitter 0 clocks 360
",
    },
    // Messages that may be empty.
    Row {
        table: SHORT,
        bounds: (0, 10000, 0),
        lines: b"MARGINS aperiodic none - -
ROOM whole 1 - 477999
ROOM drop - - -
ROOM turns - - -
ROOM opening - - -
ROOM waiting - - -
ROOM joining 1 - 608000
ROOM interval 1 - 118000
ROOM cycle 1 - 138000
BEARS delay - jitter - clocks -
",
    },
    // Messages that hardly last.
    Row {
        table: SHORT,
        bounds: (0, 9999, 0),
        lines: b"MARGINS aperiodic any 608003 667997
ROOM whole 1 - 478001
ROOM drop - - -
ROOM turns - - -
ROOM opening - - -
ROOM waiting - - -
ROOM joining 1 - 608002
ROOM interval 1 - 118002
ROOM cycle 1 - 138000
BEARS delay 478001 jitter 9999 clocks 0
",
    },
];

#[test]
fn the_margins_of_one_sender_are_told(rt: HostRuntime) -> Result<(), Fail> {
    for (k, row) in ROWS.iter().enumerate() {
        assert!(rt; tells(rt.alloc(), row)?, "row {k}");
    }
    Ok(())
}
