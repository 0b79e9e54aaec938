//! Tables that lack a rule by one nanosecond: the numbers are those of a program of another language.
use crate::tables::{CYCLE, E, JOINING, Row, WAITING, tells};
use std::test::Fail;

const ROWS: [Row; 5] = [
    // Whole is lacking.
    Row {
        table: E,
        bounds: (2500, 0, 0),
        lines: b"MARGINS aperiodic none - -
ROOM whole 1 - -1
ROOM drop - - -
ROOM turns - - -
ROOM opening - - -
ROOM waiting - - -
ROOM joining 1 - 6000
ROOM interval 1 - 118500
ROOM cycle 1 - 118500
BEARS delay - jitter - clocks -
",
    },
    // Waiting is lacking.
    Row {
        table: WAITING,
        bounds: (250, 0, 0),
        lines: b"MARGINS aperiodic none - -
ROOM whole 1 - 13249
ROOM drop 2 - 12749
ROOM turns - - -
ROOM opening 1 2 10499
ROOM waiting 2 1 -1
ROOM joining 1 2 3750
ROOM interval 1 - -440500
ROOM cycle 1 - 4500
BEARS delay - jitter - clocks -
",
    },
    // Joining is lacking.
    Row {
        table: JOINING,
        bounds: (4001, 0, 0),
        lines: b"MARGINS aperiodic none - -
ROOM whole 1 - 23998
ROOM drop 2 - 6498
ROOM turns - - -
ROOM opening 1 2 497
ROOM waiting 2 1 9497
ROOM joining 1 2 -1
ROOM interval 1 - -426000
ROOM cycle 1 - 6500
BEARS delay - jitter - clocks -
",
    },
    // Cycle is lacking.
    Row {
        table: CYCLE,
        bounds: (0, 0, 394),
        lines: b"MARGINS aperiodic none - -
ROOM whole 1 - 27986
ROOM drop 2 - 10493
ROOM turns - - -
ROOM opening 1 2 8468
ROOM waiting 2 1 17482
ROOM joining 1 2 3974
ROOM interval 1 - -572281
ROOM cycle 2 - -1
BEARS delay - jitter - clocks -
",
    },
    // Nothing is lacking.
    Row {
        table: CYCLE,
        bounds: (0, 0, 393),
        lines: b"MARGINS aperiodic common 646244 646756
ROOM whole 1 - 27986
ROOM drop 2 - 10493
ROOM turns - - -
ROOM opening 1 2 8468
ROOM waiting 2 1 17482
ROOM joining 1 2 3974
ROOM interval 1 - -572280
ROOM cycle 2 - 0
BEARS delay 3974 jitter 0 clocks 393
",
    },
];

#[test]
fn a_rule_that_lacks_a_nanosecond_is_told(rt: HostRuntime) -> Result<(), Fail> {
    for (k, row) in ROWS.iter().enumerate() {
        assert!(rt; tells(rt.alloc(), row)?, "row {k}");
    }
    Ok(())
}
