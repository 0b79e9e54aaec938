//! Tables of several senders: the numbers are those of a program of another language that goes through all pairs.
use crate::tables::{A, C, D, FIVE, Row, V, Z10, Z20, tells};
use std::test::Fail;

const ROWS: [Row; 10] = [
    // A delay that a table bears.
    Row {
        table: D,
        bounds: (2000, 0, 0),
        lines: b"MARGINS aperiodic any 565000 589000
ROOM whole 1 - 495999
ROOM drop 2 - 10999
ROOM turns - - -
ROOM opening 1 2 999
ROOM waiting 2 1 480999
ROOM joining 1 2 8000
ROOM interval 2 - 25000
ROOM cycle 1 - 65000
BEARS delay 2499 jitter 249 clocks 973
",
    },
    // A delay that is too long.
    Row {
        table: D,
        bounds: (2500, 0, 0),
        lines: b"MARGINS aperiodic none - -
ROOM whole 1 - 495499
ROOM drop 2 - 10499
ROOM turns - - -
ROOM opening 1 2 -1
ROOM waiting 2 1 479999
ROOM joining 1 2 7500
ROOM interval 2 - 25000
ROOM cycle 1 - 65000
BEARS delay - jitter - clocks -
",
    },
    // Two senders with a common start.
    Row {
        table: A,
        bounds: (500, 125, 100),
        lines: b"MARGINS aperiodic common 514319 636693
ROOM whole 1 - 147232
ROOM drop 2 - 12246
ROOM turns - - -
ROOM opening 1 2 3463
ROOM waiting 2 1 133731
ROOM joining 1 2 9091
ROOM interval 1 - -310319
ROOM cycle 2 - 14397
BEARS delay 2231 jitter 990 clocks 1000
",
    },
    // Three senders.
    Row {
        table: V,
        bounds: (500, 125, 100),
        lines: b"MARGINS aperiodic any 589060 652446
ROOM whole 1 - 497197
ROOM drop 2 - 7246
ROOM turns 2 3 3745
ROOM opening 2 3 3393
ROOM waiting 3 1 483696
ROOM joining 1 2 4022
ROOM interval 1 - 24646
ROOM cycle 2 - 89138
BEARS delay 2196 jitter 973 clocks 1000
",
    },
    // Clocks alone.
    Row {
        table: D,
        bounds: (0, 0, 100),
        lines: b"MARGINS aperiodic any 564939 585063
ROOM whole 1 - 497947
ROOM drop 2 - 12996
ROOM turns - - -
ROOM opening 1 2 4893
ROOM waiting 2 1 484946
ROOM joining 1 2 9896
ROOM interval 2 - 24898
ROOM cycle 2 - 64892
BEARS delay 2446 jitter 1223 clocks 1000
",
    },
    // A gap that is too small.
    Row {
        table: C,
        bounds: (500, 125, 100),
        lines: b"MARGINS aperiodic none - -
ROOM whole 1 - 247222
ROOM drop 2 - 1747
ROOM turns - - -
ROOM opening 1 2 -1055
ROOM waiting 2 1 244222
ROOM joining 1 2 3072
ROOM interval 1 - -194332
ROOM cycle 2 - 19895
BEARS delay - jitter - clocks -
",
    },
    // An interval that is too long.
    Row {
        table: Z20,
        bounds: (0, 0, 0),
        lines: b"MARGINS aperiodic common 535000 535000
ROOM whole 1 - 477999
ROOM drop 2 - 7999
ROOM turns - - -
ROOM opening 1 2 4999
ROOM waiting 2 1 469999
ROOM joining 1 2 5000
ROOM interval 1 - -5000
ROOM cycle 1 - 25000
BEARS delay 2499 jitter 1249 clocks 1000
",
    },
    // An interval that is just short enough.
    Row {
        table: Z10,
        bounds: (0, 0, 0),
        lines: b"MARGINS aperiodic any 535000 535000
ROOM whole 1 - 477999
ROOM drop 2 - 7999
ROOM turns - - -
ROOM opening 1 2 4999
ROOM waiting 2 1 469999
ROOM joining 1 2 5000
ROOM interval 1 - 0
ROOM cycle 1 - 30000
BEARS delay 2499 jitter 0 clocks 0
",
    },
    // Clocks that make it too long.
    Row {
        table: Z10,
        bounds: (0, 0, 100),
        lines: b"MARGINS aperiodic common 534942 535058
ROOM whole 1 - 477949
ROOM drop 2 - 7996
ROOM turns - - -
ROOM opening 1 2 4898
ROOM waiting 2 1 469948
ROOM joining 1 2 4901
ROOM interval 1 - -102
ROOM cycle 2 - 29895
BEARS delay 2449 jitter 1224 clocks 1000
",
    },
    // Five senders in another order.
    Row {
        table: FIVE,
        bounds: (500, 125, 100),
        lines: b"MARGINS aperiodic common 1010014 1325517
ROOM whole 9 - 347212
ROOM drop 4 - 17745
ROOM turns 4 3 8242
ROOM opening 4 3 7920
ROOM waiting 7 9 248702
ROOM joining 9 4 9051
ROOM interval 3 - -588387
ROOM cycle 4 - 10044
BEARS delay 4460 jitter 1129 clocks 1000
",
    },
];

#[test]
fn the_margins_of_several_senders_are_told(rt: HostRuntime) -> Result<(), Fail> {
    for (k, row) in ROWS.iter().enumerate() {
        assert!(rt; tells(rt.alloc(), row)?, "row {k}");
    }
    Ok(())
}
