//! The margins of worked tables. What is wanted was reckoned from the definitions apart from this program.
use bus_bounds::Bounds;
use bus_margins_periodic::write_periodic;
use bus_outer::MemorySink;
use bus_table::{Mode, read_table};
use std::alloc::Global;
use std::test::Fail;

const DRIFT: &[u8] = b"TABLE 1
MODE periodic
TI 2000
SG 300
SENDER 1 TG 30 AT 0
SEND 001 0 0 2
SENDER 2 TG 60 AT 120
SEND 002 0 0 0
SENDER 3 TG 20 AT 160
SEND 003 0 0 0
";

const FIXED_LENGTHS: &[u8] = b"TABLE 1
MODE periodic
TI 2000
SG 300
SENDER 1 TG 30 AT 0
SEND 001 0 2 2
SENDER 2 TG 60 AT 120
SEND 002 0 0 0
SENDER 3 TG 20 AT 160
SEND 003 0 0 0
";

const ASCENDING_GAPS: &[u8] = b"TABLE 1
MODE periodic
TI 2000
SG 300
SENDER 1 TG 30 AT 0
SEND 001 0 0 2
SENDER 2 TG 20 AT 120
SEND 002 0 0 0
SENDER 3 TG 60 AT 200
SEND 003 0 0 0
";

const TWO_SENDERS: &[u8] =
    b"TABLE 1\nMODE periodic\nTI 2000\nSG 300\nSENDER 1 TG 20 AT 0\nSEND 0A1 1 2 2\nSENDER 2 TG 30 AT 90\nSEND 0B2 1 30 30\n";

const VARYING: &[u8] =
    b"TABLE 1\nMODE periodic\nTI 2000\nSG 300\nSENDER 1 TG 20 AT 0\nSEND 0A1 1 2 2\nSENDER 2 TG 30 AT 90\nSEND 0B2 1 30 40\n";

const GREAT_GAPS: &[u8] =
    b"TABLE 1\nMODE periodic\nTI 1354\nSG 257\nSENDER 1 TG 256 AT 0\nSEND 001 0 20 20\nSENDER 2 TG 255 AT 677\nSEND 002 0 20 20\n";

const FOUR_SENDERS: &[u8] = b"TABLE 1
MODE periodic
TI 1423
SG 300
SENDER 1 TG 20 AT 0
SEND 001 0 8 8
SENDER 2 TG 30 AT 215
SEND 002 0 8 8
SENDER 3 TG 40 AT 699
SEND 003 0 8 8
SENDER 4 TG 50 AT 939
SEND 004 0 8 8
";

const FOUR_SENDERS_APART: &[u8] = b"TABLE 1
MODE periodic
TI 1663
SG 300
SENDER 1 TG 20 AT 0
SEND 001 0 8 8
SENDER 2 TG 30 AT 220
SEND 002 0 8 8
SENDER 3 TG 40 AT 701
SEND 003 0 8 8
SENDER 4 TG 50 AT 1182
SEND 004 0 8 8
";

const FIVE: &[u8] = b"TABLE 1
MODE periodic
TI 4000
SG 300
SENDER 1 TG 10 AT 0
SEND 101 1 8 8
SENDER 2 TG 15 AT 200
SEND 102 1 16 16
SENDER 3 TG 20 AT 570
SEND 103 1 4 12
SENDER 4 TG 25 AT 860
SEND 104 1 6 6
SENDER 5 TG 30 AT 1040
SEND 105 1 2 4
";

const ALONE: &[u8] =
    b"TABLE 1\nMODE periodic\nTI 128000\nSG 300\nSENDER 1 TG 20 AT 0\nSEND 001 0 0 0\n";

/// A table, a delay, a jitter and clocks, and the lines of its margins.
#[derive(Drop)]
pub(crate) struct Row {
    pub(crate) table: &'static [u8],
    pub(crate) bounds: (u64, u64, u64),
    pub(crate) lines: &'static [u8],
}

/// Whether a row has the lines of its periodic table within its bounds.
pub(crate) fn has_margins(alloc: Global, row: &Row) -> Result<bool, Fail> {
    let table = read_table(alloc, row.table)?;
    let (delay, jitter, clocks) = row.bounds;
    match (table.mode(), Bounds::new(delay, jitter, clocks)) {
        (Mode::Periodic, Some(bounds)) => {
            let mut sink = MemorySink::new(alloc, 400, 400, Vec::new(alloc))?;
            let answer = write_periodic(&table, bounds, &mut sink);
            Ok(answer.is_ok() && sink.bytes() == row.lines)
        }
        _ => Ok(false),
    }
}

const ROWS: [Row; 13] = [
    // A long message of the first holds the second back until the third is due, where clocks are 50 millionths apart.
    Row {
        table: DRIFT,
        bounds: (0, 0, 50),
        lines: b"MARGINS periodic none - -
ROOM hearing 3 - 7997
ROOM sync 2 - 470023
ROOM order 1 2 3 -112
ROOM begin 2 3 -29
BEARS delay - jitter - clocks -
",
    },
    // So it does where clocks are exact and power-ups differ: by one nanosecond.
    Row {
        table: DRIFT,
        bounds: (0, 0, 0),
        lines: b"MARGINS periodic none - -
ROOM hearing 3 - 7999
ROOM sync 2 - 470002
ROOM order 1 2 3 -1
ROOM begin 1 2 0
BEARS delay - jitter - clocks -
",
    },
    // With messages of fixed length nobody is overtaken.
    Row {
        table: FIXED_LENGTHS,
        bounds: (0, 0, 0),
        lines: b"MARGINS periodic turns 1000000 1000000
ROOM hearing 3 - 7999
ROOM sync 2 - 470002
ROOM order 1 2 3 19999
ROOM begin 1 2 0
BEARS delay 0 jitter 0 clocks 0
",
    },
    // Nor where terminal gaps ascend in turn order.
    Row {
        table: ASCENDING_GAPS,
        bounds: (0, 0, 0),
        lines: b"MARGINS periodic turns 1000000 1020000
ROOM hearing 2 - 7999
ROOM sync 3 - 470002
ROOM order 1 1 2 19999
ROOM begin 2 3 0
BEARS delay 0 jitter 0 clocks 0
",
    },
    // Two senders whose first round is as close as may be.
    Row {
        table: TWO_SENDERS,
        bounds: (0, 0, 0),
        lines: b"MARGINS periodic turns 1000000 1000000
ROOM hearing 1 - 7999
ROOM sync 2 - 345001
ROOM order 1 1 2 44999
ROOM begin 1 2 0
BEARS delay 0 jitter 0 clocks 0
",
    },
    // It is too close where clocks are off.
    Row {
        table: TWO_SENDERS,
        bounds: (0, 0, 50),
        lines: b"MARGINS periodic none - -
ROOM hearing 1 - 7997
ROOM sync 2 - 345017
ROOM order 1 1 2 44894
ROOM begin 1 2 -23
BEARS delay - jitter - clocks -
",
    },
    // Messages of one sender vary, and so does a round.
    Row {
        table: VARYING,
        bounds: (0, 0, 0),
        lines: b"MARGINS periodic turns 1000000 1100000
ROOM hearing 1 - 7999
ROOM sync 2 - 245001
ROOM order 1 1 2 44999
ROOM begin 1 2 0
BEARS delay 0 jitter 0 clocks 0
",
    },
    // Tables that are planned to the least interval leave no room for a synchronization gap of each sender.
    Row {
        table: GREAT_GAPS,
        bounds: (0, 0, 0),
        lines: b"MARGINS periodic none - -
ROOM hearing 2 - 125499
ROOM sync 1 - -127999
ROOM order 1 1 2 337499
ROOM begin 2 1 500
BEARS delay - jitter - clocks -
",
    },
    // Nor does this one of four senders,
    Row {
        table: FOUR_SENDERS,
        bounds: (0, 0, 0),
        lines: b"MARGINS periodic none - -
ROOM hearing 1 - 7999
ROOM sync 4 - -273497
ROOM order 2 4 1 99999
ROOM begin 1 2 2500
BEARS delay - jitter - clocks -
",
    },
    // nor with a longer interval.
    Row {
        table: FOUR_SENDERS_APART,
        bounds: (0, 0, 0),
        lines: b"MARGINS periodic none - -
ROOM hearing 1 - 7999
ROOM sync 4 - -153497
ROOM order 2 4 1 99999
ROOM begin 1 2 5000
BEARS delay - jitter - clocks -
",
    },
    // Lengths vary by more than turns bear, but gaps ascend behind the first sender, whose interval is as long as all others.
    Row {
        table: FIVE,
        bounds: (0, 0, 0),
        lines: b"MARGINS periodic leads 1905000 2095000
ROOM hearing 1 - 2999
ROOM sync 5 - 725004
ROOM order 2 5 1 -45001
ROOM begin 1 2 2500
BEARS delay 1249 jitter 0 clocks 0
",
    },
    // Where clocks may differ by a millionth no interval is surely as long.
    Row {
        table: FIVE,
        bounds: (0, 0, 1),
        lines: b"MARGINS periodic none - -
ROOM hearing 1 - 2997
ROOM sync 5 - 724996
ROOM order 2 5 1 -45021
ROOM begin 1 2 2496
BEARS delay - jitter - clocks -
",
    },
    // A sender that is alone has no rule of order.
    Row {
        table: ALONE,
        bounds: (500, 125, 50),
        lines: b"MARGINS periodic turns 63996674 64003326
ROOM hearing 1 - 7247
ROOM sync 1 - 63832941
ROOM begin 1 - 63975029
BEARS delay 7747 jitter 3748 clocks 1000
",
    },
];

#[test]
fn rules_have_their_rooms(rt: HostRuntime) -> Result<(), Fail> {
    for (k, row) in ROWS.iter().enumerate() {
        assert!(rt; has_margins(rt.alloc(), row)?, "row {k}");
    }
    Ok(())
}
