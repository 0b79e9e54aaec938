//! What periodic and aperiodic tables bear.
use crate::aperiodic_reach;
use bus_reach::{bears, tolerance};
use bus_regime::verdict;
use bus_table::read_table;
use std::alloc::Global;
use std::test::Fail;

/// The gap of terminal 2 is just its terminal gap.
const JUST_WIDE: &[u8] = b"TABLE 1
MODE periodic
TI 2000
SG 300
SENDER 1 TG 20 AT 0
SEND 0A1 1 2 2
SENDER 2 TG 30 AT 90
SEND 0B2 1 30 30
";

/// And 4 bit times more.
const FOUR_WIDER: &[u8] = b"TABLE 1
MODE periodic
TI 2000
SG 300
SENDER 1 TG 20 AT 0
SEND 0A1 1 2 2
SENDER 2 TG 30 AT 94
SEND 0B2 1 30 30
";

/// The messages of terminal 2 vary.
const VARYING: &[u8] = b"TABLE 1
MODE periodic
TI 2000
SG 300
SENDER 1 TG 20 AT 0
SEND 0A1 1 2 2
SENDER 2 TG 30 AT 90
SEND 0B2 1 30 40
";

/// A synchronization gap behind each message, as a plan has it: the slack behind the own message is 0, and no synchronization gap longer
/// by the delay is asked for there.
const PLANNED: &[u8] = b"TABLE 1
MODE periodic
TI 1354
SG 257
SENDER 1 TG 256 AT 0
SEND 0A1 1 20 20
SENDER 2 TG 255 AT 677
SEND 0B2 1 20 20
";

/// Gaps of 304, 35, 304 and 60: 5 isn't borne for the sake of sync, though each gap is wide enough.
pub(crate) const BY_SYNC: &[u8] = b"TABLE 1
MODE periodic
TI 1423
SG 300
SENDER 1 TG 20 AT 0
SEND 001 0 8 8
SENDER 2 TG 30 AT 215
SEND 002 0 8 8
SENDER 3 TG 40 AT 699
SEND 003 0 8 8
SENDER 4 TG 50 AT 939
SEND 004 0 8 8
";

/// Gaps of 301, 40, 301 and 301: several gaps together synchronize, where one alone would do for a delay of 1.
pub(crate) const BY_SEVERAL: &[u8] = b"TABLE 1
MODE periodic
TI 1663
SG 300
SENDER 1 TG 20 AT 0
SEND 001 0 8 8
SENDER 2 TG 30 AT 220
SEND 002 0 8 8
SENDER 3 TG 40 AT 701
SEND 003 0 8 8
SENDER 4 TG 50 AT 1182
SEND 004 0 8 8
";

/// A sender alone.
const ALONE: &[u8] = b"TABLE 1
MODE periodic
TI 1000
SG 300
SENDER 1 TG 20 AT 0
SEND 0A1 1 2 2
";

/// A table that is accepted, and the greatest delay that it bears, or that it bears any.
#[derive(Drop)]
struct Row {
    table: &'static [u8],
    most: Option<u64>,
}

const ROWS: [Row; 14] = [
    Row {
        table: aperiodic_reach::TWO_SENDERS,
        most: Some(4),
    },
    Row {
        table: aperiodic_reach::WITH_RECEIVERS,
        most: Some(4),
    },
    Row {
        table: aperiodic_reach::THREE_CHANNELS,
        most: Some(4),
    },
    Row {
        table: aperiodic_reach::NEXT_GAPS,
        most: Some(0),
    },
    Row {
        table: aperiodic_reach::SMALL_GAP,
        most: Some(9),
    },
    Row {
        table: aperiodic_reach::NEAR_SYNC,
        most: Some(5),
    },
    Row {
        table: aperiodic_reach::ALONE,
        most: None,
    },
    Row {
        table: JUST_WIDE,
        most: Some(0),
    },
    Row {
        table: FOUR_WIDER,
        most: Some(4),
    },
    Row {
        table: VARYING,
        most: Some(0),
    },
    Row {
        table: PLANNED,
        most: Some(1),
    },
    Row {
        table: BY_SYNC,
        most: Some(4),
    },
    Row {
        table: BY_SEVERAL,
        most: Some(3),
    },
    Row {
        table: ALONE,
        most: None,
    },
];

/// Whether a row's table is accepted, and bears just so much delay, or any.
fn bears_just(alloc: Global, row: &Row) -> Result<bool, Fail> {
    let table = read_table(alloc, row.table)?;
    if !verdict(&table).is_accepted() || tolerance(&table) != row.most {
        return Ok(false);
    }
    Ok(match row.most {
        None => bears(&table, u64::MAX),
        Some(most) => {
            bears(&table, most)
                && !bears(&table, most.saturating_add(1))
                && !bears(&table, u64::MAX)
        }
    })
}

#[test]
fn a_table_bears_its_tolerance_and_no_more(rt: HostRuntime) -> Result<(), Fail> {
    for (k, row) in ROWS.iter().enumerate() {
        assert!(rt; bears_just(rt.alloc(), row)?, "row {k}");
    }
    Ok(())
}
