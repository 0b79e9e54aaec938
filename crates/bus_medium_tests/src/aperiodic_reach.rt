//! Aperiodic tables, and which start themselves.
use bus_regime::{starts_itself, verdict};
use bus_table::{Mode, read_table};
use std::alloc::Global;
use std::test::Fail;

/// Terminal gaps 10 apart bear 4.
pub(crate) const TWO_SENDERS: &[u8] = b"TABLE 1
MODE aperiodic
TI 1000
SG 300
SENDER 1 TG 20
SEND 0A1 1 2 4
SENDER 2 TG 30
SEND 0B2 1 30 40
";

/// The same, with a synchronization gap that a transmit interval isn't longer than, and with receivers.
pub(crate) const WITH_RECEIVERS: &[u8] = b"TABLE 1
MODE aperiodic
TI 1000
SG 1000
SENDER 1 TG 20
SEND 0A1 1 2 2
SENDER 2 TG 30
SEND 0B2 1 0 2
TAKE 0A1 * 1 4
LISTENER 3
TAKE 0B2 1 0 2
";

/// Three senders of one label.
pub(crate) const THREE_CHANNELS: &[u8] = b"TABLE 1
MODE aperiodic
TI 1000
SG 1000
SENDER 1 TG 10
SEND 0E1 1 1 3
SENDER 2 TG 20
SEND 0E1 2 1 3
SENDER 3 TG 30
SEND 0E1 3 1 3
";

/// Terminal gaps that are next to each other bear nothing.
pub(crate) const NEXT_GAPS: &[u8] = b"TABLE 1
MODE aperiodic
TI 1000
SG 500
SENDER 1 TG 8
SEND 0C1 0 1 1
SEND 0C2 0 2 2
SENDER 2 TG 9
SEND 0D1 0 20 20
";

/// The least terminal gap decides.
pub(crate) const SMALL_GAP: &[u8] = b"TABLE 1
MODE aperiodic
TI 1000
SG 1000
SENDER 1 TG 9
SEND 0A1 1 2 4
SENDER 2 TG 200
SEND 0B2 1 2 4
";

/// The synchronization gap is the nearest, listed against turn order.
pub(crate) const NEAR_SYNC: &[u8] = b"TABLE 1
MODE aperiodic
TI 1000
SG 210
SENDER 1 TG 199
SEND 0A1 1 30 30
SENDER 2 TG 90
SEND 0B2 1 30 30
SENDER 3 TG 40
SEND 0C3 1 0 0
";

/// A sender alone.
pub(crate) const ALONE: &[u8] = b"TABLE 1
MODE aperiodic
TI 1000
SG 9
SENDER 1 TG 8
SEND 001 0 60 60
";

/// The transmit interval is as long as what the first sender waits and sends at least from one start to the next.
const JUST_FREE: &[u8] = b"TABLE 1
MODE aperiodic
TI 1010
SG 960
SENDER 1 TG 10
SEND 001 0 1 1
SENDER 2 TG 20
SEND 002 0 1 1
";

/// And longer by a bit time.
const NEVER_FREE: &[u8] = b"TABLE 1
MODE aperiodic
TI 1011
SG 960
SENDER 1 TG 10
SEND 001 0 1 1
SENDER 2 TG 20
SEND 002 0 1 1
";

/// An aperiodic table, and whether it starts itself.
#[derive(Drop)]
struct Row {
    table: &'static [u8],
    starts: bool,
}

const ROWS: [Row; 6] = [
    Row {
        table: TWO_SENDERS,
        starts: false,
    },
    Row {
        table: WITH_RECEIVERS,
        starts: true,
    },
    Row {
        table: THREE_CHANNELS,
        starts: true,
    },
    Row {
        table: ALONE,
        starts: true,
    },
    Row {
        table: JUST_FREE,
        starts: true,
    },
    Row {
        table: NEVER_FREE,
        starts: false,
    },
];

/// Whether an aperiodic table that the verdict accepts starts itself.
fn starts(alloc: Global, text: &[u8]) -> Result<Option<bool>, Fail> {
    let table = read_table(alloc, text)?;
    if !matches!(table.mode(), Mode::Aperiodic) || !verdict(&table).is_accepted() {
        return Ok(None);
    }
    Ok(Some(starts_itself(&table)))
}

#[test]
fn a_table_starts_itself_where_no_interval_outlasts_a_turn(rt: HostRuntime) -> Result<(), Fail> {
    for (k, row) in ROWS.iter().enumerate() {
        assert!(rt;
            starts(rt.alloc(), row.table)? == Some(row.starts),
            "row {k}"
        );
    }
    Ok(())
}
