//! Drop-out schedules of small tables.
ghost use Rattle.std.specs.Prelude.{◌≡◌, IfOk, IsTrue};
ghost use Rattle.bus_table.specs.Hands.{are_hands};
ghost use Rattle.bus_table.specs.declared.mode.Mode.TheVariants.{Aperiodic};
ghost use Rattle.bus_dropout.specs.DropOut.{LastIsLong};

use crate::shared::starts_are;
use bus_dropout::{drop_end, last_cycle, run_dropout};
use bus_hands::read_hands;
use bus_table::{Hand, Mode, Table, read_table};
use std::alloc::Global;
use std::test::Fail;

/// A synchronization gap as long as the interval, so that one sender alone keeps it.
const TWO_SENDERS: &[u8] = b"TABLE 1
MODE aperiodic
TI 1000
SG 1000
SENDER 1 TG 20
SEND 0A1 1 2 4
SENDER 2 TG 30
SEND 0B2 1 1 2
";

/// A short synchronization gap, so that neither sender alone keeps the interval.
const SHORT_GAP: &[u8] = b"TABLE 1
MODE aperiodic
TI 1000
SG 300
SENDER 1 TG 20
SEND 0A1 1 2 4
SENDER 2 TG 30
SEND 0B2 1 30 40
";

/// A synchronization gap with which the second sender alone, with shortest messages, keeps just the interval.
const JUST_THE_INTERVAL: &[u8] = b"TABLE 1
MODE aperiodic
TI 1000
SG 350
SENDER 1 TG 20
SEND 0A1 1 2 4
SENDER 2 TG 30
SEND 0B2 1 30 40
";

/// Three senders, listed against their turn order.
const THREE_SENDERS: &[u8] = b"TABLE 1
MODE aperiodic
TI 1000
SG 1000
SENDER 3 TG 30
SEND 0A3 1 0 9
SENDER 2 TG 20
SEND 0A2 1 0 9
SENDER 1 TG 10
SEND 0A1 1 0 9
";

/// Messages of an aperiodic table, when who starts, and the end of that.
#[derive(Drop)]
struct Row {
    table: &'static [u8],
    messages: &'static [u8],
    starts: &'static [(u64, u8)],
    end: u128,
}

const ROWS: [Row; 12] = [
    // The last sender goes on alone.
    Row {
        table: TWO_SENDERS,
        messages: ONE_ALONE,
        starts: &[(20, 1), (110, 2), (1170, 1)],
        end: 1230,
    },
    // The second sender goes on alone with a short message and a long one, in either order.
    Row {
        table: JUST_THE_INTERVAL,
        messages: SHORT_AND_LONG,
        starts: &[(20, 1), (150, 2), (1150, 2)],
        end: 1970,
    },
    Row {
        table: JUST_THE_INTERVAL,
        messages: LONG_AND_SHORT,
        starts: &[(20, 1), (150, 2), (1350, 2)],
        end: 1970,
    },
    // Senders that are spent in every order, one without a message, one that goes on alone, and none that has any.
    Row {
        table: THREE_SENDERS,
        messages: b"MESSAGES 1\nMSG 1 :\nMSG 2 :\nMSG 3 :\nMSG 2 :\nMSG 3 :\nMSG 3 :\n",
        starts: &[(10, 1), (50, 2), (100, 3), (1140, 2), (1190, 3), (2240, 3)],
        end: 2260,
    },
    Row {
        table: THREE_SENDERS,
        messages: b"MESSAGES 1\nMSG 1 :\nMSG 2 :\nMSG 3 :\nMSG 2 :\nMSG 3 :\nMSG 2 :\n",
        starts: &[(10, 1), (50, 2), (100, 3), (1140, 2), (1190, 3), (2230, 2)],
        end: 2250,
    },
    Row {
        table: THREE_SENDERS,
        messages: b"MESSAGES 1\nMSG 1 :\nMSG 2 :\nMSG 3 :\nMSG 1 :\nMSG 3 :\nMSG 3 :\n",
        starts: &[(10, 1), (50, 2), (100, 3), (1130, 1), (1180, 3), (2230, 3)],
        end: 2250,
    },
    Row {
        table: THREE_SENDERS,
        messages: b"MESSAGES 1\nMSG 1 :\nMSG 2 :\nMSG 3 :\nMSG 1 :\nMSG 2 :\nMSG 2 :\n",
        starts: &[(10, 1), (50, 2), (100, 3), (1130, 1), (1170, 2), (2210, 2)],
        end: 2230,
    },
    Row {
        table: THREE_SENDERS,
        messages: b"MESSAGES 1\nMSG 1 :\nMSG 2 :\nMSG 3 :\nMSG 1 :\nMSG 3 :\nMSG 1 :\n",
        starts: &[(10, 1), (50, 2), (100, 3), (1130, 1), (1180, 3), (2210, 1)],
        end: 2230,
    },
    Row {
        table: THREE_SENDERS,
        messages: b"MESSAGES 1\nMSG 1 :\nMSG 2 :\nMSG 3 :\nMSG 1 :\nMSG 2 :\nMSG 1 :\n",
        starts: &[(10, 1), (50, 2), (100, 3), (1130, 1), (1170, 2), (2200, 1)],
        end: 2220,
    },
    Row {
        table: THREE_SENDERS,
        messages: b"MESSAGES 1\nMSG 2 :\nMSG 3 :\nMSG 2 :\n",
        starts: &[(20, 2), (70, 3), (1110, 2)],
        end: 1130,
    },
    Row {
        table: THREE_SENDERS,
        messages: b"MESSAGES 1\nMSG 1 :\nMSG 1 :\n",
        starts: &[(10, 1), (1040, 1)],
        end: 1060,
    },
    Row {
        table: THREE_SENDERS,
        messages: b"MESSAGES 1\n",
        starts: &[],
        end: 0,
    },
];

const ONE_ALONE: &[u8] = b"MESSAGES 1
MSG 1 : 0000 0000
MSG 2 : 0000
MSG 1 : 0000 0000
";

const SHORT_AND_LONG: &[u8] = b"MESSAGES 1
MSG 1 : 0000 0000 0000 0000
MSG 2 : 0000 0000 0000 0000 0000 0000 0000 0000 0000 0000 0000 0000 0000 0000 0000 0000 0000 0000 \
0000 0000 0000 0000 0000 0000 0000 0000 0000 0000 0000 0000
MSG 2 : 0000 0000 0000 0000 0000 0000 0000 0000 0000 0000 0000 0000 0000 0000 0000 0000 0000 0000 \
0000 0000 0000 0000 0000 0000 0000 0000 0000 0000 0000 0000 0000 0000 0000 0000 0000 0000 0000 0000 0000 0000
";

const LONG_AND_SHORT: &[u8] = b"MESSAGES 1
MSG 1 : 0000 0000 0000 0000
MSG 2 : 0000 0000 0000 0000 0000 0000 0000 0000 0000 0000 0000 0000 0000 0000 0000 0000 0000 0000 \
0000 0000 0000 0000 0000 0000 0000 0000 0000 0000 0000 0000 0000 0000 0000 0000 0000 0000 0000 0000 0000 0000
MSG 2 : 0000 0000 0000 0000 0000 0000 0000 0000 0000 0000 0000 0000 0000 0000 0000 0000 0000 0000 \
0000 0000 0000 0000 0000 0000 0000 0000 0000 0000 0000 0000
";

/// An aperiodic table.
fn aperiodic(alloc: Global, text: &[u8]) -> Result<Table, Fail>
    ensures { IfOk result (λ table. table.mode ≡ Aperiodic) }
{
    let table = read_table(alloc, text)?;
    if !matches!(table.mode(), Mode::Aperiodic) {
        return Err("an aperiodic table".into());
    }
    Ok(table)
}

/// Whether the last cycle, where there is one, is at least the transmit interval.
fn last_is_long(table: &Table, hands: &[Hand]) -> bool
    requires aperiodic { table.now.mode ≡ Aperiodic }
    requires hands { IsTrue (are_hands table.now.senders hands.now) }
    ensures { IsTrue result → LastIsLong table.now hands.now }
{
    match last_cycle(table, hands) {
        Some(least) => least >= u64::from(table.ti()),
        None => true,
    }
}

/// Whether a row has its drop-out schedule, whose last cycle, where there is one, is long enough.
fn is_shown(alloc: Global, row: &Row) -> Result<bool, Fail> {
    let table = aperiodic(alloc, row.table)?;
    let hands = read_hands(alloc, &table, row.messages)?;
    if drop_end(&table, &hands) != row.end || !last_is_long(&table, &hands) {
        return Ok(false);
    }
    Ok(starts_are(&run_dropout(alloc, &table, hands)?, row.starts))
}

#[test]
fn senders_fall_silent_in_every_order(rt: HostRuntime) -> Result<(), Fail> {
    for (k, row) in ROWS.iter().enumerate() {
        assert!(rt; is_shown(rt.alloc(), row)?, "row {k}");
    }
    Ok(())
}

/// A table and messages, the last cycle, and whether it is long enough.
#[derive(Drop)]
struct Last {
    table: &'static [u8],
    messages: &'static [u8],
    cycle: Option<u64>,
    is_long: bool,
}

const TWO_LONGEST: &[u8] = b"MESSAGES 1
MSG 1 : 0000 0000 0000 0000
MSG 2 : 0000 0000 0000 0000 0000 0000 0000 0000 0000 0000 0000 0000 0000 0000 0000 0000 0000 0000 \
0000 0000 0000 0000 0000 0000 0000 0000 0000 0000 0000 0000 0000 0000 0000 0000 0000 0000 0000 0000 0000 0000
MSG 2 : 0000 0000 0000 0000 0000 0000 0000 0000 0000 0000 0000 0000 0000 0000 0000 0000 0000 0000 \
0000 0000 0000 0000 0000 0000 0000 0000 0000 0000 0000 0000 0000 0000 0000 0000 0000 0000 0000 0000 0000 0000
";

const ONE_ROUND: &[u8] = b"MESSAGES 1
MSG 1 : 0000 0000 0000 0000
MSG 2 : 0000 0000 0000 0000 0000 0000 0000 0000 0000 0000 0000 0000 0000 0000 0000 0000 0000 0000 \
0000 0000 0000 0000 0000 0000 0000 0000 0000 0000 0000 0000 0000 0000 0000 0000 0000 0000 0000 0000 0000 0000
";

/// The last cycle counts the senders with the most messages alone, and shortest messages, whatever is sent; one message of each sender
/// has none.
const LASTS: [Last; 5] = [
    Last {
        table: TWO_SENDERS,
        messages: ONE_ALONE,
        cycle: Some(1080),
        is_long: true,
    },
    Last {
        table: JUST_THE_INTERVAL,
        messages: SHORT_AND_LONG,
        cycle: Some(1000),
        is_long: true,
    },
    Last {
        table: JUST_THE_INTERVAL,
        messages: LONG_AND_SHORT,
        cycle: Some(1000),
        is_long: true,
    },
    Last {
        table: SHORT_GAP,
        messages: TWO_LONGEST,
        cycle: Some(950),
        is_long: false,
    },
    Last {
        table: SHORT_GAP,
        messages: ONE_ROUND,
        cycle: None,
        is_long: true,
    },
];

/// Whether a row has its last cycle.
fn is_last(alloc: Global, row: &Last) -> Result<bool, Fail> {
    let table = aperiodic(alloc, row.table)?;
    let hands = read_hands(alloc, &table, row.messages)?;
    Ok(last_cycle(&table, &hands) == row.cycle && last_is_long(&table, &hands) == row.is_long)
}

#[test]
fn the_last_cycle_is_that_of_the_senders_that_go_on(rt: HostRuntime) -> Result<(), Fail> {
    for (k, row) in LASTS.iter().enumerate() {
        assert!(rt; is_last(rt.alloc(), row)?, "row {k}");
    }
    Ok(())
}
