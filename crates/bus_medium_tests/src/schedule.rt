//! Closed schedules of small tables, and the runs that follow them.
ghost use Rattle.std.specs.Prelude.{IfOk, IsTrue};
ghost use Rattle.bus_schedule.specs.Even.{are_even};

use crate::shared::{TWO_ROUNDS, starts_are};
use bus_hands::read_hands;
use bus_regime::verdict;
use bus_schedule::{ScheduleError, closed, closed_end, find_uneven, run_settled};
use bus_table::{Hand, Table, read_table};
use bus_timers::DeadlineCore;
use std::alloc::{AllocError, Global};
use std::test::Fail;

/// Two senders with terminal gaps 20 and 30, of one wordstring each.
const TWO_SENDERS: &[u8] = b"TABLE 1
MODE aperiodic
TI 1000
SG 300
SENDER 1 TG 20
SEND 0A1 1 2 4
SENDER 2 TG 30
SEND 0B2 1 30 40
";

/// The same with an interval that is one bit time longer than its shortest cycle.
const SHORT_CYCLE: &[u8] = b"TABLE 1
MODE aperiodic
TI 1031
SG 300
SENDER 1 TG 20
SEND 0A1 1 2 4
SENDER 2 TG 30
SEND 0B2 1 30 40
";

/// The same two in periodic mode: the second starts just its terminal gap behind the end of the first.
const TWO_OFFSETS: &[u8] = b"TABLE 1
MODE periodic
TI 2000
SG 300
SENDER 1 TG 20 AT 0
SEND 0A1 1 2 2
SENDER 2 TG 30 AT 90
SEND 0B2 1 30 40
";

/// Both at the same offset.
const SAME_OFFSET: &[u8] = b"TABLE 1
MODE periodic
TI 2000
SG 300
SENDER 2 TG 30 AT 0
SEND 0B2 1 30 30
SENDER 1 TG 20 AT 0
SEND 0A1 1 2 2
";

/// One sender of messages of 20 bit times, at the beginning of each interval.
const ONE_SENDER: &[u8] = b"TABLE 1
MODE periodic
TI 128000
SG 300
SENDER 1 TG 20 AT 0
SEND 001 0 0 0
";

/// The second message of terminal 2 is longer than its first.
const LONGER_LAST: &[u8] = b"MESSAGES 1
MSG 1 : 0000 0000
MSG 2 : 0000 0000 0000 0000 0000 0000 0000 0000 0000 0000 0000 0000 0000 0000 0000 \
0000 0000 0000 0000 0000 0000 0000 0000 0000 0000 0000 0000 0000 0000 0000
MSG 1 : 0000 0000
MSG 2 : 0000 0000 0000 0000 0000 0000 0000 0000 0000 0000 0000 0000 0000 0000 0000 0000 0000 0000 0000 0000 \
0000 0000 0000 0000 0000 0000 0000 0000 0000 0000 0000 0000 0000 0000 0000 0000 0000 0000 0000 0000
";

/// A table, messages, when who starts, and the end of that.
#[derive(Drop)]
struct Row {
    table: &'static [u8],
    messages: &'static [u8],
    starts: &'static [(u64, u8)],
    end: u64,
}

/// By gaps and messages.
const TURNS: Row = Row {
    table: TWO_SENDERS,
    messages: TWO_ROUNDS,
    starts: &[(20, 1), (110, 2), (1050, 1), (1140, 2)],
    end: 1760,
};

/// A refused table has a closed schedule too, in which senders at the same offset stand by number.
const TOGETHER: Row = Row {
    table: SAME_OFFSET,
    messages: TWO_ROUNDS,
    starts: &[(0, 1), (0, 2), (2000, 1), (2000, 2)],
    end: 2620,
};

/// It doesn't look at an interval that is longer than the shortest cycle.
const TOO_SHORT: Row = Row {
    table: SHORT_CYCLE,
    messages: TWO_ROUNDS,
    starts: &[(20, 1), (110, 2), (1050, 1), (1140, 2)],
    end: 1760,
};

/// A longer message moves no start.
const AT_OFFSETS: Row = Row {
    table: TWO_OFFSETS,
    messages: LONGER_LAST,
    starts: &[(0, 1), (90, 2), (2000, 1), (2090, 2)],
    end: 2910,
};

/// The hands of a messages text, which are even.
fn even_hands(alloc: Global, table: &Table, messages: &[u8]) -> Result<Vec<Hand>, Fail>
    ensures { IfOk result (λ hands. IsTrue (are_even table.now hands.items)) }
{
    let hands = read_hands(alloc, table, messages)?;
    if find_uneven(table, &hands).is_some() {
        return Err("even hands".into());
    }
    Ok(hands)
}

/// Whether the closed schedule of a table, which is accepted or not, is that of the row.
fn has_schedule(alloc: Global, row: &Row, accepted: bool) -> Result<bool, Fail> {
    let table = read_table(alloc, row.table)?;
    let hands = even_hands(alloc, &table, row.messages)?;
    if verdict(&table).is_accepted() != accepted
        || closed_end(&table, &hands) != u128::from(row.end)
    {
        return Ok(false);
    }
    Ok(starts_are(&closed(alloc, &table, &hands)?, row.starts))
}

#[test]
fn a_table_has_its_schedule_accepted_or_not(rt: HostRuntime) -> Result<(), Fail> {
    for (k, (row, accepted)) in [(&TURNS, true), (&TOGETHER, false), (&TOO_SHORT, false)]
        .iter()
        .enumerate()
    {
        assert!(rt; has_schedule(rt.alloc(), row, *accepted)?, "row {k}");
    }
    Ok(())
}

/// Whether the bus of an accepted table runs as the row says.
fn runs(alloc: Global, row: &Row) -> Result<bool, Fail> {
    let table = read_table(alloc, row.table)?;
    let hands = even_hands(alloc, &table, row.messages)?;
    if !verdict(&table).is_accepted() {
        return Ok(false);
    }
    let ran = run_settled::<DeadlineCore>(alloc, &table, hands)?;
    Ok(starts_are(&ran.list, row.starts) && ran.end == row.end)
}

#[test]
fn the_bus_runs_as_the_schedule_says(rt: HostRuntime) -> Result<(), Fail> {
    for (k, row) in [&TURNS, &AT_OFFSETS].iter().enumerate() {
        assert!(rt; runs(rt.alloc(), row)?, "row {k}");
    }
    Ok(())
}

/// So many messages of terminal 1 without data words.
fn label_words(alloc: Global, count: usize) -> Result<Vec<u8>, AllocError> {
    let mut text = Vec::from_slice(alloc, b"MESSAGES 1\n")?;
    for _ in 0..count {
        text.extend_from_slice(b"MSG 1 :\n")?;
    }
    Ok(text)
}

/// 536,872 messages of `ONE_SENDER` end behind the limit.
#[test]
fn a_schedule_above_the_limit_is_refused(rt: HostRuntime) -> Result<(), Fail> {
    let alloc = rt.alloc();
    let table = read_table(alloc, ONE_SENDER)?;
    assert!(rt; verdict(&table).is_accepted());
    let hands = even_hands(alloc, &table, &label_words(alloc, 536_872)?)?;
    let too_long = ScheduleError::TooLong {
        end: 68_719_488_020,
    };
    assert!(rt; closed(alloc, &table, &hands).err() == Some(too_long));
    assert!(rt; run_settled::<DeadlineCore>(alloc, &table, hands).err() == Some(too_long));
    Ok(())
}
