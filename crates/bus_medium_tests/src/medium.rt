//! Tries of the bus on tables with one sender and with several.
use crate::medium_rows::{DAYS, ROWS, Row};
use crate::shared::starts_are;
use bus_hands::read_hands;
use bus_medium::{Bus, OBSERVE_LIMIT, quiet, timing};
use bus_strings::is_on;
use bus_strings::limits::HORIZON_LIMIT;
use bus_table::{Hand, Table, read_table};
use bus_timers::{CounterCore, DeadlineCore, may_start};
use std::alloc::{AllocError, Global};
use std::cmp::min;
use std::test::Fail;

/// Whether the bus gives the starts of a row, bit time for bit time.
fn is_counted(alloc: Global, table: &Table, row: &Row) -> Result<bool, Fail> {
    let hands = read_hands(alloc, table, row.messages)?;
    let mut bus = Bus::<CounterCore>::settled(alloc, table, hands)?;
    let list = bus.observe(min(row.horizon, OBSERVE_LIMIT))?;
    Ok(starts_are(&list, row.starts))
}

/// The most moves of a core, where the bus gives the starts of a row by jumps.
fn jumped(alloc: Global, table: &Table, row: &Row) -> Result<Option<u64>, Fail> {
    let hands = read_hands(alloc, table, row.messages)?;
    let mut bus = Bus::<DeadlineCore>::settled(alloc, table, hands)?;
    let list = bus.observe_by_jumps(min(row.horizon, HORIZON_LIMIT))?;
    let mut most = 0;
    for k in 0..bus.senders() {
        most = bus.moves(k).max(most);
    }
    Ok(if starts_are(&list, row.starts) {
        Some(most)
    } else {
        None
    })
}

/// A start: its moment, the place of its sender in the table, and which message of its hand is begun.
#[derive(Clone, Copy, Drop)]
struct Start {
    moment: u64,
    place: usize,
    message: usize,
}

/// How many messages the sender at a place has begun, and the moment of the last.
fn begun(sent: &[Start], place: usize) -> (usize, Option<u64>) {
    let mut count = 0usize;
    let mut last = None;
    for start in sent {
        if start.place == place {
            count = count.saturating_add(1);
            last = Some(start.moment);
        }
    }
    (count, last)
}

/// Whether what was sent has a pulse at bit time `t`.
fn sounds(hands: &[Hand], sent: &[Start], t: u64) -> bool {
    for start in sent {
        if let (Some(hand), Ok(d)) = (
            hands.get(start.place),
            u32::try_from(t.saturating_sub(start.moment)),
        ) {
            if let Some(message) = hand.messages.get(start.message) {
                if is_on(message, d) {
                    return true;
                }
            }
        }
    }
    false
}

/// The place of a terminal's hand.
fn place_of(hands: &[Hand], number: u8) -> Option<usize> {
    for (place, hand) in hands.iter().enumerate() {
        if hand.terminal == number {
            return Some(place);
        }
    }
    None
}

/// What a terminal begins at a moment, where its sender has a message left and may start.
fn begins(
    table: &Table,
    hands: &[Hand],
    past: &[bool],
    sent: &[Start],
    number: u8,
    moment: u64,
) -> Option<Start> {
    let place = place_of(hands, number)?;
    let (message, last) = begun(sent, place);
    if message >= hands.get(place)?.messages.len() || place >= table.senders().len() {
        return None;
    }
    let last = match last {
        Some(last) => Some((last as usize).saturating_add(quiet(table) as usize)),
        None => None,
    };
    if may_start(timing(table, place), past, last) {
        return Some(Start {
            moment,
            place,
            message,
        });
    }
    None
}

/// The starts by the definition alone: moment by moment and number by number, of a past that is written down.
fn starts_by_definition(
    alloc: Global,
    table: &Table,
    hands: &[Hand],
    horizon: u64,
) -> Result<Vec<(u64, u8)>, AllocError> {
    let mut past = vec![in alloc; false; quiet(table) as usize]?;
    let mut sent = Vec::new(alloc);
    let mut starts = Vec::new(alloc);
    for t in 0..horizon {
        for number in 1..129u8 {
            if let Some(start) = begins(table, hands, &past, &sent, number, t) {
                sent.push(start)?;
                starts.push((t, number))?;
            }
        }
        past.push(sounds(hands, &sent, t))?;
    }
    Ok(starts)
}

/// Whether the definition gives the starts of a row.
fn is_defined(alloc: Global, table: &Table, row: &Row) -> Result<bool, Fail> {
    let hands = read_hands(alloc, table, row.messages)?;
    let starts = starts_by_definition(alloc, table, &hands, row.horizon)?;
    Ok(starts.as_slice() == row.starts)
}

/// Whether a row is what the definition gives, the bus bit time for bit time, and the bus by jumps in at most so many moves of a core.
fn is_shown(alloc: Global, row: &Row) -> Result<[bool; 3], Fail> {
    let table = read_table(alloc, row.table)?;
    let defined = is_defined(alloc, &table, row)?;
    let counted = is_counted(alloc, &table, row)?;
    let moves = jumped(alloc, &table, row)?;
    Ok([
        defined,
        counted,
        matches!(moves, Some(moves) if moves <= row.moves),
    ])
}

#[test]
fn a_bus_starts_as_the_definition_says(rt: HostRuntime) -> Result<(), Fail> {
    for (k, row) in ROWS.iter().enumerate() {
        assert!(rt; is_shown(rt.alloc(), row)? == [true; 3], "row {k}");
    }
    Ok(())
}

#[test]
fn a_horizon_of_days_takes_few_moves(rt: HostRuntime) -> Result<(), Fail> {
    let table = read_table(rt.alloc(), DAYS.table)?;
    assert!(rt; jumped(rt.alloc(), &table, &DAYS)? == Some(DAYS.moves));
    Ok(())
}
