//! The least interval of two and of three senders, against all offsets that leave room for the messages, tried one by one.
use bus_plan::least_interval;
use bus_regime::verdict;
use bus_table::{Mode, Table, read_table, with_offsets};
use std::alloc::Global;
use std::test::Fail;

/// Three senders with longest messages of 340 bit times, or two with messages of 500: the lines before them with the least interval and
/// with one that is a bit time shorter, and that least interval.
#[derive(Drop)]
struct Row {
    enough: &'static [u8],
    short: &'static [u8],
    senders: &'static [u8],
    least: u64,
}

const THREE_SENDERS: &[u8] = b"SENDER 1 TG 8 AT 0
SEND 001 0 2 16
SENDER 2 TG 9 AT 0
SEND 002 0 16 16
SENDER 3 TG 10 AT 0
SEND 003 0 0 16
";

const TWO_SENDERS: &[u8] = b"SENDER 1 TG 8 AT 0
SEND 001 0 24 24
SENDER 2 TG 9 AT 0
SEND 002 0 24 24
";

const ROWS: [Row; 7] = [
    Row {
        enough: b"TABLE 1\nMODE periodic\nTI 1050\nSG 11\n",
        short: b"TABLE 1\nMODE periodic\nTI 1049\nSG 11\n",
        senders: THREE_SENDERS,
        least: 1050,
    },
    Row {
        enough: b"TABLE 1\nMODE periodic\nTI 1064\nSG 18\n",
        short: b"TABLE 1\nMODE periodic\nTI 1063\nSG 18\n",
        senders: THREE_SENDERS,
        least: 1064,
    },
    Row {
        enough: b"TABLE 1\nMODE periodic\nTI 1066\nSG 19\n",
        short: b"TABLE 1\nMODE periodic\nTI 1065\nSG 19\n",
        senders: THREE_SENDERS,
        least: 1066,
    },
    Row {
        enough: b"TABLE 1\nMODE periodic\nTI 1020\nSG 10\n",
        short: b"TABLE 1\nMODE periodic\nTI 1019\nSG 10\n",
        senders: TWO_SENDERS,
        least: 1020,
    },
    Row {
        enough: b"TABLE 1\nMODE periodic\nTI 1032\nSG 16\n",
        short: b"TABLE 1\nMODE periodic\nTI 1031\nSG 16\n",
        senders: TWO_SENDERS,
        least: 1032,
    },
    Row {
        enough: b"TABLE 1\nMODE periodic\nTI 1034\nSG 17\n",
        short: b"TABLE 1\nMODE periodic\nTI 1033\nSG 17\n",
        senders: TWO_SENDERS,
        least: 1034,
    },
    Row {
        enough: b"TABLE 1\nMODE periodic\nTI 1035\nSG 18\n",
        short: b"TABLE 1\nMODE periodic\nTI 1034\nSG 18\n",
        senders: TWO_SENDERS,
        least: 1035,
    },
];

/// The table of these lines.
fn table_of(alloc: Global, head: &[u8], senders: &[u8]) -> Result<Table, Fail> {
    let mut text = Vec::from_slice(alloc, head)?;
    text.extend_from_slice(senders)?;
    Ok(read_table(alloc, &text)?)
}

/// Whether a table of two senders is accepted, the first at 0, and the other at some offset below the interval.
fn some_of_two(alloc: Global, table: &Table) -> Result<bool, Fail> {
    if !matches!(table.mode(), Mode::Periodic) || table.senders().len() != 2 {
        return Err("two periodic senders".into());
    }
    for second in 1..table.ti() {
        let moved = with_offsets(alloc, table, &[0, second])?;
        if verdict(&moved).is_accepted() {
            return Ok(true);
        }
    }
    Ok(false)
}

/// Whether a table of three senders is accepted with the first at 0 and the others at these offsets.
fn is_accepted(alloc: Global, table: &Table, second: u32, third: u32) -> Result<bool, Fail> {
    if !matches!(table.mode(), Mode::Periodic) || table.senders().len() != 3 {
        return Err("three periodic senders".into());
    }
    if table.ti() <= second || table.ti() <= third {
        return Ok(false);
    }
    let moved = with_offsets(alloc, table, &[0, second, third])?;
    Ok(verdict(&moved).is_accepted())
}

/// Whether some offsets of three senders are accepted. A message takes 340 bit times, so that only those that leave so many between two
/// starts count, and gaps above 46 leave too few for the others.
fn some_of_three(alloc: Global, table: &Table) -> Result<bool, Fail> {
    for first in 0..47u32 {
        for second in 0..47u32 {
            let near = 340 + first;
            let far = 680 + first + second;
            if is_accepted(alloc, table, near, far)? || is_accepted(alloc, table, far, near)? {
                return Ok(true);
            }
        }
    }
    Ok(false)
}

/// Whether some offsets of a table of two or three senders are accepted.
fn some_accepted(alloc: Global, table: &Table) -> Result<bool, Fail> {
    if table.senders().len() == 2 {
        some_of_two(alloc, table)
    } else {
        some_of_three(alloc, table)
    }
}

/// Whether a row has its least interval, with which some offsets are accepted, and with a bit time less none.
fn is_least(alloc: Global, row: &Row) -> Result<bool, Fail> {
    let enough = table_of(alloc, row.enough, row.senders)?;
    if least_interval(&enough) != row.least || !some_accepted(alloc, &enough)? {
        return Ok(false);
    }
    Ok(!some_accepted(alloc, &table_of(alloc, row.short, row.senders)?)?)
}

#[test]
fn below_the_least_interval_no_offsets_do(rt: HostRuntime) -> Result<(), Fail> {
    for (k, row) in ROWS.iter().enumerate() {
        assert!(rt; is_least(rt.alloc(), row)?, "row {k}");
    }
    Ok(())
}
