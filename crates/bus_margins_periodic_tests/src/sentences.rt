//! What is said of worked tables on oscillators that are 50 millionths off. What is wanted was reckoned from the definitions, apart from
//! this program.
use bus_margins_periodic::write_drifting;
use bus_outer::MemorySink;
use bus_table::{Mode, read_table};
use std::alloc::Global;
use std::test::Fail;

const KEPT: &[u8] =
    b"TABLE 1\nMODE periodic\nTI 2000\nSG 300\nSENDER 1 TG 20 AT 0\nSEND 0A1 1 2 2\nSENDER 2 TG 30 AT 1359\nSEND 0B2 1 30 30\n";

const ROUND: &[u8] =
    b"TABLE 1\nMODE periodic\nTI 2000\nSG 300\nSENDER 1 TG 20 AT 0\nSEND 0A1 1 2 2\nSENDER 2 TG 30 AT 1360\nSEND 0B2 1 30 30\n";

const APART: &[u8] =
    b"TABLE 1\nMODE periodic\nTI 2000\nSG 300\nSENDER 1 TG 20 AT 0\nSEND 0A1 1 2 2\nSENDER 2 TG 30 AT 90\nSEND 0B2 1 30 30\n";

const SYNC: &[u8] =
    b"TABLE 1\nMODE periodic\nTI 1354\nSG 257\nSENDER 1 TG 256 AT 0\nSEND 001 0 20 20\nSENDER 2 TG 255 AT 677\nSEND 002 0 20 20\n";

const ORDER: &[u8] = b"TABLE 1
MODE periodic
TI 4000
SG 300
SENDER 1 TG 10 AT 0
SEND 101 1 8 8
SENDER 2 TG 15 AT 200
SEND 102 1 16 16
SENDER 3 TG 20 AT 570
SEND 103 1 4 12
SENDER 4 TG 25 AT 860
SEND 104 1 6 6
SENDER 5 TG 30 AT 1040
SEND 105 1 2 4
";

/// A periodic table, and what is said of it.
#[derive(Drop)]
struct Row {
    table: &'static [u8],
    sentence: &'static [u8],
}

const ROWS: [Row; 5] = [
    // There is a bit time for drift at both ends of the round.
    Row {
        table: KEPT,
        sentence: b"Where oscillators are off by up to 50 millionths and nothing else is inexact, from power-ups at one \
moment and with no delay \
on the way, the senders take turns for ever, with as many messages for each and however long these are, though their offsets \
may drift.\n",
    },
    // The last one's message ends where the next round's first gap begins: a start farther away would be worse.
    Row {
        table: ROUND,
        sentence: b"Where oscillators are off by up to 50 millionths and nothing else is inexact, from power-ups at one \
moment and with no delay \
on the way, nothing is promised of the senders' turns: the first start of terminal 2 may be too close to the second of \
terminal 1. It would be enough against that if the offset of terminal 2 were less by about 1 bit time, or if the transmit \
interval were longer by as much; something else may lack then.\n",
    },
    // The second one is due where the first one's message and its own gap end.
    Row {
        table: APART,
        sentence: b"Where oscillators are off by up to 50 millionths and nothing else is inexact, from power-ups at one \
moment and with no delay \
on the way, nothing is promised of the senders' turns: the first starts of terminals 1 and 2 may be too close. It would be \
enough against that if they were farther apart by about 1 bit time; something else may lack then.\n",
    },
    // An interval as short as may be holds no synchronization gap for each.
    Row {
        table: SYNC,
        sentence: b"Where oscillators are off by up to 50 millionths and nothing else is inexact, from power-ups at one \
moment and with no delay \
on the way, nothing is promised of the senders' turns: a sender may wait for a synchronization gap that comes late. It would \
be enough against that if the transmit interval were longer by about 257 bit times, to hold one for each sender; something \
else may lack then.\n",
    },
    // The third of them is of the next round, where it comes before the second: in the order from the first on it comes behind.
    Row {
        table: ORDER,
        sentence: b"Where oscillators are off by up to 50 millionths and nothing else is inexact, from power-ups at one \
moment and with no delay \
on the way, nothing is promised of the senders' turns: terminal 2 may be late, and hold terminal 5 back until terminal 1 is \
due too: there lacks about 91 bit times. A longer terminal gap of terminal 1 or a shorter one of terminal 5 may mend that.\n",
    },
];

/// Whether this is said of a row's table.
fn is_told(alloc: Global, row: &Row) -> Result<bool, Fail> {
    let table = read_table(alloc, row.table)?;
    if !matches!(table.mode(), Mode::Periodic) {
        return Ok(false);
    }
    let mut sink = MemorySink::new(alloc, 600, 600, Vec::new(alloc))?;
    let answer = write_drifting(&table, &mut sink);
    Ok(answer.is_ok() && sink.bytes() == row.sentence)
}

#[test]
fn a_table_is_told_of(rt: HostRuntime) -> Result<(), Fail> {
    for (k, row) in ROWS.iter().enumerate() {
        assert!(rt; is_told(rt.alloc(), row)?, "row {k}");
    }
    Ok(())
}
