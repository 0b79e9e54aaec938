//! Votes of worked traces.
use crate::texts::trace_between;
use bus_outer::{MemorySink, WriteFault};
use bus_table::read_table;
use bus_trace::Trace;
use bus_vote::{vote, width, write_votes};
use std::alloc::Global;
use std::test::Fail;

const THREE_CHANNELS: &[u8] = b"TABLE 1
MODE aperiodic
TI 1000
SG 1000
SENDER 1 TG 10
SEND 0E1 1 1 3
SENDER 2 TG 20
SEND 0E1 2 1 3
SENDER 3 TG 30
SEND 0E1 3 1 3
";

const TWO_SENDERS: &[u8] = b"TABLE 1
MODE aperiodic
TI 1000
SG 1000
SENDER 1 TG 20
SEND 0A1 1 2 2
SENDER 2 TG 30
SEND 0B2 1 0 2
";

/// Labels 0F0 and 00A are voted on. Label 0B0 has four SEND lines, label 0C0 two of one sender, and label 0D0 two.
const MANY_LABELS: &[u8] = b"TABLE 1
MODE aperiodic
TI 1000
SG 1000
SENDER 9 TG 10
SEND 0F0 3 0 1
SEND 0B0 1 0 1
SEND 0C0 1 0 1
SEND 0C0 2 0 1
SEND 00A F 0 1
SENDER 4 TG 20
SEND 0F0 1 0 1
SEND 0B0 2 0 1
SEND 0C0 3 0 1
SEND 0D0 1 0 1
SENDER 7 TG 30
SEND 0F0 2 0 1
SEND 0B0 3 0 1
SEND 0D0 2 0 1
SEND 00A 1 0 1
SENDER 1 TG 40
SEND 0B0 4 0 1
SEND 00A 0 0 1
";

/// Two rounds, of which the second has three lists that differ.
const TWO_ROUNDS: &[u8] = b"TX 10 1
WS L0E110 D00010 D00020
TX 90 2
WS L0E120 D00010 D00020
TX 180 3
WS L0E131 D00010 D00091 D00031
TX 1270 1
WS L0E110 D00051
TX 1330 2
WS L0E120 D00061
TX 1400 3
WS L0E131 D00070
";

/// A table, what is sent, and the votes on it.
#[derive(Drop)]
struct Row {
    table: &'static [u8],
    sent: &'static [u8],
    votes: &'static [u8],
}

const ROWS: [Row; 11] = [
    // Of two rounds the second has three lists that differ: a word is that of two.
    Row {
        table: THREE_CHANNELS,
        sent: TWO_ROUNDS,
        votes: b"VOTE 1\nLABEL 0E1 1 2 3\nV 0 0001 0002\nV 1 ----\nEND\n",
    },
    // A table may have no voted label.
    Row {
        table: TWO_SENDERS,
        sent: b"TX 20 1\nWS L0A111 D00001 D00010\nTX 110 2\nWS L0B210 D00FF1\n",
        votes: b"VOTE 1\nEND\n",
    },
    // Three lengths: as many places as two have.
    Row {
        table: THREE_CHANNELS,
        sent: b"TX 10 1\nWS L0E110 D00010\nTX 90 2\nWS L0E120 D00010 D00020\nTX 180 3\nWS L0E131 D00010 D00020 D00031\n",
        votes: b"VOTE 1\nLABEL 0E1 1 2 3\nV 0 0001 0002\nEND\n",
    },
    // The first of two wordstrings that are named alike.
    Row {
        table: THREE_CHANNELS,
        sent: b"TX 10 1\nWS L0E120 D00010\nWS L0E110 D00051\nWS L0E110 D00061\nTX 180 3\nWS L0E131 D00051\n",
        votes: b"VOTE 1\nLABEL 0E1 1 2 3\nV 0 0005\nEND\n",
    },
    // No place.
    Row {
        table: THREE_CHANNELS,
        sent: b"TX 10 1\nWS L0E110\nTX 90 2\nWS L0E120\nTX 180 3\nWS L0E131 D00051\n",
        votes: b"VOTE 1\nLABEL 0E1 1 2 3\nV 0\nEND\n",
    },
    // The first is absent.
    Row {
        table: THREE_CHANNELS,
        sent: b"TX 90 2\nWS L0E120 D00051\nTX 180 3\nWS L0E131 D00061 D00010\n",
        votes: b"VOTE 1\nLABEL 0E1 1 2 3\nV 0 ----\nEND\n",
    },
    // The second is garbled, which counts as a round.
    Row {
        table: THREE_CHANNELS,
        sent: b"TX 10 1\nWS L0E110 D00051\nTX 90 2\nWS L0E120 D00051\nTX 91 5\nWS L0E120\nTX 180 3\nWS L0E131 D00061\n\
          TX 1000 1\nWS L0E110 D00070\nTX 1100 2\nWS L0E120 D00070\n",
        votes: b"VOTE 1\nLABEL 0E1 1 2 3\nV 0 ----\nV 1 0007\nEND\n",
    },
    // The third has no such wordstring.
    Row {
        table: THREE_CHANNELS,
        sent: b"TX 10 1\nWS L0E110 D00051\nTX 90 2\nWS L0E120 D00051\nTX 180 3\nWS L0E120 D00061\n",
        votes: b"VOTE 1\nLABEL 0E1 1 2 3\nV 0 0005\nEND\n",
    },
    // One alone.
    Row {
        table: THREE_CHANNELS,
        sent: b"TX 10 1\nWS L0E110 D00051\n",
        votes: b"VOTE 1\nLABEL 0E1 1 2 3\nEND\n",
    },
    // Nothing was sent.
    Row {
        table: THREE_CHANNELS,
        sent: b"",
        votes: b"VOTE 1\nLABEL 0E1 1 2 3\nEND\n",
    },
    // Labels ascend, and channels stand in table order.
    Row {
        table: MANY_LABELS,
        sent: b"TX 10 9
WS L0F031 D00051
WS L00AF1 D00010
TX 200 4
WS L0F010 D00051
TX 400 7
WS L0F020 D00061
WS L00A10 D00010
",
        votes: b"VOTE 1\nLABEL 00A 9 7 1\nV 0 0001\nLABEL 0F0 9 4 7\nV 0 0005\nEND\n",
    },
];

/// The trace of what was sent.
fn trace(alloc: Global, sent: &[u8]) -> Result<Trace, Fail> {
    trace_between(alloc, b"TRACE 1\nHORIZON 2000\n", sent)
}

/// Whether the votes of a row are written so.
fn has_votes(alloc: Global, row: &Row) -> Result<bool, Fail> {
    let table = read_table(alloc, row.table)?;
    let trace = trace(alloc, row.sent)?;
    let mut sink = MemorySink::new(alloc, 1000, 1000, Vec::new(alloc))?;
    let answer = write_votes(&table, &trace, &mut sink);
    Ok(answer.is_ok() && sink.bytes() == row.votes)
}

#[test]
fn votes_are_written_of_lists(rt: HostRuntime) -> Result<(), Fail> {
    for (k, row) in ROWS.iter().enumerate() {
        assert!(rt; has_votes(rt.alloc(), row)?, "row {k}");
    }
    Ok(())
}

#[test]
fn a_failed_push_is_a_fault(rt: HostRuntime) -> Result<(), Fail> {
    let table = read_table(rt.alloc(), THREE_CHANNELS)?;
    let trace = trace(rt.alloc(), TWO_ROUNDS)?;
    let mut sink = MemorySink::new(rt.alloc(), 1000, 1000, vec![in rt.alloc(); 0u64]?)?;
    let answer = write_votes(&table, &trace, &mut sink);
    assert!(rt; answer == Err(WriteFault) && sink.bytes().is_empty());
    Ok(())
}

#[test]
fn two_of_three(rt: HostRuntime) {
    let one: &[u16] = &[1, 2];
    let other: &[u16] = &[1, 3, 4];
    let none: Option<&[u16]> = None;
    assert!(rt; width(Some(one), none, Some(other)) == 2 && width(Some(one), none, none) == 0);
    assert!(rt; vote(Some(one), none, Some(other), 0) == Some(1));
    assert!(rt; vote(none, Some(one), Some(other), 1) == None);
}
