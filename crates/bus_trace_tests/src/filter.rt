//! What terminals receive, by example.
use crate::texts::trace_between;
use bus_filter::{Heard, Receiver, count_received, write_received};
use bus_outer::{MemorySink, WriteFault};
use bus_strings::is_by_moment;
use bus_table::{TakeLine, read_table};
use bus_words::{Ext, Label, data_word, label_word};
use std::alloc::Global;
use std::test::Fail;

const TWO_SENDERS_AND_A_LISTENER: &[u8] = b"TABLE 1
MODE aperiodic
TI 1000
SG 1000
SENDER 1 TG 20
SEND 0A1 1 2 2
SENDER 2 TG 30
SEND 0B2 1 0 2
TAKE 0A1 * 1 4
LISTENER 3
TAKE 0B2 1 0 2
";

const A_TERMINAL_THAT_TAKES_ITS_OWN_LABEL: &[u8] = b"TABLE 1
MODE aperiodic
TI 1000
SG 300
SENDER 1 TG 20
SEND 0A1 1 2 4
SENDER 2 TG 30
SEND 0B2 1 30 40
TAKE 0B2 * 0 4
LISTENER 3
TAKE 0B2 * 28 10
TAKE 0B2 1 40 1
";

const LABELS_AT_BOTH_ENDS: &[u8] = b"TABLE 1
MODE aperiodic
TI 1000
SG 300
SENDER 1 TG 20
SEND 000 0 0 9
SEND FFF F 0 9
SENDER 2 TG 30
SEND 0A1 1 0 9
TAKE FFF * 1 2
TAKE 000 0 0 256
TAKE FFF F 0 256
TAKE FFF 0 0 256
LISTENER 3
TAKE 0A1 2 0 1
TAKE 000 1 0 1
LISTENER 4
TAKE 0A1 * 4 5
";

/// The second begins with the last bit time of the first.
const GARBLED: &[u8] = b"TX 20 1
WS L0A111 D00001 D00010
TX 79 2
WS L0B210
";

/// A table, what is sent, how many lines are received, and the text of that.
#[derive(Drop)]
struct Row {
    table: &'static [u8],
    sent: &'static [u8],
    lines: u128,
    received: &'static [u8],
}

const ROWS: [Row; 4] = [
    // Words of others are received.
    Row {
        table: TWO_SENDERS_AND_A_LISTENER,
        sent: b"TX 20 1
WS L0A111 D00001 D00010
TX 110 2
WS L0B210 D00FF1
",
        lines: 2,
        received: b"RECEIVED 1
TERMINAL 1
TERMINAL 2
RX 20 0A1 1 0001
TERMINAL 3
RX 110 0B2 1 00FF
END
",
    },
    // A selection ends with its wordstring.
    Row {
        table: A_TERMINAL_THAT_TAKES_ITS_OWN_LABEL,
        sent: b"TX 20 1
WS L0A111 D00001 D00001
TX 110 2
WS L0B210 D00001 D00010 D00020 D00031 D00040 D00051 D00061 D00070 D00080 D00091 D000A1 D000B0 D000C1 D000D0 \
D000E0 D000F1 D00100 D00111 D00121 D00130 D00141 D00150 D00160 D00171 D00181 D00190 D001A0 D001B1 D001C0 D001D1
",
        lines: 2,
        received: b"RECEIVED 1
TERMINAL 1
TERMINAL 2
TERMINAL 3
RX 110 0B2 1 001C 001D
RX 110 0B2 1
END
",
    },
    // Garbled words are not received.
    Row {
        table: TWO_SENDERS_AND_A_LISTENER,
        sent: GARBLED,
        lines: 0,
        received: b"RECEIVED 1
TERMINAL 1
TERMINAL 2
TERMINAL 3
END
",
    },
    // A message of two wordstrings whose labels are the least and the greatest; a garbled one of each terminal; and one in the clear.
    Row {
        table: LABELS_AT_BOTH_ENDS,
        sent: b"TX 20 1
WS L00001 D00010 D00020 D00031 D00040 D00051 D00061 D00070 D00080 D00091
WS LFFFF1 DABCD1 D00EF0 D00070
TX 1000 1
WS LFFF10 D00010 D00020
TX 1010 2
WS L0A111 D00010
TX 2000 2
WS L0A111 D00010 D00020 D00031 D00040 D00051 D00061 D00070 D00080 D00091
",
        lines: 4,
        received: b"RECEIVED 1
TERMINAL 1
TERMINAL 2
RX 20 000 0 0001 0002 0003 0004 0005 0006 0007 0008 0009
RX 20 FFF F 00EF 0007
RX 20 FFF F ABCD 00EF 0007
TERMINAL 3
TERMINAL 4
RX 2000 0A1 1 0005 0006 0007 0008 0009
END
",
    },
];

/// How many lines the terminals of a table receive of what is sent, and what is written of that, in a sink whose listed pushes fail.
fn received(
    alloc: Global,
    table: &[u8],
    sent: &[u8],
    failing: &[u64],
) -> Result<(u128, bool, Vec<u8>), Fail> {
    let table = read_table(alloc, table)?;
    let trace = trace_between(alloc, b"TRACE 1\nHORIZON 2001\n", sent)?;
    if !is_by_moment(trace.list()) {
        return Err(Fail::new("a list by moment"));
    }
    let mut sink = MemorySink::new(alloc, 1000, 1000, Vec::from_slice(alloc, failing)?)?;
    let answer = write_received(&table, trace.list(), &mut sink);
    let bytes = Vec::from_slice(alloc, sink.bytes())?;
    Ok((
        count_received(&table, trace.list()),
        answer == Err(WriteFault),
        bytes,
    ))
}

#[test]
fn received_words_are_those_of_the_lines(rt: HostRuntime) -> Result<(), Fail> {
    for (k, row) in ROWS.iter().enumerate() {
        let (lines, failed, bytes) = received(rt.alloc(), row.table, row.sent, &[])?;
        assert!(rt; lines == row.lines && !failed, "row {k}");
        assert!(rt; bytes.as_slice() == row.received, "row {k}");
    }
    Ok(())
}

#[test]
fn a_failed_push_is_a_fault(rt: HostRuntime) -> Result<(), Fail> {
    let (_, failed, bytes) = received(rt.alloc(), TWO_SENDERS_AND_A_LISTENER, GARBLED, &[0])?;
    assert!(rt; failed && bytes.is_empty());
    Ok(())
}

/// A label and an extension of these numbers.
fn pair(label: u16, ext: u8) -> Result<(Label, Ext), Fail> {
    match (Label::new(label), Ext::new(ext)) {
        (Some(label), Some(ext)) => Ok((label, ext)),
        _ => Err(Fail::new("no label")),
    }
}

#[test]
fn a_receiver_keeps_its_places(rt: HostRuntime) -> Result<(), Fail> {
    let (label, ext) = pair(0x0A1, 3)?;
    let (other, _) = pair(0x0B2, 3)?;
    let mut receiver = Receiver::new(TakeLine {
        label,
        ext: None,
        first: 1,
        count: 2,
    });
    receiver.begin();
    for (word, want) in [
        (data_word(7), Heard::Skipped),
        (label_word(label, ext), Heard::Begins { label, ext }),
        (data_word(10), Heard::Skipped),
        (data_word(11), Heard::Kept(11)),
        (data_word(12), Heard::Kept(12)),
        (data_word(13), Heard::Skipped),
        (label_word(other, ext), Heard::Skipped),
        (data_word(11), Heard::Skipped),
        (label_word(label, ext), Heard::Begins { label, ext }),
        (data_word(10), Heard::Skipped),
    ] {
        assert!(rt; receiver.word(word) == want);
    }
    assert!(rt; receiver.matching());
    receiver.end();
    assert!(rt; !receiver.matching());
    assert!(rt; receiver.word(data_word(11)) == Heard::Skipped);
    Ok(())
}
