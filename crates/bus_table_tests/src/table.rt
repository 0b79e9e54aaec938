//! Table texts that are read, and that are written.
use bus_outer::MemorySink;
use bus_table::{Mode, SendLine, Table, TakeLine, longest, read_table, shortest, write_table};
use bus_words::{Ext, Label};
use std::alloc::Global;
use std::process::Abort;
use std::test::Fail;

const TWO_SENDERS: &[u8] =
    b"TABLE 1\nMODE aperiodic\nTI 1000\nSG 300\nSENDER 1 TG 20\nSEND 0A1 1 2 4\nSENDER 2 TG 30\nSEND 0B2 1 30 40\n";

/// The number, the terminal gap and the offset of the second of two senders, and its only SEND line; it takes nothing.
fn second_sender(table: &Table) -> Option<((u8, u32, u32), SendLine)> {
    let [_, second] = table.senders() else {
        return None;
    };
    match (second.sends(), second.takes()) {
        ([line], []) => Some(((second.number(), second.tg(), second.at()), *line)),
        _ => None,
    }
}

/// The lengths of the shortest and of the longest message of the first of two senders, and of the second.
fn lengths(table: &Table) -> Option<[(u32, u32); 2]> {
    match table.senders() {
        [first, second] => Some([
            (shortest(first), longest(first)),
            (shortest(second), longest(second)),
        ]),
        _ => None,
    }
}

#[test]
fn reads_two_senders(rt: HostRuntime) -> Result<(), Fail> {
    let line = SendLine {
        label: Label::new(0x0b2).expect(&rt, "a label"),
        ext: Ext::new(1).expect(&rt, "an extension"),
        least: 30,
        most: 40,
    };
    let table = read_table(rt.alloc(), TWO_SENDERS)?;
    let head = (
        table.mode(),
        table.ti(),
        table.sg(),
        table.listeners().len(),
    );
    assert!(rt; head == (Mode::Aperiodic, 1000, 300, 0));
    assert!(rt; second_sender(&table) == Some(((2, 30, 0), line)));
    assert!(rt; lengths(&table) == Some([(60, 100), (620, 820)]));
    Ok(())
}

/// The label and the extension of a TAKE line, its first word and how many it takes.
type Take = (u16, Option<Ext>, u16, u16);

/// The only TAKE line of some.
fn only_take(takes: &[TakeLine]) -> Option<Take> {
    match takes {
        [line] => Some((line.label.value(), line.ext, line.first, line.count)),
        _ => None,
    }
}

/// The only TAKE lines of the first of two senders and of the second of two listeners.
fn two_takes(table: &Table) -> Option<(Take, Take)> {
    match (table.senders(), table.listeners()) {
        ([first, _], [_, listener]) => Some((
            only_take(first.takes())?,
            only_take(listener.takes())?,
        )),
        _ => None,
    }
}

/// The offset of the second of two senders, how many TAKE lines it and the first of two listeners have, and the number of the second.
fn others(table: &Table) -> Option<(u32, [usize; 2], u8)> {
    match (table.senders(), table.listeners()) {
        ([_, second], [idle, listener]) => Some((
            second.at(),
            [second.takes().len(), idle.takes().len()],
            listener.number(),
        )),
        _ => None,
    }
}

#[test]
fn reads_periodic_tables_with_listeners(rt: HostRuntime) -> Result<(), Fail> {
    let text =
        b"TABLE 1\nMODE periodic\nTI 2000\nSG 300\nSENDER 1 TG 20 AT 0\nSEND 0a1 1 2 2\nTAKE 0B2 * 255 256\n\
          SENDER 2 TG 30 AT 1999\nSEND 0B2 f 30 40\nLISTENER 3\nLISTENER 4\nTAKE 0A1 f 0 1\n";
    let table = read_table(rt.alloc(), text)?;
    assert!(rt; table.mode() == Mode::Periodic);
    assert!(rt; others(&table) == Some((1999, [0, 0], 4)));
    let takes = ((0x0b2, None, 255, 256), (0x0a1, Ext::new(15), 0, 1));
    assert!(rt; two_takes(&table) == Some(takes));
    Ok(())
}

/// A text is read as a table that is written so.
fn is_written_as(rt: &impl Abort, alloc: Global, text: &[u8], written: &[u8]) -> Result<(), Fail> {
    let table = read_table(alloc, text)?;
    let mut sink = MemorySink::new(alloc, 200, 200, Vec::new(alloc))?;
    assert!(rt; write_table(&table, &mut sink).is_ok());
    assert_eq!(rt; sink.bytes(), written);
    Ok(())
}

/// What is written has no comment, no blank line and no digit in lower case, and is what a canonical text reads and writes again.
#[test]
fn writes_the_canonical_text(rt: HostRuntime) -> Result<(), Fail> {
    let given =
        b"# bus\nTABLE 1\nMODE periodic\n\n\tTI\t2000\r\nSG 300\nSENDER 1 TG 20 AT 5\nSEND 0a1 f 2 3\nTAKE 0b2 * 255 256\nLISTENER 3";
    let written =
        b"TABLE 1\nMODE periodic\nTI 2000\nSG 300\nSENDER 1 TG 20 AT 5\nSEND 0A1 F 2 3\nTAKE 0B2 * 255 256\nLISTENER 3\n";
    is_written_as(&rt, rt.alloc(), given, written)?;
    is_written_as(&rt, rt.alloc(), written, written)
}
