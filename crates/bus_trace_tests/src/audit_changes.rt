//! Audits of what two senders send that take turns or collide, with one change each.
use crate::audit::{SAME_OFFSET, SHORT_GAPS, Said, said};
use bus_audit::BreachKind::{Early, Missing, Stranger, Unheld};
use std::alloc::{AllocError, Global};
use std::process::Abort;
use std::test::Fail;

/// What is sent of a list of four entries, where others stand for entry `at`.
fn sent_with(
    alloc: Global,
    list: [&[u8]; 4],
    at: usize,
    others: &[u8],
) -> Result<Vec<u8>, AllocError> {
    let mut sent = Vec::new(alloc);
    for (k, entry) in list.iter().enumerate() {
        sent.extend_from_slice(if k == at { others } else { *entry })?;
    }
    Ok(sent)
}

/// The HORIZON and HOLD lines of a trace, an entry of its list, what stands for it, and what the audit says.
type Change<'a> = (&'a [u8], usize, &'a [u8], Said);

/// A table, a list of what is sent, and changes of it.
#[derive(Drop)]
struct Row {
    table: &'static [u8],
    list: [&'static [u8]; 4],
    changes: &'static [Change<'static>],
}

/// Whether the audit of a table says this of a change of a list.
fn says(alloc: Global, row: &Row, change: &Change<'_>) -> Result<bool, Fail> {
    let (head, at, others, wanted) = change;
    let sent = sent_with(alloc, row.list, *at, others)?;
    Ok(said(alloc, row.table, head, &sent)? == *wanted)
}

/// What is observed of two senders that take turns.
const TURNS: [&[u8]; 4] = [
    b"TX 20 1\na",
    b"TX 110 2\nb",
    b"TX 1050 1\na",
    b"TX 1140 2\nb",
];

const TURNS_HELD: &[u8] = b"HORIZON 2200\nHOLD 1 2\nHOLD 2 2\n";

const MISSED_OR_MOVED: &[Change<'static>] = &[
    (TURNS_HELD, 0, b"TX 20 1\na", Ok(0)),
    (TURNS_HELD, 0, b"", Err((20, 1, Missing))),
    (TURNS_HELD, 1, b"", Err((110, 2, Missing))),
    (TURNS_HELD, 2, b"", Err((1050, 1, Missing))),
    (TURNS_HELD, 3, b"", Err((1140, 2, Missing))),
    (TURNS_HELD, 0, b"TX 19 1\na", Err((19, 1, Early))),
    (TURNS_HELD, 1, b"TX 109 2\nb", Err((109, 2, Early))),
    (TURNS_HELD, 2, b"TX 1049 1\na", Err((1049, 1, Early))),
    (TURNS_HELD, 3, b"TX 1139 2\nb", Err((1139, 2, Early))),
    (TURNS_HELD, 0, b"TX 21 1\na", Err((20, 1, Missing))),
    (TURNS_HELD, 1, b"TX 111 2\nb", Err((110, 2, Missing))),
    (TURNS_HELD, 2, b"TX 1051 1\na", Err((1050, 1, Missing))),
    (TURNS_HELD, 3, b"TX 1141 2\nb", Err((1140, 2, Missing))),
];

const TAKEN_TWICE: &[Change<'static>] = &[
    (TURNS_HELD, 0, b"TX 20 1\naTX 20 2\na", Err((20, 2, Early))),
    (
        TURNS_HELD,
        1,
        b"TX 110 2\nbTX 110 3\nb",
        Err((110, 3, Stranger)),
    ),
    (
        TURNS_HELD,
        2,
        b"TX 1050 1\naTX 1050 3\na",
        Err((1050, 3, Stranger)),
    ),
    (
        TURNS_HELD,
        3,
        b"TX 1140 1\nbTX 1140 2\nb",
        Err((1140, 1, Unheld)),
    ),
];

const MORE_OR_LESS_HELD: &[Change<'static>] = &[
    (
        b"HORIZON 2200\nHOLD 1 1\nHOLD 2 2\n",
        0,
        b"TX 20 1\na",
        Err((1050, 1, Unheld)),
    ),
    (
        b"HORIZON 2200\nHOLD 1 3\nHOLD 2 2\n",
        0,
        b"TX 20 1\na",
        Err((2080, 1, Missing)),
    ),
    (
        b"HORIZON 2200\nHOLD 1 2\nHOLD 2 1\n",
        0,
        b"TX 20 1\na",
        Err((1140, 2, Unheld)),
    ),
    (
        b"HORIZON 2200\nHOLD 1 2\nHOLD 2 3\n",
        0,
        b"TX 20 1\na",
        Err((2140, 2, Missing)),
    ),
];

/// What is observed of two senders that collide.
const COLLISIONS: [&[u8]; 4] = [b"TX 0 1\na", b"TX 0 2\nb", b"TX 2000 1\na", b"TX 2000 2\nb"];

const COLLISIONS_HELD: &[u8] = b"HORIZON 4001\nHOLD 1 2\nHOLD 2 2\n";

const CHANGED_COLLISIONS: &[Change<'static>] = &[
    (COLLISIONS_HELD, 0, b"TX 0 1\na", Ok(4)),
    (COLLISIONS_HELD, 0, b"", Err((0, 1, Missing))),
    (COLLISIONS_HELD, 1, b"", Err((0, 2, Missing))),
    (COLLISIONS_HELD, 2, b"", Err((2000, 1, Missing))),
    (COLLISIONS_HELD, 3, b"", Err((2000, 2, Missing))),
    (COLLISIONS_HELD, 2, b"TX 1999 1\na", Err((1999, 1, Early))),
    (COLLISIONS_HELD, 1, b"TX 1 2\nb", Err((0, 2, Missing))),
    (COLLISIONS_HELD, 3, b"TX 2001 2\nb", Err((2000, 2, Missing))),
    (
        COLLISIONS_HELD,
        1,
        b"TX 0 2\nbTX 0 3\na",
        Err((0, 3, Stranger)),
    ),
    (
        COLLISIONS_HELD,
        1,
        b"TX 0 2\nbTX 0 3\nb",
        Err((0, 3, Stranger)),
    ),
    (
        COLLISIONS_HELD,
        3,
        b"TX 2000 2\nbTX 2000 3\na",
        Err((2000, 3, Stranger)),
    ),
    (
        COLLISIONS_HELD,
        3,
        b"TX 2000 2\nbTX 2000 3\nb",
        Err((2000, 3, Stranger)),
    ),
];

const COLLISIONS_MORE_OR_LESS_HELD: &[Change<'static>] = &[
    (
        b"HORIZON 4001\nHOLD 1 1\nHOLD 2 2\n",
        0,
        b"TX 0 1\na",
        Err((2000, 1, Unheld)),
    ),
    (
        b"HORIZON 4001\nHOLD 1 3\nHOLD 2 2\n",
        0,
        b"TX 0 1\na",
        Err((4000, 1, Missing)),
    ),
    (
        b"HORIZON 4001\nHOLD 1 2\nHOLD 2 1\n",
        0,
        b"TX 0 1\na",
        Err((2000, 2, Unheld)),
    ),
    (
        b"HORIZON 4001\nHOLD 1 2\nHOLD 2 3\n",
        0,
        b"TX 0 1\na",
        Err((4000, 2, Missing)),
    ),
];

const ROWS: [Row; 5] = [
    // What is observed of two senders that take turns, and each change of an entry: left out, earlier or later.
    Row {
        table: SHORT_GAPS,
        list: TURNS,
        changes: MISSED_OR_MOVED,
    },
    // What is observed of two senders that take turns, and each entry twice, once of another terminal.
    Row {
        table: SHORT_GAPS,
        list: TURNS,
        changes: TAKEN_TWICE,
    },
    // What is observed of two senders that take turns, and a message more or less that was held.
    Row {
        table: SHORT_GAPS,
        list: TURNS,
        changes: MORE_OR_LESS_HELD,
    },
    // What is observed of two senders that collide, and each change of an entry that ascends: left out, earlier, later or twice.
    Row {
        table: SAME_OFFSET,
        list: COLLISIONS,
        changes: CHANGED_COLLISIONS,
    },
    // What is observed of two senders that collide, and a message more or less that was held.
    Row {
        table: SAME_OFFSET,
        list: COLLISIONS,
        changes: COLLISIONS_MORE_OR_LESS_HELD,
    },
];

/// The audit of a table says of each change of a list what it should.
fn says_of_changes(rt: &impl Abort, alloc: Global, row: &Row) -> Result<(), Fail> {
    for (k, change) in row.changes.iter().enumerate() {
        assert!(rt; says(alloc, row, change)?, "change {k}");
    }
    Ok(())
}

#[test]
fn each_change_is_told(rt: HostRuntime) -> Result<(), Fail> {
    for row in &ROWS {
        says_of_changes(&rt, rt.alloc(), row)?;
    }
    Ok(())
}
