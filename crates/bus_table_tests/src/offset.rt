//! A periodic table with other offsets.
use bus_table::{Mode, Sender, Table, read_table, with_offsets};
use std::alloc::Global;
use std::process::Abort;
use std::test::Fail;

const TABLE: &[u8] =
    b"TABLE 1\nMODE periodic\nTI 2000\nSG 300\nSENDER 1 TG 20 AT 0\nSEND 0A1 1 2 2\nSENDER 2 TG 9 AT 9\nSEND 0B2 1 3 3\nLISTENER 3\n";

/// The table with the offsets 640 and 1999.
fn moved(rt: &impl Abort, alloc: Global) -> Result<Table, Fail> {
    let table = read_table(alloc, TABLE)?;
    assert!(rt; matches!(table.mode(), Mode::Periodic));
    assert!(rt; table.ti() == 2000);
    assert!(rt; table.senders().len() == 2);
    Ok(with_offsets(alloc, &table, &[640, 1999])?)
}

/// The offsets of two senders.
fn offsets(senders: &[Sender]) -> Option<[u32; 2]> {
    match senders {
        [first, second] => Some([first.at(), second.at()]),
        _ => None,
    }
}

#[test]
fn gives_each_sender_its_offset(rt: HostRuntime) -> Result<(), Fail> {
    let moved = moved(&rt, rt.alloc())?;
    assert!(rt; moved.listeners().len() == 1);
    assert!(rt; offsets(moved.senders()) == Some([640, 1999]));
    Ok(())
}
