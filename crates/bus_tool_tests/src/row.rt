//! The stored rows, each run through the top call.
use crate::calls::{run_over, sink_of, source};
use bus_vectors::{StoredRow, row};
use std::test::Fail;

/// Whether all that comes of a row's command is what the row has.
fn keeps(rt: &HostRuntime, row: &StoredRow) -> Result<bool, Fail> {
    let (first, second) = (source(rt, row.first)?, source(rt, row.second)?);
    let ran = run_over(rt, row.words, first, second, sink_of(rt, 1000)?)?;
    Ok(
        ran.status.number() == row.status
            && ran.out.bytes() == row.out
            && ran.err.bytes() == row.err,
    )
}

#[test]
fn each_stored_row_is_kept(rt: HostRuntime) -> Result<(), Fail> {
    for k in [1u32, 4, 7, 10, 11, 13, 16, 28] {
        let row = row(k).ok_or("a stored row")?;
        assert!(rt; keeps(&rt, &row)?, "row {k}");
    }
    Ok(())
}
