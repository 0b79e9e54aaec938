//! Which entry is doubled: the first that starts before an earlier one of its terminal has ended.
use crate::calls::trace_of;
use bus_dump::doubled;
use std::test::Fail;

/// Terminal 1 starts where its own message ends, terminal 2 meanwhile.
const SINGLE: &[u8] =
    b"TRACE 1\nHORIZON 150\nTX 20 1\nWS L0A111\nTX 30 2\nWS L0B210\nTX 40 1\nWS L0A111\nEND\n";

/// Terminal 1 starts a bit time before its own message ends, and terminal 2 later.
const DOUBLED: &[u8] =
    b"TRACE 1\nHORIZON 150\nTX 20 1\nWS L0A111\nTX 30 2\nWS L0B210\nTX 39 1\nWS L0A111\nTX 49 2\nWS L0B210\nEND\n";

#[test]
fn a_start_at_an_end_is_none_before_it(rt: HostRuntime) -> Result<(), Fail> {
    for (text, entry) in [(SINGLE, None), (DOUBLED, Some(2))] {
        let trace = trace_of(rt.alloc(), text)?;
        assert!(rt; doubled(&trace) == entry);
    }
    Ok(())
}
