//! Traces of format 2: ends and marks.
use crate::texts::{Change, is_written_as, trace_of};
use bus_trace::TraceReason;
use std::test::Fail;

/// Of the trace of two transmissions.
pub(crate) const WRONG_ENDS_OR_MARKS: &[Change<'static>] = &[
    (6, b"TE 81 -\n", 70, TraceReason::Mark),
    (6, b"TE 20 -\n", 70, TraceReason::Mark),
    (6, b"TE 99999999999999999999 -\n", 70, TraceReason::Mark),
    (6, b"TE 080 -\n", 70, TraceReason::Spelling),
    (6, b"TE 80 +\n", 70, TraceReason::Spelling),
    (6, b"TE 80 C\n", 78, TraceReason::Mark),
    (9, b"TE 150 C\n", 113, TraceReason::Mark),
    (7, b"TX 20 1\n", 78, TraceReason::Order),
    // The line behind shows it, unless that line is wrong in itself.
    (6, b"TE 80 C\nTX 80 2\n", 78, TraceReason::Mark),
    (6, b"TE 80 -\nTX 79 2\n", 78, TraceReason::Mark),
    (6, b"TE 80 C\nTX 020 2\n", 78, TraceReason::Spelling),
    // Right marks: what is refused is the second TX line.
    (6, b"TE 80 C\nTX 79 2\n", 86, TraceReason::Keyword),
    (6, b"TE 80 -\nTX 80 2\n", 86, TraceReason::Keyword),
    // A transmission needs its TE line.
    (6, b"", 70, TraceReason::Keyword),
];

/// Three transmissions of which the first reaches over both others, and the last two don't meet.
pub(crate) const REACHED: [(&[u8], usize); 12] = [
    (b"TRACE 2\n", 0),
    (b"HORIZON 200\n", 8),
    (b"TX 0 1\n", 20),
    (b"WS L0A111 D00001 D00001 D00001\n", 27),
    (b"TE 80 C\n", 58),
    (b"TX 20 2\n", 66),
    (b"WS L0B210\n", 74),
    (b"TE 40 C\n", 84),
    (b"TX 60 3\n", 92),
    (b"WS L0B210\n", 100),
    (b"TE 80 C\n", 110),
    (b"END\n", 118),
];

#[test]
fn a_reached_transmission_is_marked(rt: HostRuntime) -> Result<(), Fail> {
    let trace = trace_of(rt.alloc(), &REACHED)?;
    assert!(rt; is_written_as(rt.alloc(), &trace, &REACHED)?);
    assert!(rt; trace.list().len() == 3);
    assert!(rt; (trace.end(0), trace.end(1)) == (80, 40));
    assert!(rt; [trace.collided(0), trace.collided(1), trace.collided(2)] == [true; 3]);
    Ok(())
}

/// Where another reaches a transmission a clear mark is wrong.
pub(crate) const CLEAR_MARKS: &[Change<'static>] = &[
    (4, b"TE 80 -\n", 66, TraceReason::Mark),
    (7, b"TE 40 -\n", 84, TraceReason::Mark),
    (10, b"TE 80 -\n", 110, TraceReason::Mark),
];

/// A transmission of the last terminal at the last moment: none can come behind it.
pub(crate) const FINAL: [(&[u8], usize); 6] = [
    (b"TRACE 2\n", 0),
    (b"HORIZON 10\n", 8),
    (b"TX 9 128\n", 19),
    (b"WS L0A111\n", 28),
    (b"TE 29 -\n", 38),
    (b"END\n", 46),
];

/// A mark that can never be right is refused at once.
pub(crate) const LAST_MARK: &[Change<'static>] = &[(4, b"TE 29 C\n", 38, TraceReason::Mark)];

#[test]
fn the_last_moment_has_a_trace(rt: HostRuntime) -> Result<(), Fail> {
    trace_of(rt.alloc(), &FINAL)?;
    Ok(())
}
