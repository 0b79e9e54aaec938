//! Traces that come in pieces.
use crate::texts::{LINES, OLD_LINES, is_written_as, text_before, text_of};
use bus_trace::{Fed, TraceError, TraceReader, TraceReason};
use std::alloc::{AllocError, Global};
use std::process::Abort;
use std::test::Fail;

/// Whether these two pieces hold a trace that is written as `LINES`, and which the second ends.
fn join(alloc: Global, first: &[u8], second: &[u8]) -> Result<bool, Fail> {
    let mut reader = TraceReader::new(alloc)?;
    if reader.feed(first)? != Fed::More {
        return Ok(false);
    }
    match reader.feed(second)? {
        Fed::Whole { .. } => {}
        _ => return Ok(false),
    }
    match reader.finish() {
        Ok(trace) => is_written_as(alloc, &trace, &LINES),
        Err(_) => Ok(false),
    }
}

/// Each cut into two pieces before this one gives a trace that is written as `LINES`.
fn each_cut_joins(
    rt: &impl Abort,
    alloc: Global,
    lines: &[(&[u8], usize)],
    length: usize,
) -> Result<(), Fail> {
    let text = text_of(alloc, lines)?;
    for cut in 0..length {
        let (first, second) = text.split_at(cut.min(text.len()));
        assert!(rt; join(alloc, first, second)?, "cut {cut}");
    }
    Ok(())
}

#[test]
fn each_cut_into_two_pieces_gives_the_same_trace(rt: HostRuntime) -> Result<(), Fail> {
    each_cut_joins(&rt, rt.alloc(), &LINES, 117)?;
    each_cut_joins(&rt, rt.alloc(), &OLD_LINES, 100)
}

/// How many bytes of the last piece were used, where pieces of a size hold a trace that is written as `LINES`.
fn used_of_last(alloc: Global, text: &[u8], size: usize) -> Result<Option<usize>, Fail> {
    let mut reader = TraceReader::new(alloc)?;
    for piece in text.chunks(size.max(1)) {
        if !reader.is_open() {
            return Ok(None);
        }
        if let Fed::Whole { used } = reader.feed(piece)? {
            return match reader.finish() {
                Ok(trace) if is_written_as(alloc, &trace, &LINES)? => Ok(Some(used)),
                _ => Ok(None),
            };
        }
    }
    Ok(None)
}

const PIECES: [(&[(&[u8], usize)], usize, usize); 6] = [
    (&LINES, 1, 1),
    (&LINES, 7, 5),
    (&LINES, 200, 117),
    (&OLD_LINES, 1, 1),
    (&OLD_LINES, 7, 2),
    (&OLD_LINES, 200, 100),
];

/// Behind the trace other bytes stand.
#[test]
fn pieces_of_any_size_give_the_same_trace(rt: HostRuntime) -> Result<(), Fail> {
    for (lines, size, used) in &PIECES {
        let bytes = text_before(rt.alloc(), lines, b"RECEIVED 1\n")?;
        let (size, used) = (*size, *used);
        assert!(rt;
            used_of_last(rt.alloc(), &bytes, size)? == Some(used),
            "{used} used of pieces of {size}"
        );
    }
    Ok(())
}

/// Whether a reader takes this front of a trace, and ends too early where what is pending begins.
fn ends_where_pending_begins(alloc: Global, front: &[u8]) -> Result<bool, Fail> {
    let mut reader = TraceReader::new(alloc)?;
    if reader.feed(front)? != Fed::More || !reader.is_open() {
        return Ok(false);
    }
    let byte = front.len().saturating_sub(reader.pending().len()) as u64;
    let want = TraceError::Text {
        byte,
        reason: TraceReason::Ended,
    };
    Ok(matches!(reader.finish(), Err(error) if error == want))
}

#[test]
fn an_end_too_early_is_where_what_is_pending_begins(rt: HostRuntime) -> Result<(), Fail> {
    let text = text_of(rt.alloc(), &LINES)?;
    for cut in 0..117usize {
        let front = text.get(..cut).unwrap_or(&[]);
        assert!(rt; ends_where_pending_begins(rt.alloc(), front)?, "cut {cut}");
    }
    Ok(())
}

/// Whether a reader refuses a line with the piece that ends it, and is shut then.
fn refuses_a_line(reader: &mut TraceReader) -> Result<bool, AllocError> {
    if !reader.is_open() || reader.feed(b"TRACE 2\nHORIZ")? != Fed::More {
        return Ok(false);
    }
    if !reader.is_open() || reader.pending() != b"HORIZ".as_slice() {
        return Ok(false);
    }
    let refused = Fed::Refused {
        byte: 8,
        reason: TraceReason::Spelling,
    };
    Ok(reader.feed(b"ON 1x\nHOLD")? == refused && !reader.is_open())
}

#[test]
fn a_line_is_refused_with_the_piece_that_ends_it(rt: HostRuntime) -> Result<(), Fail> {
    let mut reader = TraceReader::new(rt.alloc())?;
    assert!(rt; refuses_a_line(&mut reader)?);
    Ok(())
}
