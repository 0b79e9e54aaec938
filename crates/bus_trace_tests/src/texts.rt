//! Trace texts that are read, that are refused, and that are written.
ghost use Rattle.std.specs.Prelude.{◌≤◌, ◌<◌};
ghost use Rattle.bus_strings.specs.Limits.{horizon_limit, most_terminal};

use crate::mark::{CLEAR_MARKS, FINAL, LAST_MARK, REACHED, WRONG_ENDS_OR_MARKS};
use bus_outer::{MemorySink, MemorySource, read_whole};
use bus_strings::{Message, Transmission, Wordstring};
use bus_trace::{Hold, Trace, TraceError, TraceReason, read_trace, write_trace};
use bus_words::{Ext, Label};
use std::alloc::Global;
use std::process::Abort;
use std::test::Fail;

/// The trace of two transmissions, each line with the byte at which it begins.
pub(crate) const LINES: [(&[u8], usize); 11] = [
    (b"TRACE 2\n", 0),
    (b"HORIZON 150\n", 8),
    (b"HOLD 1 1\n", 20),
    (b"HOLD 2 1\n", 29),
    (b"TX 20 1\n", 38),
    (b"WS L0A111 D00001 D00010\n", 46),
    (b"TE 80 -\n", 70),
    (b"TX 110 2\n", 78),
    (b"WS L0B210 D00FF1\n", 87),
    (b"TE 150 -\n", 104),
    (b"END\n", 113),
];

/// The same in format 1.
pub(crate) const OLD_LINES: [(&[u8], usize); 9] = [
    (b"TRACE 1\n", 0),
    (b"HORIZON 150\n", 8),
    (b"HOLD 1 1\n", 20),
    (b"HOLD 2 1\n", 29),
    (b"TX 20 1\n", 38),
    (b"WS L0A111 D00001 D00010\n", 46),
    (b"TX 110 2\n", 70),
    (b"WS L0B210 D00FF1\n", 79),
    (b"END\n", 96),
];

pub(crate) fn text_of(alloc: Global, lines: &[(&[u8], usize)]) -> Result<Vec<u8>, Fail> {
    let mut text = Vec::new(alloc);
    for (line, _) in lines {
        text.extend_from_slice(line)?;
    }
    Ok(text)
}

fn read(alloc: Global, text: &[u8]) -> Result<Result<Trace, TraceError>, Fail> {
    let mut source = MemorySource::new(Vec::from_slice(alloc, text)?, 7, Vec::new(alloc));
    Ok(read_trace(alloc, &mut source))
}

/// The trace that these lines are, and have to be.
pub(crate) fn trace_of(alloc: Global, lines: &[(&[u8], usize)]) -> Result<Trace, Fail> {
    let text = text_of(alloc, lines)?;
    match read(alloc, &text)? {
        Ok(trace) => Ok(trace),
        Err(_) => Err(Fail::new("the trace is refused")),
    }
}

/// The trace that has these lines before what is sent, and its end behind it.
pub(crate) fn trace_between(alloc: Global, head: &[u8], sent: &[u8]) -> Result<Trace, Fail> {
    let mut text = Vec::from_slice(alloc, head)?;
    text.extend_from_slice(sent)?;
    text.extend_from_slice(b"END\n")?;
    match read(alloc, &text)? {
        Ok(trace) => Ok(trace),
        Err(_) => Err(Fail::new("the trace is refused")),
    }
}

/// Whether a trace is written as these lines.
pub(crate) fn is_written_as(
    alloc: Global,
    trace: &Trace,
    lines: &[(&[u8], usize)],
) -> Result<bool, Fail> {
    let mut sink = MemorySink::new(alloc, 400, 400, Vec::new(alloc))?;
    if write_trace(trace, &mut sink).is_err() {
        return Ok(false);
    }
    let text = text_of(alloc, lines)?;
    Ok(sink.bytes() == text.as_slice())
}

/// The text of these lines, with another behind it.
pub(crate) fn text_before(
    alloc: Global,
    lines: &[(&[u8], usize)],
    rest: &[u8],
) -> Result<Vec<u8>, Fail> {
    let mut text = text_of(alloc, lines)?;
    text.extend_from_slice(rest)?;
    Ok(text)
}

/// How many bytes a source still has.
fn left(alloc: Global, source: &mut MemorySource) -> Result<Option<usize>, Fail> {
    Ok(match &read_whole(alloc, source, 3000) {
        Ok(rest) => Some(rest.len()),
        Err(_) => None,
    })
}

/// Behind the trace eleven other bytes stand, which are left.
#[test]
fn a_trace_is_read_up_to_its_end(rt: HostRuntime) -> Result<(), Fail> {
    let bytes = text_before(rt.alloc(), &LINES, b"RECEIVED 1\n")?;
    let mut source = MemorySource::new(bytes, 7, Vec::new(rt.alloc()));
    assert!(rt; read_trace(rt.alloc(), &mut source).is_ok());
    let rest = read_whole(rt.alloc(), &mut source, 100);
    assert!(rt; matches!(&rest, Ok(rest) if rest.as_slice() == b"RECEIVED 1\n".as_slice()));
    Ok(())
}

/// In either format it is written again, in format 2.
#[test]
fn a_trace_is_written_in_format_2(rt: HostRuntime) -> Result<(), Fail> {
    let trace = trace_of(rt.alloc(), &LINES)?;
    assert!(rt; is_written_as(rt.alloc(), &trace, &LINES)?);
    Ok(())
}

#[test]
fn a_trace_of_format_1_is_written_in_format_2(rt: HostRuntime) -> Result<(), Fail> {
    let trace = trace_of(rt.alloc(), &OLD_LINES)?;
    assert!(rt; (trace.horizon(), trace.holds().len(), trace.list().len()) == (150, 2, 2));
    assert!(rt; is_written_as(rt.alloc(), &trace, &LINES)?);
    Ok(())
}

/// Whether a text that ends after so many bytes is refused where its last line begins.
fn ends_there(alloc: Global, lines: &[(&[u8], usize)], cut: usize) -> Result<bool, Fail> {
    let text = text_of(alloc, lines)?;
    let mut begin = 0;
    for (_, at) in lines {
        if *at <= cut {
            begin = *at as u64;
        }
    }
    let want = TraceError::Text {
        byte: begin,
        reason: TraceReason::Ended,
    };
    let answer = read(alloc, text.get(..cut).unwrap_or(&[]))?;
    Ok(matches!(answer, Err(error) if error == want))
}

/// Each cut before this one is refused where its last line begins.
fn each_cut_ends_there(
    rt: &impl Abort,
    alloc: Global,
    lines: &[(&[u8], usize)],
    length: usize,
) -> Result<(), Fail> {
    for cut in 0..length {
        assert!(rt; ends_there(alloc, lines, cut)?, "cut after {cut}");
    }
    Ok(())
}

#[test]
fn a_cut_trace_ends_where_its_last_line_begins(rt: HostRuntime) -> Result<(), Fail> {
    each_cut_ends_there(&rt, rt.alloc(), &LINES, 117)?;
    each_cut_ends_there(&rt, rt.alloc(), &OLD_LINES, 100)
}

/// Why a text with one line changed is refused, if it is.
fn refusal(
    alloc: Global,
    lines: &[(&[u8], usize)],
    number: usize,
    line: &[u8],
) -> Result<Option<TraceError>, Fail> {
    let mut text = Vec::new(alloc);
    for (k, (own, _)) in lines.iter().enumerate() {
        text.extend_from_slice(if k == number { line } else { own })?;
    }
    Ok(read(alloc, &text)?.err())
}

/// The number of a line, what stands for it, and the byte of the line that is refused for that, and why.
pub(crate) type Change<'a> = (usize, &'a [u8], u64, TraceReason);

/// Whether a text with one of its lines changed is refused so.
fn is_refused(alloc: Global, lines: &[(&[u8], usize)], change: &Change<'_>) -> Result<bool, Fail> {
    let (number, line, byte, reason) = change;
    let want = TraceError::Text {
        byte: *byte,
        reason: *reason,
    };
    Ok(refusal(alloc, lines, *number, line)? == Some(want))
}

/// A text with one of these changes is refused so.
pub(crate) fn are_refused(
    rt: &impl Abort,
    alloc: Global,
    lines: &[(&[u8], usize)],
    changes: &[Change<'_>],
) -> Result<(), Fail> {
    for change in changes {
        assert!(rt; is_refused(alloc, lines, change)?, "byte {}", change.2);
    }
    Ok(())
}

const CHANGED_LINES: &[Change<'static>] = &[
    (0, b"TRACE 3\n", 0, TraceReason::Fields),
    (4, b"TX  20 1\n", 38, TraceReason::Fields),
    (4, b"TX 020 1\n", 38, TraceReason::Spelling),
    (5, b"WS D0A111 D00001 D00010\n", 46, TraceReason::Spelling),
    (7, b"WS L0B210 D00FF0\n", 79, TraceReason::Parity),
    (6, b"TX 150 2\n", 70, TraceReason::Range),
    (6, b"TX 20 1\n", 70, TraceReason::Order),
    (3, b"HOLD 1 1\n", 29, TraceReason::Order),
    (8, b"STOP\n", 96, TraceReason::Keyword),
    (6, b"TE 80 -\n", 70, TraceReason::Keyword),
];

/// Lines, and changes of them.
const CHANGES: [(&[(&[u8], usize)], &[Change<'static>]); 4] = [
    (&OLD_LINES, CHANGED_LINES),
    (&LINES, WRONG_ENDS_OR_MARKS),
    (&REACHED, CLEAR_MARKS),
    (&FINAL, LAST_MARK),
];

#[test]
fn a_changed_line_is_refused_where_it_begins(rt: HostRuntime) -> Result<(), Fail> {
    for (lines, changes) in &CHANGES {
        are_refused(&rt, rt.alloc(), lines, changes)?;
    }
    Ok(())
}

#[test]
fn a_long_line_is_refused_at_its_limit(rt: HostRuntime) -> Result<(), Fail> {
    let bytes = text_before(rt.alloc(), &[(b"TRACE 1\n", 0)], &[b'x'; 3000])?;
    let mut source = MemorySource::new(bytes, 7, Vec::new(rt.alloc()));
    let want = TraceError::Text {
        byte: 8,
        reason: TraceReason::Long,
    };
    assert!(rt; read_trace(rt.alloc(), &mut source).err() == Some(want));
    // 1,802 bytes of the line were taken.
    assert!(rt; left(rt.alloc(), &mut source)? == Some(1198));
    Ok(())
}

#[test]
fn a_failed_pull_in_mid_stream_is_a_fault(rt: HostRuntime) -> Result<(), Fail> {
    let text = text_of(rt.alloc(), &LINES)?;
    let mut source = MemorySource::new(text, 7, vec![in rt.alloc(); 10u64]?);
    assert!(rt; read_trace(rt.alloc(), &mut source).err() == Some(TraceError::ReadFault));
    Ok(())
}

fn transmission(alloc: Global, moment: u64, terminal: u8) -> Result<Transmission, Fail>
    requires moment { moment < horizon_limit }
    requires positive { 1 ≤ terminal }
    requires low { terminal ≤ most_terminal }
{
    let (Some(label), Some(ext)) = (Label::new(0x0A1), Ext::new(1)) else {
        return Err(Fail::new("no label"));
    };
    let words = Vec::from_slice(alloc, &[0, 1])?;
    let Some(string) = Wordstring::new(label, ext, words)? else {
        return Err(Fail::new("no wordstring"));
    };
    Ok(Transmission {
        moment,
        terminal,
        message: Message::one(alloc, string),
    })
}

/// Whether a trace can be made of a transmission at 20 and one at this moment.
fn fits(alloc: Global, horizon: u64, second: u64) -> Result<bool, Fail>
    requires second { second < horizon_limit }
{
    let mut list = vec![in alloc; transmission(alloc, 20, 1)?]?;
    list.push(transmission(alloc, second, 1)?)?;
    let holds = vec![in alloc;
        Hold {
            terminal: 1,
            count: 2
        },
    ]?;
    Ok(Trace::new(horizon, holds, list).is_some())
}

/// A horizon, the moment of the second transmission, and whether there is such a trace.
const ASCENDING: [(u64, u64, bool); 3] = [(150, 110, true), (110, 110, false), (150, 20, false)];

#[test]
fn a_trace_is_made_where_it_ascends(rt: HostRuntime) -> Result<(), Fail> {
    for (horizon, second, made) in ASCENDING {
        assert!(rt; second < 1000);
        assert!(rt;
            fits(rt.alloc(), horizon, second)? == made,
            "{horizon} {second}"
        );
    }
    Ok(())
}
