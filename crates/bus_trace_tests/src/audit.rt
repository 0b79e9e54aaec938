//! Audits of worked traces.
use bus_audit::BreachKind::{Early, Misfit, Missing, Stranger, Unheld};
use bus_audit::{AuditAnswer, BreachKind, audit};
use bus_outer::MemorySource;
use bus_table::read_table;
use bus_trace::read_trace;
use std::alloc::{AllocError, Global};
use std::test::Fail;

const LONG_GAPS: &[u8] =
    b"TABLE 1\nMODE aperiodic\nTI 1000\nSG 1000\nSENDER 1 TG 20\nSEND 0A1 1 2 2\nSENDER 2 TG 30\nSEND 0B2 1 0 2\n";

pub(crate) const SHORT_GAPS: &[u8] =
    b"TABLE 1\nMODE aperiodic\nTI 1000\nSG 300\nSENDER 1 TG 20\nSEND 0A1 1 2 4\nSENDER 2 TG 30\nSEND 0B2 1 30 40\n";

pub(crate) const SAME_OFFSET: &[u8] =
    b"TABLE 1\nMODE periodic\nTI 2000\nSG 300\nSENDER 1 TG 20 AT 0\nSEND 0A1 1 2 2\nSENDER 2 TG 30 AT 0\nSEND 0B2 1 30 30\n";

const THIRTY_WORDS: &[u8] =
    b" D00001 D00001 D00001 D00001 D00001 D00001 D00001 D00001 D00001 D00001 D00001 D00001 D00001 D00001 D00001 \
      D00001 D00001 D00001 D00001 D00001 D00001 D00001 D00001 D00001 D00001 D00001 D00001 D00001 D00001 D00001";

const ONE_EACH: &[u8] = b"HORIZON 150\nHOLD 1 1\nHOLD 2 1\n";

const TWO_EACH: &[u8] = b"HORIZON 2001\nHOLD 1 2\nHOLD 2 2\n";

/// The text of a trace, of its HORIZON and HOLD lines and what was sent; there each `*` stands for thirty data words, and
/// `a` and `b` for the WS line of terminals 1 and 2.
fn trace_text(alloc: Global, head: &[u8], sent: &[u8]) -> Result<Vec<u8>, AllocError> {
    let mut text = Vec::from_slice(alloc, b"TRACE 1\n")?;
    text.extend_from_slice(head)?;
    for byte in sent {
        if *byte == b'*' {
            text.extend_from_slice(THIRTY_WORDS)?;
        } else if *byte == b'a' {
            text.extend_from_slice(b"WS L0A111 D00001 D00001\n")?;
        } else if *byte == b'b' {
            text.extend_from_slice(b"WS L0B210")?;
            text.extend_from_slice(THIRTY_WORDS)?;
            text.push(b'\n')?;
        } else {
            text.push(*byte)?;
        }
    }
    text.extend_from_slice(b"END\n")?;
    Ok(text)
}

/// What the audit says: how many transmissions of a lawful trace collide, or when, of whom and of which kind the first breach is.
pub(crate) type Said = Result<u64, (u64, u8, BreachKind)>;

/// What the audit of a table says of a trace of these lines and of what was sent.
pub(crate) fn said(alloc: Global, table: &[u8], head: &[u8], sent: &[u8]) -> Result<Said, Fail> {
    let table = read_table(alloc, table)?;
    let mut source = MemorySource::new(trace_text(alloc, head, sent)?, 7, Vec::new(alloc));
    let trace = read_trace(alloc, &mut source)?;
    Ok(match audit(alloc, &table, &trace)? {
        AuditAnswer::Lawful { collided } => Ok(collided),
        AuditAnswer::Breach {
            moment,
            terminal,
            kind,
        } => Err((moment, terminal, kind)),
    })
}

/// An early message that doesn't fit.
const EARLY_AND_MISFIT: &[u8] = b"TX 19 1\nWS L0A111 D00001\n";

/// A message of each.
const ONE_EACH_SENT: &[u8] = b"TX 20 1\nWS L0A111 D00001 D00001\nTX 110 2\nWS L0B210 D00001\n";

/// A table, the HORIZON and HOLD lines of a trace, what was sent, and what the audit says.
#[derive(Drop)]
struct Row {
    table: &'static [u8],
    head: &'static [u8],
    sent: &'static [u8],
    said: Said,
}

const ROWS: [Row; 17] = [
    // A lawful trace, and one change each: a stranger sends, or a sender that held no message.
    Row {
        table: LONG_GAPS,
        head: ONE_EACH,
        sent: b"TX 20 1\nWS L0A111 D00001 D00001\nTX 110 2\nWS L0B210 D00001\n",
        said: Ok(0),
    },
    Row {
        table: LONG_GAPS,
        head: ONE_EACH,
        sent: b"TX 10 4\nWS L0A111 D00001 D00001\nTX 20 1\nWS L0A111 D00001 D00001\nTX 110 2\nWS L0B210 D00001\n",
        said: Err((10, 4, Stranger)),
    },
    Row {
        table: LONG_GAPS,
        head: b"HORIZON 150\nHOLD 1 0\nHOLD 2 1\n",
        sent: b"TX 20 1\nWS L0A111 D00001 D00001\nTX 110 2\nWS L0B210 D00001\n",
        said: Err((20, 1, Unheld)),
    },
    Row {
        table: LONG_GAPS,
        head: b"HORIZON 150\nHOLD 1 1\n",
        sent: b"TX 20 1\nWS L0A111 D00001 D00001\nTX 110 2\nWS L0B210 D00001\n",
        said: Err((110, 2, Unheld)),
    },
    // A start that is early, also inside a message; a message that doesn't fit; and one that is missing.
    Row {
        table: LONG_GAPS,
        head: ONE_EACH,
        sent: b"TX 19 1\nWS L0A111 D00001 D00001\nTX 110 2\nWS L0B210 D00001\n",
        said: Err((19, 1, Early)),
    },
    Row {
        table: LONG_GAPS,
        head: ONE_EACH,
        sent: b"TX 20 1\nWS L0A111 D00001 D00001\nTX 79 2\nWS L0B210 D00001\n",
        said: Err((79, 2, Early)),
    },
    Row {
        table: LONG_GAPS,
        head: ONE_EACH,
        sent: b"TX 20 1\nWS L0A111 D00001\nTX 110 2\nWS L0B210 D00001\n",
        said: Err((20, 1, Misfit)),
    },
    Row {
        table: LONG_GAPS,
        head: ONE_EACH,
        sent: b"TX 20 1\nWS L0A111 D00001 D00001\n",
        said: Err((110, 2, Missing)),
    },
    // Two kinds at once: an early message that wasn't held, and one that doesn't fit.
    Row {
        table: LONG_GAPS,
        head: b"HORIZON 150\nHOLD 2 1\n",
        sent: EARLY_AND_MISFIT,
        said: Err((19, 1, Unheld)),
    },
    Row {
        table: LONG_GAPS,
        head: ONE_EACH,
        sent: EARLY_AND_MISFIT,
        said: Err((19, 1, Early)),
    },
    // A turn that is taken in time, and one bit time late.
    Row {
        table: SHORT_GAPS,
        head: TWO_EACH,
        sent: b"TX 20 1
WS L0A111 D00001 D00001
TX 110 2
WS L0B210*
TX 1050 1
WS L0A111 D00001 D00001
TX 1140 2
WS L0B210*
",
        said: Ok(0),
    },
    Row {
        table: SHORT_GAPS,
        head: TWO_EACH,
        sent: b"TX 20 1
WS L0A111 D00001 D00001
TX 110 2
WS L0B210*
TX 1051 1
WS L0A111 D00001 D00001
TX 1140 2
WS L0B210*
",
        said: Err((1050, 1, Missing)),
    },
    // A turn that is never taken, up to the greatest horizon and to its own moment.
    Row {
        table: LONG_GAPS,
        head: b"HORIZON 1099511627776\nHOLD 1 1\nHOLD 2 1\n",
        sent: ONE_EACH_SENT,
        said: Ok(0),
    },
    Row {
        table: LONG_GAPS,
        head: b"HORIZON 1099511627776\nHOLD 1 2\nHOLD 2 1\n",
        sent: ONE_EACH_SENT,
        said: Err((1170, 1, Missing)),
    },
    Row {
        table: LONG_GAPS,
        head: b"HORIZON 1170\nHOLD 1 2\nHOLD 2 1\n",
        sent: ONE_EACH_SENT,
        said: Ok(0),
    },
    // Two senders that collide as their timers say, and one of them alone.
    Row {
        table: SAME_OFFSET,
        head: TWO_EACH,
        sent: b"TX 0 1
WS L0A111 D00001 D00001
TX 0 2
WS L0B210*
TX 2000 1
WS L0A111 D00001 D00001
TX 2000 2
WS L0B210*
",
        said: Ok(4),
    },
    Row {
        table: SAME_OFFSET,
        head: TWO_EACH,
        sent: b"TX 0 1\nWS L0A111 D00001 D00001\n",
        said: Err((0, 2, Missing)),
    },
];

#[test]
fn the_first_breach_is_told(rt: HostRuntime) -> Result<(), Fail> {
    for (k, row) in ROWS.iter().enumerate() {
        assert!(rt;
            said(rt.alloc(), row.table, row.head, row.sent)? == row.said,
            "row {k}"
        );
    }
    Ok(())
}
