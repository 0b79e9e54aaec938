//! Recordings as short lists, and what is found in them.
use bus_bounds::Bounds;
use bus_findings::write_findings;
use bus_outer::MemorySink;
use bus_strings::limits::{HORIZON_LIMIT, MOST_TERMINAL};
use bus_strings::{Message, Transmission, Wordstring};
use bus_table::read_table;
use bus_trace::Trace;
use bus_words::{Ext, Label};
use std::alloc::Global;
use std::process::Abort;
use std::test::Fail;

/// A recording: up to when, and of each transmission in turn its moment, its terminal and how many data words its one wordstring has.
pub(crate) struct Recording {
    pub horizon: u64,
    pub sent: &'static [u64],
}

/// Four senders.
pub(crate) const FOUR: &[u8] = b"TABLE 1
MODE aperiodic
TI 2000
SG 300
SENDER 1 TG 20
SEND 001 1 10 18
SENDER 2 TG 40
SEND 002 1 20 28
SENDER 3 TG 60
SEND 003 1 15 23
SENDER 4 TG 80
SEND 004 1 40 48
";

/// The same, in periodic mode.
pub(crate) const FOUR_PERIODIC: &[u8] = b"TABLE 1
MODE periodic
TI 4000
SG 300
SENDER 1 TG 20 AT 0
SEND 001 1 10 18
SENDER 2 TG 40 AT 900
SEND 002 1 20 28
SENDER 3 TG 60 AT 1800
SEND 003 1 15 23
SENDER 4 TG 80 AT 2700
SEND 004 1 40 48
";

/// A transmission of one wordstring.
fn transmission(
    alloc: Global,
    moment: u64,
    terminal: u8,
    words: u64,
) -> Result<Transmission, Fail> {
    if terminal == 0 || terminal > MOST_TERMINAL || moment >= HORIZON_LIMIT {
        return Err(Fail::new("a wrong transmission"));
    }
    let mut data = Vec::new(alloc);
    for _ in 0..words {
        data.push(0)?;
    }
    let (Some(label), Some(ext)) = (Label::new(u16::from(terminal)), Ext::new(1)) else {
        return Err(Fail::new("a wrong label"));
    };
    match Wordstring::new(label, ext, data) {
        Ok(Some(string)) => Ok(Transmission {
            moment,
            terminal,
            message: Message::one(alloc, string),
        }),
        _ => Err(Fail::new("a wrong wordstring")),
    }
}

/// The recording as a trace.
fn trace_of(alloc: Global, recording: &Recording) -> Result<Trace, Fail> {
    let mut list = Vec::new(alloc);
    for sent in recording.sent.chunks(3) {
        let [moment, terminal, words] = *sent else {
            return Err(Fail::new("a wrong recording"));
        };
        let Ok(terminal) = u8::try_from(terminal) else {
            return Err(Fail::new("a wrong terminal"));
        };
        list.push(transmission(alloc, moment, terminal, words)?)?;
    }
    match Trace::new(recording.horizon, Vec::new(alloc), list) {
        Some(trace) => Ok(trace),
        None => Err(Fail::new("a wrong recording")),
    }
}

/// What is found of a table and a recording within these bounds.
pub(crate) fn findings(
    alloc: Global,
    table: &[u8],
    recording: &Recording,
    (delay, jitter, clocks): (u64, u64, u64),
) -> Result<(bool, MemorySink), Fail> {
    let table = read_table(alloc, table)?;
    if delay > 9 {
        return Err(Fail::new("too great a delay"));
    }
    let Some(bounds) = Bounds::new(delay, jitter, clocks) else {
        return Err(Fail::new("wrong bounds"));
    };
    let trace = trace_of(alloc, recording)?;
    let mut sink = MemorySink::new(alloc, 10000, 1000, Vec::new(alloc))?;
    match write_findings(&table, &trace, bounds, &mut sink) {
        Ok(fault) => Ok((fault, sink)),
        Err(_) => Err(Fail::new("a failed write")),
    }
}

/// This is found, and there is a fault or not.
pub(crate) fn finds(
    rt: &impl Abort,
    alloc: Global,
    table: &[u8],
    recording: &Recording,
    bounds: (u64, u64, u64),
    fault: bool,
    text: &[u8],
) -> Result<(), Fail> {
    let (found, sink) = findings(alloc, table, recording, bounds)?;
    assert_eq!(rt; sink.bytes(), text);
    assert_eq!(rt; found, fault);
    Ok(())
}

/// What is found ends so, and there is a fault or not.
pub(crate) fn ends(
    rt: &impl Abort,
    alloc: Global,
    table: &[u8],
    recording: &Recording,
    bounds: (u64, u64, u64),
    fault: bool,
    end: &[u8],
) -> Result<(), Fail> {
    let (found, sink) = findings(alloc, table, recording, bounds)?;
    let text = sink.bytes();
    assert!(rt; text.len() >= end.len());
    assert_eq!(rt; &text[text.len() - end.len()..], end);
    assert_eq!(rt; found, fault);
    Ok(())
}
