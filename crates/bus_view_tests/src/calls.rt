//! A call over sources and sinks in memory, with ample memory.
use bus_command::Status;
use bus_outer::{MemorySink, MemorySource};
use bus_view::view;
use std::test::Fail;

/// Two senders and a listener.
pub(crate) const TABLE: &str = "TABLE 1
MODE aperiodic
TI 1000
SG 1000
SENDER 1 TG 20
SEND 0A1 1 2 2
SENDER 2 TG 30
SEND 0B2 1 0 2
TAKE 0A1 * 1 4
LISTENER 3
";

/// How a call ended, and what stands on `out` and on `err`.
#[derive(Drop)]
pub(crate) struct Ran {
    pub status: Status,
    pub out: MemorySink,
    pub err: MemorySink,
}

/// A sink that never fails.
fn sink(rt: &HostRuntime, room: usize) -> Result<MemorySink, Fail> {
    Ok(MemorySink::new(rt.alloc(), room, 200, Vec::new(rt.alloc()))?)
}

/// A source of this text, which gives it in pieces of at least a byte and fails at these pulls.
fn source(
    rt: &HostRuntime,
    text: &str,
    piece: usize,
    failing: &[u64],
) -> Result<MemorySource, Fail> {
    let bytes = text.as_bytes().to_vec(rt.alloc())?;
    Ok(MemorySource::new(bytes, piece.max(1), failing.to_vec(rt.alloc())?))
}

/// A call of these words over these texts, where the second comes in pieces and its source fails at these pulls.
pub(crate) fn run_pulled(
    rt: &HostRuntime,
    words: &[&str],
    first: &str,
    second: &str,
    piece: usize,
    failing: &[u64],
) -> Result<Ran, Fail> {
    let mut all = Vec::new(rt.alloc());
    for word in words {
        all.push(String::from_str(rt.alloc(), *word)?)?;
    }
    let mut first = source(rt, first, 4096, &[])?;
    let mut second = source(rt, second, piece, failing)?;
    let (mut out, mut err) = (sink(rt, 400_000)?, sink(rt, 200)?);
    let status = view(
        rt.alloc(),
        &all,
        &mut first,
        &mut second,
        &mut out,
        &mut err,
    );
    Ok(Ran { status, out, err })
}

/// Whether a text has a part.
fn contains(text: &[u8], part: &str) -> bool {
    for k in 0..text.len() {
        if text[k..].starts_with(part.as_bytes()) {
            return true;
        }
    }
    false
}

/// Whether a call wrote a text that has this part, and nothing on `err`.
pub(crate) fn shows(ran: &Ran, part: &str) -> bool {
    ran.status == Status::Done && ran.err.bytes().is_empty() && contains(ran.out.bytes(), part)
}
