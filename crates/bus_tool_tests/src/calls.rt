//! Calls over sources and sinks in memory, with ample memory.
use bus_outer::{MemorySink, MemorySource};
use bus_tool::{Status, tool};
use std::test::Fail;

/// How a call ended, and what stands on `out` and on `err`.
#[derive(Drop)]
pub(crate) struct Ran {
    pub status: Status,
    pub out: MemorySink,
    pub err: MemorySink,
}

/// Words of their own.
pub(crate) fn words_of(rt: &HostRuntime, words: &[&str]) -> Result<Vec<String>, Fail> {
    let mut all = Vec::new(rt.alloc());
    for word in words {
        all.push(String::from_str(rt.alloc(), *word)?)?;
    }
    Ok(all)
}

/// A sink with this room that never fails.
pub(crate) fn sink_of(rt: &HostRuntime, room: usize) -> Result<MemorySink, Fail> {
    Ok(MemorySink::new(rt.alloc(), room, 200, Vec::new(rt.alloc()))?)
}

/// A source of this text that never fails.
pub(crate) fn source(rt: &HostRuntime, text: &[u8]) -> Result<MemorySource, Fail> {
    Ok(MemorySource::new(text.to_vec(rt.alloc())?, 4096, Vec::new(rt.alloc())))
}

/// A call of these words over these.
pub(crate) fn run_over(
    rt: &HostRuntime,
    words: &[&str],
    mut first: MemorySource,
    mut second: MemorySource,
    mut out: MemorySink,
) -> Result<Ran, Fail> {
    let words = words_of(rt, words)?;
    let mut err = sink_of(rt, 200)?;
    let status = tool(
        rt.alloc(),
        &words,
        &mut first,
        &mut second,
        &mut out,
        &mut err,
    );
    Ok(Ran { status, out, err })
}

/// A call of these words over these texts.
pub(crate) fn run_on(
    rt: &HostRuntime,
    words: &[&str],
    first: &str,
    second: &str,
) -> Result<Ran, Fail> {
    let (first, second) = (
        source(rt, first.as_bytes())?,
        source(rt, second.as_bytes())?,
    );
    run_over(rt, words, first, second, sink_of(rt, 8192)?)
}

/// Whether a command is refused so, with nothing on `out`.
pub(crate) fn is_refused(ran: &Ran, status: Status, line: &str) -> bool {
    ran.status == status && ran.out.bytes().is_empty() && ran.err.bytes() == line.as_bytes()
}
