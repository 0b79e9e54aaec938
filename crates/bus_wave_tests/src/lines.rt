//! What every test uses: a table, a trace of it and the lines of its wave.
use bus_outer::MemorySource;
use bus_table::{Table, read_table};
use bus_trace::{Trace, read_trace};
use bus_wave::{WaveError, read_wave};
use std::alloc::Global;
use std::test::Fail;

/// Two senders.
pub(crate) const TABLE: &[u8] =
    b"TABLE 1\nMODE aperiodic\nTI 1000\nSG 1000\nSENDER 1 TG 20\nSEND 0A1 1 2 2\nSENDER 2 TG 30\nSEND 0B2 1 0 2\n";

/// A message of each.
pub(crate) const TRACE: &[u8] =
    b"TRACE 2\nHORIZON 150\nHOLD 1 1\nHOLD 2 1\nTX 20 1\nWS L0A111 D00001 D00010\nTE 80 -\nTX 110 2\nWS L0B210 D00FF1\nTE 150 -\nEND\n";

/// The lines of its wave.
pub(crate) const LINES: [&[u8]; 9] = [
    b"WAVE 1\n",
    b"Q 20\n",
    b"W E15665595A\n",
    b"W 1D55555556\n",
    b"W 1D55555559\n",
    b"Q 30\n",
    b"W E156696559\n",
    b"W 1D5556AAAA\n",
    b"END\n",
];

/// The table.
pub(crate) fn table(alloc: Global) -> Result<Table, Fail> {
    Ok(read_table(alloc, TABLE)?)
}

/// The lines, another put in the place of one.
pub(crate) fn with_line(alloc: Global, place: usize, line: &[u8]) -> Result<Vec<u8>, Fail> {
    let mut text = Vec::new(alloc);
    for (k, own) in LINES.iter().enumerate() {
        let this = if k == place { line } else { *own };
        text.extend_from_slice(this)?;
    }
    Ok(text)
}

/// A trace of its text.
pub(crate) fn trace_of(alloc: Global, text: &[u8]) -> Result<Trace, Fail> {
    let mut source = MemorySource::new(Vec::from_slice(alloc, text)?, 4096, Vec::new(alloc));
    Ok(read_trace(alloc, &mut source)?)
}

/// What the text of a wave reads as.
pub(crate) fn read(alloc: Global, text: &[u8]) -> Result<Result<Trace, WaveError>, Fail> {
    if text.len() > 1_000_000 {
        return Err(Fail::new("a long text"));
    }
    Ok(read_wave(alloc, &table(alloc)?, text))
}
