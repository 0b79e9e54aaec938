//! The text of margins of worked tables.
use bus_bounds::Bounds;
use bus_margins::write_aperiodic;
use bus_outer::MemorySink;
use bus_table::{Mode, read_table};
use std::alloc::Global;
use std::test::Fail;

pub(crate) const A: &[u8] = b"TABLE 1
MODE aperiodic
TI 1000
SG 300
SENDER 1 TG 20
SEND 001 0 2 4
SENDER 2 TG 30
SEND 002 0 30 40
";

pub(crate) const C: &[u8] = b"TABLE 1
MODE aperiodic
TI 1000
SG 500
SENDER 1 TG 8
SEND 001 0 1 1
SEND 002 0 2 2
SENDER 2 TG 9
SEND 003 0 20 20
";

pub(crate) const D: &[u8] = b"TABLE 1
MODE aperiodic
TI 1000
SG 1000
SENDER 1 TG 20
SEND 001 0 2 2
SENDER 2 TG 30
SEND 002 0 0 2
";

pub(crate) const E: &[u8] = b"TABLE 1
MODE aperiodic
TI 1000
SG 9
SENDER 1 TG 8
SEND 001 0 60 60
";

pub(crate) const V: &[u8] = b"TABLE 1
MODE aperiodic
TI 1000
SG 1000
SENDER 1 TG 10
SEND 001 0 1 3
SENDER 2 TG 20
SEND 002 0 1 3
SENDER 3 TG 30
SEND 003 0 1 3
";

pub(crate) const Z20: &[u8] = b"TABLE 1
MODE aperiodic
TI 1020
SG 960
SENDER 1 TG 10
SEND 001 0 1 1
SENDER 2 TG 20
SEND 002 0 1 1
";

pub(crate) const Z10: &[u8] = b"TABLE 1
MODE aperiodic
TI 1010
SG 960
SENDER 1 TG 10
SEND 001 0 1 1
SENDER 2 TG 20
SEND 002 0 1 1
";

pub(crate) const BACK: &[u8] = b"TABLE 1
MODE aperiodic
TI 1487
SG 168
SENDER 1 TG 100
SEND 001 0 60 60
";

pub(crate) const FIVE: &[u8] = b"TABLE 1
MODE aperiodic
TI 2000
SG 700
SENDER 7 TG 200
SEND 001 0 2 9
SENDER 3 TG 60
SEND 002 0 1 3
SEND 003 0 0 4
SENDER 9 TG 20
SEND 004 0 5 5
SENDER 4 TG 41
SEND 005 0 30 40
SENDER 1 TG 118
SEND 006 0 0 8
";

pub(crate) const SHORT: &[u8] = b"TABLE 1
MODE aperiodic
TI 1000
SG 1000
SENDER 1 TG 256
SEND 001 0 0 0
";

pub(crate) const WAITING: &[u8] = b"TABLE 1
MODE aperiodic
TI 1000
SG 31
SENDER 1 TG 8
SEND 001 0 3 3
SENDER 2 TG 30
SEND 002 0 42 42
";

pub(crate) const JOINING: &[u8] = b"TABLE 1
MODE aperiodic
TI 1000
SG 60
SENDER 1 TG 8
SEND 001 0 3 3
SENDER 2 TG 25
SEND 002 0 41 41
";

pub(crate) const CYCLE: &[u8] = b"TABLE 1
MODE aperiodic
TI 1292
SG 60
SENDER 1 TG 8
SEND 001 0 3 3
SENDER 2 TG 25
SEND 002 0 55 55
";

/// A table, a delay, a jitter and clocks, and the lines of its margins.
#[derive(Drop)]
pub(crate) struct Row {
    pub(crate) table: &'static [u8],
    pub(crate) bounds: (u64, u64, u64),
    pub(crate) lines: &'static [u8],
}

/// Whether the margins of a row's table are told so within its bounds.
pub(crate) fn tells(alloc: Global, row: &Row) -> Result<bool, Fail> {
    let (delay, jitter, clocks) = row.bounds;
    let table = read_table(alloc, row.table)?;
    let Some(bounds) = Bounds::new(delay, jitter, clocks) else {
        return Err(Fail::new("bounds above their limits"));
    };
    let Mode::Aperiodic = table.mode() else {
        return Err(Fail::new("a periodic table"));
    };
    let mut sink = MemorySink::new(alloc, 1000, 1000, Vec::new(alloc))?;
    let answer = write_aperiodic(&table, bounds, &mut sink);
    Ok(answer.is_ok() && sink.bytes() == row.lines)
}
