//! Plans of worked tables for a cable.
use bus_cable_plan::{CablePlan, plan_best, plan_for};
use bus_reach::{bears, tolerance};
use bus_regime::verdict;
use bus_table::{Mode, Sender, Table, read_table};
use std::alloc::Global;
use std::test::Fail;

const B: &[u8] = b"TABLE 1
MODE periodic
TI 2000
SG 300
SENDER 1 TG 20 AT 0
SEND 0A1 1 2 2
SENDER 2 TG 30 AT 90
SEND 0B2 1 30 30
";

const P: &[u8] = b"TABLE 1
MODE periodic
TI 1354
SG 257
SENDER 1 TG 256 AT 0
SEND 001 0 20 20
SENDER 2 TG 255 AT 0
SEND 002 0 20 20
";

const W: &[u8] = b"TABLE 1
MODE periodic
TI 1423
SG 300
SENDER 1 TG 20 AT 0
SEND 001 0 8 8
SENDER 2 TG 30 AT 215
SEND 002 0 8 8
SENDER 3 TG 40 AT 699
SEND 003 0 8 8
SENDER 4 TG 50 AT 939
SEND 004 0 8 8
";

const X: &[u8] = b"TABLE 1
MODE periodic
TI 1663
SG 300
SENDER 1 TG 20 AT 0
SEND 001 0 8 8
SENDER 2 TG 30 AT 220
SEND 002 0 8 8
SENDER 3 TG 40 AT 701
SEND 003 0 8 8
SENDER 4 TG 50 AT 1182
SEND 004 0 8 8
";

const Y: &[u8] = b"TABLE 1
MODE periodic
TI 1400
SG 300
SENDER 1 TG 200 AT 0
SEND 001 0 8 8
SENDER 2 TG 20 AT 0
SEND 002 0 8 8
SENDER 3 TG 190 AT 0
SEND 003 0 8 8
SENDER 4 TG 30 AT 0
SEND 004 0 8 8
";

const UNKNOWN: &[u8] = b"TABLE 1
MODE periodic
TI 1000
SG 300
SENDER 1 TG 20 AT 0
SEND 001 0 0 0
SENDER 2 TG 120 AT 0
SEND 002 0 0 0
SENDER 3 TG 130 AT 0
SEND 003 0 0 0
";

const BEARS: &[u8] = b"TABLE 1
MODE periodic
TI 1000
SG 300
SENDER 1 TG 20 AT 0
SEND 001 0 0 0
SENDER 2 TG 120 AT 753
SEND 002 0 0 0
SENDER 3 TG 130 AT 406
SEND 003 0 0 0
";

/// What is asked: a plan for a delay, or for the greatest that any offsets bear.
#[derive(Clone, Copy)]
enum Asked {
    For(u32),
    Best,
}

/// What is answered: offsets and the tolerance of the table that has them, or that there is no plan, or that it isn't known whether
/// there is one, with what is told of that.
#[derive(Clone, Copy)]
enum Wanted {
    Planned(&'static [u32], u64),
    Infeasible(u64, u64),
    Undecided(u64, u64),
}

/// A table, what is asked of it, and what is answered.
#[derive(Drop)]
struct Row {
    table: &'static [u8],
    asked: Asked,
    wanted: Wanted,
}

const ROWS: [Row; 15] = [
    // Two senders are planned.
    Row {
        table: B,
        asked: Asked::For(4),
        wanted: Wanted::Planned(&[0, 875], 485),
    },
    Row {
        table: B,
        asked: Asked::Best,
        wanted: Wanted::Planned(&[0, 725], 635),
    },
    Row {
        table: P,
        asked: Asked::For(1),
        wanted: Wanted::Planned(&[0, 677], 1),
    },
    Row {
        table: P,
        asked: Asked::For(2),
        wanted: Wanted::Infeasible(1355, 1354),
    },
    // What is left over is shared.
    Row {
        table: W,
        asked: Asked::For(4),
        wanted: Wanted::Planned(&[0, 276, 562, 1157], 65),
    },
    Row {
        table: W,
        asked: Asked::Best,
        wanted: Wanted::Planned(&[0, 276, 562, 1157], 65),
    },
    Row {
        table: W,
        asked: Asked::For(66),
        wanted: Wanted::Infeasible(1424, 1423),
    },
    Row {
        table: X,
        asked: Asked::Best,
        wanted: Wanted::Planned(&[0, 336, 682, 1337], 125),
    },
    // Turn order is kept where it may be.
    Row {
        table: Y,
        asked: Asked::For(4),
        wanted: Wanted::Planned(&[0, 208, 695, 912], 7),
    },
    Row {
        table: Y,
        asked: Asked::Best,
        wanted: Wanted::Planned(&[0, 910, 480, 700], 10),
    },
    // Between delays that no terminal gap reaches a synchronization gap with and those that all do, of three senders and more, there is an
    // interval in which nothing is known.
    Row {
        table: UNKNOWN,
        asked: Asked::For(200),
        wanted: Wanted::Undecided(930, 1000),
    },
    // There a table may bear at its own offsets what no plan is found for, and is left as it is.
    Row {
        table: BEARS,
        asked: Asked::For(200),
        wanted: Wanted::Planned(&[0, 753, 406], 207),
    },
    Row {
        table: BEARS,
        asked: Asked::For(207),
        wanted: Wanted::Planned(&[0, 753, 406], 207),
    },
    Row {
        table: BEARS,
        asked: Asked::For(208),
        wanted: Wanted::Undecided(954, 1000),
    },
    Row {
        table: BEARS,
        asked: Asked::Best,
        wanted: Wanted::Undecided(954, 1000),
    },
];

/// Whether senders have these offsets.
fn have_offsets(senders: &[Sender], offsets: &[u32]) -> bool {
    for (sender, at) in senders.iter().zip(offsets) {
        if sender.at() != *at {
            return false;
        }
    }
    senders.len() == offsets.len()
}

/// Whether a table has these offsets, is accepted, bears the delay, and has this tolerance.
fn is_planned(table: &Table, delay: u64, offsets: &[u32], most: u64) -> bool {
    have_offsets(table.senders(), offsets)
        && verdict(table).is_accepted()
        && bears(table, delay)
        && tolerance(table) == Some(most)
}

/// The answer for a periodic table and a delay of at most the greatest interval.
fn answer(alloc: Global, text: &[u8], asked: Asked) -> Result<CablePlan, Fail> {
    let table = read_table(alloc, text)?;
    if !matches!(table.mode(), Mode::Periodic) {
        return Err(Fail::new("not periodic"));
    }
    match asked {
        Asked::For(delay) if delay <= 128_000 => Ok(plan_for(alloc, &table, delay)?),
        Asked::For(_) => Err(Fail::new("a delay above each interval")),
        Asked::Best => Ok(plan_best(alloc, &table)?),
    }
}

/// Whether a row is answered so. The delay that is asked for is borne, and the greatest delay is the tolerance of the planned table.
fn is_answered(alloc: Global, row: &Row) -> Result<bool, Fail> {
    Ok(match (&answer(alloc, row.table, row.asked)?, row.wanted) {
        (CablePlan::Planned(table), Wanted::Planned(offsets, most)) => {
            let delay = match row.asked {
                Asked::For(delay) => u64::from(delay),
                Asked::Best => most,
            };
            is_planned(table, delay, offsets, most)
        }
        (CablePlan::Infeasible { least, ti }, Wanted::Infeasible(told, interval)) => (*least, *ti)
            == (told, interval),
        (CablePlan::Undecided { least, ti }, Wanted::Undecided(told, interval)) => (*least, *ti)
            == (told, interval),
        _ => false,
    })
}

#[test]
fn a_plan_bears_its_delay_or_is_refused(rt: HostRuntime) -> Result<(), Fail> {
    for (k, row) in ROWS.iter().enumerate() {
        assert!(rt; is_answered(rt.alloc(), row)?, "row {k}");
    }
    Ok(())
}
