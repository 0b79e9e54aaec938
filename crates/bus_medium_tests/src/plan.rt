//! Plans of worked tables.
use bus_plan::{PlanAnswer, plan};
use bus_regime::verdict;
use bus_table::{Mode, Table, read_table};
use std::alloc::Global;
use std::test::Fail;

/// What a plan of two senders shows: their offsets, where the planned table is accepted, or the least interval and the table's own.
#[derive(Clone, Copy, PartialEq)]
enum Shown {
    Offsets([u32; 2]),
    Infeasible { least: u64, ti: u64 },
    Other,
}

/// A table, and what its plan shows.
#[derive(Drop)]
struct Row {
    table: &'static [u8],
    shown: Shown,
}

const ROWS: [Row; 3] = [
    // The greatest terminal gap goes first.
    Row {
        table: b"TABLE 1
MODE periodic
TI 2000
SG 300
SENDER 1 TG 20 AT 0
SEND 0A1 1 2 2
SENDER 2 TG 30 AT 90
SEND 0B2 1 30 30
",
        shown: Shown::Offsets([640, 0]),
    },
    // Two synchronization gaps stand in place of great terminal gaps.
    Row {
        table: b"TABLE 1
MODE periodic
TI 1354
SG 257
SENDER 1 TG 256 AT 0
SEND 001 0 20 20
SENDER 2 TG 255 AT 0
SEND 002 0 20 20
",
        shown: Shown::Offsets([0, 677]),
    },
    // A short interval is told with the least.
    Row {
        table: b"TABLE 1
MODE periodic
TI 1353
SG 257
SENDER 1 TG 256 AT 0
SEND 001 0 20 20
SENDER 2 TG 255 AT 0
SEND 002 0 20 20
",
        shown: Shown::Infeasible {
            least: 1354,
            ti: 1353,
        },
    },
];

/// The offsets of two senders, terminal 1 first, of a table that is accepted.
fn offsets(table: &Table) -> Shown {
    match table.senders() {
        [one, two] if one.number() == 1 && verdict(table).is_accepted() => Shown::Offsets([
            one.at(),
            two.at(),
        ]),
        _ => Shown::Other,
    }
}

/// What the plan of a periodic table shows.
fn planned(alloc: Global, text: &[u8]) -> Result<Shown, Fail> {
    let table = read_table(alloc, text)?;
    if !matches!(table.mode(), Mode::Periodic) {
        return Ok(Shown::Other);
    }
    Ok(match &plan(alloc, &table)? {
        PlanAnswer::Planned(table) => offsets(table),
        PlanAnswer::Infeasible { least, ti } => Shown::Infeasible {
            least: *least,
            ti: *ti,
        },
    })
}

#[test]
fn a_plan_has_its_offsets_or_the_least_interval(rt: HostRuntime) -> Result<(), Fail> {
    for (k, row) in ROWS.iter().enumerate() {
        assert!(rt; planned(rt.alloc(), row.table)? == row.shown, "row {k}");
    }
    Ok(())
}
