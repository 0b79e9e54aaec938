//! Verdicts on small tables, their lines, and witnesses.
use bus_outer::MemorySink;
use bus_regime::{verdict, witness, write_verdict};
use bus_strings::Payloads;
use bus_table::read_table;
use std::alloc::Global;
use std::test::Fail;

/// A table of terminal 1 with messages of 60 bit times, and terminal 2 with messages of 30 data words or more; and the line of its verdict.
#[derive(Drop)]
struct Row {
    table: &'static [u8],
    line: &'static [u8],
}

/// Cycles of aperiodic tables and gaps of periodic ones: the gap before terminal 2 is its offset less 60, and the one before terminal 1
/// goes over the end of the interval.
const ROWS: [Row; 10] = [
    Row {
        table: b"TABLE 1
MODE aperiodic
TI 1030
SG 300
SENDER 1 TG 20
SEND 001 1 2 2
SENDER 2 TG 30
SEND 002 1 30 40
",
        line: b"ACCEPT aperiodic 1030 1230\n",
    },
    Row {
        table: b"TABLE 1
MODE aperiodic
TI 1031
SG 300
SENDER 1 TG 20
SEND 001 1 2 2
SENDER 2 TG 30
SEND 002 1 30 40
",
        line: b"REFUSE short-cycle 1030 1031\n",
    },
    Row {
        table: b"TABLE 1
MODE periodic
TI 2000
SG 300
SENDER 1 TG 20 AT 0
SEND 001 1 2 2
SENDER 2 TG 30 AT 90
SEND 002 1 30 30
",
        line: b"ACCEPT periodic 2000 2000\n",
    },
    Row {
        table: b"TABLE 1
MODE periodic
TI 2000
SG 300
SENDER 1 TG 20 AT 0
SEND 001 1 2 2
SENDER 2 TG 30 AT 89
SEND 002 1 30 30
",
        line: b"REFUSE small-gap 2 29 30\n",
    },
    Row {
        table: b"TABLE 1
MODE periodic
TI 2000
SG 300
SENDER 1 TG 20 AT 0
SEND 001 1 2 2
SENDER 2 TG 30 AT 59
SEND 002 1 30 30
",
        line: b"REFUSE small-gap 2 -1 30\n",
    },
    Row {
        table: b"TABLE 1
MODE periodic
TI 2000
SG 300
SENDER 1 TG 20 AT 0
SEND 001 1 2 2
SENDER 2 TG 30 AT 0
SEND 002 1 30 30
",
        line: b"REFUSE small-gap 2 -60 30\n",
    },
    Row {
        table: b"TABLE 1
MODE periodic
TI 1030
SG 300
SENDER 1 TG 20 AT 0
SEND 001 1 2 2
SENDER 2 TG 30 AT 90
SEND 002 1 30 30
",
        line: b"ACCEPT periodic 1030 1030\n",
    },
    Row {
        table: b"TABLE 1
MODE periodic
TI 1029
SG 300
SENDER 1 TG 20 AT 0
SEND 001 1 2 2
SENDER 2 TG 30 AT 90
SEND 002 1 30 30
",
        line: b"REFUSE no-sync 1 319 320\n",
    },
    Row {
        table: b"TABLE 1
MODE periodic
TI 1230
SG 300
SENDER 1 TG 20 AT 0
SEND 001 1 2 2
SENDER 2 TG 30 AT 90
SEND 002 1 30 40
",
        line: b"ACCEPT periodic 1230 1230\n",
    },
    Row {
        table: b"TABLE 1
MODE periodic
TI 1229
SG 300
SENDER 1 TG 20 AT 0
SEND 001 1 2 2
SENDER 2 TG 30 AT 90
SEND 002 1 30 40
",
        line: b"REFUSE no-sync 1 319 320\n",
    },
];

/// The line of a table's verdict.
fn has_line(alloc: Global, row: &Row) -> Result<bool, Fail> {
    let table = read_table(alloc, row.table)?;
    let mut sink = MemorySink::new(alloc, 64, 7, Vec::new(alloc))?;
    let answer = write_verdict(&verdict(&table), &mut sink);
    Ok(answer.is_ok() && sink.bytes() == row.line)
}

#[test]
fn a_verdict_has_its_line(rt: HostRuntime) -> Result<(), Fail> {
    for (k, row) in ROWS.iter().enumerate() {
        assert!(rt; has_line(rt.alloc(), row)?, "row {k}");
    }
    Ok(())
}

/// A table that is refused, and how many data words the last item of its witness has: the least in aperiodic mode, and the most in
/// periodic mode.
#[derive(Drop)]
struct Witnessed {
    table: &'static [u8],
    words: usize,
}

const WITNESSED: [Witnessed; 2] = [
    Witnessed {
        table: b"TABLE 1
MODE aperiodic
TI 1031
SG 300
SENDER 1 TG 20
SEND 001 1 2 2
SENDER 2 TG 30
SEND 002 1 30 40
",
        words: 30,
    },
    Witnessed {
        table: b"TABLE 1
MODE periodic
TI 2000
SG 300
SENDER 1 TG 20 AT 0
SEND 001 1 2 2
SENDER 2 TG 30 AT 59
SEND 002 1 30 40
",
        words: 40,
    },
];

/// Whether a witness has two rounds in the order of the table, and so many data words in its last item.
fn is_witness(witness: &Payloads, words: usize) -> bool {
    match witness.items.as_slice() {
        [first, second, third, fourth] => {
            let terminals = [
                first.terminal,
                second.terminal,
                third.terminal,
                fourth.terminal,
            ];
            terminals == [1, 2, 1, 2]
                && matches!(fourth.strings.as_slice(), [only] if only.len() == words)
        }
        _ => false,
    }
}

#[test]
fn a_witness_has_two_rounds(rt: HostRuntime) -> Result<(), Fail> {
    for row in &WITNESSED {
        let table = read_table(rt.alloc(), row.table)?;
        assert!(rt;
            is_witness(&witness(rt.alloc(), &table)?, row.words),
            "{} words",
            row.words
        );
    }
    Ok(())
}
