//! Advices on worked tables.
use bus_advice::{Advice, advices};
use bus_regime::verdict;
use bus_table::read_table;
use std::alloc::Global;
use std::test::Fail;

/// A table, and all advices on it.
#[derive(Drop)]
struct Row {
    table: &'static [u8],
    advices: &'static [Advice],
}

/// One bit time is lacking, so each number grows by one, and a word is enough.
const SHORT_CYCLE: Row = Row {
    table: b"TABLE 1
MODE aperiodic
TI 1031
SG 300
SENDER 1 TG 20
SEND 0A1 1 2 4
SENDER 2 TG 30
SEND 0B2 1 30 40
",
    advices: &[
        Advice::Interval { ti: 1030 },
        Advice::Synchronization { sg: 301 },
        Advice::Gap {
            terminal: 1,
            tg: 21,
        },
        Advice::Gap {
            terminal: 2,
            tg: 31,
        },
        Advice::Least {
            terminal: 1,
            line: 1,
            least: 3,
        },
        Advice::Least {
            terminal: 2,
            line: 1,
            least: 31,
        },
        Advice::AsPeriodic { ti: 1270 },
    ],
};

/// One bit time is lacking, and terminal 5, which stands first in the text and second in turn order, has the next terminal gap.
const NEXT_GAP_TAKEN: Row = Row {
    table: b"TABLE 1
MODE aperiodic
TI 1104
SG 938
SENDER 5 TG 21
SEND 001 0 0 5
SEND 002 0 1 2
SENDER 9 TG 20
SEND 003 0 2 2
",
    advices: &[
        Advice::Interval { ti: 1103 },
        Advice::Synchronization { sg: 939 },
        Advice::Gap {
            terminal: 9,
            tg: 22,
        },
        Advice::Gap {
            terminal: 5,
            tg: 22,
        },
        Advice::Least {
            terminal: 5,
            line: 1,
            least: 1,
        },
        Advice::Least {
            terminal: 5,
            line: 2,
            least: 2,
        },
        Advice::AsPeriodic { ti: 1223 },
    ],
};

/// The greatest synchronization gap, the greatest terminal gap and the most data words: the interval is left, and periodic mode.
const GREATEST_NUMBERS: Row = Row {
    table: b"TABLE 1
MODE aperiodic
TI 1321
SG 1024
SENDER 1 TG 256
SEND 001 0 1 1
",
    advices: &[
        Advice::Interval { ti: 1320 },
        Advice::AsPeriodic { ti: 1321 },
    ],
};

/// The shortest cycle is 37 bit times, below every transmit interval; 49 words are 980 bit times, 963 are lacking.
const SHORTEST_CYCLE: Row = Row {
    table: b"TABLE 1
MODE aperiodic
TI 1000
SG 9
SENDER 1 TG 8
SEND 001 0 0 60
",
    advices: &[
        Advice::Synchronization { sg: 972 },
        Advice::Least {
            terminal: 1,
            line: 1,
            least: 49,
        },
        Advice::AsPeriodic { ti: 1237 },
    ],
};

/// Want of synchronization is helped by one bit time.
const NO_SYNC: Row = Row {
    table: b"TABLE 1
MODE periodic
TI 1029
SG 300
SENDER 1 TG 20 AT 0
SEND 0A1 1 2 2
SENDER 2 TG 30 AT 90
SEND 0B2 1 30 30
",
    advices: &[Advice::Interval { ti: 1030 }, Advice::Plan { ti: 1030 }],
};

/// An inner gap is helped by other offsets alone.
const INNER_GAP: Row = Row {
    table: b"TABLE 1
MODE periodic
TI 2000
SG 300
SENDER 1 TG 20 AT 0
SEND 0A1 1 2 2
SENDER 2 TG 30 AT 89
SEND 0B2 1 30 30
",
    advices: &[Advice::Plan { ti: 2000 }],
};

/// Twenty-five wordstrings of 256 data words take more than the greatest transmit interval.
const LONGEST_MESSAGES: Row = Row {
    table: b"TABLE 1
MODE periodic
TI 128000
SG 300
SENDER 1 TG 20 AT 0
SEND 001 0 256 256
SEND 002 0 256 256
SEND 003 0 256 256
SEND 004 0 256 256
SEND 005 0 256 256
SEND 006 0 256 256
SEND 007 0 256 256
SEND 008 0 256 256
SEND 009 0 256 256
SEND 00A 0 256 256
SEND 00B 0 256 256
SEND 00C 0 256 256
SEND 00D 0 256 256
SEND 00E 0 256 256
SEND 00F 0 256 256
SEND 010 0 256 256
SEND 011 0 256 256
SEND 012 0 256 256
SEND 013 0 256 256
SEND 014 0 256 256
SEND 015 0 256 256
SEND 016 0 256 256
SEND 017 0 256 256
SEND 018 0 256 256
SEND 019 0 256 256
",
    advices: &[],
};

/// In periodic mode there is room at the table's own interval, in which no other number would fill a cycle.
const LIGHT_TERMINALS: Row = Row {
    table: b"TABLE 1
MODE aperiodic
TI 20000
SG 64
SENDER 1 TG 10
SEND 0A1 1 2 4
SENDER 2 TG 20
SEND 0B2 1 2 4
",
    advices: &[Advice::AsPeriodic { ti: 20000 }],
};

/// Terminal 1 waits and sends 960 + 10 + 40 bit times at least.
const STARTED_LATER: Row = Row {
    table: b"TABLE 1
MODE aperiodic
TI 1020
SG 960
SENDER 1 TG 10
SEND 0A1 0 1 1
SENDER 2 TG 20
SEND 0B2 0 1 1
",
    advices: &[Advice::Start { ti: 1010 }],
};

/// Terminal 1 waits and sends 300 + 20 + 60 bit times at least, below every transmit interval.
const NEVER_STARTED: Row = Row {
    table: b"TABLE 1
MODE aperiodic
TI 1030
SG 300
SENDER 1 TG 20
SEND 0A1 1 2 4
SENDER 2 TG 30
SEND 0B2 1 30 40
",
    advices: &[],
};

/// A table that starts itself has no advice.
const STARTS_ITSELF: Row = Row {
    table: b"TABLE 1
MODE aperiodic
TI 1010
SG 960
SENDER 1 TG 10
SEND 0A1 0 1 1
SENDER 2 TG 20
SEND 0B2 0 1 1
",
    advices: &[],
};

const ROWS: [Row; 11] = [
    SHORT_CYCLE,
    NEXT_GAP_TAKEN,
    GREATEST_NUMBERS,
    SHORTEST_CYCLE,
    NO_SYNC,
    INNER_GAP,
    LONGEST_MESSAGES,
    LIGHT_TERMINALS,
    STARTED_LATER,
    NEVER_STARTED,
    STARTS_ITSELF,
];

/// Whether a row has all advices on its table.
fn has_advices(alloc: Global, row: &Row) -> Result<bool, Fail> {
    let table = read_table(alloc, row.table)?;
    let found = advices(alloc, &table, &verdict(&table))?;
    Ok(found.as_slice() == row.advices)
}

#[test]
fn tables_have_their_advices(rt: HostRuntime) -> Result<(), Fail> {
    for (k, row) in ROWS.iter().enumerate() {
        assert!(rt; has_advices(rt.alloc(), row)?, "row {k}");
    }
    Ok(())
}
