//! Tables that are made of worked ones: the numbers are those of a program of another language that tries every gap.
use bus_bounds::Bounds;
use bus_made::{Order, Wish, design, write_design};
use bus_outer::MemorySink;
use bus_table::{Mode, read_table};
use std::alloc::Global;
use std::process::Abort;
use std::test::Fail;

/// What is asked, and the made table, or what is to blame.
struct Row {
    name: &'static str,
    table: &'static [u8],
    delay: u64,
    jitter: u64,
    clocks: u64,
    order: Order,
    wishes: &'static [Wish],
    made: &'static [u8],
}

const ROWS: [Row; 18] = [
    Row {
        name: "five senders on exact clocks",
        table: FIVE,
        delay: 0,
        jitter: 0,
        clocks: 0,
        order: Order::Kept,
        wishes: &[],
        made: b"TABLE 1
MODE aperiodic
TI 1000
SG 928
SENDER 1 TG 8
SEND 101 1 8 8
SENDER 2 TG 9
SEND 102 1 16 16
SENDER 3 TG 10
SEND 103 1 4 12
TAKE 101 * 0 8
SENDER 4 TG 11
SEND 104 1 6 6
SENDER 5 TG 12
SEND 105 1 2 4
LISTENER 9
TAKE 105 1 0 2
",
    },
    Row {
        name: "five senders on a cable",
        table: FIVE,
        delay: 2000,
        jitter: 125,
        clocks: 100,
        order: Order::Kept,
        wishes: &[],
        made: b"TABLE 1
MODE aperiodic
TI 1000
SG 893
SENDER 1 TG 8
SEND 101 1 8 8
SENDER 2 TG 18
SEND 102 1 16 16
SENDER 3 TG 28
SEND 103 1 4 12
TAKE 101 * 0 8
SENDER 4 TG 38
SEND 104 1 6 6
SENDER 5 TG 48
SEND 105 1 2 4
LISTENER 9
TAKE 105 1 0 2
",
    },
    Row {
        name: "five senders with much jitter",
        table: FIVE,
        delay: 5000,
        jitter: 1000,
        clocks: 1000,
        order: Order::Kept,
        wishes: &[],
        made: b"TABLE 1
MODE aperiodic
TI 1000
SG 828
SENDER 1 TG 18
SEND 101 1 8 8
SENDER 2 TG 48
SEND 102 1 16 16
SENDER 3 TG 78
SEND 103 1 4 12
TAKE 101 * 0 8
SENDER 4 TG 108
SEND 104 1 6 6
SENDER 5 TG 138
SEND 105 1 2 4
LISTENER 9
TAKE 105 1 0 2
",
    },
    Row {
        name: "two senders out of turn order, with the greater of two synchronization gaps",
        table: TWO,
        delay: 2000,
        jitter: 125,
        clocks: 100,
        order: Order::Kept,
        wishes: &[],
        made: b"TABLE 1
MODE aperiodic
TI 1000
SG 963
SENDER 1 TG 8
SEND 001 0 2 2
SENDER 2 TG 18
SEND 002 0 0 2
",
    },
    Row {
        name: "a sender that is alone",
        table: ONE,
        delay: 2000,
        jitter: 125,
        clocks: 100,
        order: Order::Kept,
        wishes: &[],
        made: b"TABLE 1
MODE aperiodic
TI 1000
SG 973
SENDER 1 TG 8
SEND 001 0 0 0
",
    },
    Row {
        name: "five senders that are too far apart",
        table: FIVE,
        delay: 20000,
        jitter: 125,
        clocks: 100,
        order: Order::Kept,
        wishes: &[],
        made: b"INFEASIBLE opening 4 287 256\n",
    },
    Row {
        name: "messages that may last no time",
        table: FIVE,
        delay: 0,
        jitter: 100000,
        clocks: 0,
        order: Order::Kept,
        wishes: &[],
        made: b"INFEASIBLE lasts 1 100001 90000\n",
    },
    Row {
        name: "a message that is alone and may last no time",
        table: ONE,
        delay: 0,
        jitter: 12000,
        clocks: 0,
        order: Order::Kept,
        wishes: &[],
        made: b"INFEASIBLE lasts 1 12001 10000\n",
    },
    Row {
        name: "a first gap that is too great",
        table: TWO,
        delay: 240000,
        jitter: 0,
        clocks: 0,
        order: Order::Kept,
        wishes: &[],
        made: b"INFEASIBLE joining 1 480 256\n",
    },
    Row {
        name: "a synchronization gap that is too great",
        table: TWO,
        delay: 600000,
        jitter: 0,
        clocks: 0,
        order: Order::Kept,
        wishes: &[],
        made: b"INFEASIBLE whole - 1205 1024\n",
    },
    Row {
        name: "seven senders that are too far apart",
        table: SEVEN,
        delay: 12000,
        jitter: 125,
        clocks: 100,
        order: Order::Kept,
        wishes: &[],
        made: b"INFEASIBLE opening 6 275 256\n",
    },
    Row {
        name: "gaps that fit, but not together with the synchronization gap for which they wait",
        table: SEVEN,
        delay: 9700,
        jitter: 0,
        clocks: 500,
        order: Order::Kept,
        wishes: &[],
        made: b"INFEASIBLE waiting 7 257 256\n",
    },
    Row {
        name: "seven senders on a cable",
        table: SEVEN,
        delay: 2000,
        jitter: 125,
        clocks: 100,
        order: Order::Kept,
        wishes: &[],
        made: b"TABLE 1
MODE aperiodic
TI 1000
SG 953
SENDER 1 TG 8
SEND 101 1 4 10
SENDER 2 TG 18
SEND 102 1 2 2
SENDER 3 TG 28
SEND 103 1 0 0
SENDER 4 TG 38
SEND 104 1 6 12
SENDER 5 TG 48
SEND 105 1 1 3
SENDER 6 TG 58
SEND 106 1 8 8
SENDER 7 TG 68
SEND 107 1 0 4
",
    },
    Row {
        name: "five senders with much jitter in the free order",
        table: FIVE,
        delay: 5000,
        jitter: 1000,
        clocks: 1000,
        order: Order::Free,
        wishes: &[],
        made: b"TABLE 1
MODE aperiodic
TI 1000
SG 807
SENDER 2 TG 18
SEND 102 1 16 16
SENDER 1 TG 48
SEND 101 1 8 8
SENDER 4 TG 78
SEND 104 1 6 6
SENDER 3 TG 108
SEND 103 1 4 12
TAKE 101 * 0 8
SENDER 5 TG 139
SEND 105 1 2 4
LISTENER 9
TAKE 105 1 0 2
",
    },
    Row {
        name: "seven senders on a cable in the free order",
        table: SEVEN,
        delay: 2000,
        jitter: 125,
        clocks: 100,
        order: Order::Free,
        wishes: &[],
        made: b"TABLE 1
MODE aperiodic
TI 1000
SG 923
SENDER 6 TG 8
SEND 106 1 8 8
SENDER 4 TG 18
SEND 104 1 6 12
SENDER 1 TG 28
SEND 101 1 4 10
SENDER 2 TG 38
SEND 102 1 2 2
SENDER 5 TG 48
SEND 105 1 1 3
SENDER 3 TG 58
SEND 103 1 0 0
SENDER 7 TG 68
SEND 107 1 0 4
",
    },
    Row {
        name: "a wish that is met to the nanosecond",
        table: ONE,
        delay: 2000,
        jitter: 125,
        clocks: 100,
        order: Order::Kept,
        wishes: &[Wish {
            terminal: 1,
            age: 513054,
        }],
        made: b"TABLE 1
MODE aperiodic
TI 1000
SG 973
SENDER 1 TG 8
SEND 001 0 0 0
",
    },
    Row {
        name: "a wish that lacks a nanosecond",
        table: ONE,
        delay: 2000,
        jitter: 125,
        clocks: 100,
        order: Order::Kept,
        wishes: &[Wish {
            terminal: 1,
            age: 513053,
        }],
        made: b"INFEASIBLE age 1 513054 513053\n",
    },
    Row {
        name: "the wish that lacks most, of ages on exact clocks",
        table: FIVE,
        delay: 0,
        jitter: 0,
        clocks: 0,
        order: Order::Kept,
        wishes: &[
            Wish {
                terminal: 5,
                age: 1048999,
            },
            Wish {
                terminal: 3,
                age: 1128998,
            },
            Wish {
                terminal: 2,
                age: 1168998,
            },
            Wish {
                terminal: 1,
                age: 1089000,
            },
            Wish {
                terminal: 4,
                age: 2000000,
            },
        ],
        made: b"INFEASIBLE age 2 1169000 1168998\n",
    },
];

const ONE: &[u8] = b"TABLE 1
MODE aperiodic
TI 5000
SG 700
SENDER 1 TG 100
SEND 001 0 0 0
";

const SEVEN: &[u8] = b"TABLE 1
MODE aperiodic
TI 1000
SG 400
SENDER 1 TG 10
SEND 101 1 4 10
SENDER 2 TG 20
SEND 102 1 2 2
SENDER 3 TG 30
SEND 103 1 0 0
SENDER 4 TG 40
SEND 104 1 6 12
SENDER 5 TG 50
SEND 105 1 1 3
SENDER 6 TG 60
SEND 106 1 8 8
SENDER 7 TG 70
SEND 107 1 0 4
";

const FIVE: &[u8] = b"TABLE 1
MODE aperiodic
TI 1000
SG 910
SENDER 1 TG 10
SEND 101 1 8 8
SENDER 2 TG 15
SEND 102 1 16 16
SENDER 3 TG 20
SEND 103 1 4 12
TAKE 101 * 0 8
SENDER 4 TG 25
SEND 104 1 6 6
SENDER 5 TG 30
SEND 105 1 2 4
LISTENER 9
TAKE 105 1 0 2
";

const TWO: &[u8] = b"TABLE 1
MODE aperiodic
TI 2000
SG 500
SENDER 2 TG 40
SEND 002 0 0 2
SENDER 1 TG 30
SEND 001 0 2 2
";

/// Holds what is made of a row's table to the row.
fn is_made(rt: &impl Abort, alloc: Global, row: &Row) -> Result<(), Fail> {
    let Some(bounds) = Bounds::new(row.delay, row.jitter, row.clocks) else {
        return Err(Fail::new("bounds above their limits"));
    };
    let table = read_table(alloc, row.table)?;
    let Mode::Aperiodic = table.mode() else {
        return Err(Fail::new("a periodic table"));
    };
    let mut sink = MemorySink::new(alloc, 1000, 1000, Vec::new(alloc))?;
    let answer = design(alloc, &table, row.order, row.wishes, bounds)?;
    assert!(rt; write_design(&answer, &mut sink).is_ok());
    assert!(rt; sink.bytes() == row.made, "{}", row.name);
    Ok(())
}

#[test]
fn made_tables(rt: HostRuntime) -> Result<(), Fail> {
    for row in &ROWS {
        is_made(&rt, rt.alloc(), row)?;
    }
    Ok(())
}
