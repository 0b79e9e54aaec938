//! What is heard of senders on cables that they bear, on one that is too long by one bit time, and at the ends of a run.
ghost use Rattle.bus_strings.specs.Transmissions.{IsAscending};

use crate::shared::dealt;
use bus_cable::{Cable, observe_on, read_cable, write_heard};
use bus_outer::MemorySink;
use bus_strings::Transmission;
use bus_table::{Table, read_table};
use std::alloc::Global;
use std::test::Fail;

const TABLE: &[u8] = b"TABLE 1
MODE aperiodic
TI 1000
SG 300
SENDER 1 TG 20
SEND 0A1 1 2 4
SENDER 2 TG 30
SEND 0B2 1 30 40
LISTENER 9
";

const ALONE: &[u8] = b"TABLE 1
MODE aperiodic
TI 1000
SG 300
SENDER 1 TG 20
SEND 0A1 1 2 4
LISTENER 9
";

/// Two rounds of messages of 60 and 620 bit times.
const TWO_ROUNDS: &[u8] = b"MSG 1 : 0000 0000
MSG 2 : 0000 0000 0000 0000 0000 0000 0000 0000 0000 0000 0000 0000 0000 0000 0000 \
0000 0000 0000 0000 0000 0000 0000 0000 0000 0000 0000 0000 0000 0000 0000
MSG 1 : 0000 0000
MSG 2 : 0000 0000 0000 0000 0000 0000 0000 0000 0000 0000 0000 0000 0000 0000 0000 \
0000 0000 0000 0000 0000 0000 0000 0000 0000 0000 0000 0000 0000 0000 0000
";

/// A cable whose text begins so and goes on with these items: when the table's senders start before 3000, and what is heard.
#[derive(Drop)]
struct Row {
    table: &'static [u8],
    cable: &'static [u8],
    items: &'static [u8],
    starts: &'static [u64],
    heard: &'static [u8],
}

const ROWS: [Row; 8] = [
    // Terminals hear in order what the cable bears.
    Row {
        table: TABLE,
        cable: b"CABLE 1
PLACE 1 0
PLACE 2 4
",
        items: TWO_ROUNDS,
        starts: &[20, 114, 1058, 1152],
        heard: b"HEARD 1
TERMINAL 1
HT 118 2 -
HT 1156 2 -
TERMINAL 2
HT 24 1 -
HT 1062 1 -
TERMINAL 9
HT 20 1 -
HT 118 2 -
HT 1058 1 -
HT 1156 2 -
END
",
    },
    // One bit time more garbles all at both senders.
    Row {
        table: TABLE,
        cable: b"CABLE 1
PLACE 2 5
WAKE 1 5
",
        items: TWO_ROUNDS,
        starts: &[25, 30, 1025, 1030],
        heard: b"HEARD 1
TERMINAL 1
HT 35 2 C
HT 1035 2 C
TERMINAL 2
HT 30 1 C
HT 1030 1 C
TERMINAL 9
HT 25 1 C
HT 35 2 C
HT 1025 1 C
HT 1035 2 C
END
",
    },
    // Sender 2 is powered up 300 bit times before its wake: with the last bit time of the first message, which it hears.
    Row {
        table: TABLE,
        cable: b"CABLE 1
WAKE 2 379
",
        items: TWO_ROUNDS,
        starts: &[20, 410, 1050, 1440],
        heard: b"HEARD 1
TERMINAL 1
HT 410 2 -
HT 1440 2 -
TERMINAL 2
HT 20 1 -
HT 1050 1 -
TERMINAL 9
HT 20 1 -
HT 410 2 -
HT 1050 1 -
HT 1440 2 -
END
",
    },
    // And right behind the first message, which it doesn't hear.
    Row {
        table: TABLE,
        cable: b"CABLE 1
WAKE 2 381
",
        items: TWO_ROUNDS,
        starts: &[20, 411, 1051, 1441],
        heard: b"HEARD 1
TERMINAL 1
HT 411 2 -
HT 1441 2 -
TERMINAL 2
HT 20 1 -
HT 1051 1 -
TERMINAL 9
HT 20 1 -
HT 411 2 -
HT 1051 1 -
HT 1441 2 -
END
",
    },
    // The last bit time before the horizon is heard behind it, where the cable is long. Who wakes at the horizon or later sends nothing.
    Row {
        table: TABLE,
        cable: b"CABLE 1
PLACE 9 1024
WAKE 1 2979
WAKE 2 3000
",
        items: TWO_ROUNDS,
        starts: &[2999],
        heard: b"HEARD 1
TERMINAL 1
TERMINAL 2
HT 2999 1 -
TERMINAL 9
HT 4023 1 -
END
",
    },
    Row {
        table: TABLE,
        cable: b"CABLE 1
WAKE 1 2980
WAKE 2 4000
",
        items: TWO_ROUNDS,
        starts: &[],
        heard: b"HEARD 1
TERMINAL 1
TERMINAL 2
TERMINAL 9
END
",
    },
    // One sender is heard, and no message is silence.
    Row {
        table: ALONE,
        cable: b"CABLE 1
PLACE 1 1024
PLACE 9 24
",
        items: b"MSG 1 : 0000 0000
",
        starts: &[20],
        heard: b"HEARD 1
TERMINAL 1
TERMINAL 9
HT 1020 1 -
END
",
    },
    Row {
        table: ALONE,
        cable: b"CABLE 1
PLACE 1 1024
PLACE 9 24
",
        items: b"",
        starts: &[],
        heard: b"HEARD 1
TERMINAL 1
TERMINAL 9
END
",
    },
];

/// Whether these are the starts of a row.
fn are_starts(list: &[Transmission], starts: &[u64]) -> bool {
    for (sent, moment) in list.iter().zip(starts) {
        if sent.moment != *moment {
            return false;
        }
    }
    list.len() == starts.len()
}

/// Whether this is heard of a list.
fn is_heard(
    alloc: Global,
    table: &Table,
    cable: &Cable,
    list: &[Transmission],
    heard: &[u8],
) -> Result<bool, Fail>
    requires { IsAscending list.now }
{
    let mut sink = MemorySink::new(alloc, 400, 400, Vec::new(alloc))?;
    let answer = write_heard(table, cable, list, &mut sink);
    Ok(answer.is_ok() && sink.bytes() == heard)
}

/// Whether the senders of a row start at its moments, and it is heard.
fn is_shown(alloc: Global, row: &Row) -> Result<bool, Fail> {
    let mut text = Vec::from_slice(alloc, row.cable)?;
    text.extend_from_slice(row.items)?;
    let table = read_table(alloc, row.table)?;
    let (cable, items) = read_cable(alloc, &text)?;
    let hands = dealt(alloc, &table, items)?;
    let list = observe_on(alloc, &table, &cable, hands, 3000)?;
    Ok(are_starts(&list, row.starts) && is_heard(alloc, &table, &cable, &list, row.heard)?)
}

#[test]
fn senders_start_and_are_heard(rt: HostRuntime) -> Result<(), Fail> {
    for (k, row) in ROWS.iter().enumerate() {
        assert!(rt; is_shown(rt.alloc(), row)?, "row {k}");
    }
    Ok(())
}
