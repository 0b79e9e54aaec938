//! A save file to the byte.
use crate::calls::{TABLE, Text, written};
use bus_dump::FirstBreach;
use std::alloc::Global;
use std::test::Fail;

/// A transmission of a sender, and one of a stranger, which is a breach.
const TRACE: &[u8] =
    b"TRACE 1\nHORIZON 150\nHOLD 1 1\nHOLD 7 1\nTX 20 1\nWS L0A111 D00001 D00010\nTX 110 7\nWS L07110\nEND\n";

/// The lane of the terminal of the breach stands before the others, and is open.
const SAVED: &[u8] = b"*-15 55000
@200
-bus
@28
bus.carrier
[color] 2
bus.overlap
bus.sync
[color] 2
bus.breach
@22
bus.word[15:0]
@c00200
-labels
@22
bus.t1_label[15:0]
bus.t2_label[15:0]
bus.t7_label[15:0]
@1401200
-group_end
@800200
-T7
@28
bus.t7_pulse
[color] 2
bus.t7_garbled
@24
bus.t7_message[31:0]
@1000200
-group_end
@c00200
-T1 TG 20
@28
bus.t1_pulse
[color] 2
bus.t1_garbled
@24
bus.t1_message[31:0]
@28
bus.t1_ti
bus.t1_sg
bus.t1_tg
[color] 2
bus.t1_may
@1401200
-group_end
@c00200
-T2 TG 30
@28
bus.t2_pulse
[color] 2
bus.t2_garbled
@24
bus.t2_message[31:0]
@28
bus.t2_ti
bus.t2_sg
bus.t2_tg
[color] 2
bus.t2_may
@1401200
-group_end
";

/// The stranger's breach.
const BREACH: FirstBreach = FirstBreach {
    moment: 110,
    terminal: 7,
};

#[test]
fn the_save_file_of_a_sender_and_a_stranger(rt: HostRuntime) -> Result<(), Fail> {
    let text = written(rt.alloc(), Text::SaveFile(Some(BREACH)), TABLE, TRACE)?;
    assert!(rt; text.as_slice() == SAVED);
    Ok(())
}

/// A save file: what is written, how it begins, a part of it, and its end.
#[derive(Drop)]
struct Row {
    text: Text,
    trace: &'static [u8],
    first: &'static str,
    part: &'static str,
    last: &'static str,
}

/// How each save file of `TRACE` ends.
const LAST: &str = "-group_end\n";

/// A trace without a bit time.
const EMPTY: &[u8] = b"TRACE 1\nHORIZON 0\nHOLD 1 0\nHOLD 2 0\nEND\n";

/// A window is zoomed to its own bit times below the horizon, and begins where it does; it holds the breach or not. Then an empty trace,
/// which isn't zoomed: the groups of two lanes are open, and where there is no breach there is no marker.
const ROWS: [Row; 7] = [
    Row {
        text: Text::SavedWindow(0, 150, Some(BREACH)),
        trace: TRACE,
        first: "*-15 55000\n@200\n",
        part: "t7_label[15:0]\n@1401200\n-group_end\n@800200\n-T7\n",
        last: LAST,
    },
    Row {
        text: Text::SavedWindow(0, 110, Some(BREACH)),
        trace: TRACE,
        first: "*-15 -1\n@200\n",
        part: "t7_label[15:0]\n@1000200\n-group_end\n@800200\n-T1 TG 20\n",
        last: LAST,
    },
    Row {
        text: Text::SavedWindow(110, 111, Some(BREACH)),
        trace: TRACE,
        first: "*-8 55000\n[timestart] 55000\n@200\n",
        part: "@c00200\n-T1 TG 20\n",
        last: LAST,
    },
    Row {
        text: Text::SavedWindow(100, 1000, Some(BREACH)),
        trace: TRACE,
        first: "*-14 55000\n[timestart] 50000\n@200\n",
        part: "@c00200\n-T2 TG 30\n",
        last: LAST,
    },
    Row {
        text: Text::SavedWindow(111, 1000, Some(BREACH)),
        trace: TRACE,
        first: "*-13 -1\n[timestart] 55500\n@200\n",
        part: "@800200\n-T2 TG 30\n",
        last: LAST,
    },
    Row {
        text: Text::SavedWindow(200, 201, Some(BREACH)),
        trace: TRACE,
        first: "*-0 -1\n[timestart] 100000\n@200\n",
        part: "@800200\n-T7\n",
        last: LAST,
    },
    Row {
        text: Text::SaveFile(None),
        trace: EMPTY,
        first: "*-0 -1\n@200\n-bus\n",
        part: "@800200\n-labels\n@22\nbus.t1_label[15:0]\nbus.t2_label[15:0]\n@1000200\n-group_end\n@800200\n-T1 TG 20\n",
        last: "bus.t2_may\n@1000200\n-group_end\n",
    },
];

/// Whether a save file begins, goes on and ends as its row says.
fn is_saved(alloc: Global, row: &Row) -> Result<bool, Fail> {
    let text = written(alloc, row.text, TABLE, row.trace)?;
    Ok(match str::from_utf8(&text) {
        Ok(text) => {
            text.starts_with(row.first) && text.contains(row.part) && text.ends_with(row.last)
        }
        Err(_) => false,
    })
}

#[test]
fn the_save_file_of_a_window_or_of_an_empty_trace(rt: HostRuntime) -> Result<(), Fail> {
    for (k, row) in ROWS.iter().enumerate() {
        assert!(rt; is_saved(rt.alloc(), row)?, "row {k}");
    }
    Ok(())
}

/// Ten senders, of which the last in turn order is terminal 1.
const TEN: &[u8] = b"TABLE 1
MODE aperiodic
TI 2000
SG 300
SENDER 10 TG 20
SEND 00A 1 0 0
SENDER 9 TG 30
SEND 009 1 0 0
SENDER 8 TG 40
SEND 008 1 0 0
SENDER 7 TG 50
SEND 007 1 0 0
SENDER 6 TG 60
SEND 006 1 0 0
SENDER 5 TG 70
SEND 005 1 0 0
SENDER 4 TG 80
SEND 004 1 0 0
SENDER 3 TG 90
SEND 003 1 0 0
SENDER 2 TG 100
SEND 002 1 0 0
SENDER 1 TG 110
SEND 001 1 0 0
";

/// A trace of nothing.
const SILENT: &[u8] = b"TRACE 1\nHORIZON 20\nEND\n";

/// Whether the groups that are open have these names, in their order, with a semicolon behind each.
fn are_open(alloc: Global, breach: Option<FirstBreach>, wanted: &str) -> Result<bool, Fail> {
    let text = written(alloc, Text::SaveFile(breach), TEN, SILENT)?;
    let Ok(text) = str::from_utf8(&text) else {
        return Ok(false);
    };
    let mut names = String::new(alloc);
    let mut begins = false;
    for line in text.lines() {
        if begins {
            names.push_str(line)?;
            names.push_str(";")?;
        }
        begins = line == "@800200";
    }
    Ok(names.as_str() == wanted)
}

/// Of ten lanes the first eight are open, or that of a breach, which then is the first of all.
const OPEN: [(Option<FirstBreach>, &str); 4] = [
    (
        None,
        "-T10 TG 20;-T9 TG 30;-T8 TG 40;-T7 TG 50;-T6 TG 60;-T5 TG 70;-T4 TG 80;-T3 TG 90;",
    ),
    (
        Some(FirstBreach {
            moment: 5,
            terminal: 1,
        }),
        "-T1 TG 110;",
    ),
    (
        Some(FirstBreach {
            moment: 5,
            terminal: 10,
        }),
        "-T10 TG 20;",
    ),
    (
        Some(FirstBreach {
            moment: 5,
            terminal: 4,
        }),
        "-T4 TG 80;",
    ),
];

#[test]
fn the_open_groups_of_many_lanes(rt: HostRuntime) -> Result<(), Fail> {
    for (k, (breach, names)) in OPEN.iter().enumerate() {
        assert!(rt; are_open(rt.alloc(), *breach, names)?, "row {k}");
    }
    Ok(())
}
