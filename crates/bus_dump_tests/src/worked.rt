//! Dumps to the byte.
use crate::calls::{TABLE, Text, written};
use bus_dump::Dump;
use std::alloc::Global;
use std::test::Fail;

const SENT: &[u8] = b"TRACE 1
HORIZON 150
HOLD 1 1
HOLD 2 1
TX 20 1
WS L0A111 D00001 D00010
TX 110 2
WS L0B210 D00FF1
END
";

const WIRES: &[u8] = b"$version bus629-view 1 $end
$comment ACCEPT aperiodic 1130 1170 $end
$timescale 100 ns $end
$scope module bus $end
$var wire 1 c carrier $end
$var wire 1 o overlap $end
$var wire 1 s sync $end
$var wire 1 b breach $end
$var wire 1 p1 t1_pulse $end
$var wire 1 g1 t1_garbled $end
$var wire 1 p2 t2_pulse $end
$var wire 1 g2 t2_garbled $end
$upscope $end
$enddefinitions $end
#0
$dumpvars
0c
0o
0s
0b
0p1
0g1
0p2
0g2
$end
#100
1c
1s
1p1
#115
0s
#200
1s
#215
0s
#300
1s
#315
0s
#400
0c
0p1
#550
1c
1s
1p2
#565
0s
#650
1s
#665
0s
#750
";

/// A transmission that overlaps one, and a stranger that overlaps it, cut by the horizon.
const MET: &[u8] = b"TRACE 1
HORIZON 75
HOLD 1 1
HOLD 2 1
HOLD 7 1
TX 10 1
WS L0A111 D00001
TX 30 2
WS L0B210 D00FF1
TX 60 7
WS L07110
END
";

const MET_VCD: &[u8] = b"$version bus629-view 1 $end
$comment ACCEPT aperiodic 1130 1170 $end
$timescale 100 ns $end
$scope module bus $end
$var wire 1 c carrier $end
$var wire 1 o overlap $end
$var wire 1 s sync $end
$var wire 1 b breach $end
$var wire 16 w word [15:0] $end
$var wire 1 p1 t1_pulse $end
$var wire 1 g1 t1_garbled $end
$var wire 16 l1 t1_label [15:0] $end
$var wire 32 m1 t1_message [31:0] $end
$var wire 1 p2 t2_pulse $end
$var wire 1 g2 t2_garbled $end
$var wire 16 l2 t2_label [15:0] $end
$var wire 32 m2 t2_message [31:0] $end
$var wire 1 p7 t7_pulse $end
$var wire 1 g7 t7_garbled $end
$var wire 16 l7 t7_label [15:0] $end
$var wire 32 m7 t7_message [31:0] $end
$upscope $end
$enddefinitions $end
#0
$dumpvars
0c
0o
0s
0b
bz w
0p1
0g1
bz l1
bz m1
0p2
0g2
bz l2
bz m2
0p7
0g7
bz l7
bz m7
$end
#50
1c
1s
b101000010001 w
1p1
1g1
b101000010001 l1
b1 m1
#65
0s
#150
1o
1s
bx w
1p2
1g2
b101100100001 l2
b1 m2
#165
0s
#250
0o
1s
b11111111 w
0p1
0g1
bz l1
bz m1
#265
0s
#300
1o
1s
bx w
1p7
1g7
b11100010001 l7
b1 m7
#315
0s
#350
0o
b11100010001 w
0p2
0g2
bz l2
bz m2
#375
";

const NOTHING: &[u8] = b"TRACE 1
HORIZON 0
END
";

const NOTHING_WIRES: &[u8] = b"$version bus629-view 1 $end
$comment ACCEPT aperiodic 1130 1170 $end
$timescale 100 ns $end
$scope module bus $end
$var wire 1 c carrier $end
$var wire 1 o overlap $end
$var wire 1 s sync $end
$var wire 1 b breach $end
$var wire 1 p1 t1_pulse $end
$var wire 1 g1 t1_garbled $end
$var wire 1 p2 t2_pulse $end
$var wire 1 g2 t2_garbled $end
$upscope $end
$enddefinitions $end
#0
$dumpvars
0c
0o
0s
0b
0p1
0g1
0p2
0g2
$end
";

/// The bit times from 45 to below 70, where the first breach is at 60: in a word of terminal 1, and in the next one.
const CUT: &[u8] = b"$version bus629-view 1 $end
$comment ACCEPT aperiodic 1130 1170 $end
$timescale 100 ns $end
$scope module bus $end
$var wire 1 c carrier $end
$var wire 1 o overlap $end
$var wire 1 s sync $end
$var wire 1 b breach $end
$var wire 1 p1 t1_pulse $end
$var wire 1 g1 t1_garbled $end
$var wire 1 p2 t2_pulse $end
$var wire 1 g2 t2_garbled $end
$upscope $end
$enddefinitions $end
#225
$dumpvars
1c
0o
0s
0b
1p1
0g1
0p2
0g2
$end
#300
1s
1b
#305
0b
#315
0s
#350
";

/// What is written of a trace, and how it ends, or the whole of it.
#[derive(Drop)]
struct Row {
    text: Text,
    trace: &'static [u8],
    whole: bool,
    written: &'static [u8],
}

const ROWS: [Row; 6] = [
    // The wires of two senders.
    Row {
        text: Text::Dump(Dump::Wires),
        trace: SENT,
        whole: true,
        written: WIRES,
    },
    // Overlaps, a stranger and a horizon in a message.
    Row {
        text: Text::Dump(Dump::Vcd),
        trace: MET,
        whole: true,
        written: MET_VCD,
    },
    // A horizon of no bit time.
    Row {
        text: Text::Dump(Dump::Wires),
        trace: NOTHING,
        whole: true,
        written: NOTHING_WIRES,
    },
    // A window with a breach.
    Row {
        text: Text::Window(Dump::Wires, 45, 70, 60),
        trace: SENT,
        whole: true,
        written: CUT,
    },
    // A window goes no further than the trace: of one that begins behind its horizon there is one bit time.
    Row {
        text: Text::Window(Dump::Wires, 140, 9000, 9000),
        trace: SENT,
        whole: false,
        written: b"#700\n$dumpvars\n1c\n0o\n0s\n0b\n0p1\n0g1\n1p2\n0g2\n$end\n#750\n",
    },
    Row {
        text: Text::Window(Dump::Wires, 150, 9000, 9000),
        trace: SENT,
        whole: false,
        written: b"#750\n$dumpvars\n0c\n0o\n0s\n0b\n0p1\n0g1\n0p2\n0g2\n$end\n",
    },
];

/// Whether a row is written of the table.
fn is_written(alloc: Global, row: &Row) -> Result<bool, Fail> {
    let text = written(alloc, row.text, TABLE, row.trace)?;
    Ok(text.ends_with(row.written) && (!row.whole || text.len() == row.written.len()))
}

#[test]
fn a_trace_is_dumped_to_the_byte(rt: HostRuntime) -> Result<(), Fail> {
    for (k, row) in ROWS.iter().enumerate() {
        assert!(rt; is_written(rt.alloc(), row)?, "row {k}");
    }
    Ok(())
}
