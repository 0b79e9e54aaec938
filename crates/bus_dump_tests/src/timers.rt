//! What the timers tell, to the byte.
use crate::calls::{TABLE, Text, written};
use bus_dump::Dump;
use std::test::Fail;

const ONE_BIT_TIME: &[u8] = b"TRACE 1
HORIZON 1
HOLD 1 1
TX 0 1
WS L0A111 D00001
END
";

const ONE_BIT_TIME_TIMERS: &[u8] = b"$version bus629-view 1 $end
$comment ACCEPT aperiodic 1130 1170 $end
$timescale 100 ns $end
$scope module bus $end
$var wire 1 c carrier $end
$var wire 1 o overlap $end
$var wire 1 s sync $end
$var wire 1 b breach $end
$var wire 16 w word [15:0] $end
$var wire 1 p1 t1_pulse $end
$var wire 1 g1 t1_garbled $end
$var wire 16 l1 t1_label [15:0] $end
$var wire 32 m1 t1_message [31:0] $end
$var wire 1 i1 t1_ti $end
$var wire 1 y1 t1_sg $end
$var wire 1 h1 t1_tg $end
$var wire 1 r1 t1_may $end
$var wire 1 p2 t2_pulse $end
$var wire 1 g2 t2_garbled $end
$var wire 16 l2 t2_label [15:0] $end
$var wire 32 m2 t2_message [31:0] $end
$var wire 1 i2 t2_ti $end
$var wire 1 y2 t2_sg $end
$var wire 1 h2 t2_tg $end
$var wire 1 r2 t2_may $end
$upscope $end
$enddefinitions $end
#0
$dumpvars
1c
0o
1s
0b
b101000010001 w
1p1
0g1
b101000010001 l1
b1 m1
1i1
1y1
0h1
0r1
0p2
0g2
bz l2
bz m2
1i2
1y2
0h2
0r2
$end
#5
";

/// A sender alone, with the shortest gaps.
const SHORT_GAPS: &[u8] = b"TABLE 1
MODE aperiodic
TI 1000
SG 9
SENDER 1 TG 8
SEND 0A1 1 0 0
";

/// It starts as soon as it may, twice. A stranger sets back its terminal gap, and its synchronization gap stays elapsed.
const TURNING: &[u8] = b"TRACE 1
HORIZON 1010
HOLD 1 2
HOLD 7 1
TX 8 1
WS L0A111
TX 40 7
WS L07110
TX 1008 1
WS L0A111
END
";

const TURNING_TIMERS: &[u8] = b"$version bus629-view 1 $end
$comment REFUSE short-cycle 37 1000 $end
$timescale 100 ns $end
$scope module bus $end
$var wire 1 c carrier $end
$var wire 1 o overlap $end
$var wire 1 s sync $end
$var wire 1 b breach $end
$var wire 16 w word [15:0] $end
$var wire 1 p1 t1_pulse $end
$var wire 1 g1 t1_garbled $end
$var wire 16 l1 t1_label [15:0] $end
$var wire 32 m1 t1_message [31:0] $end
$var wire 1 i1 t1_ti $end
$var wire 1 y1 t1_sg $end
$var wire 1 h1 t1_tg $end
$var wire 1 r1 t1_may $end
$var wire 1 p7 t7_pulse $end
$var wire 1 g7 t7_garbled $end
$var wire 16 l7 t7_label [15:0] $end
$var wire 32 m7 t7_message [31:0] $end
$upscope $end
$enddefinitions $end
#0
$dumpvars
0c
0o
0s
0b
bz w
0p1
0g1
bz l1
bz m1
1i1
1y1
0h1
0r1
0p7
0g7
bz l7
bz m7
$end
#40
1c
1s
b101000010001 w
1p1
b101000010001 l1
b1 m1
1h1
1r1
#45
0i1
0y1
0h1
0r1
#55
0s
#140
0c
bz w
0p1
bz l1
bz m1
#185
1y1
#200
1c
1s
b11100010001 w
1p7
b11100010001 l7
b1 m7
#215
0s
#300
0c
bz w
0p7
bz l7
bz m7
#340
1h1
#5040
1c
1s
b101000010001 w
1p1
b101000010001 l1
b10 m1
1i1
1r1
#5045
0i1
0y1
0h1
0r1
#5050
";

/// Tables, traces, and what their timers tell: a horizon of one bit time, and timers that turn.
const ROWS: [[&[u8]; 3]; 2] = [
    [TABLE, ONE_BIT_TIME, ONE_BIT_TIME_TIMERS],
    [SHORT_GAPS, TURNING, TURNING_TIMERS],
];

#[test]
fn timers_are_dumped_to_the_byte(rt: HostRuntime) -> Result<(), Fail> {
    for [table, trace, timers] in ROWS {
        let text = written(rt.alloc(), Text::Dump(Dump::Timers), table, trace)?;
        assert!(rt; text.as_slice() == timers);
    }
    Ok(())
}
