//! A picture of what was recorded on a cable: the heard text behind the trace comes in pieces, or its source fails.
use crate::calls::{TABLE, run_pulled, shows};
use bus_command::Status;
use std::test::Fail;

/// What `cable` wrote of [`TABLE`], its second terminal 100 and its third 40 bit times from the first, which wakes 65 late.
const SENT: &str = "TRACE 2
HORIZON 250
HOLD 1 1
HOLD 2 1
TX 30 2
WS L0B210 D0FF10
TE 70 -
TX 85 1
WS L0A111 D00010 D00100
TE 145 -
END
";

/// What its terminals hear: nothing overlaps as it is sent, and three receptions do.
const HEARD: &str = "HEARD 1
TERMINAL 1
HT 130 2 C
TERMINAL 2
HT 185 1 -
TERMINAL 3
HT 90 2 C
HT 125 1 C
END
";

/// What the heading says of that, and in the title.
const TOLD: &str = "recorded on a cable, 3 receptions garbled at terminals: see diagnose";

/// However the texts are cut into pieces the answer is the same; and where a pull behind the trace fails, the source couldn't be read. A
/// dump makes none there.
#[test]
fn a_pull_behind_the_trace_may_fail(rt: HostRuntime) -> Result<(), Fail> {
    let text = format!(in rt.alloc(); "{SENT}{HEARD}")?;
    for piece in [1, 2, 7, 13, 40] {
        let ran = run_pulled(&rt, &["svg", "T", "R"], TABLE, text.as_str(), piece, &[])?;
        assert!(rt; shows(&ran, TOLD));
    }
    let lines = text.as_str().lines().count() as u64;
    for pull in [11, 12, lines.saturating_sub(1)] {
        let ran = run_pulled(&rt, &["svg", "T", "R"], TABLE, text.as_str(), 4096, &[pull])?;
        assert!(rt; ran.status == Status::ReadFault);
        assert!(rt; ran.out.bytes().is_empty());
        assert_eq!(rt; ran.err.bytes(), b"ERROR 5 read 2\n".as_slice());
        let ran = run_pulled(&rt, &["vcd", "T", "R"], TABLE, text.as_str(), 4096, &[pull])?;
        assert!(rt; ran.status == Status::Done);
    }
    let ran = run_pulled(
        &rt,
        &["svg", "T", "R"],
        TABLE,
        text.as_str(),
        4096,
        &[lines],
    )?;
    assert!(rt; shows(&ran, TOLD));
    Ok(())
}
