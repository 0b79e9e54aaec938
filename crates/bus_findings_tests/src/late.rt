//! Starts that are late, by each timer: on exact clocks without a cable by what was planted; within bounds by so much less as the timers and
//! the way from the monitor and back may take. What is expected is worked by hand, from the moments of the recordings.
use crate::planted::{LATE_BY_INTERVAL, LATE_BY_SYNC, PASSED_BY_GAP, PASSED_BY_INTERVAL};
use crate::recording::{FOUR, finds};
use std::test::Fail;

#[test]
fn a_start_that_is_late_by_its_interval(rt: HostRuntime) -> Result<(), Fail> {
    finds(
        &rt,
        rt.alloc(),
        FOUR,
        &LATE_BY_INTERVAL,
        (0, 0, 0),
        true,
        b"FINDINGS 1
WITHIN 0 0 0
FAULT 3007 1 Late TI 7
TERMINAL 1 2 1 2007 2007
TERMINAL 2 0 0 - -
TERMINAL 3 0 0 - -
TERMINAL 4 0 0 - -
UNJUDGED 979 1
TOTAL 0 1 0 0 0 0 0
END
",
    )
}

#[test]
fn a_start_that_is_late_by_its_interval_within_bounds(rt: HostRuntime) -> Result<(), Fail> {
    finds(
        &rt,
        rt.alloc(),
        FOUR,
        &LATE_BY_INTERVAL,
        (2, 1, 0),
        true,
        b"FINDINGS 1
WITHIN 2 1 0
FAULT 3007 1 Late TI 6
TERMINAL 1 2 1 2007 2007
TERMINAL 2 0 0 - -
TERMINAL 3 0 0 - -
TERMINAL 4 0 0 - -
UNJUDGED 983 1
TOTAL 0 1 0 0 0 0 0
END
",
    )
}

#[test]
fn a_start_that_is_late_by_its_synchronization_gap(rt: HostRuntime) -> Result<(), Fail> {
    finds(
        &rt,
        rt.alloc(),
        FOUR,
        &LATE_BY_SYNC,
        (0, 0, 0),
        true,
        b"FINDINGS 1
WITHIN 0 0 0
FAULT 3770 1 Late SG 10
TERMINAL 1 2 1 2770 2770
TERMINAL 2 1 0 - -
TERMINAL 3 1 0 - -
TERMINAL 4 1 0 - -
UNJUDGED 979 4
TOTAL 0 1 0 0 0 0 0
END
",
    )
}

#[test]
fn a_start_that_is_late_by_its_synchronization_gap_within_bounds(
    rt: HostRuntime,
) -> Result<(), Fail> {
    finds(
        &rt,
        rt.alloc(),
        FOUR,
        &LATE_BY_SYNC,
        (2, 1, 0),
        true,
        b"FINDINGS 1
WITHIN 2 1 0
FAULT 3770 1 Late SG 4
TERMINAL 1 2 1 2770 2770
TERMINAL 2 1 0 - -
TERMINAL 3 1 0 - -
TERMINAL 4 1 0 - -
UNJUDGED 983 4
TOTAL 0 1 0 0 0 0 0
END
",
    )
}

#[test]
fn a_turn_that_is_let_pass_when_the_interval_is_over(rt: HostRuntime) -> Result<(), Fail> {
    finds(
        &rt,
        rt.alloc(),
        FOUR,
        &PASSED_BY_INTERVAL,
        (0, 0, 0),
        true,
        b"FINDINGS 1
WITHIN 0 0 0
FAULT 3900 1 Passed TI 900 1
TERMINAL 1 2 1 2900 2900
TERMINAL 2 1 0 - -
TERMINAL 3 0 0 - -
TERMINAL 4 0 0 - -
UNJUDGED 979 2
TOTAL 0 0 1 0 0 0 0
END
",
    )
}

#[test]
fn a_turn_that_is_let_pass_when_the_interval_is_over_within_bounds(
    rt: HostRuntime,
) -> Result<(), Fail> {
    finds(
        &rt,
        rt.alloc(),
        FOUR,
        &PASSED_BY_INTERVAL,
        (2, 1, 0),
        true,
        b"FINDINGS 1
WITHIN 2 1 0
FAULT 3900 1 Passed TI 899 1
TERMINAL 1 2 1 2900 2900
TERMINAL 2 1 0 - -
TERMINAL 3 0 0 - -
TERMINAL 4 0 0 - -
UNJUDGED 983 2
TOTAL 0 0 1 0 0 0 0
END
",
    )
}

#[test]
fn a_turn_that_is_let_pass_behind_a_terminal_gap(rt: HostRuntime) -> Result<(), Fail> {
    finds(
        &rt,
        rt.alloc(),
        FOUR,
        &PASSED_BY_GAP,
        (0, 0, 0),
        true,
        b"FINDINGS 1
WITHIN 0 0 0
FAULT 5720 3 Passed TG 1060 1
TERMINAL 1 2 0 2760 2760
TERMINAL 2 2 0 2760 2760
TERMINAL 3 2 1 3820 3820
TERMINAL 4 2 0 2220 2220
UNJUDGED 979 4
TOTAL 0 0 1 0 0 0 0
END
",
    )
}

#[test]
fn a_turn_that_is_let_pass_behind_a_terminal_gap_within_bounds(
    rt: HostRuntime,
) -> Result<(), Fail> {
    finds(
        &rt,
        rt.alloc(),
        FOUR,
        &PASSED_BY_GAP,
        (2, 1, 0),
        true,
        b"FINDINGS 1
WITHIN 2 1 0
FAULT 5720 3 Passed TG 1055 1
TERMINAL 1 2 0 2760 2760
TERMINAL 2 2 0 2760 2760
TERMINAL 3 2 1 3820 3820
TERMINAL 4 2 0 2220 2220
UNJUDGED 983 4
TOTAL 0 0 1 0 0 0 0
END
",
    )
}
