//! Recordings of buses that keep their bounds: nothing is found, unless the bounds that are given are too narrow.
use crate::recording::{FOUR, ends, finds};
use crate::rows::{CABLE, JITTER, LATE_POWER, MIDDLE, MIDSTREAM, NEVER, REAL, SILENT, WHOLE};
use std::test::Fail;

#[test]
fn a_whole_recording_without_a_cable(rt: HostRuntime) -> Result<(), Fail> {
    finds(
        &rt,
        rt.alloc(),
        FOUR,
        &WHOLE,
        (0, 0, 0),
        false,
        b"FINDINGS 1
WITHIN 0 0 0
TERMINAL 1 23 0 2440 2820
TERMINAL 2 23 0 2440 2780
TERMINAL 3 23 0 2400 2780
TERMINAL 4 23 0 2380 2820
UNJUDGED 979 4
TOTAL 0 0 0 0 0 0 0
END
",
    )
}

#[test]
fn a_recording_from_the_middle_of_a_message_on(rt: HostRuntime) -> Result<(), Fail> {
    finds(
        &rt,
        rt.alloc(),
        FOUR,
        &MIDSTREAM,
        (0, 0, 0),
        false,
        b"FINDINGS 1
WITHIN 0 0 0
TERMINAL 1 17 0 2520 2780
TERMINAL 2 18 0 2440 2780
TERMINAL 3 18 0 2560 2780
TERMINAL 4 18 0 2440 2820
UNJUDGED 979 4
TOTAL 0 0 0 0 0 0 0
END
",
    )
}

#[test]
fn a_recording_on_a_cable(rt: HostRuntime) -> Result<(), Fail> {
    finds(
        &rt,
        rt.alloc(),
        FOUR,
        &CABLE,
        (2, 0, 0),
        false,
        b"FINDINGS 1
WITHIN 2 0 0
TERMINAL 1 23 0 2446 2826
TERMINAL 2 23 0 2446 2786
TERMINAL 3 23 0 2406 2786
TERMINAL 4 23 0 2386 2826
UNJUDGED 983 4
TOTAL 0 0 0 0 0 0 0
END
",
    )
}

#[test]
fn a_delay_that_is_one_too_small(rt: HostRuntime) -> Result<(), Fail> {
    ends(
        &rt,
        rt.alloc(),
        FOUR,
        &CABLE,
        (1, 0, 0),
        true,
        b"TERMINAL 1 23 0 2446 2826
TERMINAL 2 23 22 2446 2786
TERMINAL 3 23 0 2406 2786
TERMINAL 4 23 0 2386 2826
UNJUDGED 981 4
TOTAL 0 22 0 0 0 0 0
END
",
    )
}

#[test]
fn a_monitor_in_the_middle_halves_the_delay(rt: HostRuntime) -> Result<(), Fail> {
    finds(
        &rt,
        rt.alloc(),
        FOUR,
        &MIDDLE,
        (1, 0, 0),
        false,
        b"FINDINGS 1
WITHIN 1 0 0
TERMINAL 1 23 0 2446 2826
TERMINAL 2 23 0 2446 2786
TERMINAL 3 23 0 2406 2786
TERMINAL 4 23 0 2386 2826
UNJUDGED 981 4
TOTAL 0 0 0 0 0 0 0
END
",
    )
}

#[test]
fn timers_that_are_off_by_one(rt: HostRuntime) -> Result<(), Fail> {
    finds(
        &rt,
        rt.alloc(),
        FOUR,
        &JITTER,
        (0, 1, 0),
        false,
        b"FINDINGS 1
WITHIN 0 1 0
TERMINAL 1 23 0 2383 2882
TERMINAL 2 23 0 2424 2740
TERMINAL 3 23 0 2382 2821
TERMINAL 4 23 0 2403 2841
UNJUDGED 979 4
TOTAL 0 0 0 0 0 0 0
END
",
    )
}

#[test]
fn timers_that_may_not_be_off(rt: HostRuntime) -> Result<(), Fail> {
    ends(
        &rt,
        rt.alloc(),
        FOUR,
        &JITTER,
        (0, 0, 0),
        true,
        b"TERMINAL 1 23 16 2383 2882
TERMINAL 2 23 15 2424 2740
TERMINAL 3 23 16 2382 2821
TERMINAL 4 23 17 2403 2841
UNJUDGED 979 4
TOTAL 26 38 0 0 0 0 0
END
",
    )
}

#[test]
fn cable_and_jitter_in_midstream(rt: HostRuntime) -> Result<(), Fail> {
    finds(
        &rt,
        rt.alloc(),
        FOUR,
        &REAL,
        (2, 1, 0),
        false,
        b"FINDINGS 1
WITHIN 2 1 0
TERMINAL 1 18 0 2326 2748
TERMINAL 2 18 0 2425 2748
TERMINAL 3 18 0 2304 2887
TERMINAL 4 18 0 2346 2744
UNJUDGED 983 4
TOTAL 0 0 0 0 0 0 0
END
",
    )
}

#[test]
fn a_cable_without_jitter(rt: HostRuntime) -> Result<(), Fail> {
    ends(
        &rt,
        rt.alloc(),
        FOUR,
        &REAL,
        (2, 0, 0),
        true,
        b"TERMINAL 1 18 4 2326 2748
TERMINAL 2 18 7 2425 2748
TERMINAL 3 18 4 2304 2887
TERMINAL 4 18 0 2346 2744
UNJUDGED 983 4
TOTAL 8 7 0 0 0 0 0
END
",
    )
}

#[test]
fn jitter_without_a_cable(rt: HostRuntime) -> Result<(), Fail> {
    ends(
        &rt,
        rt.alloc(),
        FOUR,
        &REAL,
        (0, 1, 0),
        true,
        b"TERMINAL 1 18 0 2326 2748
TERMINAL 2 18 17 2425 2748
TERMINAL 3 18 0 2304 2887
TERMINAL 4 18 9 2346 2744
UNJUDGED 979 4
TOTAL 0 26 0 0 0 0 0
END
",
    )
}

#[test]
fn one_terminal_is_powered_up_late(rt: HostRuntime) -> Result<(), Fail> {
    finds(
        &rt,
        rt.alloc(),
        FOUR,
        &LATE_POWER,
        (0, 0, 0),
        false,
        b"FINDINGS 1
WITHIN 0 0 0
TERMINAL 1 26 0 2020 2720
TERMINAL 2 26 0 2000 2820
TERMINAL 3 11 0 2520 2780
TERMINAL 4 25 0 2000 2780
UNJUDGED 979 4
TOTAL 0 0 0 0 0 0 0
END
",
    )
}

#[test]
fn one_terminal_never_speaks(rt: HostRuntime) -> Result<(), Fail> {
    finds(
        &rt,
        rt.alloc(),
        FOUR,
        &NEVER,
        (0, 0, 0),
        false,
        b"FINDINGS 1
WITHIN 0 0 0
TERMINAL 1 30 0 2000 2000
TERMINAL 2 30 0 2000 2100
TERMINAL 3 30 0 2000 2120
TERMINAL 4 0 0 - -
UNJUDGED 979 3
TOTAL 0 0 0 0 0 0 0
END
",
    )
}

#[test]
fn one_terminal_falls_silent(rt: HostRuntime) -> Result<(), Fail> {
    finds(
        &rt,
        rt.alloc(),
        FOUR,
        &SILENT,
        (2, 1, 0),
        false,
        b"FINDINGS 1
WITHIN 2 1 0
NOTE 13737 2 Silent TG 45963
TERMINAL 1 28 0 1999 2888
TERMINAL 2 5 0 2705 2729
TERMINAL 3 28 0 1999 2827
TERMINAL 4 27 0 1999 2847
UNJUDGED 983 4
TOTAL 0 0 0 0 0 0 1
END
",
    )
}
