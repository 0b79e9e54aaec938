//! Recordings of buses with one fault: it is found, with its terminal, its timer and its amount, and nothing is of the others.
use crate::planted::{
    COLLIDING, LETS_PASS, LONG_GAP, PERIODIC, SHORT_GAP, SHORT_INTERVAL, SHORT_SYNC, WRONG_MESSAGES,
};
use crate::recording::{FOUR, FOUR_PERIODIC, finds};
use std::test::Fail;

#[test]
fn a_terminal_gap_that_is_too_short(rt: HostRuntime) -> Result<(), Fail> {
    finds(
        &rt,
        rt.alloc(),
        FOUR,
        &SHORT_GAP,
        (2, 1, 0),
        true,
        b"FINDINGS 1
WITHIN 2 1 0
FAULT 928 3 Early TG 14
FAULT 3379 3 Early TG 13
FAULT 6072 3 Early TG 15
FAULT 8683 3 Early TG 13
TERMINAL 1 4 0 2473 2630
TERMINAL 2 4 0 2529 2635
TERMINAL 3 4 4 2451 2693
TERMINAL 4 3 0 2331 2672
UNJUDGED 983 4
TOTAL 4 0 0 0 0 0 0
END
",
    )
}

#[test]
fn a_terminal_gap_that_is_too_long(rt: HostRuntime) -> Result<(), Fail> {
    finds(
        &rt,
        rt.alloc(),
        FOUR,
        &LONG_GAP,
        (2, 1, 0),
        true,
        b"FINDINGS 1
WITHIN 2 1 0
FAULT 3624 3 Late TG 10
FAULT 6267 3 Late TG 11
FAULT 8690 3 Late TG 10
TERMINAL 1 4 0 2562 2683
TERMINAL 2 4 0 2504 2703
TERMINAL 3 4 3 2423 2643
TERMINAL 4 3 0 2582 2663
UNJUDGED 983 4
TOTAL 0 3 0 0 0 0 0
END
",
    )
}

#[test]
fn a_synchronization_gap_that_is_too_short(rt: HostRuntime) -> Result<(), Fail> {
    finds(
        &rt,
        rt.alloc(),
        FOUR,
        &SHORT_SYNC,
        (2, 1, 0),
        true,
        b"FINDINGS 1
WITHIN 2 1 0
FAULT 2466 2 Early SG 214
FAULT 3569 2 Early TI 896
FAULT 5452 2 Early TI 116
FAULT 5452 2 Early SG 212
FAULT 6598 2 Early TI 853
TERMINAL 1 3 0 3030 3283
TERMINAL 2 5 5 1103 2120
TERMINAL 3 2 0 3204 3204
TERMINAL 4 2 0 3146 3146
UNJUDGED 983 4
TOTAL 5 0 0 0 0 0 0
END
",
    )
}

#[test]
fn a_turn_that_is_let_pass(rt: HostRuntime) -> Result<(), Fail> {
    finds(
        &rt,
        rt.alloc(),
        FOUR,
        &LETS_PASS,
        (2, 1, 0),
        true,
        b"FINDINGS 1
WITHIN 2 1 0
FAULT 8717 1 Passed SG 614 1
TERMINAL 1 5 1 2002 3348
TERMINAL 2 5 0 2384 2966
TERMINAL 3 5 0 2606 2725
TERMINAL 4 4 0 2626 2746
UNJUDGED 983 4
TOTAL 0 0 1 0 0 0 0
END
",
    )
}

#[test]
fn a_word_too_many_and_a_stranger(rt: HostRuntime) -> Result<(), Fail> {
    finds(
        &rt,
        rt.alloc(),
        FOUR,
        &WRONG_MESSAGES,
        (2, 1, 0),
        true,
        b"FINDINGS 1
WITHIN 2 1 0
FAULT 21 1 Misfit
FAULT 2600 9 Stranger
FAULT 3180 1 Misfit
FAULT 5867 1 Misfit
TERMINAL 1 3 3 2687 3159
TERMINAL 2 3 0 2685 3161
TERMINAL 3 3 0 2825 3060
TERMINAL 4 2 0 3141 3141
UNJUDGED 983 4
TOTAL 0 0 0 1 3 0 0
END
",
    )
}

#[test]
fn a_periodic_bus(rt: HostRuntime) -> Result<(), Fail> {
    finds(
        &rt,
        rt.alloc(),
        FOUR_PERIODIC,
        &PERIODIC,
        (2, 1, 0),
        false,
        b"FINDINGS 1
WITHIN 2 1 0
TERMINAL 1 6 0 3999 4001
TERMINAL 2 7 0 3999 4001
TERMINAL 3 7 0 3999 4001
TERMINAL 4 6 0 3999 4001
UNJUDGED 983 4
TOTAL 0 0 0 0 0 0 0
END
",
    )
}

#[test]
fn an_interval_that_is_too_short(rt: HostRuntime) -> Result<(), Fail> {
    finds(
        &rt,
        rt.alloc(),
        FOUR_PERIODIC,
        &SHORT_INTERVAL,
        (2, 1, 0),
        true,
        b"FINDINGS 1
WITHIN 2 1 0
FAULT 5260 3 Early TI 40
FAULT 9220 3 Early TI 39
FAULT 13181 3 Early TI 38
FAULT 17142 3 Early TI 38
FAULT 21101 3 Early TI 40
FAULT 25062 3 Early TI 38
TERMINAL 1 6 0 3999 4001
TERMINAL 2 7 0 3999 4001
TERMINAL 3 7 6 3959 3961
TERMINAL 4 6 0 3999 4001
UNJUDGED 983 4
TOTAL 6 0 0 0 0 0 0
END
",
    )
}

#[test]
fn an_interval_that_is_too_short_for_slow_clocks(rt: HostRuntime) -> Result<(), Fail> {
    finds(
        &rt,
        rt.alloc(),
        FOUR_PERIODIC,
        &SHORT_INTERVAL,
        (2, 1, 200),
        true,
        b"FINDINGS 1
WITHIN 2 1 200
FAULT 5260 3 Early TI 39
FAULT 9220 3 Early TI 38
FAULT 13181 3 Early TI 37
FAULT 17142 3 Early TI 37
FAULT 21101 3 Early TI 39
FAULT 25062 3 Early TI 37
TERMINAL 1 6 0 3999 4001
TERMINAL 2 7 0 3999 4001
TERMINAL 3 7 6 3959 3961
TERMINAL 4 6 0 3999 4001
UNJUDGED 984 4
TOTAL 6 0 0 0 0 0 0
END
",
    )
}

#[test]
fn two_that_overlap(rt: HostRuntime) -> Result<(), Fail> {
    finds(
        &rt,
        rt.alloc(),
        FOUR,
        &COLLIDING,
        (0, 0, 0),
        true,
        b"FINDINGS 1
WITHIN 0 0 0
FAULT 100 2 Early TG 160
NOTE 100 2 Overlap 120
TERMINAL 1 1 0 - -
TERMINAL 2 1 1 - -
TERMINAL 3 1 0 - -
TERMINAL 4 0 0 - -
UNJUDGED 979 3
TOTAL 1 0 0 0 0 2 0
END
",
    )
}
