//! Tables, messages and cables, and the starts that come of them.
use crate::periodic_reach::{BY_SEVERAL, BY_SYNC};
use crate::shared::TWO_ROUNDS;
use bus_strings::limits::HORIZON_LIMIT;

/// A table and messages, the places and the wakes of terminals 1, 2 .., and up to the horizon these starts.
#[derive(Drop)]
pub(crate) struct Row {
    pub(crate) table: &'static [u8],
    pub(crate) messages: &'static [u8],
    pub(crate) places: &'static [u64],
    pub(crate) wakes: &'static [u64],
    pub(crate) horizon: u64,
    pub(crate) starts: &'static [(u64, u8)],
}

const TWO_SENDERS: &[u8] = b"TABLE 1
MODE aperiodic
TI 1000
SG 300
SENDER 1 TG 20
SEND 0A1 1 2 4
SENDER 2 TG 30
SEND 0B2 1 1 40
";

const LATE_SENDERS: &[u8] = b"TABLE 1
MODE aperiodic
TI 1000
SG 1000
SENDER 1 TG 20
SEND 0A1 1 2 2
SENDER 2 TG 30
SEND 0B2 1 0 2
";

const THREE_ROUNDS: &[u8] = b"MESSAGES 1
MSG 1 : 0000 0000
MSG 2 : 0000
MSG 1 : 0000 0000
MSG 2 : 0000
MSG 1 : 0000 0000
MSG 2 : 0000
";

/// In periodic mode a delay is borne as long as each is ready by its offset.
const WITH_OFFSETS: &[u8] = b"TABLE 1
MODE periodic
TI 2000
SG 300
SENDER 1 TG 20 AT 0
SEND 0A1 1 2 2
SENDER 2 TG 30 AT 94
SEND 0B2 1 30 30
";

/// Terminal gaps that differ by 10.
const THREE_SENDERS: &[u8] = b"TABLE 1
MODE aperiodic
TI 1000
SG 300
SENDER 1 TG 10
SEND 001 0 20 20
SENDER 2 TG 20
SEND 002 0 20 20
SENDER 3 TG 30
SEND 003 0 20 20
";

const LONG_ROUND: &[u8] = b"MESSAGES 1
MSG 1 : 0000 0000 0000 0000 0000 0000 0000 0000 0000 0000 0000 0000 0000 0000 0000 0000 0000 0000 0000 0000
MSG 2 : 0000 0000 0000 0000 0000 0000 0000 0000 0000 0000 0000 0000 0000 0000 0000 0000 0000 0000 0000 0000
MSG 3 : 0000 0000 0000 0000 0000 0000 0000 0000 0000 0000 0000 0000 0000 0000 0000 0000 0000 0000 0000 0000
";

const FOUR_AND_ONE: &[u8] = b"MESSAGES 1
MSG 1 : 0000 0000 0000 0000 0000 0000 0000 0000
MSG 2 : 0000 0000 0000 0000 0000 0000 0000 0000
MSG 3 : 0000 0000 0000 0000 0000 0000 0000 0000
MSG 4 : 0000 0000 0000 0000 0000 0000 0000 0000
MSG 1 : 0000 0000 0000 0000 0000 0000 0000 0000
";

pub(crate) const ROWS: [Row; 17] = [
    // The turn is kept where the delay is borne, and both start at once, again and again, where it isn't.
    Row {
        table: TWO_SENDERS,
        messages: TWO_ROUNDS,
        places: &[0, 4],
        wakes: &[],
        horizon: 3000,
        starts: &[(20, 1), (114, 2), (1058, 1), (1152, 2)],
    },
    Row {
        table: TWO_SENDERS,
        messages: TWO_ROUNDS,
        places: &[0, 4],
        wakes: &[4, 0],
        horizon: 3000,
        starts: &[(24, 1), (118, 2), (1062, 1), (1156, 2)],
    },
    Row {
        table: TWO_SENDERS,
        messages: TWO_ROUNDS,
        places: &[0, 5],
        wakes: &[5, 0],
        horizon: 3000,
        starts: &[(25, 1), (30, 2), (1025, 1), (1030, 2)],
    },
    Row {
        table: TWO_SENDERS,
        messages: TWO_ROUNDS,
        places: &[0, 4],
        wakes: &[],
        horizon: 1058,
        starts: &[(20, 1), (114, 2)],
    },
    // The greatest horizon: a run bit time for bit time would not end.
    Row {
        table: TWO_SENDERS,
        messages: TWO_ROUNDS,
        places: &[],
        wakes: &[],
        horizon: HORIZON_LIMIT,
        starts: &[(20, 1), (110, 2), (1050, 1), (1140, 2)],
    },
    // Who wakes late, between two messages, begins before the other, with it, or behind it.
    Row {
        table: LATE_SENDERS,
        messages: THREE_ROUNDS,
        places: &[],
        wakes: &[1079],
        horizon: 2300,
        starts: &[(30, 2), (1099, 1), (1189, 2), (2249, 1)],
    },
    Row {
        table: LATE_SENDERS,
        messages: THREE_ROUNDS,
        places: &[],
        wakes: &[1080],
        horizon: 2300,
        starts: &[(30, 2), (1100, 1), (1100, 2), (2180, 1), (2270, 2)],
    },
    Row {
        table: LATE_SENDERS,
        messages: THREE_ROUNDS,
        places: &[],
        wakes: &[1081],
        horizon: 2250,
        starts: &[(30, 2), (1100, 2), (1160, 1), (2240, 1)],
    },
    // Who wakes late, with a message or in the middle of it, takes its turn in the first round that it hears begin.
    Row {
        table: LATE_SENDERS,
        messages: THREE_ROUNDS,
        places: &[],
        wakes: &[0, 1100],
        horizon: 2200,
        starts: &[(20, 1), (1100, 1), (1190, 2)],
    },
    Row {
        table: LATE_SENDERS,
        messages: THREE_ROUNDS,
        places: &[],
        wakes: &[0, 1101],
        horizon: 2300,
        starts: &[(20, 1), (1100, 1), (2180, 1), (2270, 2)],
    },
    // Both cold: they begin at once, and then never again.
    Row {
        table: LATE_SENDERS,
        messages: THREE_ROUNDS,
        places: &[],
        wakes: &[1010, 1000],
        horizon: 2300,
        starts: &[(1030, 1), (1030, 2), (2110, 1), (2200, 2)],
    },
    // Offsets are kept, also on the bus.
    Row {
        table: WITH_OFFSETS,
        messages: TWO_ROUNDS,
        places: &[0, 4],
        wakes: &[],
        horizon: 3000,
        starts: &[(0, 1), (94, 2), (2000, 1), (2094, 2)],
    },
    Row {
        table: WITH_OFFSETS,
        messages: TWO_ROUNDS,
        places: &[0, 5],
        wakes: &[],
        horizon: 3000,
        starts: &[(0, 1), (95, 2), (2000, 1), (2095, 2)],
    },
    Row {
        table: WITH_OFFSETS,
        messages: TWO_ROUNDS,
        places: &[],
        wakes: &[],
        horizon: 3000,
        starts: &[(0, 1), (94, 2), (2000, 1), (2094, 2)],
    },
    // With one bit time more than the table bears the first sender is late by what it waits for a synchronization gap: it heard none in its
    // interval. Every other is ready by its offset.
    Row {
        table: BY_SYNC,
        messages: FOUR_AND_ONE,
        places: &[0, 5, 0, 5],
        wakes: &[],
        horizon: 1445,
        starts: &[(0, 1), (215, 2), (699, 3), (939, 4), (1444, 1)],
    },
    Row {
        table: BY_SEVERAL,
        messages: FOUR_AND_ONE,
        places: &[0, 4, 2, 0],
        wakes: &[],
        horizon: 1683,
        starts: &[(0, 1), (220, 2), (701, 3), (1182, 4), (1682, 1)],
    },
    // Terminal gaps that differ by twice the delay: what the second sends reaches the third just when the third begins.
    Row {
        table: THREE_SENDERS,
        messages: LONG_ROUND,
        places: &[0, 5, 0],
        wakes: &[],
        horizon: 1000,
        starts: &[(10, 1), (455, 2), (460, 3)],
    },
];
