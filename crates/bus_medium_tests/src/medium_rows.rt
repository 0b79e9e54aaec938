//! Tables, messages and the starts that come of them.
use crate::shared::TWO_ROUNDS;
use bus_strings::limits::HORIZON_LIMIT;

/// A table and messages of its senders: which starts they have before the horizon, and how many moves of a core are enough by jumps.
#[derive(Drop)]
pub(crate) struct Row {
    pub(crate) table: &'static [u8],
    pub(crate) messages: &'static [u8],
    pub(crate) horizon: u64,
    pub(crate) starts: &'static [(u64, u8)],
    pub(crate) moves: u64,
}

/// Two senders with terminal gaps 20 and 30, of one wordstring each.
const TWO_SENDERS: &[u8] = b"TABLE 1
MODE aperiodic
TI 1000
SG 300
SENDER 1 TG 20
SEND 008 1 2 4
SENDER 2 TG 30
SEND 010 1 1 40
";

/// The same with a long synchronization gap.
const LONG_GAP: &[u8] = b"TABLE 1
MODE aperiodic
TI 1000
SG 1000
SENDER 1 TG 20
SEND 008 1 2 4
SENDER 2 TG 30
SEND 010 1 1 40
";

/// The same with a transmit interval that is longer than the cycle of gaps and messages: it decides about the second round.
const LONG_INTERVAL: &[u8] = b"TABLE 1
MODE aperiodic
TI 1031
SG 300
SENDER 1 TG 20
SEND 008 1 2 4
SENDER 2 TG 30
SEND 010 1 1 40
";

/// The first sends two wordstrings: bit times 48 to 51 are quiet inside its message, and nobody starts there.
const INNER_QUIET: &[u8] = b"TABLE 1
MODE aperiodic
TI 1000
SG 500
SENDER 1 TG 8
SEND 008 1 1 1
SEND 009 1 2 2
SENDER 2 TG 9
SEND 010 1 20 20
";

/// The two in periodic mode: starts recur every interval.
const APART: &[u8] = b"TABLE 1
MODE periodic
TI 2000
SG 300
SENDER 1 TG 20 AT 0
SEND 008 1 2 2
SENDER 2 TG 30 AT 90
SEND 010 1 30 30
";

/// With one offset two begin at once, whichever ends first.
const AT_ONCE: &[u8] = b"TABLE 1
MODE periodic
TI 2000
SG 300
SENDER 1 TG 20 AT 0
SEND 008 1 2 2
SENDER 2 TG 30 AT 0
SEND 010 1 30 30
";

/// The table lists its senders in any order; the list goes by number.
const BY_NUMBER: &[u8] = b"TABLE 1
MODE periodic
TI 1000
SG 300
SENDER 9 TG 30 AT 0
SEND 048 1 30 30
SENDER 128 TG 40 AT 0
SEND 400 1 1 1
SEND 401 1 1 1
SENDER 4 TG 20 AT 0
SEND 020 1 1 1
SEND 021 1 1 1
";

/// Offsets that collide, gaps that differ, messages of several wordstrings.
const COLLIDING: &[u8] = b"TABLE 1
MODE periodic
TI 1000
SG 60
SENDER 3 TG 25 AT 10
SEND 018 1 1 1
SEND 019 1 0 0
SENDER 1 TG 40 AT 31
SEND 008 1 3 3
SENDER 2 TG 9 AT 95
SEND 010 1 0 0
SEND 011 1 1 1
SEND 012 1 0 0
";

/// Longer messages of the first round delay the second.
const LONGER_FIRST: &[u8] = b"MESSAGES 1
MSG 1 : 0000 0000 0000 0000
MSG 2 : 0000 0000 0000 0000 0000 0000 0000 0000 0000 0000 0000 0000 0000 0000 0000 0000 0000 0000 \
0000 0000 0000 0000 0000 0000 0000 0000 0000 0000 0000 0000 0000 0000 0000 0000 0000 0000 0000 0000 0000 0000
MSG 1 : 0000 0000
MSG 2 : 0000 0000 0000 0000 0000 0000 0000 0000 0000 0000 0000 0000 0000 0000 0000 0000 0000 0000 \
0000 0000 0000 0000 0000 0000 0000 0000 0000 0000 0000 0000
";

/// Each has sent its last message long before the horizon.
const ONE_EACH: &[u8] = b"MESSAGES 1
MSG 1 : 0000 0000
MSG 2 : 0000
";

/// And the first one more.
const ONE_MORE: &[u8] = b"MESSAGES 1
MSG 1 : 0000 0000
MSG 2 : 0000
MSG 1 : 0000 0000
";

/// A message of two wordstrings, and one of one.
const TWO_STRINGS: &[u8] = b"MESSAGES 1
MSG 1 : 0000 : 0000 0000
MSG 2 : 0000 0000 0000 0000 0000 0000 0000 0000 0000 0000 0000 0000 0000 0000 0000 0000 0000 0000 0000 0000
";

/// Of three messages that begin at once, two end at once too, and so do their wordstrings.
const THREE_AT_ONCE: &[u8] = b"MESSAGES 1
MSG 9 : 0000 0000 0000 0000 0000 0000 0000 0000 0000 0000 0000 0000 0000 0000 0000 0000 0000 0000 \
0000 0000 0000 0000 0000 0000 0000 0000 0000 0000 0000 0000
MSG 4 : 0000 : 0000
MSG 128 : 0000 : 0000
MSG 4 : 0000 : 0000
";

/// Two rounds of three senders, and one message more.
const TWO_ROUNDS_AND_ONE: &[u8] = b"MESSAGES 1
MSG 1 : 0000 0000 0000
MSG 2 : : 0000 :
MSG 3 : 0000 :
MSG 1 : 0000 0000 0000
MSG 2 : : 0000 :
MSG 3 : 0000 :
MSG 3 : 0000 :
";

pub(crate) const ROWS: [Row; 18] = [
    Row {
        table: TWO_SENDERS,
        messages: TWO_ROUNDS,
        horizon: 1760,
        starts: &[(20, 1), (110, 2), (1050, 1), (1140, 2)],
        moves: 9,
    },
    // The horizon itself has no start: it lies at the settled start, where a message ends, inside a message, and at the start of another.
    Row {
        table: TWO_SENDERS,
        messages: TWO_ROUNDS,
        horizon: 0,
        starts: &[],
        moves: 1,
    },
    Row {
        table: TWO_SENDERS,
        messages: TWO_ROUNDS,
        horizon: 80,
        starts: &[(20, 1)],
        moves: 2,
    },
    Row {
        table: TWO_SENDERS,
        messages: TWO_ROUNDS,
        horizon: 60,
        starts: &[(20, 1)],
        moves: 2,
    },
    Row {
        table: TWO_SENDERS,
        messages: TWO_ROUNDS,
        horizon: 110,
        starts: &[(20, 1)],
        moves: 3,
    },
    Row {
        table: TWO_SENDERS,
        messages: TWO_ROUNDS,
        horizon: 111,
        starts: &[(20, 1), (110, 2)],
        moves: 4,
    },
    Row {
        table: TWO_SENDERS,
        messages: LONGER_FIRST,
        horizon: 2000,
        starts: &[(20, 1), (150, 2), (1290, 1), (1380, 2)],
        moves: 9,
    },
    // The last message runs to just the horizon.
    Row {
        table: LONG_GAP,
        messages: ONE_EACH,
        horizon: 150,
        starts: &[(20, 1), (110, 2)],
        moves: 5,
    },
    Row {
        table: LONG_GAP,
        messages: ONE_MORE,
        horizon: 3000,
        starts: &[(20, 1), (110, 2), (1170, 1)],
        moves: 7,
    },
    Row {
        table: LONG_INTERVAL,
        messages: TWO_ROUNDS,
        horizon: 2000,
        starts: &[(20, 1), (110, 2), (1051, 1), (1141, 2)],
        moves: 9,
    },
    Row {
        table: INNER_QUIET,
        messages: TWO_STRINGS,
        horizon: 541,
        starts: &[(8, 1), (121, 2)],
        moves: 6,
    },
    // The horizon lies at both ends of that quiet, and inside it.
    Row {
        table: INNER_QUIET,
        messages: TWO_STRINGS,
        horizon: 48,
        starts: &[(8, 1)],
        moves: 2,
    },
    Row {
        table: INNER_QUIET,
        messages: TWO_STRINGS,
        horizon: 50,
        starts: &[(8, 1)],
        moves: 3,
    },
    Row {
        table: INNER_QUIET,
        messages: TWO_STRINGS,
        horizon: 52,
        starts: &[(8, 1)],
        moves: 3,
    },
    Row {
        table: APART,
        messages: TWO_ROUNDS,
        horizon: 2710,
        starts: &[(0, 1), (90, 2), (2000, 1), (2090, 2)],
        moves: 9,
    },
    Row {
        table: AT_ONCE,
        messages: TWO_ROUNDS,
        horizon: 2001,
        starts: &[(0, 1), (0, 2), (2000, 1), (2000, 2)],
        moves: 9,
    },
    // Each sender keeps its own hand.
    Row {
        table: BY_NUMBER,
        messages: THREE_AT_ONCE,
        horizon: 1800,
        starts: &[(0, 4), (0, 9), (0, 128), (1000, 4)],
        moves: 9,
    },
    Row {
        table: COLLIDING,
        messages: TWO_ROUNDS_AND_ONE,
        horizon: 3600,
        starts: &[
            (10, 3),
            (95, 2),
            (223, 1),
            (1010, 3),
            (1095, 2),
            (1223, 1),
            (2010, 3),
        ],
        moves: 29,
    },
];

/// A run bit time for bit time would not end here. By jumps a core takes just so many moves.
pub(crate) const DAYS: Row = Row {
    table: TWO_SENDERS,
    messages: TWO_ROUNDS,
    horizon: HORIZON_LIMIT,
    starts: &[(20, 1), (110, 2), (1050, 1), (1140, 2)],
    moves: 3,
};
