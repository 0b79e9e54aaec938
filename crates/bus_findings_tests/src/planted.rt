//! Recordings of buses with a fault: a horizon, and of each transmission in turn its moment, its terminal and how many data words it has.
use crate::recording::Recording;

pub(crate) const SHORT_GAP: Recording = Recording {
    horizon: 9043,
    sent: &[
        20, 1, 13, 343, 2, 26, 928, 3, 23, 1491, 4, 41, 2650, 1, 10, 2913, 2, 20, 3379, 3, 17,
        3822, 4, 48, 5123, 1, 18, 5548, 2, 23, 6072, 3, 16, 6494, 4, 43, 7692, 1, 16, 8077, 2, 27,
        8683, 3, 17,
    ],
};

pub(crate) const LONG_GAP: Recording = Recording {
    horizon: 9170,
    sent: &[
        21, 1, 16, 406, 2, 27, 1042, 3, 16, 1465, 4, 45, 2704, 1, 17, 3109, 2, 21, 3624, 3, 16,
        4047, 4, 44, 5266, 1, 17, 5671, 2, 25, 6267, 3, 17, 6710, 4, 40, 7851, 1, 13, 8175, 2, 21,
        8690, 3, 23,
    ],
};

pub(crate) const SHORT_SYNC: Recording = Recording {
    horizon: 7058,
    sent: &[
        21, 1, 13, 346, 2, 27, 965, 3, 19, 1446, 4, 48, 2466, 2, 25, 3304, 1, 10, 3569, 2, 26,
        4169, 3, 16, 4592, 4, 40, 5452, 2, 27, 6334, 1, 10, 6598, 2, 22,
    ],
};

pub(crate) const LETS_PASS: Recording = Recording {
    horizon: 12005,
    sent: &[
        19, 1, 17, 423, 2, 27, 1043, 3, 16, 1465, 4, 45, 2704, 1, 12, 3008, 2, 28, 3649, 3, 23,
        4211, 4, 41, 5369, 1, 15, 5734, 2, 28, 6374, 3, 18, 6837, 4, 46, 8118, 2, 28, 8717, 1, 10,
        8998, 3, 19, 9479, 4, 45, 10719, 1, 15, 11084, 2, 23, 11625, 3, 18,
    ],
};

pub(crate) const WRONG_MESSAGES: Recording = Recording {
    horizon: 7369,
    sent: &[
        21, 1, 19, 464, 2, 26, 1064, 3, 17, 1506, 4, 42, 2600, 9, 12, 3180, 1, 19, 3625, 2, 21,
        4124, 3, 21, 4647, 4, 44, 5867, 1, 19, 6310, 2, 28, 6949, 3, 20,
    ],
};

pub(crate) const PERIODIC: Recording = Recording {
    horizon: 25680,
    sent: &[
        402, 2, 27, 1301, 3, 23, 2202, 4, 48, 3520, 1, 11, 4403, 2, 23, 5300, 3, 23, 6203, 4, 41,
        7521, 1, 18, 8403, 2, 24, 9300, 3, 22, 10203, 4, 48, 11522, 1, 17, 12403, 2, 26, 13301, 3,
        18, 14203, 4, 44, 15521, 1, 15, 16403, 2, 27, 17301, 3, 21, 18202, 4, 43, 19520, 1, 18,
        20402, 2, 23, 21301, 3, 20, 22201, 4, 47, 23520, 1, 16, 24402, 2, 24, 25300, 3, 18,
    ],
};

pub(crate) const SHORT_INTERVAL: Recording = Recording {
    horizon: 25462,
    sent: &[
        402, 2, 24, 1301, 3, 21, 2202, 4, 41, 3520, 1, 13, 4401, 2, 27, 5260, 3, 21, 6202, 4, 40,
        7519, 1, 11, 8400, 2, 22, 9220, 3, 19, 10203, 4, 47, 11518, 1, 14, 12399, 2, 20, 13181, 3,
        23, 14204, 4, 47, 15518, 1, 16, 16398, 2, 26, 17142, 3, 18, 18203, 4, 42, 19519, 1, 12,
        20399, 2, 24, 21101, 3, 16, 22203, 4, 44, 23518, 1, 14, 24399, 2, 22, 25062, 3, 19,
    ],
};

pub(crate) const COLLIDING: Recording = Recording {
    horizon: 1500,
    sent: &[0, 1, 10, 100, 2, 20, 1000, 3, 15],
};

/// Terminal 1 alone: its interval is over at 3000, and it begins 7 later.
pub(crate) const LATE_BY_INTERVAL: Recording = Recording {
    horizon: 3227,
    sent: &[1000, 1, 10, 3007, 1, 10],
};

/// A round without so much quiet as a synchronization gap. It ends at 3440: terminal 1 is due 300 and 20 later, and begins 10 behind that.
pub(crate) const LATE_BY_SYNC: Recording = Recording {
    horizon: 3990,
    sent: &[
        1000, 1, 10, 1260, 2, 28, 1900, 3, 23, 2460, 4, 48, 3770, 1, 10,
    ],
};

/// The interval of terminal 1 is over at 3000, in quiet; it lets terminal 2 begin and end, and begins 900 later.
pub(crate) const PASSED_BY_INTERVAL: Recording = Recording {
    horizon: 4120,
    sent: &[1000, 1, 10, 3100, 2, 20, 3900, 1, 10],
};

/// Terminal 3 is due 60 behind the end of terminal 2 at 4600; it lets terminal 4 begin and end, and begins 60 behind that.
pub(crate) const PASSED_BY_GAP: Recording = Recording {
    horizon: 6200,
    sent: &[
        1000, 1, 10, 1260, 2, 28, 1900, 3, 23, 2460, 4, 48, 3760, 1, 10, 4020, 2, 28, 4680, 4, 48,
        5720, 3, 23,
    ],
};
