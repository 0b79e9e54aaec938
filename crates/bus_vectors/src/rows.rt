//! The stored rows of a drill.
ghost use Rattle.std.specs.Prelude.{◌≡◌, is_some};
ghost use Rattle.std.specs.Option.{option_map};
ghost use Rattle.bus_vectors.specs.Rows as rows;
ghost use Rattle.bus_vectors.specs.Rows.{is_row, row_in, row_of};

use crate::texts;

/// A command, its texts, and all that comes of it.
#[derive(Clone, Copy, Debug)]
pub struct StoredRow {
    /// The words, with the letters `T` and `M` for the names of the files.
    pub words: &'static [&'static str],
    /// The first file.
    pub first: &'static [u8],
    /// The second file; empty where the command names none.
    pub second: &'static [u8],
    /// What stands on standard output.
    pub out: &'static [u8],
    /// What stands on standard error.
    pub err: &'static [u8],
    /// The status.
    pub status: u8,
}

/// A row of `check`, which has one line on standard output.
const fn checked(first: &'static [u8], out: &'static [u8], status: u8) -> StoredRow
    ensures { row_in result ≡ rows.checked first.now out.now status }
{
    StoredRow {
        words: &["check", "T"],
        first,
        second: b"",
        out,
        err: b"",
        status,
    }
}

/// A row of `run` of the receivers.
const fn ran(second: &'static [u8], out: &'static [u8]) -> StoredRow
    ensures { row_in result ≡ rows.ran second.now out.now }
{
    StoredRow {
        words: &["run", "T", "M"],
        first: texts::RECEIVERS,
        second,
        out,
        err: b"",
        status: 0,
    }
}

/// A table that is wrong as a whole.
const WRONG: StoredRow = StoredRow {
    words: &["check", "T"],
    first: texts::SHORT_GAP,
    second: b"",
    out: b"",
    err: b"ERROR 3 table GapNotShort 2\n",
    status: 3,
};

/// A report.
const REPORTED: StoredRow = StoredRow {
    words: &["report", "T"],
    first: texts::TWO_SENDERS,
    second: b"",
    out: texts::REPORT,
    err: b"",
    status: 0,
};

/// The stored row of this number; None exactly where it is none of 1, 4, 7, 10, 11, 13, 16 and 28. It takes no memory.
pub fn row(k: u32) -> Option<StoredRow>
    ensures is { option_map row_in result ≡ row_of k }
    ensures some { is_some result ≡ is_row k }
{
    match k {
        1 => Some(checked(texts::TWO_SENDERS, b"ACCEPT aperiodic 1030 1270\n", 0)),
        4 => Some(WRONG),
        7 => Some(ran(texts::NO_MESSAGES, texts::SILENT_RUN)),
        10 => Some(checked(texts::TWO_OFFSETS, b"ACCEPT periodic 2000 2000\n", 0)),
        11 => Some(checked(texts::SMALL_GAP, b"REFUSE small-gap 2 29 30\n", 1)),
        13 => Some(checked(texts::NO_SYNC, b"REFUSE no-sync 1 319 320\n", 1)),
        16 => Some(ran(texts::ONE_EACH, texts::RUN)),
        28 => Some(REPORTED),
        _ => None,
    }
}
