//! Why a table text wasn't read, and why a table isn't valid.
use bus_text::Reason;
use bus_words::{Ext, Label};
use std::alloc::{AllocError, AllocFailed};
use thiserror::Error;

/// Why a text that is in the grammar gives no table. Where several apply, the first in this order is given.
#[derive(Clone, Copy, Debug, PartialEq, Eq)]
pub enum WholeReason {
    /// There is no sender.
    NoSender,
    /// The number of the first terminal, senders before listeners, whose number an earlier one has.
    NumberTwice(u8),
    /// The first sender whose terminal gap an earlier sender has.
    GapTwice(u8),
    /// The first sender whose terminal gap isn't below the synchronization gap.
    GapNotShort(u8),
    /// The first SEND line whose label and extension an earlier SEND line has.
    PairTwice(Label, Ext),
    /// In periodic mode, the first sender whose offset isn't below the transmit interval.
    OffsetRange(u8),
}

/// Why a table text wasn't read.
#[derive(Debug, Drop, Error)]
pub enum TableError {
    /// The text isn't in the grammar.
    #[error("line {line}: {reason:?}")]
    Text {
        /// The number of the first line, from 1, to which a reason applies, or one past the last line.
        line: u64,
        /// The first reason that applies to that line.
        reason: Reason,
    },
    /// The text is in the grammar, and a whole reason applies: the first.
    #[error("{0:?}")]
    Whole(WholeReason),
    /// There wasn't memory enough.
    #[error("out of memory")]
    Memory,
}

impl From<AllocError> for TableError {
    ghost use Rattle.std.specs.Prelude.{◌≡◌};
    ghost use Rattle.bus_table.specs.declared.error.TableError.TheVariants.{Memory};

    ghost from_gives = { λ _ e. e ≡ Memory };

    fn from(_e: AllocError) -> TableError {
        TableError::Memory
    }
}

impl<T: Drop> From<AllocFailed<T>> for TableError {
    ghost use Rattle.std.specs.Prelude.{◌≡◌};
    ghost use Rattle.bus_table.specs.declared.error.TableError.TheVariants.{Memory};

    ghost from_gives = { λ _ e. e ≡ Memory };

    fn from(_e: AllocFailed<T>) -> TableError {
        TableError::Memory
    }
}
