//! Why a messages text gives the senders of a table no hands.
use bus_strings::MessagesError;
use bus_table::FitError;
use bus_text::Reason;
use std::alloc::{AllocError, AllocFailed};
use thiserror::Error;

/// Why a messages text gives the senders of a table no hands.
#[derive(Clone, Copy, Debug, PartialEq, Eq, Error)]
pub enum HandsError {
    /// The text isn't in the grammar.
    #[error("line {line}: {reason:?}")]
    Text {
        /// The number of the first line, from 1, to which a reason applies, or one past the last line.
        line: u64,
        /// The first reason that applies to that line.
        reason: Reason,
    },
    /// The text is in the grammar, and an item doesn't fit its sender: the first.
    #[error("{0:?}")]
    Unfit(FitError),
    /// There wasn't memory enough.
    #[error("out of memory")]
    Memory,
}

impl From<MessagesError> for HandsError {
    ghost use Rattle.std.specs.Prelude.{◌≡◌};
    ghost use Rattle.bus_hands.specs.Dealt.{text_error};

    ghost from_gives = { λ error given. given ≡ text_error error };

    fn from(error: MessagesError) -> HandsError {
        match error {
            MessagesError::Text { line, reason } => HandsError::Text { line, reason },
            MessagesError::Memory => HandsError::Memory,
        }
    }
}

impl From<AllocError> for HandsError {
    ghost use Rattle.std.specs.Prelude.{◌≡◌};
    ghost use Rattle.bus_hands.specs.declared.error.HandsError.TheVariants.{Memory};

    ghost from_gives = { λ _ error. error ≡ Memory };

    fn from(_error: AllocError) -> HandsError {
        HandsError::Memory
    }
}

impl<T: Drop> From<AllocFailed<T>> for HandsError {
    ghost use Rattle.std.specs.Prelude.{◌≡◌};
    ghost use Rattle.bus_hands.specs.declared.error.HandsError.TheVariants.{Memory};

    ghost from_gives = { λ _ error. error ≡ Memory };

    fn from(_error: AllocFailed<T>) -> HandsError {
        HandsError::Memory
    }
}
