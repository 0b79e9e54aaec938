//! Why a text wasn't read.
use crate::reason::Reason;
use std::alloc::{AllocError, AllocFailed};
use std::fmt::Debug;
use thiserror::Error;

/// Why a text wasn't read. The reasons against its lines are those of its grammar: [`Reason`] in a messages text or a cable text.
/// They can be shown, since the words of an error show them.
#[derive(Clone, Copy, Debug, PartialEq, Eq, Error)]
pub enum TextError<R: Debug = Reason> {
    /// The text isn't in the grammar.
    #[error("line {line}: {reason:?}")]
    Text {
        /// The number of the first line, from 1, to which a reason applies, or one past the last line.
        line: u64,
        /// The first reason that applies to that line.
        reason: R,
    },
    /// There wasn't memory enough.
    #[error("out of memory")]
    Memory,
}

impl<R: Debug> From<AllocError> for TextError<R> {
    ghost use Rattle.std.specs.Prelude.{◌≡◌};
    ghost use Rattle.bus_text.specs.declared.error.TextError.TheVariants.{Memory};

    ghost from_gives = { λ _ error. error ≡ Memory };

    fn from(_error: AllocError) -> TextError<R> {
        TextError::Memory
    }
}

impl<R: Debug, T: Drop> From<AllocFailed<T>> for TextError<R> {
    ghost use Rattle.std.specs.Prelude.{◌≡◌};
    ghost use Rattle.bus_text.specs.declared.error.TextError.TheVariants.{Memory};

    ghost from_gives = { λ _ error. error ≡ Memory };

    fn from(_error: AllocFailed<T>) -> TextError<R> {
        TextError::Memory
    }
}
