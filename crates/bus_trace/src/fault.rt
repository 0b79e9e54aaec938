//! Why a line, or a trace text, wasn't read.
use crate::reason::TraceReason;
use bus_text::LineFault;
use std::alloc::AllocError;
use thiserror::Error;

impl From<TraceReason> for LineFault<TraceReason> {
    ghost use Rattle.std.specs.Prelude.{◌≡◌};
    ghost use Rattle.bus_text.specs.declared.fault.LineFault.TheVariants.{Refused};

    ghost from_gives = { λ reason fault. fault ≡ Refused reason };

    fn from(reason: TraceReason) -> LineFault<TraceReason> {
        LineFault::Refused(reason)
    }
}

/// Why a trace text wasn't read.
#[derive(Clone, Copy, Debug, PartialEq, Eq, Error)]
pub enum TraceError {
    /// The text is refused.
    #[error("the trace text is refused at byte {byte}")]
    Text {
        /// The length of the lines before the offending line.
        byte: u64,
        /// Why that line is refused.
        reason: TraceReason,
    },
    /// A pull failed: the count of faults of the source rose.
    #[error("the source failed")]
    ReadFault,
    /// A byte past the limit of a text came, and nothing was decided before it.
    #[error("the trace text has too many bytes")]
    TooLarge,
    /// Memory was refused.
    #[error("out of memory")]
    Memory,
}

impl From<AllocError> for TraceError {
    ghost use Rattle.std.specs.Prelude.{◌≡◌};
    ghost use Rattle.bus_trace.specs.declared.fault.TraceError.TheVariants.{Memory};

    ghost from_gives = { λ _ error. error ≡ Memory };

    fn from(_error: AllocError) -> TraceError {
        TraceError::Memory
    }
}
