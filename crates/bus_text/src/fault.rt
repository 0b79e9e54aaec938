//! Why a line wasn't read.
use crate::reason::Reason;
use std::alloc::{AllocError, AllocFailed};

/// Why a line wasn't read. The reasons against a line are those of its text: [`Reason`] in a table text or a messages text.
#[derive(Clone, Copy, Debug, PartialEq, Eq)]
pub enum LineFault<R = Reason> {
    /// A reason against the line applies, and none that stands before it in the table of reasons.
    Refused(R),
    /// Memory ran out.
    Memory,
}

impl From<Reason> for LineFault<Reason> {
    ghost use Rattle.std.specs.Prelude.{◌≡◌};
    ghost use Rattle.bus_text.specs.declared.fault.LineFault.TheVariants.{Refused};

    ghost from_gives = { λ reason fault. fault ≡ Refused reason };

    fn from(reason: Reason) -> LineFault<Reason> {
        LineFault::Refused(reason)
    }
}

impl<R> From<AllocError> for LineFault<R> {
    ghost use Rattle.std.specs.Prelude.{◌≡◌};
    ghost use Rattle.bus_text.specs.declared.fault.LineFault.TheVariants.{Memory};

    ghost from_gives = { λ _ fault. fault ≡ Memory };

    fn from(_error: AllocError) -> LineFault<R> {
        LineFault::Memory
    }
}

impl<R, T: Drop> From<AllocFailed<T>> for LineFault<R> {
    ghost use Rattle.std.specs.Prelude.{◌≡◌};
    ghost use Rattle.bus_text.specs.declared.fault.LineFault.TheVariants.{Memory};

    ghost from_gives = { λ _ fault. fault ≡ Memory };

    fn from(_error: AllocFailed<T>) -> LineFault<R> {
        LineFault::Memory
    }
}
