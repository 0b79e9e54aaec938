//! Why no schedule is given, and the limit on its end.
ghost use Rattle.bus_schedule.specs.declared.error.ScheduleError.TheVariants.{Memory};
ghost use Rattle.std.specs.Prelude.{◌≡◌};

use std::alloc::AllocError;
use thiserror::Error;

/// The longest end of a schedule that is given, in bit times: some nine and a half hours. It is this project's
/// profile.
pub const LONGEST_END: u64 = 68_719_476_736;

/// Why no schedule is given.
#[derive(Clone, Copy, Debug, PartialEq, Eq, Error)]
pub enum ScheduleError {
    /// Memory was refused. It says nothing of the schedule.
    #[error("out of memory")]
    Memory,
    /// The end of the schedule, which is this, is above [`LONGEST_END`].
    #[error("the end {end} of the schedule is above the limit")]
    TooLong { end: u128 },
}

impl From<AllocError> for ScheduleError {
    ghost from_gives = { λ _ e. e ≡ Memory };

    fn from(_: AllocError) -> Self {
        ScheduleError::Memory
    }
}
