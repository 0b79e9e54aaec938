//! What a command came to.
ghost use Rattle.std.specs.Prelude.{◌≡◌};
ghost use Rattle.bus_command.specs.Outcomes.{is_written, own_of, status_of};

use crate::refusal::{Place, Refusal};
use crate::status::Status;
use bus_hands::HandsError;
use bus_table::{FitError, TableError, WholeReason};
use bus_text::Reason;
use bus_trace::{TraceError, TraceReason};
use std::alloc::AllocError;

/// What a command came to, where the program refuses `R` beside what every command refuses.
#[derive(Clone, Copy, Debug, PartialEq, Eq)]
pub enum Outcome<R> {
    /// The answer is written, and it is yes where it is a yes or no.
    Done,
    /// The answer is written, and it is no.
    Answered,
    /// The words are no form.
    Usage,
    /// The first text is no table text: the offending line, counted from 1, and why.
    TableText { line: u64, reason: Reason },
    /// The first text is a table text of no valid table.
    TableWhole(WholeReason),
    /// The second text is no messages text: the offending line, counted from 1, and why.
    MessagesText { line: u64, reason: Reason },
    /// An item of the second text, the first being 1, doesn't fit its sender.
    Unfit(FitError),
    /// The second text is no trace text: the length of the lines before the offending one, and why.
    TraceText { byte: u64, reason: TraceReason },
    /// What the texts say is refused, for a reason of the program's own.
    Own { place: Place, why: R },
    /// A source, the first being 1, couldn't be read.
    ReadFault { source: u8 },
    /// The answer couldn't be written.
    WriteFault,
    /// Memory was refused.
    NoMemory,
    /// A source, the first being 1, has more bytes than its limit.
    TooLarge { source: u8 },
}

impl<R: Refusal> Outcome<R> {
    /// Whether the answer is written whole: of all outcomes, only `Done` and `Answered`.
    pub fn is_written(&self) -> bool
        ensures { result ≡ is_written self.now }
    {
        matches!(self, Outcome::Done | Outcome::Answered)
    }

    /// What the program refuses of its own, where this is what the command came to.
    pub fn own(&self) -> Option<R>
        ensures { result ≡ own_of self.now }
    {
        match *self {
            Outcome::Own { why, .. } => Some(why),
            Outcome::Done
            | Outcome::Answered
            | Outcome::Usage
            | Outcome::TableText { .. }
            | Outcome::TableWhole(_)
            | Outcome::MessagesText { .. }
            | Outcome::Unfit(_)
            | Outcome::TraceText { .. }
            | Outcome::ReadFault { .. }
            | Outcome::WriteFault
            | Outcome::NoMemory
            | Outcome::TooLarge { .. } => None,
        }
    }

    /// How the program ends with this outcome.
    pub fn status(&self) -> Status
        ensures { result ≡ status_of R.ends self.now }
    {
        match self {
            Outcome::Done => Status::Done,
            Outcome::Answered => Status::Refused,
            Outcome::Usage => Status::Usage,
            Outcome::TableText { .. } | Outcome::TableWhole(_) => Status::TableRefused,
            Outcome::MessagesText { .. } | Outcome::Unfit(_) | Outcome::TraceText { .. } =>
                Status::InputRefused,
            Outcome::Own { why, .. } => why.status(),
            Outcome::ReadFault { .. } => Status::ReadFault,
            Outcome::WriteFault => Status::WriteFault,
            Outcome::NoMemory => Status::NoMemory,
            Outcome::TooLarge { .. } => Status::TooLarge,
        }
    }
}

impl<R> From<TableError> for Outcome<R> {
    ghost use Rattle.bus_command.specs.Due.{table_refusal};

    ghost from_gives = { λ error outcome. outcome ≡ table_refusal error };

    fn from(error: TableError) -> Outcome<R> {
        match error {
            TableError::Text { line, reason } => Outcome::TableText { line, reason },
            TableError::Whole(reason) => Outcome::TableWhole(reason),
            TableError::Memory => Outcome::NoMemory,
        }
    }
}

impl<R> From<HandsError> for Outcome<R> {
    ghost use Rattle.bus_command.specs.Due.{hands_refusal};

    ghost from_gives = { λ error outcome. outcome ≡ hands_refusal error };

    fn from(error: HandsError) -> Outcome<R> {
        match error {
            HandsError::Text { line, reason } => Outcome::MessagesText { line, reason },
            HandsError::Unfit(error) => Outcome::Unfit(error),
            HandsError::Memory => Outcome::NoMemory,
        }
    }
}

impl<R> From<TraceError> for Outcome<R> {
    ghost use Rattle.bus_command.specs.Due.{trace_refusal};

    ghost from_gives = { λ error outcome. outcome ≡ trace_refusal error };

    fn from(error: TraceError) -> Outcome<R> {
        match error {
            TraceError::Text { byte, reason } => Outcome::TraceText { byte, reason },
            TraceError::ReadFault => Outcome::ReadFault { source: 2 },
            TraceError::TooLarge => Outcome::TooLarge { source: 2 },
            TraceError::Memory => Outcome::NoMemory,
        }
    }
}

impl<R> From<AllocError> for Outcome<R> {
    ghost use Rattle.bus_command.specs.declared.outcome.Outcome.TheVariants.{NoMemory};

    ghost from_gives = { λ _ outcome. outcome ≡ NoMemory };

    fn from(_error: AllocError) -> Outcome<R> {
        Outcome::NoMemory
    }
}
