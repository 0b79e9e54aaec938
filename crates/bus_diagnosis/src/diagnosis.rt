//! What is found of a text that stands beside an accepted table.
ghost use Rattle.std.specs.Prelude.{◌≡◌};
ghost use Rattle.bus_diagnosis.specs.Diagnoses as diagnoses;

use crate::kind::Kind;
use crate::misfit::Unfit;
use crate::reach::Reach;
use bus_schedule::Uneven;
use bus_text::Reason;
use bus_trace::TraceReason;

/// What is found of a text that stands beside an accepted table: the first thing that is wrong, or what is right.
#[derive(Clone, Copy, Debug, PartialEq, Eq)]
pub enum Diagnosis {
    /// The first line, this physical one, begins no text that stands beside a table.
    NoKind {
        line: u64,
    },
    /// A messages text or a cable text has more bytes than it may have.
    Large {
        kind: Kind,
    },
    /// This physical line of a messages text or of a cable text is refused; it may be the first.
    Line {
        kind: Kind,
        first: bool,
        line: u64,
        reason: Reason,
    },
    /// A line of a trace text is refused, behind so many bytes.
    Byte {
        byte: u64,
        line: u64,
        reason: TraceReason,
    },
    /// An item doesn't fit its sender: the first such.
    Unfit(Unfit),
    /// Two senders have different numbers of messages.
    Uneven(Uneven),
    /// The closed schedule ends at this moment, which is above the limit.
    TooLong {
        end: u128,
    },
    /// Messages with which the table runs: so many for each of so many senders, whose closed schedule ends at this moment.
    Runs {
        rounds: u64,
        senders: u64,
        end: u128,
    },
    /// A cable, and so many messages for each of so many senders.
    OnCable {
        rounds: u64,
        senders: u64,
        reach: Reach,
    },
    /// A trace of so many transmissions below a horizon, of which the last ends at this moment; 0 where there are none.
    Recorded {
        count: u64,
        horizon: u64,
        end: u64,
    },
}

impl Diagnosis {
    /// Whether nothing is wrong.
    pub fn is_right(&self) -> bool
        ensures { result ≡ diagnoses.is_right self.now }
    {
        match self {
            Diagnosis::Runs { .. } | Diagnosis::Recorded { .. } => true,
            Diagnosis::OnCable { reach, .. } => reach.borne,
            Diagnosis::NoKind { .. }
            | Diagnosis::Large { .. }
            | Diagnosis::Line { .. }
            | Diagnosis::Byte { .. }
            | Diagnosis::Unfit(_)
            | Diagnosis::Uneven(_)
            | Diagnosis::TooLong { .. } => false,
        }
    }
}
