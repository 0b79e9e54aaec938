//! The regime of a table: the verdict on whether its senders can keep their turns.
//!
//! [`verdict`] gives it, by the lengths of cycles in aperiodic mode and by the gaps between messages in periodic mode,
//! [`put_verdict`] puts its words into a text, and [`write_verdict`] writes them as a line. `specs/Verdicts.antt` says what the
//! verdict on a table is, `specs/Gaps.antt` what the gaps of a periodic table are, and `proofs/VerdictLaws.antt` what callers
//! may use of it: a periodic table is accepted exactly where each of its gaps is fine (`specs/inside/Fine.antt`). [`witness`] gives the
//! messages with which a refused table fails (`specs/Witness.antt`). [`starts_itself`] tells whether the order of an aperiodic table comes
//! about by itself, and [`never_parts`] whether its senders can collide for ever (`specs/Starting.antt`).
#![tactic(auto)]

mod gaps;
mod judging;
mod line;
mod periodic;
mod starting;
mod table_verdict;
mod witnessing;

pub use gaps::{TurnGap, gap_at, turn_ends};
pub use judging::verdict;
pub use line::{put_verdict, write_verdict};
pub use starting::{never_parts, starts_itself};
pub use table_verdict::TableVerdict;
pub use witnessing::witness;
