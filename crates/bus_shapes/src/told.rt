//! What is told of a trace beside its picture.

use bus_audit::AuditAnswer;
use bus_bounds::Bounds;
use bus_findings::Judgement;

/// What is told of a trace: in the heading of its picture, and by marks in it.
#[derive(Debug, Drop)]
pub enum Told {
    /// What an audit of it found.
    Audit(AuditAnswer),
    /// That it was recorded on a cable. An audit, which holds each start to timers that hear at once, has no word on that.
    OnCable {
        /// How many receptions are garbled where terminals hear them.
        garbled: u64,
    },
    /// What is found at each of its transmissions, in order, as in a recording of a bus within bounds, which are in bit times.
    Findings {
        /// Within which bounds the bus is said to be.
        bounds: Bounds,
        /// What is found, one for each transmission.
        judgements: Vec<Judgement>,
        /// How many receptions are garbled where terminals hear them, where that is known.
        garbled: Option<u64>,
    },
}
