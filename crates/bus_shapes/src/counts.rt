//! How much of a trace a picture shows.
/// What a picture shows of a trace. All moments are bit times from the settled start.
#[derive(Clone, Copy, Debug, PartialEq, Eq)]
pub struct Counts {
    /// The first moment that is shown.
    pub from: u64,
    /// The first moment that isn't shown any more.
    pub to: u64,
    /// The horizon of the trace.
    pub horizon: u64,
    /// How many transmissions are shown.
    pub shown: u64,
    /// How many of them are garbled.
    pub garbled: u64,
}
