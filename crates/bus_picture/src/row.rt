//! A row of a time line.
/// A row of a time line: what is garbled of the bus or of a lane, or what isn't.
#[derive(Clone, Copy, Debug, PartialEq, Eq)]
pub struct Row {
    /// The terminal whose transmissions it has; None where it has those of all.
    pub terminal: Option<u8>,
    /// Whether it has those that are garbled, or the others.
    pub garbled: bool,
    /// Its upper edge.
    pub top: u64,
}
