//! A lane of a dump: a terminal that has signals.
/// A terminal that has signals.
#[derive(Clone, Copy, Debug, Default, PartialEq, Eq)]
pub struct Lane {
    /// Its terminal number.
    pub terminal: u8,
    /// Whether it is a sender of the table.
    pub sender: bool,
}
