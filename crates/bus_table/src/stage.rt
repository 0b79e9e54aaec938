//! What stood last in a table text, which decides what may follow.
ghost use Rattle.std.specs.Prelude.{◌≡◌};
ghost use Rattle.bus_table.specs.Drafts as drafts;

use crate::head::Head;

/// What stood last in a table text: it decides what may follow.
#[derive(Clone, Copy)]
pub enum Stage {
    /// Nothing yet.
    Start,
    /// The TABLE line.
    Table,
    /// The MODE line.
    Mode,
    /// The TI line.
    Ti,
    /// The SG line.
    Sg,
    /// A SENDER line, whose sender has no SEND line yet.
    Sender(Head),
    /// A SEND line of the last sender.
    Send,
    /// A TAKE line of the last sender.
    Take,
    /// A LISTENER line, or a TAKE line of the last listener.
    Listener,
}

impl Stage {
    /// Whether the text may end here.
    pub fn may_end(self) -> bool
        ensures { result ≡ drafts.may_end self }
    {
        matches!(
            self,
            Stage::Sg | Stage::Send | Stage::Take | Stage::Listener
        )
    }
}
