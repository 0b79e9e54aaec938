//! The keywords of a table text.
ghost use Rattle.std.specs.Prelude.{◌≡◌};
ghost use Rattle.bus_text.specs.Entries.{texts};
ghost use Rattle.bus_table.specs.Forms as forms;

use bus_text::is_at;

/// What a line says, by its first field.
#[derive(Clone, Copy, Debug, PartialEq, Eq)]
pub enum Keyword {
    /// TABLE: the format.
    Table,
    /// MODE: what governs the starts.
    Mode,
    /// TI: the transmit interval.
    Ti,
    /// SG: the synchronization gap.
    Sg,
    /// SENDER: a terminal that sends.
    Sender,
    /// SEND: a wordstring of its messages.
    Send,
    /// TAKE: data words that a terminal takes.
    Take,
    /// LISTENER: a terminal that only receives.
    Listener,
}

/// The keyword of a line; None where its first field is none.
pub fn keyword_of(fields: &[&[u8]]) -> Option<Keyword>
    ensures { result ≡ forms.keyword_of (texts fields.now) }
{
    if is_at(fields, 0, b"TABLE") {
        Some(Keyword::Table)
    } else if is_at(fields, 0, b"MODE") {
        Some(Keyword::Mode)
    } else if is_at(fields, 0, b"TI") {
        Some(Keyword::Ti)
    } else if is_at(fields, 0, b"SG") {
        Some(Keyword::Sg)
    } else if is_at(fields, 0, b"SENDER") {
        Some(Keyword::Sender)
    } else if is_at(fields, 0, b"SEND") {
        Some(Keyword::Send)
    } else if is_at(fields, 0, b"TAKE") {
        Some(Keyword::Take)
    } else if is_at(fields, 0, b"LISTENER") {
        Some(Keyword::Listener)
    } else {
        None
    }
}
