//! How the programs end.
ghost use Rattle.std.specs.Prelude.{◌≡◌};
ghost use Rattle.bus_command.specs.Statuses.{number_of};

/// How the program ends.
#[derive(Clone, Copy, Debug, PartialEq, Eq)]
pub enum Status {
    /// The answer is written, and it is yes where it is a yes or no.
    Done,
    /// The answer is no: it is written on the output, or, where the senders of a table aren't run, its verdict on the error output.
    Refused,
    /// The words are no form.
    Usage,
    /// The table text, or the table, is refused.
    TableRefused,
    /// The second text is refused.
    InputRefused,
    /// A source couldn't be read.
    ReadFault,
    /// The answer couldn't be written.
    WriteFault,
    /// Memory was refused.
    NoMemory,
    /// A source has more bytes than its limit.
    TooLarge,
    /// The schedule is longer than its limit.
    TooLong,
}

impl Status {
    /// The number with which the process ends.
    pub fn number(self) -> u8
        ensures { result ≡ number_of self }
    {
        match self {
            Status::Done => 0,
            Status::Refused => 1,
            Status::Usage => 2,
            Status::TableRefused => 3,
            Status::InputRefused => 4,
            Status::ReadFault => 5,
            Status::WriteFault => 6,
            Status::NoMemory => 7,
            Status::TooLarge => 8,
            Status::TooLong => 9,
        }
    }
}
