//! Where a wave text stands between its lines.
use bus_table::SendLine;

/// Where the lines so far stand.
#[derive(Clone, Copy)]
pub(crate) enum Phase<'t> {
    /// Behind the first line.
    Opened,
    /// Behind a Q line outside of messages.
    Silent {
        /// Whether a message may begin.
        free: bool,
    },
    /// Within a wordstring of a message.
    Saying {
        /// Its SEND line.
        line: SendLine,
        /// The SEND lines that are left behind it.
        left: &'t [SendLine],
        /// The least bit times of these.
        later: u64,
    },
    /// Behind the Q line behind a wordstring.
    Waiting {
        /// The SEND line whose label word has to come.
        next: SendLine,
        /// The SEND lines that are left behind it.
        left: &'t [SendLine],
        /// The least bit times of these.
        later: u64,
    },
    /// Behind END.
    Closed,
}
