//! What the words of a command line ask for.
ghost use Rattle.std.specs.Prelude.{◌≡◌};
ghost use Rattle.bus_tool.specs.Forms.{messages_mode, table_mode};

use bus_bounds::Bounds;
use bus_command::About;
use bus_made::Order;
use bus_table::Mode;

/// The delay that a plan is asked for.
#[derive(Clone, Copy, Debug, PartialEq, Eq)]
pub enum PlanDelay {
    /// So many bit times: at most 128,000.
    Bits(u32),
    /// The greatest that any offsets bear.
    Greatest,
}

/// A command on a table.
#[derive(Clone, Copy, Debug, PartialEq, Eq)]
pub enum TableCommand {
    /// `check T`: the verdict of the table in the file `T`.
    Check,
    /// `tolerance T`: how much delay the table in the file `T` bears, where it is accepted.
    Tolerance,
    /// `tidy T`: the canonical text of the table in the file `T`.
    Tidy,
    /// `report T`: the verdict of the table in the file `T` and its figures, as JSON.
    Report,
    /// `witness T`: the messages with which the table in `T` fails, where it is refused.
    Witness,
    /// `plan T`: the periodic table in the file `T` with offsets chosen anew, or that no offsets are accepted.
    Plan,
    /// `plan T --delay LENGTH`, `plan T best`: the periodic table in the file `T` with offsets chosen so that it bears a delay, or that no offsets
    /// do, or that neither is known.
    PlanFor {
        /// The delay, or the greatest that any offsets bear.
        delay: PlanDelay,
    },
    /// `design T` with bounds: the table that is made of the senders of the aperiodic table in the file `T` for such clocks.
    Design {
        /// In nanoseconds and millionths, each within its limit.
        bounds: Bounds,
        /// The order in which its senders stand.
        order: Order,
    },
    /// `margins T` with bounds: how much room the table in the file `T` leaves where clocks aren't exact, and what order comes of it.
    Margins {
        /// In nanoseconds and millionths, each within its limit.
        bounds: Bounds,
    },
}

/// A command on a table and messages.
#[derive(Clone, Copy, Debug, PartialEq, Eq)]
pub enum MessagesCommand {
    /// `observe T M N`: what the senders of the table in `T` do with the messages in `M`, in the bit times before N.
    Observe {
        /// N: at most 1,099,511,627,776.
        horizon: u64,
    },
    /// `run T M`: what the senders of the table in `T` do with the messages in `M`, up to the end of the closed schedule.
    Run,
    /// `drop T M`: what the senders of the aperiodic table in `T` do with the messages in `M`, of which some may have fewer than others, up
    /// to the end of the drop-out schedule.
    Drop,
    /// `schedule T M`: when the senders of the table in `T`, accepted or not, would send the messages in `M` by the closed schedule.
    Schedule,
}

/// A command on a table and a trace.
#[derive(Clone, Copy, Debug, PartialEq, Eq)]
pub enum TraceCommand {
    /// `receive T R`: what each terminal of the table in `T` receives of the trace in `R`.
    Receive,
    /// `audit T R`: whether each start of the trace in `R` is just where the timers of the table in `T` allow one.
    Audit,
    /// `vote T R`: the votes of the channels of the table in `T`, in the trace in `R`.
    Vote,
    /// `wave T R`: the wave of the trace in `R`, which has to be spaced for the table in `T`.
    Wave,
    /// `diagnose T R` with bounds: what is found in the trace in `R`, as a recording of a bus of the table in `T` within them.
    Diagnose {
        /// In bit times and millionths, each within its limit.
        bounds: Bounds,
    },
}

/// What the words of a command line ask for, in groups by what they take.
#[derive(Clone, Copy, Debug, PartialEq, Eq)]
pub enum Form {
    /// A command on a table.
    OnTable(TableCommand),
    /// A command on a table and messages.
    OnMessages(MessagesCommand),
    /// A command on a table and a trace.
    OnTrace(TraceCommand),
    /// `unwave T W`: the trace whose wave, of the table in `T`, is in `W`.
    Unwave,
    /// `drill N`: what comes of a large input that a number makes.
    Drill {
        /// N: at most 9999.
        number: u32,
    },
    /// `--help`, `--version`: what the program tells of itself.
    OnItself(About),
    /// `explain T`: what the verdict on the table in the file `T` means, or why there is no valid table in it, and what to change.
    Explain,
    /// `explain T F`: what is wrong with the text in the file `F`, of messages, a cable or a trace, for the table in the file `T`.
    ExplainBeside,
    /// `facts T`: what `explain T` tells, for scripts, and more numbers, as one line of JSON.
    Facts,
    /// `cable T C N`: what the senders of the table in `T` do on the cable in `C` in the bit times before N, and what each terminal hears.
    Cable {
        /// N: at most 1,099,511,627,776.
        horizon: u64,
    },
}

impl TableCommand {
    /// The mode that the command needs of its table.
    pub fn mode(&self) -> Option<Mode>
        ensures { result ≡ table_mode self.now }
    {
        match self {
            TableCommand::Plan | TableCommand::PlanFor { .. } => Some(Mode::Periodic),
            TableCommand::Design { .. } => Some(Mode::Aperiodic),
            TableCommand::Check
            | TableCommand::Tolerance
            | TableCommand::Tidy
            | TableCommand::Report
            | TableCommand::Witness
            | TableCommand::Margins { .. } => None,
        }
    }
}

impl MessagesCommand {
    /// The mode that the command needs of its table.
    pub fn mode(self) -> Option<Mode>
        ensures { result ≡ messages_mode self }
    {
        match self {
            MessagesCommand::Drop => Some(Mode::Aperiodic),
            MessagesCommand::Observe { .. } | MessagesCommand::Run | MessagesCommand::Schedule => {
                None
            }
        }
    }
}
