//! What the words of a command line ask for.
use bus_bounds::Bounds;
use bus_command::About;
use bus_dump::Dump;
use bus_trace::Window;

/// A picture of a trace.
#[derive(Clone, Copy, Debug, PartialEq, Eq)]
pub enum Picture {
    /// A time line, with a lane for each terminal.
    TimeLine,
    /// A row for each cycle.
    Cycles,
}

/// A view of the trace in the second source, on the table in the first.
#[derive(Debug, Drop)]
pub enum View {
    /// `vcd T R`, `wires T R`, `timers T R`: this dump of it, or of a window of it.
    Dump(Dump, Option<Window>),
    /// `gtkw T R`: the save file with which GTKWave shows all signals of its dumps, or of those of a window of it.
    SaveFile(Option<Window>),
    /// `svg T R`, `cycles T R`: this picture of it, or of a window of it.
    Picture(Picture, Option<Window>),
    /// `svg T R`, `cycles T R` with bounds: this picture of it, or of a window of it, with what is found, as in a recording of a bus within
    /// these in bit times and millionths, each within its limit.
    Judged(Picture, Bounds, Option<Window>),
}

/// What the words of a command line ask for.
#[derive(Debug, Drop)]
pub enum Form {
    /// A view of a trace.
    OnTrace(View),
    /// `--help`, `--version`: what the program tells of itself.
    OnItself(About),
    /// `page T`: the page of the table in the file `T`; with bounds: with its margins within these in nanoseconds and millionths, each
    /// within its limit.
    Page(Option<Bounds>),
}
