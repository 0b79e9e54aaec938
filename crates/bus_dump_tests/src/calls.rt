//! What every test uses: a table, and what is written of a trace in memory.
use bus_dump::{Dump, FirstBreach, doubled, write_dump, write_save_file};
use bus_outer::{MemorySink, MemorySource};
use bus_regime::verdict;
use bus_strings::limits::HORIZON_LIMIT;
use bus_table::read_table;
use bus_trace::{Trace, Window, read_trace};
use std::alloc::Global;
use std::test::Fail;

/// Two senders and a listener.
pub(crate) const TABLE: &[u8] = b"TABLE 1
MODE aperiodic
TI 1000
SG 1000
SENDER 1 TG 20
SEND 0A1 1 2 2
SENDER 2 TG 30
SEND 0B2 1 0 2
TAKE 0A1 * 1 4
LISTENER 3
";

/// What is written of a trace.
#[derive(Clone, Copy)]
pub(crate) enum Text {
    Dump(Dump),
    /// That of a window from a moment to below another, of a trace whose first breach is at the last moment.
    Window(Dump, u64, u64, u64),
    /// The save file of one whose first breach is this.
    SaveFile(Option<FirstBreach>),
    /// That of a window from a moment to below another.
    SavedWindow(u64, u64, Option<FirstBreach>),
}

/// A trace of its text.
pub(crate) fn trace_of(alloc: Global, text: &[u8]) -> Result<Trace, Fail> {
    let mut source = MemorySource::new(Vec::from_slice(alloc, text)?, 1000, Vec::new(alloc));
    Ok(read_trace(alloc, &mut source)?)
}

/// What is written of a trace, whose sink never fails.
pub(crate) fn written(
    alloc: Global,
    text: Text,
    table: &[u8],
    trace: &[u8],
) -> Result<Vec<u8>, Fail> {
    let table = read_table(alloc, table)?;
    let trace = trace_of(alloc, trace)?;
    let mut sink = MemorySink::new(alloc, 10000, 1000, Vec::new(alloc))?;
    if doubled(&trace).is_some() {
        return Err(Fail::new("an entry is doubled"));
    }
    let verdict = verdict(&table);
    let answer = match text {
        Text::Dump(dump) => {
            let window = Window::whole(trace.horizon());
            write_dump(dump, &window, None, &verdict, &table, &trace, &mut sink)
        }
        Text::Window(dump, from, to, breach) => {
            let Some(window) = Window::new(from, to) else {
                return Err(Fail::new("no window"));
            };
            let breach = Some(breach);
            write_dump(dump, &window, breach, &verdict, &table, &trace, &mut sink)
        }
        Text::SaveFile(breach) => {
            let window = Window::whole(trace.horizon());
            let breach = breach.filter(|it| it.moment < HORIZON_LIMIT);
            write_save_file(&window, breach, &table, &trace, &mut sink)
        }
        Text::SavedWindow(from, to, breach) => {
            let Some(window) = Window::new(from, to) else {
                return Err(Fail::new("no window"));
            };
            let breach = breach.filter(|it| it.moment < HORIZON_LIMIT);
            write_save_file(&window, breach, &table, &trace, &mut sink)
        }
    };
    if answer.is_err() {
        return Err(Fail::new("the text isn't written"));
    }
    Ok(Vec::from_slice(alloc, sink.bytes())?)
}
