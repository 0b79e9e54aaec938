//! The program `bus629`: it gathers its words, makes the files and the standard streams into sources and sinks, and
//! leaves everything else to `bus_tool::tool`.
#![tactic(auto)]

ghost use Rattle.std.specs.Prelude.{◌≡◌, ◌↔◌, IsNone, IfOk, IfErr};
ghost use Rattle.bus_command.specs.Words.{words_of};
ghost use Rattle.bus_tool.specs.Forms.{form_of};

use bus_command::{FileSources, Status, exit_number, sources_of, words};
use bus_outer::OutSink;
use bus_tool::tool;
use std::alloc::Global;
use std::env;
use std::io::Write;
use std::process::ExitCode;
use std::rt::Runtime;

/// Does the command of these words, whose files they name, over these streams.
///
/// # Errors
///
/// `NoMemory` where there is none before the command begins.
fn run<R: Runtime<A = Global>, O: Write + Drop, E: Write + Drop>(
    rt: &R,
    words: &[String],
    out: O,
    err: E,
) -> Result<Status, Status>
    ensures usage { IfOk result (λ status. (status ≡ Status.Usage) ↔ IsNone (form_of (words_of words.now))) }
    ensures memory { IfErr result (λ status. status ≡ Status.NoMemory) }
{
    let FileSources {
        mut first,
        mut second,
    } = sources_of(rt, words)?;
    let mut out = OutSink::new(out);
    let mut err = OutSink::new(err);
    Ok(tool(
        rt.alloc(),
        words,
        &mut first,
        &mut second,
        &mut out,
        &mut err,
    ))
}

fn main(rt: HostRuntime) -> ExitCode {
    let end = match words(rt.alloc(), env::args(&rt)) {
        Ok(words) => run(&rt, &words, rt.stdout(), rt.stderr()),
        Err(status) => Err(status),
    };
    ExitCode::from(exit_number(end))
}
