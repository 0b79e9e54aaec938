//! A call over texts in memory.
ghost use Rattle.std.specs.Prelude.{◌≢◌};
ghost use Rattle.bus_command.specs.Words.{words_of};
ghost use Rattle.bus_command.specs.declared.status.Status.TheVariants as status;
ghost use Rattle.bus_tool.specs.InMemory.{IsStatusDue};

use crate::top::tool;
use bus_command::Status;
use bus_outer::{CountSink, SteadySource};
use std::alloc::Global;

/// How many bytes a source in memory gives at once.
const PIECE: usize = 4096;

/// The status of a call of these words over these two texts, whose answer is only counted. Nothing outside can fail: it is the status
/// of the outcome that is due, or, where the words are a form, that of want of memory.
pub fn answer(alloc: Global, words: &[String], first: Vec<u8>, second: Vec<u8>) -> Status
    ensures due { IsStatusDue (words_of words.now) first.items second.items result }
    ensures read { result ≢ status.ReadFault }
    ensures written { result ≢ status.WriteFault }
{
    let mut first = SteadySource::new(first, PIECE);
    let mut second = SteadySource::new(second, PIECE);
    let (mut out, mut err) = (CountSink::new(), CountSink::new());
    tool(alloc, words, &mut first, &mut second, &mut out, &mut err)
}
