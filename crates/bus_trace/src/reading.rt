//! Reading a trace text from a source.
ghost use Rattle.std.specs.Prelude.{IfOk, IfSome, Ok};
ghost use Rattle.bus_trace.specs.Runs.{reading};
ghost use Rattle.bus_trace.specs.Reading.{TakesTrace, ReadGives, CountsReading};
ghost use Rattle.bus_trace.specs.inside.Looping.{Loops};
ghost use Rattle.bus_trace.specs.Limits.{trace_limit};
ghost use Rattle.bus_trace.specs.Traces.{Recording, IsTrace, HoldsTrace};

use crate::fault::TraceError;
use crate::limits::LINE_LIMIT;
use crate::reader::TraceReader;
use crate::stage::Fed;
use crate::trace::Trace;
use bus_outer::{Pull, Source};
use bus_strings::laws::neighbours_tell;
use std::alloc::Global;

/// The longest line that is refused, as far as it is looked at.
const ROOM: usize = LINE_LIMIT + 1;

/// Reads a trace text of at most [`crate::limits::TRACE_LIMIT`] bytes, a line at a time, and takes none of the bytes behind its
/// END line.
///
/// `Text` comes exactly where a line is refused within the limit, at the length of the lines before it: the source has then given
/// that line with its line feed, its first 1,802 bytes where these have none, or all its bytes where it ended. `ReadFault` comes
/// exactly where a pull failed: the count of faults rose, as it does at no other answer. `TooLarge` comes exactly where a byte past
/// the limit was taken, and that byte is taken only where those before it decide nothing. `Memory`: memory was refused, before any
/// pull failed.
pub fn read_trace<S: Source>(alloc: Global, source: &mut S) -> Result<Trace, TraceError>
    // The bytes taken are exactly those of the trace text, or those up to where the refusal is decided.
    ensures taken { TakesTrace (S.left source.old) (S.left source.new) result }
    // The answer is what the source's bytes read as, unless a pull failed or memory ran out.
    ensures exact { IfSome (S.left source.old) (λ stream. ReadGives result (reading trace_limit stream)) }
    // What was read stands at the front of the source, within the limit.
    ensures found { IfSome (S.left source.old) (λ stream. IfOk result (HoldsTrace trace_limit stream)) }
    // A trace text that stands there is read, unless a pull failed or memory ran out.
    ensures only { IfSome (S.left source.old) (λ stream. (t : Recording) → HoldsTrace trace_limit stream t → ReadGives result (Ok t)) }
    ensures ranges { IfOk result IsTrace }
    ensures counts { CountsReading (S.faults source.old) (S.faults source.new) result }
{
    neighbours_tell();
    read_text(alloc, source)
}

/// The loop: the lines at hand, as far as they are as they are written; then the next line or a part of it, of which no byte is behind the
/// one that decides, and what the reader says of it.
fn read_text<S: Source>(alloc: Global, source: &mut S) -> Result<Trace, TraceError>
    ensures loops { Loops (S.left source.old) (S.left source.new) result }
    ensures counts { CountsReading (S.faults source.old) (S.faults source.new) result }
{
    let mut reader = TraceReader::at_start(alloc)?;
    let mut buf = [0u8; ROOM];
    'lines: loop {
        let count = reader.take_quickly(source.at_hand())?;
        source.consume(count);
        let room = reader.room();
        match source.pull_line(&mut buf[..room]) {
            Pull::Got(n) => match reader.take(&buf[..n])? {
                Fed::More => {}
                Fed::Whole { .. } => return reader.end(),
                Fed::Refused { byte, reason } => return Err(TraceError::Text { byte, reason }),
                Fed::TooLarge => return Err(TraceError::TooLarge),
            },
            Pull::End => return reader.end(),
            Pull::Failed => return Err(TraceError::ReadFault),
        }
    }
}
