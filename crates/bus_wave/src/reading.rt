//! Reading a wave text back into a trace.
ghost use Rattle.std.specs.Prelude.{◌≡◌, ◌+◌, ◌<◌, ◌≤◌, ◌-◌, ◌&&◌, ◌==◌, length, IfOk, OnOk, Ok};
ghost use Rattle.std.specs.List.{slice_split};
ghost use Rattle.bus_text.specs.Gives.{Gives};
ghost use Rattle.bus_text.specs.Lines.{is_feed};
ghost use Rattle.bus_trace.specs.Traces.{Recording};
ghost use Rattle.bus_wave.specs.inside.Drafts.{Keeps, state_of};
ghost use Rattle.bus_text.specs.inside.Gives.{StepGives};
ghost use Rattle.bus_wave.specs.inside.Parts.{PartsGive, fault_at};
ghost use Rattle.bus_wave.specs.Judging.{opening};
ghost use Rattle.bus_wave.specs.Reading.{is_closed as closed_test, judge_read, pieces_reading, wave_reading};
ghost use Rattle.bus_wave.specs.WaveLaws.{most_bytes, IsRead, IsWaveTrace};
ghost use Rattle.bus_wave.specs.WaveTexts.{IsWaveText};

use crate::beginners::Beginners;
use crate::draft::Draft;
use crate::fault::{WaveError, WaveReason};
use crate::holds::holds;
use crate::laws::waves_tell_traces;
use crate::pieces::cut;
use crate::symbol::{Symbol, first_symbol, head_of};
use bus_strings::Transmission;
use bus_table::laws::table_is_valid;
use bus_table::{Sender, Table};
use bus_text::LineFault;
use bus_trace::Trace;
use std::alloc::Global;

/// The error of a line that wasn't taken.
fn error_at(number: u64, fault: LineFault<WaveReason>) -> WaveError
    ensures { result ≡ fault_at number fault }
{
    match fault {
        LineFault::Refused(reason) => WaveError::Text {
            line: number,
            reason,
        },
        LineFault::Memory => WaveError::Memory,
    }
}

/// Takes what a line behind the first says. The checker knows of the lines in a draft only where its senders are named.
fn take_line<'t>(
    alloc: Global,
    _senders: &'t [Sender],
    beginners: &Beginners<'t>,
    draft: &mut Draft<'t>,
    line: Result<Symbol, WaveReason>,
) -> Result<(), LineFault<WaveReason>>
    requires { Keeps draft.old }
    ensures gives { StepGives (state_of draft.new) result (judge_read beginners.now.senders.now (state_of draft.old) line) }
    ensures keeps { OnOk result (Keeps draft.new) }
{
    if draft.is_closed() {
        return Err(LineFault::Refused(WaveReason::Keyword));
    }
    let symbol = line?;
    draft.take(alloc, beginners, symbol)
}

/// Whether a text may end here, with these bytes behind its last line feed.
fn is_done(draft: &Draft<'_>, rest: &[u8]) -> bool
    ensures { result ≡ (closed_test (state_of draft.now).phase && length rest.now == 0) }
{
    draft.is_closed() && rest.is_empty()
}

/// Reads the lines behind the first: the bit times of the trace, and its transmissions.
fn read_lines(
    alloc: Global,
    table: &Table,
    text: &[u8],
) -> Result<(u64, Vec<Transmission>), WaveError>
    requires { length text.now ≤ most_bytes }
    ensures { PartsGive table.now result (pieces_reading table.now 2 opening (slice_split is_feed text.now)) }
{
    let beginners = Beginners::new(alloc, table)?;
    let mut draft = Draft::new(alloc);
    let mut rest = text;
    let mut number = 2;
    while let Some((line, behind)) = first_symbol(rest) {
        if let Err(fault) = take_line(alloc, table.senders(), &beginners, &mut draft, line) {
            return Err(error_at(number, fault));
        }
        rest = behind;
        number += 1;
    }
    if !is_done(&draft, rest) {
        return Err(WaveError::Text {
            line: number,
            reason: WaveReason::Ended,
        });
    }
    Ok(draft.into_parts())
}

/// Reads the first line and the others.
fn read_parts(
    alloc: Global,
    table: &Table,
    text: &[u8],
) -> Result<(u64, Vec<Transmission>), WaveError>
    requires { length text.now ≤ most_bytes }
    ensures { PartsGive table.now result (wave_reading table.now text.now) }
{
    let Some((first, rest)) = cut(b'\n', text) else {
        return Err(WaveError::Text {
            line: 1,
            reason: WaveReason::Ended,
        });
    };
    if let Err(reason) = head_of(first) {
        return Err(WaveError::Text { line: 1, reason });
    }
    read_lines(alloc, table, rest)
}

/// Reads a text, and counts the entries of each sender.
fn read(alloc: Global, table: &Table, text: &[u8]) -> Result<Trace, WaveError>
    requires { length text.now ≤ most_bytes }
    ensures { Gives (λ t. t) result (wave_reading table.now text.now) }
{
    table_is_valid(table);
    waves_tell_traces();
    let (horizon, list) = read_parts(alloc, table, text)?;
    let holds = holds(alloc, table, &list)?;
    Ok(Trace::of(horizon, holds, list))
}

/// Reads a wave text: the trace whose wave it stands for, with one HOLD for each sender of the table and the number of its entries; or the
/// first line that is refused, and why. It goes over the text once.
///
/// [`WaveError::Text`] comes exactly where the text is no wave text of such a trace that is spaced for the table, [`WaveError::Memory`]
/// only where memory ran out.
pub fn read_wave(alloc: Global, table: &Table, text: &[u8]) -> Result<Trace, WaveError>
    requires { length text.now ≤ most_bytes }
    // What is read is spaced for the table, and the text is its wave text.
    ensures found { IfOk result (λ t. IsRead table.now t text.now) }
    // The wave text of each such trace is read, unless memory runs out.
    ensures only { (t : Recording) → IsWaveTrace table.now t → IsWaveText t text.now → Gives (λ t. t) result (Ok t) }
    // Which line is refused, and why.
    ensures exact { Gives (λ t. t) result (wave_reading table.now text.now) }
{
    table_is_valid(table);
    waves_tell_traces();
    read(alloc, table, text)
}
