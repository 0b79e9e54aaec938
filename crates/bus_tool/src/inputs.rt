//! What the commands take of their sources beside what every program takes: a table of the mode that is needed, hands for its senders, and
//! the trace of a wave.
ghost use Rattle.std.specs.Prelude.{◌≡◌, ◌≤◌, length, IfErr, IfOk};
ghost use Rattle.bus_command.specs.Outside.{source_seen, sources_seen};
ghost use Rattle.bus_command.specs.Readers.{entire, two_sources};
ghost use Rattle.bus_command.specs.Steps.{Same, Takes, Prepares};
ghost use Rattle.bus_command.specs.Taken.{AreReady};
ghost use Rattle.bus_command.specs.inside.Steps.{AreInputs};
ghost use Rattle.bus_command.specs.Due.{inputs_by, table_refusal_of};
ghost use Rattle.bus_tool.specs.inside.Acting.{IsOfMode};
ghost use Rattle.bus_tool.specs.Due as due;
ghost use Rattle.bus_tool.specs.Due.{needed_or_refusal, refusal_for, table_for, unwave_due, wave_trace_due};
ghost use Rattle.bus_tool.specs.Forms.{entire_wave};
ghost use Rattle.bus_table.specs.Fits.{items_fit};
ghost use Rattle.bus_command.specs.Readers.{text_limit};
ghost use Rattle.bus_command.specs.Stages.{Gives};
ghost use Rattle.bus_tool.specs.Due.{cable_text_due, fitting_on_cable, cable_read_due, cable_due};
ghost use Rattle.bus_tool.specs.inside.Refused.{cable_refusal, wave_refusal};
ghost use Rattle.bus_tool.specs.inside.TakenCable.{IsUndealt, IsWired, IsTakenOnCable};

use crate::refusal::{Outcome, ToolRefusal, refuse};
use bus_cable::{Cable, CableError, read_cable};
use bus_command::{Dealt, TEXT_LIMIT, Traced, take_hands, take_table, take_text};
use bus_hands::{fits, hands};
use bus_outer::Source;
use bus_strings::Payloads;
use bus_table::{Hand, Mode, Table};
use bus_trace::Trace;
use bus_wave::{WaveError, read_wave};
use std::alloc::Global;

/// A table, a cable, and one hand for each of the table's senders, in its order.
#[derive(Drop)]
pub struct OnCable {
    /// The table of the first source.
    pub table: Table,
    /// The cable of the second.
    pub cable: Cable,
    /// The hands that the items of the second give its senders.
    pub hands: Vec<Hand>,
}

/// A cable, and the hands that were taken with it.
#[derive(Drop)]
struct Wired {
    cable: Cable,
    hands: Vec<Hand>,
}

/// The most bytes that a wave text may have.
const WAVE_LIMIT: usize = 67_108_864;

/// Whether a mode is the one that is needed.
fn is_mode(needed: Mode, mode: Mode) -> bool
    ensures { result ≡ due.is_mode needed mode }
{
    match (needed, mode) {
        (Mode::Aperiodic, Mode::Aperiodic) | (Mode::Periodic, Mode::Periodic) => true,
        (Mode::Aperiodic, Mode::Periodic) | (Mode::Periodic, Mode::Aperiodic) => false,
    }
}

/// The table that was taken, where it is of the mode that is needed, if one is.
fn in_mode(mode: Option<Mode>, taken: Table) -> Result<Table, Outcome>
    ensures { result ≡ needed_or_refusal mode taken }
{
    match mode {
        None => Ok(taken),
        Some(needed) => if is_mode(needed, taken.mode()) {
            Ok(taken)
        } else {
            Err(refuse(ToolRefusal::TableMode { needed }))
        },
    }
}

/// The table in the first source, which is of the mode that is needed, if one is; or why there is none.
pub fn take_table_for<S: Source>(
    alloc: Global,
    mode: Option<Mode>,
    first: &mut S,
) -> Result<Table, Outcome>
    ensures takes { Takes Same 1 entire (table_for mode)
        (source_seen ⟦<S as Source>⟧ first.old) (source_seen ⟦<S as Source>⟧ first.new) result }
    ensures mode { IfOk result (IsOfMode mode) }
{
    let table = take_table::<ToolRefusal, S>(alloc, first)?;
    in_mode(mode, table)
}

/// The table in the first source, of the mode that is needed, and the hands that the messages text in the second gives its senders; or why
/// there are none. The second source is pulled only where the first gave such a table.
pub fn take_dealt<S: Source>(
    alloc: Global,
    mode: Option<Mode>,
    first: &mut S,
    second: &mut S,
) -> Result<Dealt, Outcome>
    ensures prepares { Prepares AreInputs (two_sources entire entire) (refusal_for mode) (inputs_by (table_for mode))
        (sources_seen ⟦<S as Source>⟧ first.old second.old) (sources_seen ⟦<S as Source>⟧ first.new second.new) result }
    ensures mode { IfOk result (λ dealt. IsOfMode mode dealt.table) }
    ensures ready { IfOk result (λ dealt. AreReady dealt.table dealt.hands.items) }
{
    let table = take_table_for(alloc, mode, first)?;
    let hands = take_hands::<ToolRefusal, S>(alloc, &table, second)?;
    Ok(Dealt { table, hands })
}

/// What comes of a wave text that is refused.
fn refuse_wave(error: WaveError) -> Outcome
    ensures { result ≡ wave_refusal error }
{
    match error {
        WaveError::Text { line, reason } => refuse(ToolRefusal::WaveText { line, reason }),
        WaveError::Memory => Outcome::NoMemory,
    }
}

/// The trace whose wave, of the table, is in the second source, or why there is none.
fn take_wave<S: Source>(alloc: Global, table: &Table, second: &mut S) -> Result<Trace, Outcome>
    ensures { Takes Same 2 entire_wave (wave_trace_due table.now)
        (source_seen ⟦<S as Source>⟧ second.old) (source_seen ⟦<S as Source>⟧ second.new) result }
{
    let text = take_text::<ToolRefusal, S>(alloc, WAVE_LIMIT, 2, second)?;
    match read_wave(alloc, table, &text) {
        Ok(trace) => Ok(trace),
        Err(error) => Err(refuse_wave(error)),
    }
}

/// The table in the first source and the trace whose wave is in the second, or why there are none. The second source is pulled only where
/// the first gave a table.
pub fn take_unwaved<S: Source>(
    alloc: Global,
    first: &mut S,
    second: &mut S,
) -> Result<Traced, Outcome>
    ensures { Prepares Same (two_sources entire entire_wave) table_refusal_of unwave_due
        (sources_seen ⟦<S as Source>⟧ first.old second.old) (sources_seen ⟦<S as Source>⟧ first.new second.new) result }
{
    let table = take_table::<ToolRefusal, S>(alloc, first)?;
    let trace = take_wave(alloc, &table, second)?;
    Ok(Traced { table, trace })
}

/// What comes of a cable text that is refused.
fn refuse_cable(error: CableError) -> Outcome
    ensures { result ≡ cable_refusal error }
{
    match error {
        CableError::Text { line, reason } => refuse(ToolRefusal::CableText { line, reason }),
        CableError::Memory => Outcome::NoMemory,
    }
}

/// The cable and the items of the second source, or why there are none.
fn take_cable_text<S: Source>(alloc: Global, second: &mut S) -> Result<(Cable, Payloads), Outcome>
    ensures takes { Takes Same 2 entire cable_text_due
        (source_seen ⟦<S as Source>⟧ second.old) (source_seen ⟦<S as Source>⟧ second.new) result }
    ensures few { IfOk result (λ read. length read.1 ≤ text_limit) }
{
    let text = take_text::<ToolRefusal, S>(alloc, TEXT_LIMIT, 2, second)?;
    match read_cable(alloc, &text) {
        Ok(read) => Ok(read),
        Err(error) => Err(refuse_cable(error)),
    }
}

/// The hands that items give the senders of a table, where each fits its sender; or why there are none.
fn deal(alloc: Global, table: &Table, cable: Cable, items: Payloads) -> Result<Wired, Outcome>
    requires { length items ≤ text_limit }
    ensures gives { Gives (IsWired table.now) result (fitting_on_cable (items_fit table.now items) (cable, items)) }
    ensures fails { IfErr result IsUndealt }
    ensures ready { IfOk result (λ wired. AreReady table.now wired.hands.items) }
{
    match fits(table, &items) {
        Ok(()) => {
            let hands = hands(alloc, table, items)?;
            Ok(Wired { cable, hands })
        }
        Err(error) => Err(refuse(ToolRefusal::CableUnfit(error))),
    }
}

/// The cable in the second source, and the hands that its items give the senders of a table; or why there are none.
fn take_wired<S: Source>(alloc: Global, table: &Table, second: &mut S) -> Result<Wired, Outcome>
    ensures takes { Takes (IsWired table.now) 2 entire (cable_read_due table.now)
        (source_seen ⟦<S as Source>⟧ second.old) (source_seen ⟦<S as Source>⟧ second.new) result }
    ensures ready { IfOk result (λ wired. AreReady table.now wired.hands.items) }
{
    let (cable, items) = take_cable_text(alloc, second)?;
    deal(alloc, table, cable, items)
}

/// The table in the first source, the cable in the second, and the hands that its items give the table's senders; or why there are none.
/// The second source is pulled only where the first gave a table.
pub fn take_on_cable<S: Source>(
    alloc: Global,
    first: &mut S,
    second: &mut S,
) -> Result<OnCable, Outcome>
    ensures prepares { Prepares IsTakenOnCable (two_sources entire entire) table_refusal_of cable_due
        (sources_seen ⟦<S as Source>⟧ first.old second.old) (sources_seen ⟦<S as Source>⟧ first.new second.new) result }
    ensures ready { IfOk result (λ on. AreReady on.table on.hands.items) }
{
    let table = take_table::<ToolRefusal, S>(alloc, first)?;
    let Wired { cable, hands } = take_wired(alloc, &table, second)?;
    Ok(OnCable {
        table,
        cable,
        hands,
    })
}
