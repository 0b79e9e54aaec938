//! Finding what is wrong with a text that stands beside an accepted table.
ghost use Rattle.std.specs.Prelude.{◌≡◌, ◌≤◌, IfOk, IsTrue, Ok, length};
ghost use Rattle.bus_regime.specs.Verdicts.{verdict_of, is_accepted};
ghost use Rattle.bus_table.specs.Hands.{are_hands};
ghost use Rattle.bus_schedule.specs.Even.{are_even, rounds as rounds_of};
ghost use Rattle.bus_schedule.specs.Uneven.{uneven_of};
ghost use Rattle.bus_trace.specs.Limits.{trace_limit};
ghost use Rattle.bus_trace.specs.Runs.{reading};
ghost use Rattle.bus_trace.specs.States.{last_end as last_end_of};
ghost use Rattle.bus_diagnosis.specs.Diagnoses as diagnoses;

use crate::diagnosis::Diagnosis;
use crate::kind::{Kind, first_of};
use crate::misfit::{item_number, unfit_at};
use crate::reach::reach_of;
use bus_cable::{Cable, CableError, read_cable};
use bus_command::TEXT_LIMIT;
use bus_hands::{fits, hands};
use bus_outer::SteadySource;
use bus_schedule::{LONGEST_END, closed_end, find_uneven};
use bus_strings::{MessagesError, Payloads, Transmission, read_messages};
use bus_table::{Hand, Table};
use bus_text::{Reason, line_after};
use bus_trace::{Trace, TraceError, read_trace};
use std::alloc::{AllocError, Global};

/// How many bytes of a trace are given at a time.
const PIECE: usize = 65_536;

/// A line of a text of this kind is refused.
fn refused_line(kind: Kind, text: &[u8], line: u64, reason: Reason) -> Diagnosis
    ensures { result ≡ diagnoses.refused_line kind text.now (record { line = line; reason = reason }) }
{
    Diagnosis::Line {
        kind,
        first: line == first_of(text).line,
        line,
        reason,
    }
}

/// How many messages each of some even hands has.
fn rounds(hands: &[Hand]) -> u64
    ensures { result ≡ rounds_of hands.now }
{
    match hands.first() {
        None => 0,
        Some(hand) => hand.messages.len() as u64,
    }
}

/// What is found of even hands.
fn run_found(table: &Table, hands: &[Hand]) -> Diagnosis
    requires { IsTrue (are_even table.now hands.now) }
    ensures { result ≡ diagnoses.run_found table.now hands.now }
{
    let end = closed_end(table, hands);
    if end > u128::from(LONGEST_END) {
        return Diagnosis::TooLong { end };
    }
    Diagnosis::Runs {
        rounds: rounds(hands),
        senders: table.senders().len() as u64,
        end,
    }
}

/// What is found of hands that may be uneven.
fn messages_hands(table: &Table, hands: &[Hand]) -> Diagnosis
    requires { IsTrue (are_hands table.now.senders hands.now) }
    ensures { result ≡ diagnoses.hands_found (diagnoses.run_found table.now) hands.now (uneven_of table.now hands.now) }
{
    match find_uneven(table, hands) {
        Some(uneven) => Diagnosis::Uneven(uneven),
        None => run_found(table, hands),
    }
}

/// What is found of the items of a messages text.
fn messages_items(
    alloc: Global,
    table: &Table,
    text: &[u8],
    items: Payloads,
) -> Result<Diagnosis, AllocError>
    ensures { IfOk result (λ found. found ≡ diagnoses.messages_found table.now text.now (Ok items)) }
{
    match fits(table, &items) {
        Ok(()) => {
            let hands = hands(alloc, table, items)?;
            Ok(messages_hands(table, &hands))
        }
        Err(error) => Ok(Diagnosis::Unfit(unfit_at(
            table,
            text,
            0,
            &items.items,
            item_number(error),
        ))),
    }
}

/// What is found of a messages text.
fn diagnose_messages(alloc: Global, table: &Table, text: &[u8]) -> Result<Diagnosis, AllocError>
    ensures { IfOk result (λ found. found ≡ diagnoses.messages_text_found table.now text.now) }
{
    if text.len() > TEXT_LIMIT {
        return Ok(Diagnosis::Large {
            kind: Kind::Messages,
        });
    }
    match read_messages(alloc, text) {
        Ok(items) => messages_items(alloc, table, text, items),
        Err(MessagesError::Text { line, reason }) => {
            Ok(refused_line(Kind::Messages, text, line, reason))
        }
        Err(MessagesError::Memory) => Err(AllocError),
    }
}

/// What is found of even hands on a cable.
fn cable_found(table: &Table, cable: &Cable, hands: &[Hand]) -> Diagnosis
    requires { IsTrue (is_accepted (verdict_of table.now)) }
    ensures { result ≡ diagnoses.cable_found table.now cable.now hands.now }
{
    Diagnosis::OnCable {
        rounds: rounds(hands),
        senders: table.senders().len() as u64,
        reach: reach_of(table, cable),
    }
}

/// What is found of hands on a cable that may be uneven.
fn cable_hands(table: &Table, cable: &Cable, hands: &[Hand]) -> Diagnosis
    requires accepted { IsTrue (is_accepted (verdict_of table.now)) }
    requires dealt { IsTrue (are_hands table.now.senders hands.now) }
    ensures { result ≡ diagnoses.hands_found (diagnoses.cable_found table.now cable.now) hands.now (uneven_of table.now hands.now) }
{
    match find_uneven(table, hands) {
        Some(uneven) => Diagnosis::Uneven(uneven),
        None => cable_found(table, cable, hands),
    }
}

/// What is found of a cable and items.
fn cable_items(
    alloc: Global,
    table: &Table,
    text: &[u8],
    cable: &Cable,
    items: Payloads,
) -> Result<Diagnosis, AllocError>
    requires { IsTrue (is_accepted (verdict_of table.now)) }
    ensures { IfOk result (λ found. found ≡ diagnoses.on_cable_found table.now text.now (Ok (cable.now, items))) }
{
    match fits(table, &items) {
        Ok(()) => {
            let hands = hands(alloc, table, items)?;
            Ok(cable_hands(table, cable, &hands))
        }
        Err(error) => Ok(Diagnosis::Unfit(unfit_at(
            table,
            text,
            cable.places().len() as u64 + cable.wakes().len() as u64,
            &items.items,
            item_number(error),
        ))),
    }
}

/// What is found of a cable text.
fn diagnose_cable(alloc: Global, table: &Table, text: &[u8]) -> Result<Diagnosis, AllocError>
    requires { IsTrue (is_accepted (verdict_of table.now)) }
    ensures { IfOk result (λ found. found ≡ diagnoses.cable_text_found table.now text.now) }
{
    if text.len() > TEXT_LIMIT {
        return Ok(Diagnosis::Large { kind: Kind::Cable });
    }
    match read_cable(alloc, text) {
        Ok((cable, items)) => cable_items(alloc, table, text, &cable, items),
        Err(CableError::Text { line, reason }) => Ok(refused_line(Kind::Cable, text, line, reason)),
        Err(CableError::Memory) => Err(AllocError),
    }
}

/// The moment at which the last of these transmissions has ended, or 0.
fn last_end(list: &[Transmission]) -> u64
    ensures { result ≡ last_end_of list.now }
{
    match list.last() {
        Some(last) => last.end(),
        None => 0,
    }
}

/// What is found of a trace.
fn recorded(trace: &Trace) -> Diagnosis
    ensures { result ≡ diagnoses.Recorded (length trace.now.list) trace.now.horizon (last_end_of trace.now.list) }
{
    Diagnosis::Recorded {
        count: trace.list().len() as u64,
        horizon: trace.horizon(),
        end: last_end(trace.list()),
    }
}

/// What is found of a trace text.
fn diagnose_trace(alloc: Global, text: &[u8]) -> Result<Diagnosis, AllocError>
    requires { length text.now ≤ trace_limit }
    ensures { IfOk result (λ found. found ≡ diagnoses.trace_found text.now (reading trace_limit text.now)) }
{
    let mut source = SteadySource::new(Vec::from_slice(alloc, text)?, PIECE);
    match read_trace(alloc, &mut source) {
        Ok(trace) => Ok(recorded(&trace)),
        Err(TraceError::Text { byte, reason }) => Ok(Diagnosis::Byte {
            byte,
            line: line_after(&text[..byte as usize]),
            reason,
        }),
        Err(TraceError::Memory) => Err(AllocError),
        Err(TraceError::ReadFault) | Err(TraceError::TooLarge) => unreachable!(),
    }
}

/// What is found of a text that stands beside an accepted table. Fails only where memory runs out.
pub fn diagnose(alloc: Global, table: &Table, text: &[u8]) -> Result<Diagnosis, AllocError>
    requires accepted { IsTrue (is_accepted (verdict_of table.now)) }
    requires short { length text.now ≤ trace_limit }
    ensures { IfOk result (λ found. found ≡ diagnoses.diagnosis_of table.now text.now) }
{
    let first = first_of(text);
    match first.kind {
        None => Ok(Diagnosis::NoKind { line: first.line }),
        Some(Kind::Messages) => diagnose_messages(alloc, table, text),
        Some(Kind::Cable) => diagnose_cable(alloc, table, text),
        Some(Kind::Trace) => diagnose_trace(alloc, text),
    }
}
