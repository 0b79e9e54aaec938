//! The senders of a table as JSON values.
ghost use Rattle.std.specs.Prelude.{◌≡◌, ◌+◌, ◌<◌, map, length, IfOk, IfSome, Some};
ghost use Rattle.std.specs.Option.{option_map};
ghost use Rattle.serde_json.specs.Data.{number};
ghost use Rattle.serde_json.specs.Find.{of_integer};
ghost use Rattle.serde_json.specs.View.{view};
ghost use Rattle.bus_table.specs.declared.mode.Mode.TheVariants.{Aperiodic, Periodic};
ghost use Rattle.bus_regime.specs.Gaps.{width as gap_width};
ghost use Rattle.bus_reach.specs.Latency as latencies;
ghost use Rattle.bus_facts.specs.Senders as senders;
ghost use Rattle.bus_facts.specs.inside.Slow.{IsSlow};

use crate::pace::Pace;
use crate::taken::taken_by_value;
use crate::values::{count_or_null, delayed, ext_text, label_text};
use bus_reach::{latency, longest_wait};
use bus_regime::{TurnGap, gap_at, turn_ends};
use bus_table::{Mode, SendLine, Sender, Table, longest, shortest, turn_at, turn_places};
use serde_json::{Value, json};
use std::alloc::{AllocError, Global};

/// The longest wait of a sender with delays up to the tolerance, where that has an end.
fn tolerated_wait(table: &Table, pace: Pace) -> Option<u64>
    requires { IsSlow pace }
    ensures { result ≡ option_map (latencies.longest_wait table.now pace.most) pace.tolerance }
{
    match pace.tolerance {
        Some(d) => Some(longest_wait(table, pace.most, d)),
        None => None,
    }
}

/// The longest wait from one start of a sender to its next, with delays up to the tolerance and without; null of a refused table.
fn wait_value(alloc: Global, table: &Table, pace: Option<Pace>) -> Result<Value, AllocError>
    requires { IfSome pace IsSlow }
    ensures { IfOk result (λ value. view value ≡ senders.wait_value table.now pace) }
{
    match pace {
        Some(pace) => delayed(
            alloc,
            tolerated_wait(table, pace),
            longest_wait(table, pace.most, 0),
        ),
        None => Ok(Value::Null),
    }
}

/// The latency of data on the line at this place of a sender with delays up to the tolerance, where that has an end.
fn tolerated_latency(table: &Table, pace: Pace, sender: &Sender, place: usize) -> Option<u64>
    requires slow { IsSlow pace }
    requires place { place < length sender.now.sends }
    ensures { result ≡ option_map (λ d. latencies.latency table.now pace.most d sender.now place) pace.tolerance }
{
    match pace.tolerance {
        Some(d) => Some(latency(table, pace.most, d, sender, place)),
        None => None,
    }
}

/// The latency of data on the line at this place of a sender, from 0, with delays up to the tolerance and without; null of a refused table.
fn latency_value(
    alloc: Global,
    table: &Table,
    pace: Option<Pace>,
    sender: &Sender,
    place: usize,
) -> Result<Value, AllocError>
    requires slow { IfSome pace IsSlow }
    requires place { place < length sender.now.sends }
    ensures { IfOk result (λ value. view value ≡ senders.latency_value table.now pace sender.now place) }
{
    match pace {
        Some(pace) => delayed(
            alloc,
            tolerated_latency(table, pace, sender, place),
            latency(table, pace.most, 0, sender, place),
        ),
        None => Ok(Value::Null),
    }
}

/// A wordstring with this latency, which these terminals take.
fn send_value(
    alloc: Global,
    latency: Value,
    taken_by: Value,
    line: &SendLine,
) -> Result<Value, AllocError>
    ensures { IfOk result (λ value. view value ≡ senders.send_value (view latency) (view taken_by) line.now) }
{
    let ext = ext_text(alloc, line.ext)?;
    let label = label_text(alloc, line.label)?;
    json!(in alloc; {
        "ext": ext,
        "label": label,
        "latency": latency,
        "least": line.least,
        "most": line.most,
        "taken_by": taken_by
    })
}

/// The wordstrings of a sender.
fn send_values(
    alloc: Global,
    table: &Table,
    pace: Option<Pace>,
    sender: &Sender,
) -> Result<Vec<Value>, AllocError>
    requires { IfSome pace IsSlow }
    ensures { IfOk result (λ values. map view values.items ≡ senders.send_values table.now pace sender.now 0 sender.now.sends) }
{
    let sends = sender.sends();
    let mut values = Vec::with_capacity(alloc, sends.len())?;
    for place in 0..sends.len() {
        let latency = latency_value(alloc, table, pace, sender, place)?;
        let taken_by = taken_by_value(alloc, table, sender.number(), &sends[place])?;
        values.push(send_value(alloc, latency, taken_by, &sends[place])?)?;
    }
    Ok(values)
}

/// A sender, whose offset it has in periodic mode alone, behind this gap.
fn sender_value(
    alloc: Global,
    table: &Table,
    pace: Option<Pace>,
    at: Option<u64>,
    gap: Value,
    sender: &Sender,
) -> Result<Value, AllocError>
    requires { IfSome pace IsSlow }
    ensures { IfOk result (λ value. view value ≡ senders.sender_value table.now pace at (view gap) sender.now) }
{
    let sends = send_values(alloc, table, pace, sender)?;
    let wait = wait_value(alloc, table, pace)?;
    json!(in alloc; {
        "at": count_or_null(at),
        "gap": gap,
        "longest": longest(sender),
        "number": sender.number(),
        "sends": sends,
        "shortest": shortest(sender),
        "tg": sender.tg(),
        "wait": wait
    })
}

/// The senders of an aperiodic table, in turn order.
fn turn_values(alloc: Global, table: &Table, pace: Option<Pace>) -> Result<Vec<Value>, AllocError>
    requires { IfSome pace IsSlow }
    ensures { IfOk result (λ values. map view values.items ≡ senders.sender_values_in Aperiodic table.now pace) }
{
    let places = turn_places(table);
    let mut values = Vec::new(alloc);
    let mut before = table.sg();
    for k in 0..table.senders().len() {
        let sender = turn_at(table, &places, k);
        let gap = Value::from(before + sender.tg());
        values.push(sender_value(alloc, table, pace, None, gap, sender)?)?;
        before = 0;
    }
    Ok(values)
}

/// The bit times of a gap, below 0 where it is an overlap.
fn width(gap: &TurnGap<'_>) -> i64
    ensures { result ≡ gap_width gap.now }
{
    gap.end() as i64 - gap.begin() as i64
}

/// A number, which may be below 0.
fn integer(n: i64) -> Value
    ensures { view result ≡ number (of_integer n) }
{
    Value::from(n)
}

/// A sender that starts at its offset, behind this gap.
fn offset_value(
    alloc: Global,
    table: &Table,
    pace: Option<Pace>,
    gap: &TurnGap<'_>,
) -> Result<Value, AllocError>
    requires { IfSome pace IsSlow }
    ensures { IfOk result (λ value. view value ≡ senders.offset_value table.now pace gap.now) }
{
    let sender = gap.sender();
    let at = Some(u64::from(sender.at()));
    sender_value(alloc, table, pace, at, integer(width(gap)), sender)
}

/// The senders of a periodic table, in turn order.
fn offset_values(alloc: Global, table: &Table, pace: Option<Pace>) -> Result<Vec<Value>, AllocError>
    requires { IfSome pace IsSlow }
    ensures { IfOk result (λ values. map view values.items ≡ senders.sender_values_in Periodic table.now pace) }
{
    let places = turn_places(table);
    let ends = turn_ends(table, &places);
    let mut values = Vec::new(alloc);
    for k in 0..table.senders().len() {
        let gap = gap_at(table, &places, &ends, k);
        values.push(offset_value(alloc, table, pace, &gap)?)?;
    }
    Ok(values)
}

/// The senders of a table, in turn order; `pace` is told of an accepted one alone.
pub(crate) fn senders_value(
    alloc: Global,
    table: &Table,
    pace: Option<Pace>,
) -> Result<Value, AllocError>
    requires { IfSome pace IsSlow }
    ensures { IfOk result (λ value. view value ≡ senders.senders_value table.now pace) }
{
    match table.mode() {
        Mode::Aperiodic => Ok(Value::from(turn_values(alloc, table, pace)?)),
        Mode::Periodic => Ok(Value::from(offset_values(alloc, table, pace)?)),
    }
}
