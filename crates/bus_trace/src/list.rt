//! The transmissions of a trace, as its lines add to them.
ghost use Rattle.std.specs.Prelude.{◌≡◌, ◌<◌, ◌≤◌, [], ◌∷◌, ◌++◌, ◌^◌, OnOk, OnErr};
ghost use Rattle.bus_strings.specs.Limits.{horizon_limit, most_terminal, most_strings};
ghost use Rattle.bus_trace.specs.States.{last_count as count_of, last_terminal as last_of, comes_after as comes_test};
ghost use Rattle.bus_trace.specs.States.{is_after as after_test, with_string, more_list};
ghost use Rattle.bus_trace.specs.inside.Sound.{TakesString};
ghost use Rattle.bus_trace.specs.States.{last_moment as moment_of, last_sender as sender_of, last_end as last_end_of};

use crate::hold::Hold;
use crate::position::Position;
use bus_strings::{Message, Transmission, Wordstring};
use std::alloc::{AllocError, Global};

/// The terminal of the last hold, or 0.
pub(crate) fn last_terminal(holds: &[Hold]) -> u8
    ensures { result ≡ last_of holds.now }
{
    match holds.last() {
        Some(hold) => hold.terminal,
        None => 0,
    }
}

/// How many wordstrings the last transmission has.
pub(crate) fn last_count(list: &[Transmission]) -> usize
    ensures { result ≡ count_of list.now }
{
    match list.last() {
        Some(last) => last.message.strings().len(),
        None => 0,
    }
}

/// The moment of the last transmission, or 0.
pub(crate) fn last_moment(list: &[Transmission]) -> u64
    ensures value { result ≡ moment_of list.now }
    ensures room { result < 2 ^ 41 }
{
    match list.last() {
        Some(last) => last.moment,
        None => 0,
    }
}

/// The terminal of the last transmission, or 0.
pub(crate) fn last_sender(list: &[Transmission]) -> u8
    ensures { result ≡ sender_of list.now }
{
    match list.last() {
        Some(last) => last.terminal,
        None => 0,
    }
}

/// The moment at which the last transmission has ended, or 0.
pub(crate) fn last_end(list: &[Transmission]) -> u64
    ensures value { result ≡ last_end_of list.now }
    ensures room { result < 2 ^ 41 }
{
    match list.last() {
        Some(last) => {
            let _moment = last.moment;
            last.end()
        }
        None => 0,
    }
}

/// Whether a moment and a terminal ascend behind a transmission.
fn comes_after(last: &Transmission, moment: u64, terminal: u64) -> bool
    ensures { result ≡ comes_test last.now moment terminal }
{
    last.moment < moment || (last.moment == moment && u64::from(last.terminal) < terminal)
}

/// Whether a moment and a terminal ascend behind a list.
pub(crate) fn is_after(list: &[Transmission], moment: u64, terminal: u64) -> bool
    ensures { result ≡ after_test list.now moment terminal }
{
    match list.last() {
        Some(last) => comes_after(last, moment, terminal),
        None => true,
    }
}

/// Adds a wordstring to the last transmission.
fn add_string(list: &mut Vec<Transmission>, string: Wordstring) -> Result<(), AllocError>
    requires { count_of list.old.items < most_strings }
    ensures ok { OnOk result (list.new.items ≡ with_string string list.old.items) }
    ensures err { OnErr result (list.new.items ≡ list.old.items) }
{
    if let Some(last) = list.last_mut() {
        last.message.push(string)?;
    }
    Ok(())
}

/// Adds a transmission of one wordstring.
fn add_transmission(
    alloc: Global,
    list: &mut Vec<Transmission>,
    moment: u64,
    terminal: u8,
    string: Wordstring,
) -> Result<(), AllocError>
    requires moment { moment < horizon_limit }
    requires positive { 1 ≤ terminal }
    requires low { terminal ≤ most_terminal }
    ensures ok { OnOk result (list.new.items ≡
        list.old.items ++ record { moment = moment; terminal = terminal; message = string ∷ [] } ∷ []) }
    ensures err { OnErr result (list.new.items ≡ list.old.items) }
{
    list.push(Transmission {
        moment,
        terminal,
        message: Message::one(alloc, string),
    })?;
    Ok(())
}

/// Takes the wordstring of a WS line: behind a TX line it makes its transmission, else it adds to the last one.
pub(crate) fn take_string(
    alloc: Global,
    list: &mut Vec<Transmission>,
    position: Position,
    string: Wordstring,
) -> Result<(), AllocError>
    requires { TakesString position (count_of list.old.items) }
    ensures ok { OnOk result (list.new.items ≡ more_list position string list.old.items) }
    ensures err { OnErr result (list.new.items ≡ list.old.items) }
{
    match position {
        Position::Begun { moment, terminal } => {
            add_transmission(alloc, list, moment, terminal, string)
        }
        _ => add_string(list, string),
    }
}
