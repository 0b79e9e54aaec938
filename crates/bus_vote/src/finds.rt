//! Where the wordstrings of some labels stand in a list, found by one pass over it.
ghost use Rattle.std.specs.Prelude.{◌≡◌, ◌<◌, ◌++◌, ◌^◌, [], IsTrue, length, take};
ghost use Rattle.std.specs.List.{flat_map};
ghost use Rattle.bus_vote.specs.inside.Finds.{string_finds, finds_before, is_wanted as wanted_in};
ghost use Rattle.bus_vote.specs.inside.Walks.{IsSent, IsReach};

use crate::mark::is_garbled;
use arrayvec::ArrayVec;
use bus_strings::limits::TERMINALS;
use bus_strings::{Transmission, Wordstring};
use bus_words::Label;

/// How many finds there is room for, on the stack.
pub(crate) const MOST_FINDS: usize = 80_000;

/// A wordstring of a label that is looked for.
#[derive(Clone, Copy, Debug, Default, PartialEq, Eq)]
pub(crate) struct Find {
    /// The place of its transmission in the list.
    pub place: u32,
    /// How many transmissions its terminal sent before.
    pub round: u32,
    /// The number of its label.
    pub label: u16,
    /// The terminal of its transmission.
    pub terminal: u8,
}

/// The finds of a pass.
pub(crate) type Finds = ArrayVec<Find, MOST_FINDS>;

/// Whether a label is looked for.
pub(crate) fn is_wanted(wanted: &[bool], label: Label) -> bool
    ensures { result ≡ wanted_in wanted.now label }
{
    match wanted.get(usize::from(label.value())) {
        None => false,
        Some(yes) => *yes,
    }
}

/// Adds the find that a wordstring of the transmission at a place is, if it is one. False where there is no room for it.
fn add_string(
    finds: &mut Finds,
    wanted: &[bool],
    list: &[Transmission],
    at: usize,
    reach: u64,
    terminal: u8,
    round: u32,
    string: &Wordstring,
) -> bool
    requires sent { IsSent list.now }
    requires within { at < length list.now }
    requires narrow { length list.now < 2 ^ 32 }
    requires reach { IsReach (take at list.now) reach }
    ensures { IsTrue result → finds.new.items ≡ finds.old.items ++ string_finds wanted.now list.now at terminal round string.now }
{
    let label = string.label();
    if !is_wanted(wanted, label) || is_garbled(list, at, reach) {
        return true;
    }
    let find = Find {
        place: at as u32,
        round,
        label: label.value(),
        terminal,
    };
    finds.try_push(find).is_ok()
}

/// Adds the finds that wordstrings of the transmission at a place are. False where there is no room for them.
fn add_strings(
    finds: &mut Finds,
    wanted: &[bool],
    list: &[Transmission],
    at: usize,
    reach: u64,
    terminal: u8,
    round: u32,
    strings: &[Wordstring],
) -> bool
    requires sent { IsSent list.now }
    requires within { at < length list.now }
    requires narrow { length list.now < 2 ^ 32 }
    requires reach { IsReach (take at list.now) reach }
    ensures { IsTrue result
        → finds.new.items ≡ finds.old.items ++ flat_map (string_finds wanted.now list.now at terminal round) strings.now }
{
    for string in strings {
        if !add_string(finds, wanted, list, at, reach, terminal, round, string) {
            return false;
        }
    }
    true
}

/// Finds the wordstrings of the labels that are looked for, in a list whose places are numbers of 32 bits. False where there is no room
/// for all.
fn find_all(finds: &mut Finds, wanted: &[bool], list: &[Transmission]) -> bool
    requires sent { IsSent list.now }
    requires narrow { length list.now < 2 ^ 32 }
    requires none { finds.old.items ≡ [] }
    ensures { IsTrue result → finds.new.items ≡ finds_before wanted.now list.now (length list.now) }
{
    // By terminal, how many transmissions it has sent so far.
    let mut sent = [0u32; TERMINALS];
    let mut reach = 0;
    for at in 0..list.len() {
        let x = &list[at];
        let terminal = usize::from(x.terminal);
        let round = sent[terminal];
        if !add_strings(
            finds,
            wanted,
            list,
            at,
            reach,
            x.terminal,
            round,
            x.message.strings(),
        ) {
            return false;
        }
        sent[terminal] = round + 1;
        reach = x.end().max(reach);
    }
    true
}

/// Finds the wordstrings of the labels that are looked for. False where there is no room for all.
pub(crate) fn gather(finds: &mut Finds, wanted: &[bool], list: &[Transmission]) -> bool
    requires { IsSent list.now }
    ensures { IsTrue result → finds.new.items ≡ finds_before wanted.now list.now (length list.now) }
{
    finds.clear();
    list.len() <= u32::MAX as usize && find_all(finds, wanted, list)
}
