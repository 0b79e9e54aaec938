//! Reading a cable text.
ghost use Rattle.std.specs.Prelude.{◌≡◌, ◌≢◌, ◌≤◌, List, length, IfOk, MatchOption, Ok};
ghost use Rattle.std.specs.List.{AllByRecursion};
ghost use Rattle.bus_text.specs.AllOf.{all_of};
ghost use Rattle.bus_text.specs.Entries.{entry};
ghost use Rattle.bus_text.specs.Gives.{Gives};
ghost use Rattle.bus_text.specs.Refusals.{at_line};
ghost use Rattle.bus_strings.specs.Items.{Item, IsItem};
ghost use Rattle.bus_strings.specs.Reading.{item_line};
ghost use Rattle.bus_cable.specs.Cables as cables;
ghost use Rattle.bus_cable.specs.Cables.{most_wake};
ghost use Rattle.bus_cable.specs.Grammar.{IsCableText};
ghost use Rattle.bus_cable.specs.Reading.{named_reading, front_of, behind, begins_with, named_lines};
ghost use Rattle.bus_cable.specs.Reading.{body_reading, cable_reading};
ghost use Rattle.bus_cable.specs.inside.Ahead.{ahead, HasThree};

use crate::cable::{Cable, MOST_WAKE, Named, may_name};
use bus_propagation::MOST_PLACE;
use bus_strings::{Payload, Payloads, read_item};
use bus_text::{Fields, Line, Lines, Reason, TextError, headed_lines, plain_decimal};
use std::alloc::Global;

/// Why a cable text wasn't read.
pub type CableError = TextError<Reason>;

/// The fields of a terminal and of bit times, where there are three fields, the keyword's among them.
fn number_and_bits<'a>(mut fields: Fields<'a>) -> Option<(&'a [u8], &'a [u8])>
    ensures { MatchOption result (length fields.entry ≢ 3) (λ r. HasThree fields.entry r.0.now r.1.now) }
{
    fields.next()?;
    let number = fields.next()?;
    let bits = fields.next()?;
    match fields.next() {
        None => Some((number, bits)),
        Some(_) => None,
    }
}

/// Reads the fields of a line that begins with the keyword of places or wakes, behind one of the terminal `last`.
fn named(most: u64, last: u8, fields: Fields<'_>) -> Result<Named, Reason>
    requires { most ≤ most_wake }
    ensures { result ≡ named_reading most last fields.entry }
{
    let Some((number, bits)) = number_and_bits(fields) else {
        return Err(Reason::Fields);
    };
    let (Some(terminal), Some(bits)) = (plain_decimal(number), plain_decimal(bits)) else {
        return Err(Reason::Spelling);
    };
    if !may_name(most, last, terminal, bits) {
        return Err(Reason::Range);
    }
    Ok(Named {
        terminal: terminal as u8,
        bits,
    })
}

/// Reads such a line.
fn named_at(most: u64, last: u8, line: Line<'_>) -> Result<Named, CableError>
    requires { most ≤ most_wake }
    ensures { Gives (λ n. n) result (at_line line.entry.number (named_reading most last (entry line.entry).fields)) }
{
    match named(most, last, Fields::new(line.bytes)) {
        Ok(named) => Ok(named),
        Err(reason) => Err(CableError::Text {
            line: line.number,
            reason,
        }),
    }
}

/// Whether a line begins with a keyword.
fn begins_with(line: Line<'_>, word: &[u8]) -> bool
    ensures { result ≡ begins_with word.now (entry line.entry) }
{
    Fields::new(line.bytes).next_is(word)
}

/// Reads the lines at the front that begin with a keyword, from `first` on, and gives the line behind them.
fn named_lines<'a>(
    alloc: Global,
    lines: &mut Lines<'a>,
    first: Option<Line<'a>>,
    word: &[u8],
    most: u64,
) -> Result<(Vec<Named>, Option<Line<'a>>), CableError>
    requires { most ≤ most_wake }
    ensures exact { Gives (λ read. read.0.items) result (named_lines most 0 (front_of word.now (ahead first.entry lines.old))) }
    ensures behind { IfOk result (λ read. ahead read.1 lines.new ≡ behind word.now (ahead first.entry lines.old)) }
{
    let mut named = Vec::new(alloc);
    let mut last = 0;
    let mut next = first;
    while let Some(line) = next {
        if !begins_with(line, word) {
            break;
        }
        let one = named_at(most, last, line)?;
        last = one.terminal;
        named.push(one)?;
        next = lines.next();
    }
    Ok((named, next))
}

/// Reads the items, from the line `first` on.
fn items<'a>(
    alloc: Global,
    lines: &mut Lines<'a>,
    first: Option<Line<'a>>,
) -> Result<Vec<Payload>, CableError>
    ensures exact { Gives (λ v. v.items) result (all_of item_line (ahead first.entry lines.old)) }
    ensures ranges { IfOk result (λ v. AllByRecursion IsItem v.items) }
{
    let mut items = Vec::new(alloc);
    let mut words = Vec::new(alloc);
    let mut next = first;
    while let Some(line) = next {
        items.push(read_item(alloc, &mut words, line)?)?;
        next = lines.next();
    }
    Ok(items)
}

/// Reads the lines behind the header.
fn body(alloc: Global, lines: &mut Lines<'_>) -> Result<(Cable, Payloads), CableError>
    ensures { Gives (λ read. read) result (body_reading lines.old) }
{
    let first = lines.next();
    let (places, first) = named_lines(alloc, lines, first, b"PLACE", MOST_PLACE)?;
    let (wakes, first) = named_lines(alloc, lines, first, b"WAKE", MOST_WAKE)?;
    let items = items(alloc, lines, first)?;
    Ok((Cable::of_lines(places, wakes), Payloads { items }))
}

/// Reads the header and what is behind it.
fn read(alloc: Global, text: &[u8]) -> Result<(Cable, Payloads), CableError>
    ensures { Gives (λ read. read) result (cable_reading text.now) }
{
    let mut lines = headed_lines(text, b"CABLE")?;
    body(alloc, &mut lines)
}

/// Reads a cable text: the cable and the items that it stands for, or the first line that is refused and why.
///
/// [`CableError::Text`] comes exactly where the text stands for no cable and items, [`CableError::Memory`] only where memory ran out.
/// No more memory is taken than what is named and the items need.
pub fn read_cable(alloc: Global, text: &[u8]) -> Result<(Cable, Payloads), CableError>
    // What is read is what the text stands for.
    ensures found { IfOk result (λ read. IsCableText read.0 read.1 text.now) }
    // What a text stands for is read, unless memory runs out.
    ensures only { (cable : cables.Cable) (items : List Item) → IsCableText cable items text.now
        → Gives (λ v. v) result (Ok (cable, items)) }
    // Which line is refused, and why.
    ensures exact { Gives (λ v. v) result (cable_reading text.now) }
    ensures few { IfOk result (λ read. length read.1 ≤ length text.now) }
{
    read(alloc, text)
}
