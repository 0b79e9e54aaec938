//! One item of a messages text.
ghost use Rattle.std.specs.Prelude.{◌≡◌, ◌≤◌, nat_le, length, drop, Ok, Err, IfOk, IfErr, OnOk, Some, None, if◌then◌else◌};
ghost use Rattle.std.specs.List.{list_all};
ghost use Rattle.bus_text.specs.inside.Gives.{LineGives};
ghost use Rattle.bus_text.specs.Numbers.{is_hexadecimal, hexadecimal_value};
ghost use Rattle.bus_text.specs.declared.reason.Reason.TheVariants.{Spelling};
ghost use Rattle.bus_strings.specs.Items.{numbers, is_in_range as range_test, IsItem};
ghost use Rattle.bus_strings.specs.Limits.{most_words};
ghost use Rattle.bus_strings.specs.inside.Building.{ReadsAlike, Takes, Refuses};
ghost use Rattle.bus_strings.specs.Reading.{are_spelled, is_colon as colon_test, strings_of, HasFront, item_reading};

use crate::limits::{MOST_STRINGS, MOST_TERMINAL, MOST_WORDS};
use crate::payload::Payload;
use bus_text::{Fields, LineFault, Reason, hexadecimal, plain_decimal};
use std::alloc::{AllocError, Global};

const COLON: &[u8] = b":";

/// A data word: four hexadecimal digits.
fn word(field: &[u8]) -> Option<u16>
    ensures { result ≡ (if is_hexadecimal 4 field.now then Some (hexadecimal_value field.now) else None) }
{
    Some(hexadecimal(field, 4)? as u16)
}

/// Takes data words in front of the fields, as far as they are found without a look for their ends, and puts them behind the others.
fn take_words(words: &mut Vec<u16>, fields: &mut Fields<'_>) -> Result<(), AllocError>
    ensures taken { OnOk result (ReadsAlike words.old.items fields.old words.new.items fields.new) }
    ensures fewer { OnOk result (length fields.new ≤ length fields.old) }
{
    while let Some(word) = fields.next_four() {
        words.push(word)?;
    }
    Ok(())
}

/// Whether a field is the colon behind a wordstring.
fn is_colon(field: &[u8]) -> bool
    ensures { result ≡ colon_test field.now }
{
    match field {
        [byte] => *byte == b':',
        _ => false,
    }
}

/// Takes a field, which is a data word more or the colon behind a wordstring.
fn take_field(
    alloc: Global,
    strings: &mut Vec<Vec<u16>>,
    words: &mut Vec<u16>,
    field: &[u8],
) -> Result<(), LineFault>
    ensures taken { OnOk result (Takes field.now (numbers strings.old.items) words.old.items (numbers strings.new.items) words.new.items) }
    ensures refused { IfErr result (λ fault. Refuses fault field.now (numbers strings.old.items) words.old.items) }
{
    if is_colon(field) {
        strings.push(Vec::from_slice(alloc, words)?)?;
        words.clear();
        return Ok(());
    }
    let Some(word) = word(field) else {
        return Err(LineFault::Refused(Reason::Spelling));
    };
    words.push(word)?;
    Ok(())
}

/// The data words of the wordstrings, between which colons stand. A wordstring is gathered in `words` first, so that each
/// takes only the memory that it needs.
fn strings(
    alloc: Global,
    words: &mut Vec<u16>,
    mut fields: Fields<'_>,
) -> Result<Vec<Vec<u16>>, LineFault>
    ensures { LineGives (λ v. numbers v.items) result (if are_spelled fields.entry then Ok (strings_of fields.entry) else Err Spelling) }
{
    // Most items have one wordstring.
    let mut strings = Vec::with_capacity(alloc, 1)?;
    words.clear();
    while let Some(field) = fields.next() {
        take_field(alloc, &mut strings, words, field)?;
        take_words(words, &mut fields)?;
    }
    strings.push(Vec::from_slice(alloc, words)?)?;
    Ok(strings)
}

/// Whether no wordstring has too many data words.
fn are_short(strings: &[Vec<u16>]) -> bool
    ensures { result ≡ list_all (λ v. nat_le (length v.items) most_words) strings.now }
{
    strings.iter().all(|string| string.len() <= MOST_WORDS)
}

/// Whether an item is in its ranges.
fn is_in_range(terminal: u64, strings: &[Vec<u16>]) -> bool
    ensures { result ≡ range_test (record { terminal = terminal; strings = numbers strings.now }) }
{
    (1..=u64::from(MOST_TERMINAL)).contains(&terminal)
        && (1..=MOST_STRINGS).contains(&strings.len())
        && are_short(strings)
}

/// Takes the fields of a line up to its first colon, and gives the terminal, or the last value of a `u64` where its number
/// is above that.
fn front(fields: &mut Fields<'_>) -> Result<u64, Reason>
    ensures taken { IfOk result (λ terminal. HasFront fields.old terminal × (fields.new ≡ drop 3 fields.old)) }
    ensures refused { IfErr result (λ reason. item_reading fields.old ≡ Err reason) }
{
    if !fields.next_is(b"MSG") {
        return Err(Reason::Keyword);
    }
    let number = fields.next_or_empty();
    if !fields.next_is(COLON) {
        return Err(Reason::Fields);
    }
    match plain_decimal(number) {
        Some(terminal) => Ok(terminal),
        None => Err(Reason::Spelling),
    }
}

/// The item of a line with these fields. `words` is room that is used again from item to item; it holds nothing of use.
pub fn item(
    alloc: Global,
    words: &mut Vec<u16>,
    mut fields: Fields<'_>,
) -> Result<Payload, LineFault>
    ensures exact { LineGives (λ p. p) result (item_reading fields.entry) }
    ensures ranges { IfOk result IsItem }
{
    let terminal = front(&mut fields)?;
    let strings = strings(alloc, words, fields)?;
    if !is_in_range(terminal, &strings) {
        return Err(LineFault::Refused(Reason::Range));
    }
    Ok(Payload {
        terminal: terminal as u8,
        strings,
    })
}
