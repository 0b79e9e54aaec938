//! Reading a messages text.
ghost use Rattle.std.specs.Prelude.{◌≡◌, ◌≤◌, List, length, IfOk, IfErr};
ghost use Rattle.std.specs.List.{AllByRecursion};
ghost use Rattle.bus_text.specs.AllOf.{all_of};
ghost use Rattle.bus_text.specs.Entries.{entry};
ghost use Rattle.bus_text.specs.Gives.{Gives, Refuses};
ghost use Rattle.bus_strings.specs.Items.{Item, IsItem};
ghost use Rattle.bus_strings.specs.Grammar.{IsMessagesText};
ghost use Rattle.bus_strings.specs.Reading.{item_line, messages_reading};

use crate::item::item;
use crate::payload::{Payload, Payloads};
use bus_text::{Fields, Line, LineFault, Lines, Reason, TextError, headed_lines};
use std::alloc::Global;

/// Why a messages text wasn't read.
pub type MessagesError = TextError<Reason>;

/// Reads the line of an item, as a messages text has behind its first line, or refuses it as such a text does.
///
/// `words` is room that is used again from item to item; it holds nothing of use. [`MessagesError::Memory`] comes only where memory ran
/// out. A grammar that has items behind lines of its own reads them by this call.
pub fn read_item(
    alloc: Global,
    words: &mut Vec<u16>,
    line: Line<'_>,
) -> Result<Payload, MessagesError>
    ensures exact { Gives (λ p. p) result (item_line (entry line.entry)) }
    ensures ranges { IfOk result IsItem }
{
    match item(alloc, words, Fields::new(line.bytes)) {
        Ok(payload) => Ok(payload),
        Err(LineFault::Memory) => Err(MessagesError::Memory),
        Err(LineFault::Refused(reason)) => Err(MessagesError::Text {
            line: line.number,
            reason,
        }),
    }
}

/// Reads the lines behind the first.
fn items(alloc: Global, lines: Lines<'_>) -> Result<Vec<Payload>, MessagesError>
    ensures exact { Gives (λ v. v.items) result (all_of item_line lines.entry) }
    ensures ranges { IfOk result (λ v. AllByRecursion IsItem v.items) }
{
    let mut items = Vec::new(alloc);
    let mut words = Vec::new(alloc);
    for line in lines {
        items.push(read_item(alloc, &mut words, line)?)?;
    }
    Ok(items)
}

/// The lines of the items of a messages text, behind its first line; [`read_item`] reads each.
///
/// [`MessagesError::Text`] comes exactly where the first line isn't that of a messages text, or there is none.
pub fn item_lines(text: &[u8]) -> Result<Lines<'_>, MessagesError>
    ensures items { IfOk result (λ lines. messages_reading text.now ≡ all_of item_line lines) }
    ensures refused { IfErr result (λ error. Refuses error (messages_reading text.now)) }
    ensures few { IfOk result (λ lines. length lines ≤ length text.now) }
{
    headed_lines(text, b"MESSAGES")
}

/// Reads the header and the items.
fn read(alloc: Global, text: &[u8]) -> Result<Payloads, MessagesError>
    ensures { Gives (λ v. v) result (messages_reading text.now) }
{
    match item_lines(text) {
        Ok(lines) => {
            let items = items(alloc, lines)?;
            Ok(Payloads { items })
        }
        Err(error) => Err(error),
    }
}

/// Reads a messages text: the items that it stands for, or the first line that is refused and why.
///
/// [`MessagesError::Text`] comes exactly where the text stands for no items, [`MessagesError::Memory`] only where memory
/// ran out. No more memory is taken than the items need.
pub fn read_messages(alloc: Global, text: &[u8]) -> Result<Payloads, MessagesError>
    // What is read is what the text stands for.
    ensures found { IfOk result (λ items. IsMessagesText items text.now) }
    // What a text stands for is read, unless memory runs out.
    ensures only { (items : List Item) → IsMessagesText items text.now → Gives (λ v. v) result (Ok items) }
    // Which line is refused, and why.
    ensures exact { Gives (λ v. v) result (messages_reading text.now) }
    ensures few { IfOk result (λ items. length items ≤ length text.now) }
{
    read(alloc, text)
}
