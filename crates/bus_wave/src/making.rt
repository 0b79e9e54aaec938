//! A message and its wordstrings, made of what the lines gave.
ghost use Rattle.std.specs.Prelude.{◌≡◌, ◌<◌, ◌≤◌, ◌++◌, ◌∷◌, [], length, IfOk, OnOk};
ghost use Rattle.bus_strings.specs.Limits.{most_strings, most_words};
ghost use Rattle.bus_wave.specs.Judging.{string_of};

use bus_strings::{Message, Wordstring};
use bus_table::SendLine;
use std::alloc::{AllocError, Global};
use std::mem::replace;

/// The wordstring of a SEND line and of data words.
pub(crate) fn wordstring(
    alloc: Global,
    line: SendLine,
    words: &[u16],
) -> Result<Wordstring, AllocError>
    requires { length words.now ≤ most_words }
    ensures { IfOk result (λ string. string ≡ string_of line words.now) }
{
    Wordstring::of(alloc, line.label, line.ext, words)
}

/// The message of wordstrings and of one behind them. A message of one takes no memory.
pub(crate) fn message(
    alloc: Global,
    strings: &mut Vec<Wordstring>,
    last: Wordstring,
) -> Result<Message, AllocError>
    requires { length strings.old.items < most_strings }
    ensures { IfOk result (λ message. message ≡ strings.old.items ++ last ∷ []) }
{
    if strings.is_empty() {
        return Ok(Message::one(alloc, last));
    }
    strings.push(last)?;
    Ok(Message::new(replace(strings, Vec::new(alloc))).unwrap())
}

/// Empties the room for wordstrings, and makes it large enough for so many where they are more than one.
pub(crate) fn clear_for(strings: &mut Vec<Wordstring>, count: usize) -> Result<(), AllocError>
    ensures { OnOk result (strings.new.items ≡ []) }
{
    strings.clear();
    if count > 1 {
        strings.reserve(count)?;
    }
    Ok(())
}
