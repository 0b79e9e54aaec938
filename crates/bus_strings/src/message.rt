//! A message: the wordstrings that a terminal sends at one start.
ghost use Rattle.std.specs.Prelude.{◌≡◌, ◌<◌, ◌≤◌, ◌↔◌, IsSome, [], ◌∷◌, ◌++◌, IfSome, IfOk, OnOk, OnErr, length, vec_len};
ghost use Rattle.bus_strings.specs.Limits.{most_strings};
ghost use Rattle.bus_strings.specs.Messages.{IsMessage, bits as bits_in};
ghost use Rattle.bus_strings.specs.inside.Kept.{kept_message, AreKept};

use crate::limits::{INNER_GAP, MOST_STRINGS, WORD_BITS};
use crate::pulses::bits_of;
use crate::wordstring::Wordstring;
use std::alloc::{AllocError, Global};
use std::marker::Model;
use std::slice;

/// What a terminal sends at one start: 1 to 31 wordstrings. How many there may be is this project's profile.
#[derive(Debug, Drop)]
pub struct Message {
    strings: Strings,
}

/// Most messages have one wordstring, which takes no memory of its own. Of more, the bit times are known.
#[derive(Debug, Drop)]
enum Strings {
    One { alloc: Global, string: Wordstring },
    Many { bits: u32, strings: Vec<Wordstring> },
}

impl Model for Message {
    ghost use Rattle.bus_strings.specs.Messages as messages;

    ghost Value = { messages.Message };

    ghost use Rattle.bus_strings.specs.inside.Kept.{kept_message, AreKept};

    ghost view = { λ m. kept_message m.strings };

    ghost invariant = { λ m. AreKept m.strings };
}

impl Message {
    /// None where there are no wordstrings, or more than 31.
    pub fn new(strings: Vec<Wordstring>) -> Option<Message>
        ensures some { IsSome result ↔ ((0 < vec_len strings) × (vec_len strings ≤ most_strings)) }
        ensures value { IfSome result (λ m. m ≡ strings.items) }
    {
        if strings.is_empty() || strings.len() > MOST_STRINGS {
            return None;
        }
        // A look at each wordstring, of which nothing is left in the built program, makes its ranges known.
        for string in &strings {
            let _ranges = string.words();
        }
        let bits = bits_of(&strings);
        Some(Message {
            strings: Strings::Many { bits, strings },
        })
    }

    /// A message of one wordstring. It takes no memory; `alloc` is where further ones would go.
    pub fn one(alloc: Global, string: Wordstring) -> Message
        ensures { result ≡ string ∷ [] }
    {
        let _ranges = string.words();
        Message {
            strings: Strings::One { alloc, string },
        }
    }

    /// Adds a wordstring behind the others, of which there are fewer than 31. Fails only where memory runs out, and
    /// leaves the message as it was.
    pub fn push(&mut self, string: Wordstring) -> Result<(), AllocError>
        requires { length self.old < most_strings }
        ensures ok { OnOk result (self.new ≡ self.old ++ string ∷ []) }
        ensures err { OnErr result (self.new ≡ self.old) }
    {
        let _ranges = string.words();
        if let Strings::One {
            alloc,
            string: first,
        } = &self.strings
        {
            self.strings = both(*alloc, first, string)?;
            return Ok(());
        }
        let all = self.bits() + INNER_GAP + WORD_BITS * string.word_count();
        if let Strings::Many { strings, .. } = &mut self.strings {
            strings.push(string)?;
        }
        if let Strings::Many { bits, .. } = &mut self.strings {
            *bits = all;
        }
        Ok(())
    }

    /// Its wordstrings, in order.
    pub fn strings(&self) -> &[Wordstring]
        ensures value { result.now ≡ self.now }
        ensures ranges { IsMessage self.now }
    {
        match &self.strings {
            Strings::One { string, .. } => slice::from_ref(string),
            Strings::Many { strings, .. } => strings,
        }
    }

    /// The bit times of the message, which is not walked.
    pub(crate) fn bits(&self) -> u32
        ensures value { result ≡ bits_in self.now }
        ensures ranges { IsMessage self.now }
    {
        match &self.strings {
            Strings::One { string, .. } => WORD_BITS * string.word_count(),
            Strings::Many { bits, .. } => *bits,
        }
    }
}

/// Both wordstrings.
fn both(alloc: Global, first: &Wordstring, second: Wordstring) -> Result<Strings, AllocError>
    ensures { IfOk result (λ both. (kept_message both ≡ first.now ∷ second ∷ []) × AreKept both) }
{
    let _ranges = first.words();
    let _ranges_too = second.words();
    let bits = WORD_BITS * (first.word_count() + second.word_count()) + INNER_GAP;
    let mut strings = Vec::with_capacity(alloc, 2)?;
    strings.push(first.copy()?)?;
    strings.push(second)?;
    Ok(Strings::Many { bits, strings })
}

/// An equal message.
pub fn copy_message(alloc: Global, message: &Message) -> Result<Message, AllocError>
    ensures { IfOk result (λ m. m ≡ message.now) }
{
    if let Strings::One { string, .. } = &message.strings {
        return Ok(Message::one(alloc, string.copy()?));
    }
    let from = message.strings();
    let mut strings = Vec::with_capacity(alloc, from.len())?;
    for string in from {
        strings.push(string.copy()?)?;
    }
    Ok(Message {
        strings: Strings::Many {
            bits: message.bits(),
            strings,
        },
    })
}
