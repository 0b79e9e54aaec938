//! Lines that are spelled as they are written, recognized in one look: no fields are cut out. What isn't recognized here is judged field by
//! field.
ghost use Rattle.std.specs.Prelude.{◌≡◌, ◌+◌, ◌/◌, ◌<◌, ◌^◌, ◌++◌, ◌∷◌, IfSome, Ok, length};
ghost use Rattle.bus_wave.specs.declared.symbol.Symbol.TheVariants.{Quiet};
ghost use Rattle.bus_wave.specs.Code.{digits_of};
ghost use Rattle.bus_wave.specs.inside.Digits as spec;
ghost use Rattle.bus_wave.specs.inside.Parts.{HasLine};
ghost use Rattle.bus_wave.specs.inside.Puts.{word_put};
ghost use Rattle.bus_wave.specs.Waves.{word_halves};

use crate::code::{frame_with, gathered, head_of};
use bus_text::leading_digits;
use bus_words::{Kind, Word, unframe};

/// How many bytes a W line has.
const LINE: usize = 13;

/// The word of a kind and of its bits, the lowest of which is the parity bit; None where this is another than the word's.
fn word_with(kind: Kind, bits: u32) -> Option<Word>
    requires { bits < 2 ^ 17 }
    ensures digits { IfSome result (λ word. digits_of (word_halves word)
        ≡ spec.first_digit kind ∷ spec.second_digit kind (bits / 65536) ∷ spec.code_digits 8 bits) }
    ensures range { IfSome result (λ word. word.value < 2 ^ 16) }
{
    match unframe(frame_with(kind, bits)) {
        Ok(word) => Some(word),
        Err(_) => None,
    }
}

/// The word of the W line at the front of a text, and what is behind that line.
pub(crate) fn word_line(text: &[u8]) -> Option<(Word, &[u8])>
    ensures line { IfSome result (λ r. text.now ≡ word_put r.0 ++ r.1.now) }
    ensures range { IfSome result (λ r. r.0.value < 2 ^ 16) }
{
    if text.len() < LINE {
        return None;
    }
    if text[0] != b'W' || text[1] != b' ' || text[LINE - 1] != b'\n' {
        return None;
    }
    let (kind, front) = head_of(text[2], text[3])?;
    let bits = gathered(front, &text[4..LINE - 1])?;
    let word = word_with(kind, bits)?;
    Some((word, &text[LINE..]))
}

/// The number of the Q line at the front of a text, and what is behind that line. A 0 and a number of very many digits aren't recognized
/// here.
pub(crate) fn quiet_line(text: &[u8]) -> Option<(u64, &[u8])>
    ensures line { IfSome result (λ r. HasLine text.now (Ok (Quiet r.0)) r.1.now) }
    ensures shorter { IfSome result (λ r. length r.1.now < length text.now) }
{
    if text.len() < 2 || text[0] != b'Q' || text[1] != b' ' {
        return None;
    }
    let rest = &text[2..];
    let (count, number) = leading_digits(rest);
    if count == 0 || count == rest.len() || rest[0] == b'0' || rest[count] != b'\n' {
        return None;
    }
    Some((number, &rest[count + 1..]))
}
