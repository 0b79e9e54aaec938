//! The first line of a text, and the lines behind it.
ghost use Rattle.std.specs.Prelude.{◌≡◌, ◌≤◌, length, Ok, IfOk, IfErr};
ghost use Rattle.bus_text.specs.Gives.{Refuses};
ghost use Rattle.bus_text.specs.Headers.{header_reading, headed};

use crate::cursor::Lines;
use crate::error::TextError;
use crate::lines::line_after;
use crate::reason::Reason;
use crate::split::Fields;

/// Reads the fields of the first line of a text of this word.
#[tactic(auto, unfolding(crate::specs::Headers::header_reading))]
fn header(mut fields: Fields<'_>, word: &[u8]) -> Result<(), Reason>
    ensures { result ≡ header_reading word.now fields.entry }
{
    if !fields.next_is(word) {
        return Err(Reason::Keyword);
    }
    if !fields.next_is(b"1") {
        return Err(Reason::Fields);
    }
    match fields.next() {
        None => Ok(()),
        Some(_) => Err(Reason::Fields),
    }
}

/// The lines of a text behind its first one, which has to be of this word and the number of its format, 1.
///
/// [`TextError::Text`] comes exactly where it isn't, or there is none.
pub fn headed_lines<'a>(text: &'a [u8], word: &[u8]) -> Result<Lines<'a>, TextError>
    ensures lines { IfOk result (λ lines. headed word.now text.now ≡ Ok lines) }
    ensures refused { IfErr result (λ error. Refuses error (headed word.now text.now)) }
    ensures few { IfOk result (λ lines. length lines ≤ length text.now) }
{
    let mut lines = Lines::new(text);
    let Some(first) = lines.next() else {
        return Err(TextError::Text {
            line: line_after(text),
            reason: Reason::Ended,
        });
    };
    match header(Fields::new(first.bytes), word) {
        Ok(()) => Ok(lines),
        Err(reason) => Err(TextError::Text {
            line: first.number,
            reason,
        }),
    }
}
