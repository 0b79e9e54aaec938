//! The text of a word, with its parity digit: written and read.
ghost use Rattle.std.specs.Prelude.{◌≡◌, ◌<◌, ◌^◌, ◌==◌, [], ◌∷◌, IfOk, IfErr, Ok, Some, None, if◌then◌else◌};
ghost use Rattle.bus_text.specs.Numbers.{hexadecimal_value};
ghost use Rattle.bus_text.specs.Digits.{is_capital_digit};
ghost use Rattle.std.specs.List.{list_all};
ghost use Rattle.bus_words.specs.WordTexts.{letter as letter_of, bit_digit as digit_of, word_text as text_of, Fails, is_letter};
ghost use Rattle.bus_words.specs.WordTexts.{is_bit, form, is_of, kept as kept_of, written_frame, read_word as reading};
ghost use Rattle.bus_words.specs.inside.Forms.{test_at};

use crate::word::{FramedWord, Kind, Word, WordError, frame, unframe};
use bus_text::{capital_digit, four_digits};

/// The letter of a kind: `L` of a label word, `D` of a data word.
pub fn letter(kind: Kind) -> u8
    ensures { result ≡ letter_of kind }
{
    match kind {
        Kind::Label => b'L',
        Kind::Plain => b'D',
    }
}

/// The digit of a bit, such as the parity bit: `0` or `1`.
pub fn bit_digit(bit: bool) -> u8
    ensures { result ≡ digit_of bit }
{
    if bit { b'1' } else { b'0' }
}

/// The text of a word: `L` for a label word or `D` for a data word, four hexadecimal digits in capitals, and the parity
/// digit.
pub fn word_text(word: Word) -> [u8; 6]
    ensures { result ≡ text_of word }
{
    let framed = frame(word);
    let [a, b, c, d] = four_digits(framed.value);
    [letter(framed.kind), a, b, c, d, bit_digit(framed.parity)]
}

/// The kind of a letter.
fn kind_of(letter: u8) -> Option<Kind>
    ensures { result ≡ (if is_letter letter then Some (if letter == 76 then Kind.Label else Kind.Plain) else None) }
{
    match letter {
        b'L' => Some(Kind::Label),
        b'D' => Some(Kind::Plain),
        _ => None,
    }
}

/// The number that four hexadecimal digits in capitals write.
fn four_digit_value(a: u8, b: u8, c: u8, d: u8) -> Option<u16>
    ensures { let digits = a ∷ b ∷ c ∷ d ∷ [] in
        result ≡ (if list_all is_capital_digit digits then Some (hexadecimal_value digits) else None) }
{
    let upper = 16 * capital_digit(a)? + capital_digit(b)?;
    let lower = 16 * capital_digit(c)? + capital_digit(d)?;
    Some(256 * u16::from(upper) + u16::from(lower))
}

/// The bit of a digit.
fn bit_of(digit: u8) -> Option<bool>
    ensures { result ≡ (if is_bit digit then Some (digit == 49) else None) }
{
    match digit {
        b'0' => Some(false),
        b'1' => Some(true),
        _ => None,
    }
}

/// The frame that a text of six bytes writes, whatever its parity digit; None where the text isn't of the form.
pub fn read_frame(text: &[u8]) -> Option<FramedWord>
    ensures { result ≡ (if is_of form text.now then Some (written_frame text.now) else None) }
{
    let [letter, a, b, c, d, digit] = text else {
        return None;
    };
    Some(FramedWord {
        kind: kind_of(*letter)?,
        value: four_digit_value(*a, *b, *c, *d)?,
        parity: bit_of(*digit)?,
    })
}

/// Whether a byte may stand at a place of a word text, counted from 0.
fn may_stand(place: usize, byte: u8) -> bool
    ensures { result ≡ test_at place byte }
{
    match place {
        0 => kind_of(byte).is_some(),
        1..=4 => capital_digit(byte).is_some(),
        5 => bit_of(byte).is_some(),
        _ => false,
    }
}

/// How many bytes of a text keep to the form, up to the first that doesn't.
fn kept(text: &[u8]) -> usize
    ensures { result ≡ kept_of form text.now }
{
    for (place, byte) in text.iter().enumerate() {
        if !may_stand(place, *byte) {
            return place;
        }
    }
    text.len()
}

/// Reads the text of a word, which is six bytes. Answers [`WordError::Shape`] where the text isn't of the form, whatever
/// its parity digit, and [`WordError::Parity`] where it is and the parity digit isn't that of the value.
pub fn read_word(text: &[u8]) -> Result<Word, WordError>
    // Only the text of a word is read.
    ensures found { IfOk result (λ word. text.now ≡ text_of word) }
    // The text of each word is read as that word.
    ensures only { (word : Word) → word.value < 2 ^ 16 → text.now ≡ text_of word → result ≡ Ok word }
    ensures cause { IfErr result (Fails text.now) }
    ensures exact { result ≡ reading text.now }
{
    match read_frame(text) {
        Some(framed) => unframe(framed),
        None => Err(WordError::Shape(kept(text))),
    }
}
