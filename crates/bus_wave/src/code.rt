//! The half bits of a word as digits: written and read.
ghost use Rattle.std.specs.Prelude.{◌≡◌, ◌+◌, ◌*◌, ◌/◌, ◌<◌, ◌≤◌, ◌^◌, ◌==◌, ◌∷◌, ◌++◌, []};
ghost use Rattle.std.specs.Prelude.{IfSome, Some, None, length, true, if◌then◌else◌};
ghost use Rattle.std.specs.List.{list_all};
ghost use Rattle.bus_text.specs.Digits.{is_capital_digit};
ghost use Rattle.bus_wave.specs.Code.{halves_of, frame_of};
ghost use Rattle.bus_wave.specs.inside.Digits as spec;
ghost use Rattle.bus_wave.specs.inside.Puts.{word_put};
ghost use Rattle.bus_wave.specs.Symbols.{are_digits as digits_test};

use bus_text::capital_digit;
use bus_words::{FramedWord, Kind, Word, frame};

/// How many digits a word has: four half bits each.
const DIGITS: usize = 10;

/// What the table of bits has for a byte that is no digit of two pairs.
const NO: u8 = 4;

/// The two bits of each byte as a digit that is two pairs. A table, since data come in no order that a branch could learn.
const BITS: [u8; 256] = [
    NO, NO, NO, NO, NO, NO, NO, NO, NO, NO, NO, NO, NO, NO, NO, NO, NO, NO, NO, NO, NO, NO, NO, NO,
    NO, NO, NO, NO, NO, NO, NO, NO, NO, NO, NO, NO, NO, NO, NO, NO, NO, NO, NO, NO, NO, NO, NO, NO,
    NO, NO, NO, NO, NO, 0, 1, NO, NO, 2, NO, NO, NO, NO, NO, NO, NO, 3, NO, NO, NO, NO, NO, NO, NO,
    NO, NO, NO, NO, NO, NO, NO, NO, NO, NO, NO, NO, NO, NO, NO, NO, NO, NO, NO, NO, NO, NO, NO, NO,
    NO, NO, NO, NO, NO, NO, NO, NO, NO, NO, NO, NO, NO, NO, NO, NO, NO, NO, NO, NO, NO, NO, NO, NO,
    NO, NO, NO, NO, NO, NO, NO, NO, NO, NO, NO, NO, NO, NO, NO, NO, NO, NO, NO, NO, NO, NO, NO, NO,
    NO, NO, NO, NO, NO, NO, NO, NO, NO, NO, NO, NO, NO, NO, NO, NO, NO, NO, NO, NO, NO, NO, NO, NO,
    NO, NO, NO, NO, NO, NO, NO, NO, NO, NO, NO, NO, NO, NO, NO, NO, NO, NO, NO, NO, NO, NO, NO, NO,
    NO, NO, NO, NO, NO, NO, NO, NO, NO, NO, NO, NO, NO, NO, NO, NO, NO, NO, NO, NO, NO, NO, NO, NO,
    NO, NO, NO, NO, NO, NO, NO, NO, NO, NO, NO, NO, NO, NO, NO, NO, NO, NO, NO, NO, NO, NO, NO, NO,
    NO, NO, NO, NO, NO, NO, NO, NO, NO, NO, NO, NO, NO, NO, NO,
];

/// The digit of each two bits.
const CODES: [u8; 4] = [b'5', b'6', b'9', b'A'];

/// Whether a byte is a hexadecimal digit in capitals.
fn is_capital(byte: u8) -> bool
    ensures { result ≡ is_capital_digit byte }
{
    capital_digit(byte).is_some()
}

/// Whether each byte is a hexadecimal digit in capitals.
fn are_capitals(field: &[u8]) -> bool
    ensures { result ≡ list_all is_capital_digit field.now }
{
    field.iter().all(|byte| is_capital(*byte))
}

/// Whether a field is ten hexadecimal digits in capitals.
pub(crate) fn are_digits(field: &[u8]) -> bool
    ensures { result ≡ digits_test field.now }
{
    field.len() == DIGITS && are_capitals(field)
}

/// The two bits of a digit; None where one of its pairs is no bit, and of a byte that is no digit.
fn two_bits(digit: u8) -> Option<u32>
    ensures value { result ≡ spec.two_bits digit }
    ensures range { IfSome result (λ two. two < 4) }
{
    let two = BITS[digit as usize];
    if two == NO {
        return None;
    }
    Some(u32::from(two))
}

/// A number of bits, and behind it the bits of digits, eight at most.
pub(crate) fn gathered(front: u32, digits: &[u8]) -> Option<u32>
    requires front { front < 2 }
    requires few { length digits.now ≤ 8 }
    ensures value { result ≡ spec.gathered front digits.now }
    ensures range { IfSome result (λ bits. bits < 2 ^ 17) }
{
    let mut bits = front;
    for digit in digits {
        bits = 4 * bits + two_bits(*digit)?;
    }
    Some(bits)
}

/// The kind of word and its highest bit, by its first two digits; None where these hold no sync, or no bit behind it.
pub(crate) fn head_of(first: u8, second: u8) -> Option<(Kind, u32)>
    ensures value { result ≡ spec.head_of first second }
    ensures digits { IfSome result (λ head. (first ≡ spec.first_digit head.0) × (second ≡ spec.second_digit head.0 head.1)) }
    ensures range { IfSome result (λ head. head.1 < 2) }
{
    match (first, second) {
        (b'E', b'1') => Some((Kind::Label, 0)),
        (b'E', b'2') => Some((Kind::Label, 1)),
        (b'1', b'D') => Some((Kind::Plain, 0)),
        (b'1', b'E') => Some((Kind::Plain, 1)),
        _ => None,
    }
}

/// The word of a kind and of its bits, the lowest of which is the parity bit.
pub(crate) fn frame_with(kind: Kind, bits: u32) -> FramedWord
    requires { bits < 2 ^ 17 }
    ensures { result ≡ spec.frame_with kind bits }
{
    FramedWord {
        kind,
        value: (bits / 2) as u16,
        parity: bits % 2 == 1,
    }
}

/// The word whose half bits ten digits are, whatever its parity bit; None where these are no code of a word.
pub(crate) fn heard(digits: &[u8]) -> Option<FramedWord>
    requires { digits_test digits.now ≡ true }
    ensures { result ≡ frame_of (halves_of digits.now) }
{
    let (kind, front) = head_of(digits[0], digits[1])?;
    let bits = gathered(front, digits.split_at(2).1)?;
    Some(frame_with(kind, bits))
}

/// The digit of two bits.
fn code_digit(two: u32) -> u8
    requires { two < 4 }
    ensures { result ≡ spec.code_digit two }
{
    CODES[two as usize]
}

/// The digits of the lowest sixteen bits of a number.
fn code_digits(bits: u32) -> [u8; 8]
    ensures { result ≡ spec.code_digits 8 bits }
{
    [
        code_digit(bits / 16384 % 4),
        code_digit(bits / 4096 % 4),
        code_digit(bits / 1024 % 4),
        code_digit(bits / 256 % 4),
        code_digit(bits / 64 % 4),
        code_digit(bits / 16 % 4),
        code_digit(bits / 4 % 4),
        code_digit(bits % 4),
    ]
}

/// The first digit of a kind.
fn first_digit(kind: Kind) -> u8
    ensures { result ≡ spec.first_digit kind }
{
    match kind {
        Kind::Label => b'E',
        Kind::Plain => b'1',
    }
}

/// The second digit of a kind and of the highest bit.
fn second_digit(kind: Kind, bit: u32) -> u8
    ensures { result ≡ spec.second_digit kind bit }
{
    match kind {
        Kind::Label if bit == 0 => b'1',
        Kind::Label => b'2',
        Kind::Plain if bit == 0 => b'D',
        Kind::Plain => b'E',
    }
}

/// The bits of a word as they are sent, as a number: the sixteen of its value, and the parity bit.
fn sent_bits(frame: FramedWord) -> u32
    ensures { result ≡ 2 * frame.value + (if frame.parity then 1 else 0) }
{
    2 * u32::from(frame.value) + u32::from(frame.parity)
}

/// The W line of a kind of word and of its bits.
fn bit_line(kind: Kind, bits: u32) -> [u8; 13]
    ensures { result ≡ 87 ∷ 32 ∷ spec.first_digit kind ∷ spec.second_digit kind (bits / 65536) ∷ (spec.code_digits 8 bits ++ 10 ∷ []) }
{
    let [a, b, c, d, e, f, g, h] = code_digits(bits);
    let (first, second) = (first_digit(kind), second_digit(kind, bits / 65536));
    [b'W', b' ', first, second, a, b, c, d, e, f, g, h, b'\n']
}

/// The W line of a word.
pub(crate) fn word_line(word: Word) -> [u8; 13]
    ensures { result ≡ word_put word }
{
    let frame = frame(word);
    bit_line(frame.kind, sent_bits(frame))
}
