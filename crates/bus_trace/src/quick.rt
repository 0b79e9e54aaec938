//! Lines that are spelled as they are written, recognized in front of a text in one pass: neither their end is looked for first, nor is a
//! field of them gathered. What isn't recognized here is judged field by field.
ghost use Rattle.std.specs.Prelude.{◌≡◌, ◌+◌, ◌≤◌, ◌<◌, ◌^◌, ◌++◌, ◌∷◌, [], length, take, decimal, IfSome, IfOk};
ghost use Rattle.std.specs.List.{join_with_byte};
ghost use Rattle.bus_text.specs.Digits.{hexadecimal};
ghost use Rattle.bus_strings.specs.Limits.{most_words};
ghost use Rattle.bus_words.specs.WordTexts.{word_text};
ghost use Rattle.bus_trace.specs.Traces.{begin_line as begin_fields, ended_line, string_line as string_fields};
ghost use Rattle.bus_trace.specs.inside.Writing.{data_put};
ghost use Rattle.bus_trace.specs.inside.Quick.{HasData, line_end};

use bus_strings::limits::MOST_WORDS;
use bus_strings::{SHORT, Wordstring};
use bus_text::{NO_CAPITAL, capital_value, leading_digits};
use bus_words::{Ext, Kind, Label, bit_digit, letter, parity, split_label};
use std::alloc::{AllocError, Global};

/// The bytes of a word's text and of the space before it.
const PLACES: usize = 7;

/// As many data words as most lines have at most.
const MIDDLE: usize = 48;

/// The bytes of the data words of a line, each with the space before it.
const MOST_DATA: usize = PLACES * MOST_WORDS;

/// The plain decimal at the front, and what is behind it.
fn first_number(text: &[u8]) -> Option<(u64, &[u8])>
    ensures { IfSome result (λ r. (text.now ≡ decimal r.0 ++ r.1.now) × (r.0 < 10 ^ 18)) }
{
    let (count, value) = leading_digits(text);
    if count == 0 || (count > 1 && text[0] == b'0') {
        return None;
    }
    Some((value, &text[count..]))
}

/// The moment and the terminal of a TX line in front, and what is behind it.
#[inline(always)]
pub(crate) fn begin_line(text: &[u8]) -> Option<(u64, u64, &[u8])>
    ensures { IfSome result (λ r. text.now ≡ join_with_byte 32 (begin_fields r.0 r.1) ++ r.2.now) }
{
    let [b'T', b'X', b' ', rest @ ..] = text else {
        return None;
    };
    let (moment, rest) = first_number(rest)?;
    let [b' ', rest @ ..] = rest else {
        return None;
    };
    let (terminal, rest) = first_number(rest)?;
    Some((moment, terminal, rest))
}

/// The moment and the mark of a TE line in front, and what is behind it.
#[inline(always)]
pub(crate) fn close_line(text: &[u8]) -> Option<(u64, bool, &[u8])>
    ensures { IfSome result (λ r. text.now ≡ join_with_byte 32 (ended_line r.0 r.1) ++ r.2.now) }
{
    let [b'T', b'E', b' ', rest @ ..] = text else {
        return None;
    };
    let (end, rest) = first_number(rest)?;
    match rest {
        [b' ', b'-', rest @ ..] => Some((end, false, rest)),
        [b' ', b'C', rest @ ..] => Some((end, true, rest)),
        _ => None,
    }
}

/// The number that four hexadecimal digits in capitals write. One test of all four, since there are more digits than anything else.
fn four_digit_value(a: u8, b: u8, c: u8, d: u8) -> Option<u16>
    ensures { IfSome result (λ v. hexadecimal 4 v ≡ a ∷ b ∷ c ∷ d ∷ []) }
{
    let (a, b) = (u32::from(capital_value(a)), u32::from(capital_value(b)));
    let (c, d) = (u32::from(capital_value(c)), u32::from(capital_value(d)));
    if a + b + c + d >= u32::from(NO_CAPITAL) {
        return None;
    }
    Some((4096 * a + 256 * b + 16 * c + d) as u16)
}

/// The value of a word of a kind. Its parity digit is held to the one that its value has: a branch that went by the digit itself, which
/// comes at random, would double the time of a line.
fn word_value(text: &[u8], kind: Kind) -> Option<u16>
    ensures { IfSome result (λ v. text.now ≡ word_text (record { kind = kind; value = v })) }
{
    let [first, a, b, c, d, digit] = text else {
        return None;
    };
    let value = four_digit_value(*a, *b, *c, *d)?;
    if *first != letter(kind) || *digit != bit_digit(parity(value)) {
        return None;
    }
    Some(value)
}

/// The value of a word of a kind, whose text stands behind a space.
fn spaced_word(text: &[u8], kind: Kind) -> Option<u16>
    ensures { IfSome result (λ v. text.now ≡ 32 ∷ word_text (record { kind = kind; value = v })) }
{
    let [b' ', word @ ..] = text else {
        return None;
    };
    let value = word_value(word, kind)?;
    Some(value)
}

/// The values of data words, each behind a space, in front of this room; and how many they are.
fn spaced_words(text: &[u8], room: &mut [u16]) -> Option<usize>
    ensures long { length room.new ≡ length room.old }
    ensures few { IfSome result (λ count. count ≤ length room.new) }
    ensures words { IfSome result (λ count. text.now ≡ data_put (take count room.new)) }
{
    let mut count = 0;
    let mut rest = text;
    while count < room.len() && rest.len() >= PLACES {
        room[count] = spaced_word(&rest[..PLACES], Kind::Plain)?;
        count += 1;
        rest = &rest[PLACES..];
    }
    if rest.is_empty() { Some(count) } else { None }
}

/// The wordstring of a label and a few data words, each behind a space: no more than it keeps in itself.
fn short_string(label: Label, ext: Ext, text: &[u8]) -> Option<Wordstring>
    ensures { IfSome result (λ s. HasData label ext text.now s) }
{
    let mut words = [0; SHORT];
    let count = spaced_words(text, &mut words)?;
    Some(Wordstring::short(label, ext, count as u8, words))
}

/// The wordstring of a label and data words, each behind a space, which are gathered in this room first. Its callers know how much room
/// that is, which saves several instructions a word where the loop knows it too.
#[inline(always)]
fn gathered_string(
    alloc: Global,
    label: Label,
    ext: Ext,
    text: &[u8],
    room: &mut [u16],
) -> Result<Option<Wordstring>, AllocError>
    requires { length room.old ≤ most_words }
    ensures { IfOk result (λ o. IfSome o (λ s. HasData label ext text.now s)) }
{
    let Some(count) = spaced_words(text, room) else {
        return Ok(None);
    };
    Ok(Some(Wordstring::of(alloc, label, ext, &room[..count])?))
}

/// The wordstring of a label and many data words, each behind a space.
fn long_string(
    alloc: Global,
    label: Label,
    ext: Ext,
    text: &[u8],
) -> Result<Option<Wordstring>, AllocError>
    ensures { IfOk result (λ o. IfSome o (λ s. HasData label ext text.now s)) }
{
    gathered_string(alloc, label, ext, text, &mut [0; MOST_WORDS])
}

/// The wordstring of a label and data words, each behind a space. Their room is on the stack, and no more of it than most lines need,
/// since it is set to zero for each line.
fn data_string(
    alloc: Global,
    label: Label,
    ext: Ext,
    text: &[u8],
) -> Result<Option<Wordstring>, AllocError>
    ensures { IfOk result (λ o. IfSome o (λ s. HasData label ext text.now s)) }
{
    if text.len() <= SHORT * PLACES {
        Ok(short_string(label, ext, text))
    } else if text.len() <= MIDDLE * PLACES {
        gathered_string(alloc, label, ext, text, &mut [0; MIDDLE])
    } else {
        long_string(alloc, label, ext, text)
    }
}

/// Whether four words may stand at a place, each behind a space.
fn are_spaced(text: &[u8], at: usize) -> bool
    requires { at + 28 ≤ length text.now }
{
    text[at] == b' '
        && text[at + PLACES] == b' '
        && text[at + 2 * PLACES] == b' '
        && text[at + 3 * PLACES] == b' '
}

/// How many bytes of the text in front may be data words of one line, each behind a space, four at a time.
fn fours_length(text: &[u8]) -> usize
    ensures within { result ≤ length text.now }
{
    let mut at = 0;
    while at < MOST_DATA && at + 4 * PLACES <= text.len() && are_spaced(text, at) {
        at += 4 * PLACES;
    }
    at
}

/// How many bytes of the text in front may be data words of one line, each behind a space.
fn data_length(text: &[u8]) -> usize
    ensures within { result ≤ length text.now }
{
    let mut at = fours_length(text);
    while at < MOST_DATA && at + PLACES <= text.len() && text[at] == b' ' {
        at += PLACES;
    }
    at
}

/// What is behind the keyword of a WS line.
#[inline(always)]
fn behind_keyword(text: &[u8]) -> Option<&[u8]>
    ensures { IfSome result (λ rest. text.now ≡ 87 ∷ 83 ∷ rest.now) }
{
    match text {
        [b'W', b'S', rest @ ..] => Some(rest),
        _ => None,
    }
}

/// The wordstring of a WS line in front, and what is behind it. Of a line that is cut off no word is read.
#[inline(always)]
pub(crate) fn string_line(
    alloc: Global,
    text: &[u8],
    feed: bool,
) -> Result<Option<(Wordstring, &[u8])>, AllocError>
    ensures { IfOk result (λ o. IfSome o (λ r. text.now ≡ join_with_byte 32 (string_fields r.0) ++ r.1.now)) }
{
    let Some(text) = behind_keyword(text) else {
        return Ok(None);
    };
    if text.len() < PLACES {
        return Ok(None);
    }
    let Some(label) = spaced_word(&text[..PLACES], Kind::Label) else {
        return Ok(None);
    };
    let (label, ext) = split_label(label);
    let text = &text[PLACES..];
    let length = data_length(text);
    if behind_end(&text[length..], feed).is_none() {
        return Ok(None);
    }
    let Some(string) = data_string(alloc, label, ext, &text[..length])? else {
        return Ok(None);
    };
    Ok(Some((string, &text[length..])))
}

/// What is behind the end of a line: behind its line feed, or nothing, where the line is given without one.
pub(crate) fn behind_end(text: &[u8], feed: bool) -> Option<&[u8]>
    ensures { IfSome result (λ rest. text.now ≡ line_end feed rest.now) }
{
    match text {
        [b'\n', rest @ ..] if feed => Some(rest),
        [] if !feed => Some(text),
        _ => None,
    }
}
