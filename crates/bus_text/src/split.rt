//! The fields of a line.
ghost use Rattle.std.specs.Prelude.{◌≡◌, ◌<◌, ℕ, length, true, false, MatchOption, IfSome, IfNone, slice_index, slice_index_or};
ghost use Rattle.std.specs.Prelude.{[], ◌∷◌, drop, List};
ghost use Rattle.std.specs.Iterator.{YieldsFirstRef, item_count};
ghost use Rattle.bus_text.specs.Fields.{is_at};
ghost use Rattle.bus_text.specs.Lines.{is_blank as blank_test, fields_of};

use crate::lines::is_blank;
use crate::numbers::four_digit_number;
use std::marker::Model;

/// Where the first blank of a line stands.
fn first_blank(line: &[u8]) -> Option<usize>
    ensures none { IfNone result ((k : ℕ) → k < length line.now → blank_test (slice_index line.now k) ≡ false) }
    ensures before { IfSome result (λ at. (k : ℕ) → k < at → blank_test (slice_index line.now k) ≡ false) }
    ensures found { IfSome result (λ at. (at < length line.now) × (blank_test (slice_index line.now at) ≡ true)) }
{
    line.iter().position(|byte| is_blank(*byte))
}

/// Where the first byte of a line stands that isn't a blank.
fn first_other(line: &[u8]) -> Option<usize>
    ensures none { IfNone result ((k : ℕ) → k < length line.now → blank_test (slice_index line.now k) ≡ true) }
    ensures before { IfSome result (λ at. (k : ℕ) → k < at → blank_test (slice_index line.now k) ≡ true) }
    ensures found { IfSome result (λ at. (at < length line.now) × (blank_test (slice_index line.now at) ≡ false)) }
{
    line.iter().position(|byte| !is_blank(*byte))
}

/// A line that doesn't begin with a blank: its first field, and what is behind it.
fn split_field(line: &[u8]) -> (&[u8], &[u8])
    requires some { 0 < length line.now }
    requires begun { blank_test (slice_index line.now 0) ≡ false }
    ensures fields { fields_of line.now ≡ result.0.now ∷ fields_of result.1.now }
    ensures shorter { length result.1.now < length line.now }
{
    match first_blank(line) {
        None => (line, &[]),
        Some(at) => (&line[..at], &line[at + 1..]),
    }
}

/// The first field of a line, and what is behind it.
fn first_field(line: &[u8]) -> Option<(&[u8], &[u8])>
    ensures fields { MatchOption result (fields_of line.now ≡ []) (λ r. fields_of line.now ≡ r.0.now ∷ fields_of r.1.now) }
    ensures shorter { IfSome result (λ r. length r.1.now < length line.now) }
{
    let at = first_other(line)?;
    Some(split_field(&line[at..]))
}

/// The fields of a line, in order: its longest runs of bytes that aren't blanks. Contracts see those that are still to
/// come.
#[derive(Drop)]
pub struct Fields<'a> {
    rest: &'a [u8],
}

impl<'a> Model for Fields<'a> {
    ghost use Rattle.std.specs.Prelude.{ℕ, List};
    ghost use Rattle.bus_text.specs.Lines.{fields_of};

    ghost Value = { List (List ℕ) };

    ghost view = { λ s. fields_of s.rest.now };
}

impl<'a> Fields<'a> {
    /// The fields of a line, from its first.
    pub fn new(line: &'a [u8]) -> Self
        ensures { result ≡ fields_of line.now }
    {
        Fields { rest: line }
    }

    /// Takes the next field, and tells whether there is one and it is this word.
    pub fn next_is(&mut self, word: &[u8]) -> bool
        ensures value { result ≡ is_at self.old 0 word.now }
        ensures rest { self.new ≡ drop 1 self.old }
    {
        match self.next() {
            None => false,
            Some(field) => field == word,
        }
    }

    /// Takes the next field; no bytes where there is none.
    pub fn next_or_empty(&mut self) -> &'a [u8]
        ensures value { result.now ≡ slice_index_or self.old 0 [] }
        ensures rest { self.new ≡ drop 1 self.old }
    {
        match self.next() {
            None => &[],
            Some(field) => field,
        }
    }
}

impl<'a> Fields<'a> {
    ghost use Rattle.bus_text.specs.Numbers.{IsHexadecimal};

    /// Takes the next field where no blank stands before it, it is four hexadecimal digits and a space stands behind it, and gives the
    /// number that they write: a line of many such fields is read without a look for their ends. None where one of this isn't so;
    /// then nothing is taken, and the next field can still be four digits.
    pub fn next_four(&mut self) -> Option<u16>
        ensures some { IfSome result (λ n. (field : List ℕ) × (self.old ≡ field ∷ self.new) × IsHexadecimal 4 field n) }
        ensures none { IfNone result (self.new ≡ self.old) }
    {
        let [a, b, c, d, behind, rest @ ..] = self.rest else {
            return None;
        };
        if *behind != b' ' {
            return None;
        }
        let number = four_digit_number(*a, *b, *c, *d)?;
        self.rest = rest;
        Some(number)
    }
}

impl<'a> Iterator for Fields<'a> {
    type Item = &'a [u8];

    ghost next_gives = { YieldsFirstRef (λ s. s) };

    ghost remaining = { item_count (λ s. s) };

    fn next(&mut self) -> Option<&'a [u8]> {
        let (field, rest) = first_field(self.rest)?;
        self.rest = rest;
        Some(field)
    }
}
