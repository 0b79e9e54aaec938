//! The words of a line, and the message that they make.
ghost use Rattle.std.specs.Prelude.{◌≡◌, ◌<◌, ◌≤◌, ◌∷◌, ◌++◌, [], true, length, slice_index_or, IfOk};
ghost use Rattle.std.specs.List.{list_all};
ghost use Rattle.bus_text.specs.Entries.{texts};
ghost use Rattle.bus_words.specs.WordTexts.{form, is_of, written_frame};
ghost use Rattle.bus_words.specs.declared.word.Kind.TheVariants.{Label};
ghost use Rattle.bus_strings.specs.Limits.{most_words};
ghost use Rattle.bus_trace.specs.WordFields.{has_parity as parity_test, have_parity as all_parity, is_spelled, same_kind};
ghost use Rattle.bus_stream.specs.Items as items;
ghost use Rattle.bus_stream.specs.Items.{IsFitting};

use bus_strings::limits::MOST_WORDS;
use bus_strings::{Message, Wordstring};
use bus_text::{field_at, fields_from};
use bus_words::{FramedWord, Kind, read_frame, read_word, split_label};
use std::alloc::{AllocError, Global};

/// Whether a field is the text of a word, its parity digit included.
fn has_parity(field: &[u8]) -> bool
    ensures { result ≡ parity_test field.now }
{
    read_word(field).is_ok()
}

/// Whether each field is the text of a word, its parity digit included, by the fields as they are lent.
fn each_has_parity(fields: &[&[u8]]) -> bool
    ensures { result ≡ list_all (λ f. parity_test f.now) fields.now }
{
    fields.iter().all(|field| has_parity(field))
}

/// Whether each field is the text of a word, its parity digit included.
pub(crate) fn have_parity(fields: &[&[u8]]) -> bool
    ensures { result ≡ all_parity (texts fields.now) }
{
    each_has_parity(fields)
}

/// Whether a field is of the form of a word.
fn is_word(field: &[u8]) -> bool
    ensures { result ≡ is_of form field.now }
{
    read_frame(field).is_some()
}

/// Whether each field is of the form of a word, by the fields as they are lent.
fn each_is_word(fields: &[&[u8]]) -> bool
    ensures { result ≡ list_all (λ f. is_of form f.now) fields.now }
{
    fields.iter().all(|field| is_word(field))
}

/// Whether a field is spelled as a label word.
fn is_label(field: &[u8]) -> bool
    ensures { result ≡ is_spelled Label field.now }
{
    match read_frame(field) {
        Some(frame) => is_label_kind(frame.kind),
        None => false,
    }
}

/// Whether this is the kind of label words.
fn is_label_kind(kind: Kind) -> bool
    ensures { result ≡ same_kind kind Label }
{
    match kind {
        Kind::Label => true,
        Kind::Plain => false,
    }
}

/// Whether fields, of which there is one, are spelled as words, the first of them as a label word.
pub(crate) fn are_words(fields: &[&[u8]]) -> bool
    requires { 0 < length fields.now }
    ensures { result ≡ items.are_words (texts fields.now) }
{
    let label = is_label(field_at(fields, 0));
    let others = each_is_word(fields_from(fields, 1));
    label && others
}

/// The word of the field at a place, with its parity bit.
fn word_at(fields: &[&[u8]], place: usize) -> FramedWord
    requires spelled { list_all (is_of form) (texts fields.now) ≡ true }
    requires here { place < length fields.now }
    ensures { result ≡ written_frame (slice_index_or (texts fields.now) place []) }
{
    read_frame(field_at(fields, place)).unwrap()
}

/// The wordstring of a label word's value and of data words.
fn string(alloc: Global, label: u16, words: &[u16]) -> Result<Wordstring, AllocError>
    requires { length words.now ≤ most_words }
    ensures { IfOk result (λ s. s ≡ items.string_of label words.now) }
{
    let (label, ext) = split_label(label);
    Wordstring::of(alloc, label, ext, words)
}

/// The message of some wordstrings, and of a last one.
fn closed(
    alloc: Global,
    mut strings: Vec<Wordstring>,
    label: u16,
    words: &[u16],
) -> Result<Option<Message>, AllocError>
    ensures { IfOk result (λ m. IsFitting m (strings.items ++ items.string_of label words.now ∷ [])) }
{
    if words.len() > MOST_WORDS {
        return Ok(None);
    }
    let last = string(alloc, label, words)?;
    if strings.is_empty() {
        return Ok(Some(Message::one(alloc, last)));
    }
    strings.push(last)?;
    let Some(message) = Message::new(strings) else {
        return Ok(None);
    };
    let _ranges = message.strings();
    Ok(Some(message))
}

/// The message of fields that are spelled as words; None where it has more wordstrings or data words than may be.
pub(crate) fn message(alloc: Global, fields: &[&[u8]]) -> Result<Option<Message>, AllocError>
    requires { items.are_words (texts fields.now) ≡ true }
    ensures { IfOk result (λ m. IsFitting m (items.message_of (texts fields.now))) }
{
    let mut strings = Vec::new(alloc);
    let mut words = Vec::new(alloc);
    let mut label = word_at(fields, 0).value;
    for i in 1..fields.len() {
        let word = word_at(fields, i);
        if !is_label_kind(word.kind) {
            words.push(word.value)?;
        } else if words.len() > MOST_WORDS {
            return Ok(None);
        } else {
            strings.push(string(alloc, label, &words)?)?;
            label = word.value;
            words.clear();
        }
    }
    closed(alloc, strings, label, &words)
}
