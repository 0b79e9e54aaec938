//! The word texts of a WS line.
ghost use Rattle.std.specs.Prelude.{◌≡◌, ◌+◌, ◌<◌, ◌≤◌, ◌&&◌, length, map, IfOk, Some, None};
ghost use Rattle.std.specs.List.{list_all};
ghost use Rattle.bus_strings.specs.Limits.{most_words};
ghost use Rattle.bus_text.specs.Entries.{texts};
ghost use Rattle.bus_words.specs.declared.word.Kind.TheVariants.{Plain};
ghost use Rattle.bus_trace.specs.WordFields.{same_kind as same_test, is_spelled as spelled_test, has_parity as parity_test};
ghost use Rattle.bus_trace.specs.WordFields.{value_of as value_in, are_spelled as all_spelled, have_parity as all_parity, string_of};

use bus_strings::Wordstring;
use bus_text::{field_at, fields_from};
use bus_words::{Kind, read_frame, read_word, split_label};
use std::alloc::{AllocError, Global};

/// Whether two kinds are the same.
pub(crate) fn same_kind(one: Kind, other: Kind) -> bool
    ensures { result ≡ same_test one other }
{
    match one {
        Kind::Label => matches!(other, Kind::Label),
        Kind::Plain => matches!(other, Kind::Plain),
    }
}

/// Whether a field is of the form of a word text of this kind.
fn is_spelled(kind: Kind, field: &[u8]) -> bool
    ensures { result ≡ spelled_test kind field.now }
{
    match read_frame(field) {
        Some(frame) => same_kind(frame.kind, kind),
        None => false,
    }
}

/// Whether a field is the text of a word, its parity digit included.
fn has_parity(field: &[u8]) -> bool
    ensures { result ≡ parity_test field.now }
{
    read_word(field).is_ok()
}

/// The value of a field of the form.
fn value_of(field: &[u8]) -> u16
    ensures { result ≡ value_in field.now }
{
    match read_frame(field) {
        Some(frame) => frame.value,
        None => 0,
    }
}

/// Whether each field is spelled as a data word, by the fields as they are lent.
fn each_is_data(fields: &[&[u8]]) -> bool
    ensures { result ≡ list_all (λ f. spelled_test Plain f.now) fields.now }
{
    fields.iter().all(|field| is_spelled(Kind::Plain, field))
}

/// Whether each field is spelled as a data word.
fn are_data(fields: &[&[u8]]) -> bool
    ensures { result ≡ list_all (spelled_test Plain) (texts fields.now) }
{
    each_is_data(fields)
}

/// Whether fields, of which there is one, are spelled as a label word and data words.
pub(crate) fn are_spelled(fields: &[&[u8]]) -> bool
    requires { 0 < length fields.now }
    ensures { result ≡ all_spelled (texts fields.now) }
{
    let label = is_spelled(Kind::Label, field_at(fields, 0));
    let data = are_data(fields_from(fields, 1));
    label && data
}

/// Whether each field is the text of a word, by the fields as they are lent.
fn each_has_parity(fields: &[&[u8]]) -> bool
    ensures { result ≡ list_all (λ f. parity_test f.now) fields.now }
{
    fields.iter().all(|field| has_parity(field))
}

/// Whether each field is the text of a word, its parity digit included.
pub(crate) fn have_parity(fields: &[&[u8]]) -> bool
    ensures { result ≡ all_parity (texts fields.now) }
{
    each_has_parity(fields)
}

/// The value of each field, by the fields as they are lent.
fn each_value(alloc: Global, fields: &[&[u8]]) -> Result<Vec<u16>, AllocError>
    ensures { IfOk result (λ v. v.items ≡ map (λ f. value_in f.now) fields.now) }
{
    fields.iter().map(|field| value_of(field)).collect(alloc)
}

/// The value of each field.
fn values(alloc: Global, fields: &[&[u8]]) -> Result<Vec<u16>, AllocError>
    ensures { IfOk result (λ v. v.items ≡ map value_in (texts fields.now)) }
{
    let values = each_value(alloc, fields)?;
    Ok(values)
}

/// The wordstring of fields that are a label word and at most 256 data words.
pub(crate) fn wordstring(alloc: Global, fields: &[&[u8]]) -> Result<Wordstring, AllocError>
    requires some { 0 < length fields.now }
    requires few { length fields.now ≤ 1 + most_words }
    ensures { IfOk result (λ s. s ≡ string_of (texts fields.now)) }
{
    let (label, ext) = split_label(value_of(field_at(fields, 0)));
    let words = values(alloc, fields_from(fields, 1))?;
    Ok(Wordstring::new(label, ext, words)?.unwrap())
}
