//! Numbers, and what may be missing, as JSON values.
ghost use Rattle.std.specs.Prelude.{◌≡◌, ◌/◌, ◌%◌, ◌∷◌, [], ◌<◌, IfOk, string_bytes};
ghost use Rattle.serde_json.specs.View.{view};
ghost use Rattle.bus_text.specs.Digits as digits;
ghost use Rattle.bus_facts.specs.Values as values;

use bus_text::hex_digit;
use bus_words::{Ext, Label};
use serde_json::{Value, json};
use std::alloc::{AllocError, Global};

/// A number, or null where there is none.
pub(crate) fn count_or_null(n: Option<u64>) -> Value
    ensures { view result ≡ values.count_or_null n }
{
    match n {
        Some(n) => Value::from(n),
        None => Value::Null,
    }
}

/// A number, or the word `any` where every number will do.
pub(crate) fn count_or_any(alloc: Global, n: Option<u64>) -> Result<Value, AllocError>
    ensures { IfOk result (λ value. view value ≡ values.count_or_any n) }
{
    match n {
        Some(n) => Ok(Value::from(n)),
        None => Value::try_from_str(alloc, "any"),
    }
}

/// A time with delays up to the tolerance, where that has an end, and without delays.
pub(crate) fn delayed(
    alloc: Global,
    at_tolerance: Option<u64>,
    without_delays: u64,
) -> Result<Value, AllocError>
    ensures { IfOk result (λ value. view value ≡ values.delayed at_tolerance without_delays) }
{
    json!(in alloc; {
        "at_tolerance": count_or_null(at_tolerance),
        "without_delays": without_delays
    })
}

/// A label, as a table text writes it.
pub(crate) fn label_text(alloc: Global, label: Label) -> Result<String, AllocError>
    ensures { IfOk result (λ text. string_bytes text ≡ digits.hexadecimal 3 label) }
{
    let value = label.value();
    let mut text = String::new(alloc);
    text.push(char::from(hex_digit((value / 16 / 16 % 16) as u8)))?;
    text.push(char::from(hex_digit((value / 16 % 16) as u8)))?;
    text.push(char::from(hex_digit((value % 16) as u8)))?;
    Ok(text)
}

/// An extension, as a table text writes it.
pub(crate) fn ext_text(alloc: Global, ext: Ext) -> Result<String, AllocError>
    ensures { IfOk result (λ text. string_bytes text ≡ digits.hex_digit ext ∷ []) }
{
    let mut text = String::new(alloc);
    text.push(char::from(hex_digit(ext.value())))?;
    Ok(text)
}
