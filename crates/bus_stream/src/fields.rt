//! The fields of a line of a stream.
ghost use Rattle.std.specs.Prelude.{◌≡◌, ◌^◌, ◌-◌, ◌<◌, true, IfOk, Some, None, if◌then◌else◌};
ghost use Rattle.std.specs.Int.{is_in_range as in_numbers};
ghost use Rattle.bus_text.specs.Entries.{texts};
ghost use Rattle.bus_text.specs.Numbers.{is_plain_decimal as decimal_test, decimal_value};
ghost use Rattle.bus_trace.specs.States.{spaced_fields};

use bus_text::plain_decimal;
use std::alloc::{AllocError, Global};

/// The fields of a line: what stands between single spaces.
pub(crate) fn fields(alloc: Global, line: &[u8]) -> Result<Vec<&[u8]>, AllocError>
    ensures { IfOk result (λ v. texts v.items ≡ spaced_fields line.now) }
{
    line.split(|byte| *byte == b' ').collect(alloc)
}

/// Whether a field is a plain decimal.
pub(crate) fn is_plain(field: &[u8]) -> bool
    ensures { result ≡ decimal_test field.now }
{
    plain_decimal(field).is_some()
}

/// What a plain decimal writes, where it is in a range.
pub(crate) fn bounded(field: &[u8], least: u64, most: u64) -> Option<u64>
    requires plain { decimal_test field.now ≡ true }
    requires room { most < 2 ^ 64 - 1 }
    ensures { result ≡ (if in_numbers least most (decimal_value field.now) then Some (decimal_value field.now) else None) }
{
    match plain_decimal(field) {
        Some(value) if least <= value && value <= most => Some(value),
        _ => None,
    }
}
