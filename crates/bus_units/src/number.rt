//! The number of a quantity, and where it ends.
ghost use Rattle.std.specs.Prelude.{◌≡◌, ◌≤◌, ◌+◌, ◌*◌, ℕ, Result, not, length};
ghost use Rattle.std.specs.Char.{is_ascii_digit};
ghost use Rattle.std.specs.List.{list_all, position, position_or_len};
ghost use Rattle.bus_units.specs.Quantities as definition;
ghost use Rattle.bus_units.specs.Quantities.{QuantityError as Error};
ghost use Rattle.bus_units.specs.inside.Capped.{capped, cap};

use crate::quantity::QuantityError;
use bus_text::plain_decimal;

/// Whether a byte may stand in a number: a digit, or a point.
fn is_number_byte(byte: u8) -> bool
    ensures { result ≡ definition.is_number_byte byte }
{
    byte.is_ascii_digit() || byte == b'.'
}

/// Where the first byte stands that ends the number; None where none does.
fn first_other(word: &[u8]) -> Option<usize>
    ensures { result ≡ position (λ byte. not (definition.is_number_byte byte)) word.now }
{
    word.iter().position(|byte| !is_number_byte(*byte))
}

/// Where the number at the front of a word ends.
pub(crate) fn number_end(word: &[u8]) -> usize
    ensures value { result ≡ position_or_len (λ byte. not (definition.is_number_byte byte)) word.now }
    ensures bound { result ≤ length word.now }
{
    match first_other(word) {
        Some(at) => at,
        None => word.len(),
    }
}

/// Where the point of a number stands; None where it has none.
fn point_of(number: &[u8]) -> Option<usize>
    ensures { result ≡ position definition.is_point number.now }
{
    number.iter().position(|byte| *byte == b'.')
}

/// Whether each byte is a digit.
fn are_digits(places: &[u8]) -> bool
    ensures { result ≡ list_all is_ascii_digit places.now }
{
    places.iter().all(|byte| byte.is_ascii_digit())
}

/// The value of a digit.
fn digit(byte: u8) -> u64
    ensures value { result ≡ definition.digit byte }
    ensures bound { result ≤ 255 }
{
    u64::from(byte.saturating_sub(b'0'))
}

/// The thousandths that the digits behind a point write.
fn places_of(places: &[u8]) -> Result<u64, QuantityError>
    ensures { result ≡ definition.places_of places.now }
{
    if !are_digits(places) {
        return Err(QuantityError::NoNumber);
    }
    match places {
        [] => Err(QuantityError::NoNumber),
        [a] => Ok(100 * digit(*a)),
        [a, b] => Ok(100 * digit(*a) + 10 * digit(*b)),
        [a, b, c] => Ok(100 * digit(*a) + 10 * digit(*b) + digit(*c)),
        _ => Err(QuantityError::Places),
    }
}

/// A number of ones and thousandths, in thousandths, or the last value of a `u64` where it is above that.
fn joined(whole: u64, places: u64) -> u64
    ensures { result ≡ cap (1000 * whole + places) }
{
    whole.saturating_mul(1000).saturating_add(places)
}

/// The number of ones that a plain decimal writes, or the last value of a `u64`.
fn whole_of(number: &[u8]) -> Result<u64, QuantityError>
    ensures { result ≡ capped (definition.whole_of number.now) }
{
    match plain_decimal(number) {
        Some(whole) => Ok(whole),
        None => Err(QuantityError::NoNumber),
    }
}

/// So many ones and thousandths in thousandths, or the last value of a `u64` where it is above that; or why one of them isn't known.
fn with_places(
    whole: Result<u64, QuantityError>,
    places: Result<u64, QuantityError>,
) -> Result<u64, QuantityError>
    ensures { (exact : Result ℕ Error) → whole ≡ capped exact → result ≡ capped (definition.with_places exact places) }
{
    match (whole, places) {
        (Ok(whole), Ok(places)) => Ok(joined(whole, places)),
        (Err(error), _) | (Ok(_), Err(error)) => Err(error),
    }
}

/// What a number writes in thousandths, or the last value of a `u64` where it is above that.
pub(crate) fn thousandths_of(number: &[u8]) -> Result<u64, QuantityError>
    ensures { result ≡ capped (definition.thousandths_of number.now) }
{
    match point_of(number) {
        None => with_places(whole_of(number), Ok(0)),
        Some(at) => with_places(whole_of(&number[..at]), places_of(&number[at + 1..])),
    }
}
