//! Lengths and how far clocks are off, as words write them.
ghost use Rattle.std.specs.Prelude.{◌≡◌, ◌<◌, ◌≤◌, ◌^◌, ℕ, Result, IfOk};
ghost use Rattle.std.specs.Int.{div_ceil};
ghost use Rattle.bus_units.specs.Quantities as definition;
ghost use Rattle.bus_units.specs.Quantities.{QuantityError as Error, Written, most_length, most_millionths};
ghost use Rattle.bus_units.specs.inside.Capped.{cap, capped, capped_quantity, capped_written};

use crate::number::{number_end, thousandths_of};
use crate::unit::{Unit, unit_of};

/// The greatest length, in nanoseconds: as many bit times as a horizon has at most.
pub const MOST_LENGTH: u64 = 549_755_813_888_000;

/// By how many millionths a clock can be said to be off at most.
pub const MOST_MILLIONTHS: u64 = 1_000_000;

/// How many nanoseconds a bit time has.
const BIT_TIME: u64 = 500;

/// Why a word writes no such quantity; of several reasons the first of these.
#[derive(Clone, Copy, Debug, PartialEq, Eq)]
pub enum QuantityError {
    /// It doesn't begin with a plain decimal, or there is no digit behind its point: `ns`, `010ns`, `.5us`, `1.us`.
    NoNumber,
    /// There are more than three places behind the point: `1.2345us`.
    Places,
    /// What stands behind the number is no unit of such a quantity: `100`, `10s`, `100ppm` as a length.
    Unit,
    /// It is past the greatest one.
    TooGreat,
    /// It isn't a whole number of nanoseconds, or of millionths: `0.5ns`, `0.001bt`.
    NotWhole,
}

/// A number of thousandths, as far as it fits, and the unit behind it.
#[derive(Clone, Copy)]
struct Quantity {
    thousandths: u64,
    unit: Unit,
}

/// So many thousandths of a unit; or why there is no number, or no unit.
fn with_unit(
    thousandths: Result<u64, QuantityError>,
    unit: Option<Unit>,
) -> Result<Quantity, QuantityError>
    ensures { (exact : Result ℕ Error) → thousandths ≡ capped exact → result ≡ capped_quantity (definition.with_unit exact unit) }
{
    match (thousandths, unit) {
        (Ok(thousandths), Some(unit)) => Ok(Quantity { thousandths, unit }),
        (Ok(_), None) => Err(QuantityError::Unit),
        (Err(error), _) => Err(error),
    }
}

/// The number and the unit that a word writes.
fn quantity_of(word: &[u8]) -> Result<Quantity, QuantityError>
    ensures { result ≡ capped_quantity (definition.quantity_of word.now) }
{
    let (number, name) = word.split_at(number_end(word));
    with_unit(thousandths_of(number), unit_of(name))
}

/// How many ones so many thousandths of so many ones are, up to a limit.
fn whole(thousandths: u64, factor: u64, limit: u64) -> Result<u64, QuantityError>
    requires factor { 0 < factor }
    requires small { factor ≤ 1000000 }
    requires limit { limit < 2 ^ 50 }
    ensures value { (exact : ℕ) → thousandths ≡ cap exact → result ≡ definition.whole exact factor limit }
    ensures limit { IfOk result (λ number. number ≤ limit) }
{
    if thousandths > limit * 1000 / factor {
        return Err(QuantityError::TooGreat);
    }
    let product = thousandths * factor;
    if product.is_multiple_of(1000) {
        Ok(product / 1000)
    } else {
        Err(QuantityError::NotWhole)
    }
}

/// A quantity as a length.
fn as_length(quantity: Quantity) -> Result<u64, QuantityError>
    ensures value { (exact : Written) → quantity ≡ capped_written exact → result ≡ definition.length_in exact.thousandths (definition.nanoseconds exact.unit) }
    ensures limit { IfOk result (λ number. number ≤ most_length) }
{
    match quantity.unit.nanoseconds() {
        Some(factor) => whole(quantity.thousandths, factor, MOST_LENGTH),
        None => Err(QuantityError::Unit),
    }
}

/// A quantity as a number of millionths.
fn as_millionths(quantity: Quantity) -> Result<u64, QuantityError>
    ensures value { (exact : Written) → quantity ≡ capped_written exact → result ≡ definition.millionths_in exact.thousandths exact.unit }
    ensures limit { IfOk result (λ number. number ≤ most_millionths) }
{
    match quantity.unit {
        Unit::Millionth => whole(quantity.thousandths, 1, MOST_MILLIONTHS),
        Unit::Nanosecond | Unit::Microsecond | Unit::Millisecond | Unit::BitTime => {
            Err(QuantityError::Unit)
        }
    }
}

/// The length that is written so, or why none is.
fn length_written(quantity: Result<Quantity, QuantityError>) -> Result<u64, QuantityError>
    ensures value { (exact : Result Written Error) → quantity ≡ capped_quantity exact → result ≡ definition.length_written exact }
    ensures limit { IfOk result (λ number. number ≤ most_length) }
{
    match quantity {
        Ok(quantity) => as_length(quantity),
        Err(error) => Err(error),
    }
}

/// The number of millionths that is written so, or why none is.
fn millionths_written(quantity: Result<Quantity, QuantityError>) -> Result<u64, QuantityError>
    ensures value { (exact : Result Written Error) → quantity ≡ capped_quantity exact → result ≡ definition.millionths_written exact }
    ensures limit { IfOk result (λ number. number ≤ most_millionths) }
{
    match quantity {
        Ok(quantity) => as_millionths(quantity),
        Err(error) => Err(error),
    }
}

/// The length that a word writes, such as `600ns`, `1.5us`, `2ms` or `3bt`, in nanoseconds.
///
/// # Errors
///
/// As [`QuantityError`] says, where its unit is none of `ns`, `us`, `ms`, `bt`, and the greatest length is [`MOST_LENGTH`].
pub fn length_of(word: &[u8]) -> Result<u64, QuantityError>
    ensures value { result ≡ definition.length_of word.now }
    ensures limit { IfOk result (λ number. number ≤ most_length) }
{
    length_written(quantity_of(word))
}

/// By how many millionths a clock is off that a word writes, such as `100ppm`.
///
/// # Errors
///
/// As [`QuantityError`] says, where its unit isn't `ppm`, and the greatest number is [`MOST_MILLIONTHS`].
pub fn millionths_of(word: &[u8]) -> Result<u64, QuantityError>
    ensures value { result ≡ definition.millionths_of word.now }
    ensures limit { IfOk result (λ number. number ≤ most_millionths) }
{
    millionths_written(quantity_of(word))
}

/// A length in nanoseconds, in bit times: rounded up.
pub fn bits_up(length: u64) -> u64
    ensures { result ≡ div_ceil length definition.bit_time }
{
    length.div_ceil(BIT_TIME)
}
