//! An option with its value.
ghost use Rattle.std.specs.Prelude.{◌≡◌};
ghost use Rattle.bus_options.specs.Settings as settings;
ghost use Rattle.bus_units.specs.Quantities.{length_of as length_definition};

use crate::key::Key;
use bus_strings::limits::MOST_TERMINAL;
use bus_text::plain_decimal;
use bus_units::{QuantityError, length_of, millionths_of};

/// `K=LENGTH`: how old what is known of a terminal may be.
#[derive(Clone, Copy, Debug, PartialEq, Eq)]
pub struct Age {
    /// The number of the terminal: 1 to 128.
    pub number: u8,
    /// In nanoseconds.
    pub length: u64,
}

/// In what times of edges are written.
#[derive(Clone, Copy, Debug, PartialEq, Eq)]
pub enum EdgeUnit {
    /// `ns`
    Nanoseconds,
    /// `s`
    Seconds,
}

/// An option with its value: lengths are in nanoseconds, clocks in millionths.
#[derive(Clone, Copy, Debug, PartialEq, Eq)]
pub enum Setting {
    /// How much later a terminal hears another than it speaks.
    Delay(u64),
    /// By how much any length is off.
    Jitter(u64),
    /// By how many millionths an oscillator is off.
    Clocks(u64),
    /// From which moment on something is shown.
    From(u64),
    /// Below which moment it is.
    To(u64),
    /// The order of the senders is free.
    FreeOrder,
    /// How old what is known of a terminal may be.
    Age(Age),
    /// In what times of edges are written.
    Unit(EdgeUnit),
    /// The answer is JSON.
    Json,
}

/// Why a word is refused where an option stands.
#[derive(Clone, Copy, Debug, PartialEq, Eq)]
pub enum OptionReason {
    /// It is no option: no option has this name, or it is a plain word behind an option.
    Unknown,
    /// The option stands there already; `--age` alone may stand there again.
    Twice,
    /// The value of the option is missing.
    NoValue,
    /// The option has no value.
    HasValue,
    /// The value is no such quantity.
    Quantity(QuantityError),
    /// The value is none of the words that may stand there.
    Word,
    /// The value of an age doesn't begin with the number of a terminal and `=`.
    Terminal,
}

/// The quantity that a value writes, or why none.
fn quantity(value: Result<u64, QuantityError>) -> Result<u64, OptionReason>
    ensures { result ≡ settings.quantity value }
{
    match value {
        Ok(number) => Ok(number),
        Err(why) => Err(OptionReason::Quantity(why)),
    }
}

/// The length that a value writes.
fn length(value: &str) -> Result<u64, OptionReason>
    ensures { result ≡ settings.quantity (length_definition value.now) }
{
    quantity(length_of(value.as_bytes()))
}

/// The number of a terminal that a word writes.
fn number_of(word: &[u8]) -> Option<u8>
    ensures { result ≡ settings.number_of word.now }
{
    match plain_decimal(word) {
        Some(number) if 1 <= number && number <= u64::from(MOST_TERMINAL) => Some(number as u8),
        _ => None,
    }
}

/// The age of a terminal, where it has a number, and a value its length.
fn age_with(number: Option<u8>, length: Result<u64, OptionReason>) -> Result<Age, OptionReason>
    ensures { result ≡ settings.age_with number length }
{
    match (number, length) {
        (Some(number), Ok(length)) => Ok(Age { number, length }),
        (Some(_), Err(why)) => Err(why),
        (None, _) => Err(OptionReason::Terminal),
    }
}

/// The age that a value writes.
pub(crate) fn age_of(value: &str) -> Result<Age, OptionReason>
    ensures { result ≡ settings.age_of value.now }
{
    match value.split_once('=') {
        Some((number, behind)) => age_with(number_of(number.as_bytes()), length(behind)),
        None => Err(OptionReason::Terminal),
    }
}

/// The unit of edges that a value names.
fn unit_of(value: &str) -> Result<EdgeUnit, OptionReason>
    ensures { result ≡ settings.unit_of value.now }
{
    if value == "ns" {
        Ok(EdgeUnit::Nanoseconds)
    } else if value == "s" {
        Ok(EdgeUnit::Seconds)
    } else {
        Err(OptionReason::Word)
    }
}

/// The order that a value names.
fn order_of(value: &str) -> Result<Setting, OptionReason>
    ensures { result ≡ settings.order_of value.now }
{
    if value == "free" {
        Ok(Setting::FreeOrder)
    } else {
        Err(OptionReason::Word)
    }
}

/// An option with the value that a word writes; that of an option without one isn't looked at.
pub(crate) fn setting_of(key: Key, value: &str) -> Result<Setting, OptionReason>
    ensures { result ≡ settings.setting_of key value.now }
{
    match key {
        Key::Delay => length(value).map(Setting::Delay),
        Key::Jitter => length(value).map(Setting::Jitter),
        Key::Clocks => quantity(millionths_of(value.as_bytes())).map(Setting::Clocks),
        Key::From => length(value).map(Setting::From),
        Key::To => length(value).map(Setting::To),
        Key::Order => order_of(value),
        Key::Age => age_of(value).map(Setting::Age),
        Key::Unit => unit_of(value).map(Setting::Unit),
        Key::Json => Ok(Setting::Json),
    }
}
