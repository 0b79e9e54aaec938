//! The plain words of a command line, and the options behind them.
ghost use Rattle.std.specs.Prelude.{◌≡◌, ◌≤◌, ◌<◌, drop, length, string_bytes, IfOk};
ghost use Rattle.std.specs.List.{position, position_or_len, starts_with};
ghost use Rattle.bus_options.specs.Options as definition;
ghost use Rattle.bus_options.specs.Words.{words_of};

use crate::options::Options;
use crate::reading::{Reading, START};
use crate::setting::OptionReason;

/// The words of a command line.
#[derive(Clone, Copy, Debug, PartialEq, Eq)]
pub struct Line {
    /// How many words stand before the first option: the command, and its plain words.
    pub plain: usize,
    /// The options behind them.
    pub options: Options,
}

/// A word that is refused where an option stands.
#[derive(Clone, Copy, Debug, PartialEq, Eq)]
pub struct OptionError {
    /// Which word it is, the first of the command line being 0; of an option without its value the option's.
    pub place: usize,
    /// Why.
    pub why: OptionReason,
}

/// Whether a word is no plain one: it begins with `--`.
fn is_option(word: &String) -> bool
    ensures { result ≡ definition.is_option (string_bytes word.now) }
{
    word.as_bytes().starts_with(b"--")
}

/// Where the first option stands; None where there is none.
fn first_option(words: &[String]) -> Option<usize>
    ensures { result ≡ position (λ word. definition.is_option (string_bytes word)) words.now }
{
    words.iter().position(|word| is_option(word))
}

/// How many words stand before the first option.
fn plain_count(words: &[String]) -> usize
    ensures value { result ≡ definition.plain_count (words_of words.now) }
    ensures bound { result ≤ length words.now }
{
    match first_option(words) {
        Some(at) => at,
        None => words.len(),
    }
}

/// What is read of the words from a place on.
fn read(words: &[String], from: usize) -> Result<Reading, OptionError>
    requires { from ≤ length words.now }
    ensures { result ≡ definition.read definition.start from (drop from (words_of words.now)) }
{
    let mut reading = START;
    for place in from..words.len() {
        match reading.with(words[place].as_str()) {
            Ok(next) => reading = next,
            Err(why) => return Err(OptionError { place, why }),
        }
    }
    Ok(reading)
}

/// The options that were read, where none waits for its value behind this last word.
fn ended(reading: Reading, last: usize) -> Result<Options, OptionError>
    ensures { result ≡ definition.ended last reading }
{
    match reading.waiting {
        None => Ok(reading.options),
        Some(_) => Err(OptionError {
            place: last,
            why: OptionReason::NoValue,
        }),
    }
}

/// The plain words of a command line, and the options behind them. It takes no memory.
///
/// # Errors
///
/// The first word that is refused where an option stands, as [`OptionReason`] says.
pub fn line_of(words: &[String]) -> Result<Line, OptionError>
    ensures value { result ≡ definition.line_of (words_of words.now) }
    ensures bound { IfOk result (λ line. line.plain ≤ length words.now) }
{
    let plain = plain_count(words);
    match read(words, plain) {
        Ok(reading) => match ended(reading, words.len().saturating_sub(1)) {
            Ok(options) => Ok(Line { plain, options }),
            Err(error) => Err(error),
        },
        Err(error) => Err(error),
    }
}
