//! What a message has on the bus at one of its bit times, and for how long.
ghost use Rattle.std.specs.Prelude.{◌≡◌, ◌+◌, ◌*◌, ◌<◌, Some};
ghost use Rattle.bus_strings.specs.Messages.{word_count, bits};
ghost use Rattle.bus_dump.specs.OnBus.{label_value, word_at, string_bits};
ghost use Rattle.bus_dump.specs.inside.Walks.{IsShownStretch, stretch_in, left_of};

use crate::shown::Shown;
use bus_strings::limits::{INNER_GAP, WORD_BITS};
use bus_strings::{Message, Wordstring};
use bus_words::label_word;

/// The bit times of a word.
const WORD: u64 = WORD_BITS as u64;

/// The bit times of the sync at the front of a word.
const SYNC: u64 = 3;

/// The quiet bit times between two wordstrings.
const GAP: u64 = INNER_GAP as u64;

/// What a message has on the bus at a bit time, None where it is quiet, and for how many bit times from there on.
#[derive(Clone, Copy, Debug)]
pub(crate) struct ShownStretch {
    /// What it has there.
    pub shown: Option<Shown>,
    /// For how many bit times it stays so, from this one on.
    pub left: u64,
}

/// The value of the label word of a wordstring.
fn label_of(string: &Wordstring) -> u16
    ensures { result ≡ label_value string.now }
{
    label_word(string.label(), string.ext()).value
}

/// The value of word k of a wordstring, from 0, which is its label word.
fn word_of(string: &Wordstring, k: u64) -> u16
    requires { k < word_count string.now }
    ensures { result ≡ word_at string.now k }
{
    if k == 0 {
        return label_of(string);
    }
    string.words()[k as usize - 1]
}

/// How long a word stays as it is, from a bit time of it on: to the end of its sync, or to its own end.
fn left_in_word(at: u64) -> u64
    requires { at < WORD }
    ensures { result ≡ left_of at }
{
    if at < SYNC { SYNC - at } else { WORD - at }
}

/// A bit time of a wordstring.
fn in_string(string: &Wordstring, at: u64) -> ShownStretch
    requires { at < string_bits string.now }
    ensures { result ≡ stretch_in string.now at }
{
    let bit = at % WORD;
    let shown = Shown {
        label: label_of(string),
        word: word_of(string, at / WORD),
        sync: bit < SYNC,
    };
    ShownStretch {
        shown: Some(shown),
        left: left_in_word(bit),
    }
}

/// A bit time of a message, counted from its first.
pub(crate) fn stretch_at(message: &Message, at: u64) -> ShownStretch
    requires { at < bits message.now }
    ensures { IsShownStretch message.now at result }
{
    let mut rest = at;
    for string in message.strings() {
        let length = WORD * u64::from(string.word_count());
        if rest < length {
            return in_string(string, rest);
        }
        if rest < length + GAP {
            return ShownStretch {
                shown: None,
                left: length + GAP - rest,
            };
        }
        rest -= length + GAP;
    }
    // A bit time of the message is never behind its last wordstring.
    ShownStretch {
        shown: None,
        left: 1,
    }
}
