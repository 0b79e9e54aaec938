//! How long a message is, and when it is on.
ghost use Rattle.std.specs.Prelude.{◌≡◌, ◌+◌, ◌*◌, ◌<◌, ◌≤◌, length, sum_by};
ghost use Rattle.bus_strings.specs.Limits.{most_strings, most_words, word_bits};
ghost use Rattle.bus_strings.specs.Messages.{IsMessage, word_count, bits, most_bits};
ghost use Rattle.bus_strings.specs.Pulses.{pulse_start, pulse_length, is_on};

use crate::limits::{INNER_GAP, WORD_BITS};
use crate::message::Message;
use crate::wordstring::Wordstring;

/// The words of these wordstrings, label words included.
fn words_of(strings: &[Wordstring]) -> u32
    requires { length strings.now ≤ most_strings }
    ensures value { result ≡ sum_by word_count strings.now }
    ensures least { length strings.now ≤ result }
    ensures most { result ≤ (1 + most_words) * length strings.now }
{
    let mut words = 0;
    for string in strings {
        words += string.word_count();
    }
    words
}

/// The bit times of a message of these wordstrings.
pub(crate) fn bits_of(strings: &[Wordstring]) -> u32
    requires some { 0 < length strings.now }
    requires few { length strings.now ≤ most_strings }
    ensures { result ≡ bits strings.now }
{
    WORD_BITS * words_of(strings) + INNER_GAP * (strings.len() as u32 - 1)
}

/// The bit times of a message, from its first to its last: twenty for each word, label words included, and four
/// quiet ones between two wordstrings. From 20, a label word alone, to 159,460.
pub fn bits(message: &Message) -> u32
    ensures value { result ≡ bits message.now }
    ensures least { word_bits ≤ result }
    ensures most { result ≤ most_bits }
    ensures ranges { IsMessage message.now }
{
    message.bits()
}

/// How many pulses a message has: one for each wordstring, so 1 to 31.
pub fn pulse_count(message: &Message) -> u32
    ensures value { result ≡ length message.now }
    ensures ranges { IsMessage message.now }
{
    message.strings().len() as u32
}

/// The first bit time of pulse `k`, from 0, counted from the message's first, and how many bit times it lasts.
pub fn pulse(message: &Message, k: u32) -> (u32, u32)
    requires { k < length message.now }
    ensures first { result.0 ≡ pulse_start message.now k }
    ensures length { result.1 ≡ pulse_length message.now k }
    ensures ranges { IsMessage message.now }
{
    let strings = message.strings();
    let before = words_of(&strings[..k as usize]);
    (
        WORD_BITS * before + INNER_GAP * k,
        WORD_BITS * strings[k as usize].word_count(),
    )
}

/// Whether some pulse of the message covers bit time `d`, counted from the message's first.
pub fn is_on(message: &Message, d: u32) -> bool
    ensures { result ≡ is_on message.now d }
{
    let mut begin = 0;
    for string in message.strings() {
        if d < begin {
            return false;
        }
        let length = WORD_BITS * string.word_count();
        if d - begin < length {
            return true;
        }
        begin += length + INNER_GAP;
    }
    false
}
