//! The bytes of an RX line that come in one step.
ghost use Rattle.std.specs.Prelude.{◌≡◌, [], ◌∷◌, ◌++◌, codes};
ghost use Rattle.bus_text.specs.Digits.{hex_digit as digit_of, hexadecimal};
ghost use Rattle.bus_filter.specs.ReceivedTexts.{word_text};

use bus_text::{four_digits, hex_digit, three_digits};
use bus_words::{Ext, Label};

/// A label and an extension, each behind its space.
pub(crate) fn head_bytes(label: Label, ext: Ext) -> [u8; 6]
    ensures { result ≡ codes " " ++ hexadecimal 3 label ++ codes " " ++ digit_of ext ∷ [] }
{
    let [a, b, c] = three_digits(label.value());
    [b' ', a, b, c, b' ', hex_digit(ext.value())]
}

/// A word behind its space.
pub(crate) fn word_bytes(word: u16) -> [u8; 5]
    ensures { result ≡ word_text word }
{
    let [a, b, c, d] = four_digits(word);
    [b' ', a, b, c, d]
}

/// Four words, each behind its space.
pub(crate) fn four_bytes(a: u16, b: u16, c: u16, d: u16) -> [u8; 20]
    ensures { result ≡ word_text a ++ word_text b ++ word_text c ++ word_text d }
{
    let (a, b) = (word_bytes(a), word_bytes(b));
    let (c, d) = (word_bytes(c), word_bytes(d));
    [
        a[0], a[1], a[2], a[3], a[4], b[0], b[1], b[2], b[3], b[4], c[0], c[1], c[2], c[3], c[4],
        d[0], d[1], d[2], d[3], d[4],
    ]
}
