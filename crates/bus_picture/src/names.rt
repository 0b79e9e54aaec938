//! What wordstrings are called.
ghost use Rattle.std.specs.Prelude.{◌<◌, [], ◌∷◌};
ghost use Rattle.bus_outer.specs.Texts.{Adds};
ghost use Rattle.bus_text.specs.Digits.{hex_digit as digit_of};
ghost use Rattle.bus_picture.specs.Strings as definition;

use bus_outer::{Sink, TextBuffer};
use bus_strings::Wordstring;
use bus_text::{hex_digit, three_digits};

/// A hexadecimal digit.
fn put_digit<K: Sink>(text: &mut TextBuffer, sink: &mut K, digit: u8)
    requires { digit < 16 }
    ensures { Adds K.held K.faults sink.old sink.new text.old text.new (digit_of digit ∷ []) }
{
    let byte = hex_digit(digit);
    text.put_byte(sink, byte);
}

/// A label and an extension.
fn put_both<K: Sink>(text: &mut TextBuffer, sink: &mut K, label: u16, ext: u8)
    requires { label < 4096 }
    ensures { Adds K.held K.faults sink.old sink.new text.old text.new (definition.both_words label ext) }
{
    text.put(sink, &three_digits(label));
    text.put_byte(sink, b' ');
    put_digit(text, sink, ext % 16);
}

/// The name of a wordstring.
pub(crate) fn put_name<K: Sink>(text: &mut TextBuffer, sink: &mut K, string: &Wordstring)
    ensures { Adds K.held K.faults sink.old sink.new text.old text.new (definition.name_words string.now) }
{
    let label = string.label().value();
    let ext = string.ext().value();
    put_both(text, sink, label, ext);
}
