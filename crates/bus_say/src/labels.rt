//! Labels and extensions, as tables write them.
ghost use Rattle.bus_outer.specs.Texts.{Adds};
ghost use Rattle.bus_say.specs.Labels.{extension_text, label_text};

use bus_outer::{Sink, TextBuffer};
use bus_text::{hex_digit, three_digits};

/// Puts a label: the last three hexadecimal digits of a number.
pub(crate) fn put_label<K: Sink>(text: &mut TextBuffer, sink: &mut K, n: u128)
    ensures { Adds K.held K.faults sink.old sink.new text.old text.new (label_text n) }
{
    text.put(sink, &three_digits((n % 4096) as u16));
}

/// Puts an extension: the digit of a number below 16, or `*` for every extension.
pub(crate) fn put_extension<K: Sink>(text: &mut TextBuffer, sink: &mut K, n: u128)
    ensures { Adds K.held K.faults sink.old sink.new text.old text.new (extension_text n) }
{
    if n < 16 {
        text.put_byte(sink, hex_digit(n as u8));
    } else {
        text.put_byte(sink, b'*');
    }
}
