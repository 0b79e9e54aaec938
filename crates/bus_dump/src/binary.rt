//! Numbers in binary digits.
ghost use Rattle.std.specs.Prelude.{◌≡◌, ◌+◌, ◌%◌, map};
ghost use Rattle.std.specs.Int.Digits.{digits_of};
ghost use Rattle.bus_outer.specs.Texts.{Adds};
ghost use Rattle.bus_dump.specs.DumpTexts.{binary};

use bus_outer::{Sink, TextBuffer};

/// The last binary digit of a number.
fn digit(number: u64) -> u8
    ensures { result ≡ 48 + number % 2 }
{
    b'0' + (number % 2) as u8
}

/// The binary digits of a number from the highest one that is set, one by one; none of 0.
fn put_each<K: Sink>(text: &mut TextBuffer, sink: &mut K, number: u64)
    ensures { Adds K.held K.faults sink.old sink.new text.old text.new (map (λ digit. 48 + digit) (digits_of 2 number)) }
{
    if number == 0 {
        return;
    }
    put_each(text, sink, number / 2);
    text.put_byte(sink, digit(number));
}

/// The same, but for the first ones four at a time.
fn put_digits<K: Sink>(text: &mut TextBuffer, sink: &mut K, number: u64)
    ensures { Adds K.held K.faults sink.old sink.new text.old text.new (map (λ digit. 48 + digit) (digits_of 2 number)) }
{
    if number < 16 {
        put_each(text, sink, number);
        return;
    }
    put_digits(text, sink, number / 16);
    let last = [
        digit(number / 8),
        digit(number / 4),
        digit(number / 2),
        digit(number),
    ];
    text.put(sink, &last);
}

/// A number in binary digits.
pub(crate) fn put_binary<K: Sink>(text: &mut TextBuffer, sink: &mut K, number: u64)
    ensures { Adds K.held K.faults sink.old sink.new text.old text.new (binary number) }
{
    if number == 0 {
        text.put_byte(sink, b'0');
    } else {
        put_digits(text, sink, number);
    }
}
