//! Numbers as people read them: with their thousands parted, of things, in microseconds, and as a share.
ghost use Rattle.std.specs.Prelude.{◌<◌, ◌+◌, ◌^◌, ◌/◌, ◌%◌, ◌∷◌, [], decimal};
ghost use Rattle.bus_outer.specs.Texts.{Adds};
ghost use Rattle.bus_pen.specs.Numbers as definition;
ghost use Rattle.bus_strings.specs.Microseconds.{half_text};

use bus_outer::{Sink, TextBuffer};
use bus_strings::{put_share, tenths};

/// The three digits of a number below 1000.
fn put_three<K: Sink>(text: &mut TextBuffer, sink: &mut K, number: u64)
    requires { number < 1000 }
    ensures { Adds K.held K.faults sink.old sink.new text.old text.new
        ((48 + number / 100) ∷ ((48 + number / 10 % 10) ∷ ((48 + number % 10) ∷ []))) }
{
    let digits = [
        b'0' + (number / 100) as u8,
        b'0' + (number / 10 % 10) as u8,
        b'0' + (number % 10) as u8,
    ];
    text.put(sink, &digits);
}

/// Puts a number, with a thin space between its thousands.
pub fn put_parted<K: Sink>(text: &mut TextBuffer, sink: &mut K, number: u64)
    ensures { Adds K.held K.faults sink.old sink.new text.old text.new (definition.parted (decimal number)) }
{
    if number < 1000 {
        text.put_number(sink, number);
        return;
    }
    put_parted(text, sink, number / 1000);
    text.put(sink, b"\xe2\x80\x89");
    put_three(text, sink, number % 1000);
}

/// The ending of a name of something of which there are so many.
fn put_ending<K: Sink>(text: &mut TextBuffer, sink: &mut K, count: u64)
    ensures { Adds K.held K.faults sink.old sink.new text.old text.new (definition.ending count) }
{
    if count != 1 {
        text.put_byte(sink, b's');
    }
}

/// Puts how many there are of something, which has this name where it is one, with a thin space between the thousands.
pub fn put_counted<K: Sink>(text: &mut TextBuffer, sink: &mut K, count: u64, name: &[u8])
    ensures { Adds K.held K.faults sink.old sink.new text.old text.new (definition.counted count name.now) }
{
    put_parted(text, sink, count);
    text.put_byte(sink, b' ');
    text.put(sink, name);
    put_ending(text, sink, count);
}

/// What an odd number of bit times is beyond whole microseconds.
fn put_half<K: Sink>(text: &mut TextBuffer, sink: &mut K, bit_times: u64)
    ensures { Adds K.held K.faults sink.old sink.new text.old text.new (half_text bit_times) }
{
    if bit_times % 2 == 1 {
        text.put(sink, b".5");
    }
}

/// Puts so many bit times in microseconds, with a thin space between the thousands.
pub fn put_parted_microseconds<K: Sink>(text: &mut TextBuffer, sink: &mut K, bit_times: u64)
    ensures { Adds K.held K.faults sink.old sink.new text.old text.new (definition.parted_microseconds bit_times) }
{
    put_parted(text, sink, bit_times / 2);
    put_half(text, sink, bit_times);
}

/// Puts which share of a whole a part is: `12.5 %`, and `< 0.1 %`, as XML writes it, of some that rounds to none.
pub fn put_load_share<K: Sink>(text: &mut TextBuffer, sink: &mut K, part: u128, whole: u64)
    requires some { 0 < whole }
    requires few { part < 2 ^ 111 }
    ensures { Adds K.held K.faults sink.old sink.new text.old text.new (definition.load_words part whole) }
{
    let share = tenths(part, whole);
    if part > 0 && share == 0 {
        text.put(sink, b"&lt; 0.1 %");
    } else {
        put_share(text, sink, share);
    }
}
