//! The words of a wordstring, each in its place.
ghost use Rattle.std.specs.Prelude.{◌≡◌, ◌<◌, ◌≤◌, ◌+◌, ◌^◌, length};
ghost use Rattle.bus_outer.specs.Texts.{Adds};
ghost use Rattle.bus_text.specs.Digits.{hexadecimal};
ghost use Rattle.bus_strings.specs.Limits.{word_bits};
ghost use Rattle.bus_pen.specs.Scales.{IsScale};
ghost use Rattle.bus_picture.specs.declared.measures.TheConstants.{DIGITS_ROOM as digits_room, LABEL_ROOM as label_room};
ghost use Rattle.bus_picture.specs.Strings as definition;

use crate::measures::{DIGITS_ROOM, EDGE_WIDTH, LABEL_ROOM, STRING_LINE, WORD_ROOM};
use crate::names::put_name;
use crate::places::{meets, string_area};
use bus_outer::{Sink, TextBuffer};
use bus_pen::{Area, Class, Scale, begin_words, digits_class, end_words, put_box, put_words};
use bus_strings::Wordstring;
use bus_strings::limits::WORD_BITS;
use bus_text::four_digits;

/// The bit times of a word.
const WORD: u64 = WORD_BITS as u64;

/// Whether words have room: 34 pixels for each.
pub(crate) fn has_room(scale: &Scale) -> bool
    requires { IsScale scale.now }
    ensures { result ≡ definition.has_room scale.now }
{
    WORD_ROOM * (scale.to - scale.from) <= WORD * scale.width
}

/// How a label word looks.
fn label_class(garbled: bool) -> Class
    ensures { result ≡ definition.label_class garbled }
{
    if garbled {
        Class::Overlap
    } else {
        Class::Label
    }
}

/// The label and the extension, in the middle of an area that has room for them.
fn put_label_digits<K: Sink>(
    text: &mut TextBuffer,
    sink: &mut K,
    garbled: bool,
    area: Area,
    string: &Wordstring,
)
    requires left { area.left < 2 ^ 22 }
    requires width { area.width < 2 ^ 22 }
    requires top { area.top < 2 ^ 41 }
    ensures { Adds K.held K.faults sink.old sink.new text.old text.new
        (definition.digits_text garbled area label_room (definition.name_words string.now)) }
{
    if area.width < LABEL_ROOM {
        return;
    }
    begin_words(
        text,
        sink,
        digits_class(garbled),
        area.left + area.width / 2,
        area.top + STRING_LINE,
    );
    put_name(text, sink, string);
    end_words(text, sink);
}

/// The digits of a data word, in the middle of an area that has room for them.
fn put_data_digits<K: Sink>(
    text: &mut TextBuffer,
    sink: &mut K,
    garbled: bool,
    area: Area,
    word: u16,
)
    requires left { area.left < 2 ^ 22 }
    requires width { area.width < 2 ^ 22 }
    requires top { area.top < 2 ^ 41 }
    ensures { Adds K.held K.faults sink.old sink.new text.old text.new
        (definition.digits_text garbled area digits_room (hexadecimal 4 word)) }
{
    if area.width < DIGITS_ROOM {
        return;
    }
    let digits = four_digits(word);
    put_words(
        text,
        sink,
        digits_class(garbled),
        area.left + area.width / 2,
        area.top + STRING_LINE,
        &digits,
    );
}

/// A label word.
fn put_label_word<K: Sink>(
    text: &mut TextBuffer,
    sink: &mut K,
    garbled: bool,
    area: Area,
    string: &Wordstring,
)
    requires left { area.left < 2 ^ 22 }
    requires width { area.width < 2 ^ 22 }
    requires top { area.top < 2 ^ 41 }
    ensures { Adds K.held K.faults sink.old sink.new text.old text.new (definition.label_word garbled area string.now) }
{
    put_box(text, sink, label_class(garbled), area);
    put_label_digits(text, sink, garbled, area, string);
}

/// A data word.
fn put_data_word<K: Sink>(text: &mut TextBuffer, sink: &mut K, garbled: bool, area: Area, word: u16)
    requires left { area.left < 2 ^ 22 }
    requires width { area.width < 2 ^ 22 }
    requires top { area.top < 2 ^ 41 }
    ensures { Adds K.held K.faults sink.old sink.new text.old text.new (definition.data_word garbled area word) }
{
    let edge = Area {
        left: area.left,
        top: area.top,
        width: EDGE_WIDTH,
        height: area.height,
    };
    put_box(text, sink, Class::Edge, edge);
    put_data_digits(text, sink, garbled, area, word);
}

/// The label word that begins at a moment, where it meets the moments of the scale.
fn put_label_at<K: Sink>(
    text: &mut TextBuffer,
    sink: &mut K,
    scale: &Scale,
    top: u64,
    garbled: bool,
    t: u64,
    string: &Wordstring,
)
    requires scale { IsScale scale.now }
    requires top { top < 2 ^ 40 }
    requires low { t < 2 ^ 43 }
    ensures { Adds K.held K.faults sink.old sink.new text.old text.new (definition.label_at scale.now top garbled t string.now) }
{
    if meets(scale, t, t + WORD) {
        let area = string_area(scale, top, t, t + WORD);
        put_label_word(text, sink, garbled, area, string);
    }
}

/// The same of a data word.
fn put_data_at<K: Sink>(
    text: &mut TextBuffer,
    sink: &mut K,
    scale: &Scale,
    top: u64,
    garbled: bool,
    t: u64,
    word: u16,
)
    requires scale { IsScale scale.now }
    requires top { top < 2 ^ 40 }
    requires low { t < 2 ^ 43 }
    ensures { Adds K.held K.faults sink.old sink.new text.old text.new (definition.data_at scale.now top garbled t word) }
{
    if meets(scale, t, t + WORD) {
        let area = string_area(scale, top, t, t + WORD);
        put_data_word(text, sink, garbled, area, word);
    }
}

/// Data words, one behind the other, of which the first begins at a moment.
fn put_data<K: Sink>(
    text: &mut TextBuffer,
    sink: &mut K,
    scale: &Scale,
    top: u64,
    garbled: bool,
    t: u64,
    words: &[u16],
)
    requires scale { IsScale scale.now }
    requires top { top < 2 ^ 40 }
    requires low { t < 2 ^ 42 + word_bits }
    requires few { length words.now ≤ 256 }
    ensures { Adds K.held K.faults sink.old sink.new text.old text.new
        (definition.data_from scale.now top garbled t words.now) }
{
    for k in 0..words.len() {
        put_data_at(
            text,
            sink,
            scale,
            top,
            garbled,
            t + WORD * (k as u64),
            words[k],
        );
    }
}

/// The words of a wordstring that begins at a moment, in a row with this upper edge.
pub(crate) fn put_each_word<K: Sink>(
    text: &mut TextBuffer,
    sink: &mut K,
    scale: &Scale,
    top: u64,
    garbled: bool,
    t: u64,
    string: &Wordstring,
)
    requires scale { IsScale scale.now }
    requires top { top < 2 ^ 40 }
    requires low { t < 2 ^ 42 }
    ensures { Adds K.held K.faults sink.old sink.new text.old text.new (definition.each_word scale.now top garbled t string.now) }
{
    put_label_at(text, sink, scale, top, garbled, t, string);
    let words = string.words();
    put_data(text, sink, scale, top, garbled, t + WORD, words);
}
