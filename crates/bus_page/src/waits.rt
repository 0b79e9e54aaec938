//! How long data wait at most for each terminal: a bar for its turn, and one for its longest message behind it.
ghost use Rattle.std.specs.Prelude.{◌≡◌, ◌<◌, ◌≤◌, ◌^◌, length};
ghost use Rattle.bus_outer.specs.Texts.{Adds};
ghost use Rattle.bus_pen.specs.Scales.{IsScale};
ghost use Rattle.bus_page.specs.Waits as definition;

use crate::bars::words_class;
use crate::measures::{
    BAR_HEIGHT, BAR_LINE, BESIDE_BAR, ROW_HEIGHT, ROWS_TOP, WAITS_LEFT, WAITS_WIDTH,
};
use crate::message::{area_of, put_terminal};
use crate::paint::{Paint, begin_picture, end_picture, put_plain};
use bus_outer::{Sink, TextBuffer};
use bus_pen::{Class, Scale, begin_words, end_words};
use bus_say::put_time;
use bus_table::{Sender, longest};

/// How a message looks, which is the longest of all, or isn't.
fn message_paint(longest_of_all: bool) -> Paint
    ensures { result ≡ definition.message_paint longest_of_all }
{
    if longest_of_all {
        Paint::Limits
    } else {
        Paint::Sent
    }
}

/// Puts the words before a bar.
fn put_before<K: Sink>(text: &mut TextBuffer, sink: &mut K, top: u64, number: u8)
    requires { top < 2 ^ 40 }
    ensures { Adds K.held K.faults sink.old sink.new text.old text.new (definition.before_text top number) }
{
    begin_words(
        text,
        sink,
        Class::Counts,
        WAITS_LEFT - BESIDE_BAR,
        top + BAR_LINE,
    );
    put_terminal(text, sink, number);
    end_words(text, sink);
}

/// Puts the words behind a bar that ends here.
fn put_behind<K: Sink>(
    text: &mut TextBuffer,
    sink: &mut K,
    class: Class,
    left: u64,
    top: u64,
    bits: u64,
)
    requires left { left < 2 ^ 40 }
    requires top { top < 2 ^ 40 }
    ensures { Adds K.held K.faults sink.old sink.new text.old text.new (definition.behind_text class left top bits) }
{
    begin_words(text, sink, class, left + BESIDE_BAR, top + BAR_LINE);
    put_time(text, sink, bits as u128);
    end_words(text, sink);
}

/// Puts the row of a terminal with this longest message.
fn put_row<K: Sink>(
    text: &mut TextBuffer,
    sink: &mut K,
    scale: &Scale,
    most: u64,
    greatest: u64,
    top: u64,
    number: u8,
    bits: u64,
)
    requires scale { IsScale scale.now }
    requires most { most ≤ 2 ^ 40 }
    requires bits { bits ≤ 2 ^ 40 }
    requires top { top < 2 ^ 40 }
    ensures { Adds K.held K.faults sink.old sink.new text.old text.new (definition.row_text scale.now most greatest top number bits) }
{
    let end = most + bits;
    let paint = message_paint(bits == greatest);
    let class = words_class(bits == greatest);
    put_before(text, sink, top, number);
    put_plain(
        text,
        sink,
        Paint::Wait,
        area_of(scale, 0, most, top, BAR_HEIGHT),
    );
    put_plain(
        text,
        sink,
        paint,
        area_of(scale, most, end, top, BAR_HEIGHT),
    );
    put_behind(text, sink, class, scale.place(end), top, end);
}

/// Puts the row of a sender.
fn put_sender<K: Sink>(
    text: &mut TextBuffer,
    sink: &mut K,
    scale: &Scale,
    most: u64,
    greatest: u64,
    top: u64,
    sender: &Sender,
)
    requires scale { IsScale scale.now }
    requires most { most ≤ 2 ^ 40 }
    requires top { top < 2 ^ 40 }
    ensures { Adds K.held K.faults sink.old sink.new text.old text.new
        (definition.sender_text scale.now most greatest top sender.now) }
{
    let bits = u64::from(longest(sender));
    put_row(
        text,
        sink,
        scale,
        most,
        greatest,
        top,
        sender.number(),
        bits,
    );
}

/// Puts the rows of senders.
fn put_rows<K: Sink>(
    text: &mut TextBuffer,
    sink: &mut K,
    scale: &Scale,
    most: u64,
    greatest: u64,
    senders: &[Sender],
)
    requires scale { IsScale scale.now }
    requires most { most ≤ 2 ^ 40 }
    requires few { length senders.now ≤ 128 }
    ensures { Adds K.held K.faults sink.old sink.new text.old text.new
        (definition.sender_rows scale.now most greatest senders.now) }
{
    let mut top = ROWS_TOP;
    for k in 0..senders.len() {
        let sender = &senders[k];
        put_sender(text, sink, scale, most, greatest, top, sender);
        top += ROW_HEIGHT;
    }
}

/// The longest of all messages.
fn greatest_message(senders: &[Sender]) -> u64
    ensures value { result ≡ definition.greatest_message senders.now }
    ensures bound { result ≤ 2 ^ 40 }
{
    let mut most = 0;
    for sender in senders {
        most = u64::from(longest(sender)).max(most);
    }
    most
}

/// From a start to the end of the longest message behind the longest wait.
fn waits_scale(most: u64, greatest: u64) -> Scale
    requires some { 0 < most }
    requires most { most ≤ 2 ^ 40 }
    requires greatest { greatest ≤ 2 ^ 40 }
    ensures value { result ≡ definition.waits_scale most greatest }
    ensures scale { IsScale result }
{
    Scale {
        from: 0,
        to: most + greatest,
        left: WAITS_LEFT,
        width: WAITS_WIDTH,
    }
}

/// Puts the picture of these senders, of which two starts are at most `most` bit times apart.
pub(crate) fn put_waits<K: Sink>(text: &mut TextBuffer, sink: &mut K, most: u64, senders: &[Sender])
    requires some { 0 < most }
    requires most { most ≤ 2 ^ 40 }
    requires few { length senders.now ≤ 128 }
    ensures { Adds K.held K.faults sink.old sink.new text.old text.new (definition.waits_text most senders.now) }
{
    let greatest = greatest_message(senders);
    let scale = waits_scale(most, greatest);
    let rows = senders.len() as u64;
    begin_picture(
        text,
        sink,
        ROWS_TOP + ROW_HEIGHT * rows,
        b"How long data wait",
    );
    put_rows(text, sink, &scale, most, greatest, senders);
    end_picture(text, sink);
}

/// Puts what its bars mean.
pub(crate) fn put_waits_legend<K: Sink>(text: &mut TextBuffer, sink: &mut K, most: u64)
    ensures { Adds K.held K.faults sink.old sink.new text.old text.new (definition.waits_legend most) }
{
    text.put(
        sink,
        b"<p>The first part of a bar is the time from a start of the terminal to its next one, at most ",
    );
    put_time(text, sink, most as u128);
    text.put(
        sink,
        b". The second is its longest message; where no terminal has a longer one, it and the time behind it stand out.</p>\n",
    );
}
