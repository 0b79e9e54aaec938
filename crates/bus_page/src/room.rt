//! How much room a table leaves by each rule of the margins within bounds: a bar for each.
ghost use Rattle.std.specs.Prelude.{◌≡◌, ◌<◌, ◌^◌, pos, ◌-ℤ◌};
ghost use Rattle.bus_outer.specs.Texts.{Adds};
ghost use Rattle.bus_pen.specs.Scales.{IsScale};
ghost use Rattle.bus_page.specs.Rooms as definition;

use crate::bars::{paint_of, words_class};
use crate::measures::{
    BAR_HEIGHT, BAR_LINE, BESIDE_BAR, ROW_HEIGHT, ROWS_TOP, RULES_LEFT, RULES_WIDTH,
};
use crate::message::area_of;
use crate::paint::{Paint, begin_painted, end_painted, put_plain};
use bus_outer::{Sink, TextBuffer};
use bus_pen::{Area, Class, Scale, begin_words, end_words, put_words};

/// What a rule needs and what there is, in nanoseconds.
#[derive(Clone, Copy, Debug)]
pub struct Span {
    /// What the rule needs.
    pub need: u64,
    /// What there is.
    pub have: u64,
}

impl Span {
    /// Whether there is less than the rule needs.
    fn is_short(self) -> bool
        ensures { result ≡ definition.is_short self }
    {
        self.have < self.need
    }

    /// How much more there is than the rule needs, below 0 where there is less.
    fn room(self) -> i128
        ensures { result ≡ pos self.have -ℤ pos self.need }
    {
        i128::from(self.have) - i128::from(self.need)
    }

    /// From nothing to the greater of both.
    fn scale(self) -> Scale
        ensures value { result ≡ definition.span_scale self }
        ensures scale { IsScale result }
        ensures first { result.from ≡ 0 }
    {
        Scale {
            from: 0,
            to: self.need.max(self.have).max(1).min(1 << 40),
            left: RULES_LEFT,
            width: RULES_WIDTH,
        }
    }
}

/// What a rule needs of an aperiodic table, and what there is.
pub(crate) fn aperiodic_span(room: Option<bus_margins::Room>) -> Option<Span>
    ensures { result ≡ definition.aperiodic_span room }
{
    let room = room?;
    Some(Span {
        need: room.need,
        have: room.have,
    })
}

/// The same of a periodic one.
pub(crate) fn periodic_span(room: Option<bus_margins_periodic::Room>) -> Option<Span>
    ensures { result ≡ definition.periodic_span room }
{
    let room = room?;
    Some(Span {
        need: room.need,
        have: room.have,
    })
}

/// Puts both in words.
fn put_span_words<K: Sink>(text: &mut TextBuffer, sink: &mut K, span: Span)
    ensures { Adds K.held K.faults sink.old sink.new text.old text.new (definition.span_words span) }
{
    text.put(sink, b"needs ");
    text.put_number(sink, span.need);
    text.put(sink, b" ns of ");
    text.put_number(sink, span.have);
    text.put(sink, b" ns");
}

/// Puts how much room there is.
fn put_nanoseconds<K: Sink>(text: &mut TextBuffer, sink: &mut K, span: Span)
    ensures { Adds K.held K.faults sink.old sink.new text.old text.new (definition.nanoseconds_word span) }
{
    text.put_number(sink, span.room());
}

/// Puts the room.
fn put_room_words<K: Sink>(text: &mut TextBuffer, sink: &mut K, span: Span)
    ensures { Adds K.held K.faults sink.old sink.new text.old text.new (definition.room_words span) }
{
    text.put(sink, b"room ");
    put_nanoseconds(text, sink, span);
    text.put(sink, b" ns");
}

/// Puts what there is as a bar.
fn put_have<K: Sink>(text: &mut TextBuffer, sink: &mut K, top: u64, span: Span)
    requires { top < 2 ^ 40 }
    ensures { Adds K.held K.faults sink.old sink.new text.old text.new (definition.have_text top span) }
{
    let area = area_of(&span.scale(), 0, span.have, top, BAR_HEIGHT);
    begin_painted(text, sink, paint_of(span.is_short()), area);
    put_span_words(text, sink, span);
    end_painted(text, sink);
}

/// Puts what the rule needs as a stroke.
fn put_need<K: Sink>(text: &mut TextBuffer, sink: &mut K, top: u64, span: Span)
    requires { top < 2 ^ 40 }
    ensures { Adds K.held K.faults sink.old sink.new text.old text.new (definition.need_text top span) }
{
    let scale = span.scale();
    let area = Area {
        left: scale.place(span.need),
        top,
        width: 20,
        height: BAR_HEIGHT + 40,
    };
    put_plain(text, sink, Paint::Need, area);
}

/// Puts the room behind the bar.
fn put_behind<K: Sink>(text: &mut TextBuffer, sink: &mut K, top: u64, span: Span)
    requires { top < 2 ^ 40 }
    ensures { Adds K.held K.faults sink.old sink.new text.old text.new (definition.behind_text top span) }
{
    begin_words(
        text,
        sink,
        words_class(span.is_short()),
        RULES_LEFT + RULES_WIDTH + BESIDE_BAR,
        top + BAR_LINE,
    );
    put_room_words(text, sink, span);
    end_words(text, sink);
}

/// Puts the bar, the stroke and the room.
fn put_span<K: Sink>(text: &mut TextBuffer, sink: &mut K, top: u64, span: Span)
    requires { top < 2 ^ 40 }
    ensures { Adds K.held K.faults sink.old sink.new text.old text.new (definition.span_text top span) }
{
    put_have(text, sink, top, span);
    put_need(text, sink, top, span);
    put_behind(text, sink, top, span);
}

/// Puts these, or that there are no terminals of which the rule speaks.
fn put_told<K: Sink>(text: &mut TextBuffer, sink: &mut K, top: u64, span: Option<Span>)
    requires { top < 2 ^ 40 }
    ensures { Adds K.held K.faults sink.old sink.new text.old text.new (definition.told_text top span) }
{
    match span {
        Some(span) => put_span(text, sink, top, span),
        None => put_words(
            text,
            sink,
            Class::Note,
            RULES_LEFT,
            top + BAR_LINE,
            b"speaks of no terminal of this table",
        ),
    }
}

/// Puts the row of a rule of this name, with so many rows above it.
pub(crate) fn put_rule<K: Sink>(
    text: &mut TextBuffer,
    sink: &mut K,
    above: u64,
    name: &[u8],
    span: Option<Span>,
)
    requires { above < 100 }
    ensures { Adds K.held K.faults sink.old sink.new text.old text.new (definition.rule_text above name.now span) }
{
    let top = ROWS_TOP + ROW_HEIGHT * above;
    put_words(
        text,
        sink,
        Class::Counts,
        RULES_LEFT - BESIDE_BAR,
        top + BAR_LINE,
        name,
    );
    put_told(text, sink, top, span);
}
