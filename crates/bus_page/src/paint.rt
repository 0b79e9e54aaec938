//! What the boxes of pictures stand for, their texts, and the frame of a picture.
ghost use Rattle.std.specs.Prelude.{◌≡◌};
ghost use Rattle.bus_outer.specs.Texts.{Adds};
ghost use Rattle.bus_page.specs.Paints as definition;

use bus_outer::{Sink, TextBuffer};
use bus_pen::Area;

/// What a box of a picture stands for, which says how it looks.
#[derive(Clone, Copy, Debug, PartialEq, Eq)]
pub enum Paint {
    /// A message.
    Sent,
    /// A gap in which nobody sends.
    Gap,
    /// A gap that synchronizes.
    Synchronizes,
    /// The end of the transmit interval.
    Interval,
    /// The spare of a table.
    Spare,
    /// What a rule bears that limits nothing.
    Bears,
    /// What a rule bears that limits what the table bears; the longest message.
    Limits,
    /// Waiting for a turn.
    Wait,
    /// The tolerance of a table.
    Tolerance,
    /// What a rule needs.
    Need,
}

impl Paint {
    /// What it is called.
    fn name(self) -> &'static [u8]
        ensures { result.now ≡ definition.paint_name self }
    {
        match self {
            Paint::Sent => b"sent",
            Paint::Gap => b"gap",
            Paint::Synchronizes => b"synchronizes",
            Paint::Interval => b"ti",
            Paint::Spare => b"spare",
            Paint::Bears => b"bears",
            Paint::Limits => b"limits",
            Paint::Wait => b"wait",
            Paint::Tolerance => b"tolerance",
            Paint::Need => b"need",
        }
    }
}

/// Puts what a box is called.
fn put_name<K: Sink>(text: &mut TextBuffer, sink: &mut K, paint: Paint)
    ensures { Adds K.held K.faults sink.old sink.new text.old text.new (definition.paint_name paint) }
{
    text.put(sink, paint.name());
}

/// Puts where a box begins.
fn put_corner<K: Sink>(text: &mut TextBuffer, sink: &mut K, paint: Paint, area: Area)
    ensures { Adds K.held K.faults sink.old sink.new text.old text.new (definition.paint_corner paint area) }
{
    text.put(sink, b"<rect class=\"");
    put_name(text, sink, paint);
    text.put(sink, b"\" x=\"");
    text.put_number(sink, area.left);
    text.put(sink, b"\" y=\"");
    text.put_number(sink, area.top);
}

/// Puts a box up to its end.
fn put_front<K: Sink>(text: &mut TextBuffer, sink: &mut K, paint: Paint, area: Area)
    ensures { Adds K.held K.faults sink.old sink.new text.old text.new (definition.paint_front paint area) }
{
    put_corner(text, sink, paint, area);
    text.put(sink, b"\" width=\"");
    text.put_number(sink, area.width);
    text.put(sink, b"\" height=\"");
    text.put_number(sink, area.height);
    text.put(sink, b"\">");
}

/// Begins a box with words that are shown under the pointer; these come next, and then [`end_painted`].
pub(crate) fn begin_painted<K: Sink>(text: &mut TextBuffer, sink: &mut K, paint: Paint, area: Area)
    ensures { Adds K.held K.faults sink.old sink.new text.old text.new (definition.painted_front paint area) }
{
    put_front(text, sink, paint, area);
    text.put(sink, b"<title>");
}

/// Ends such a box.
pub(crate) fn end_painted<K: Sink>(text: &mut TextBuffer, sink: &mut K)
    ensures { Adds K.held K.faults sink.old sink.new text.old text.new definition.painted_end }
{
    text.put(sink, b"</title></rect>\n");
}

/// Puts a box without words.
pub(crate) fn put_plain<K: Sink>(text: &mut TextBuffer, sink: &mut K, paint: Paint, area: Area)
    ensures { Adds K.held K.faults sink.old sink.new text.old text.new (definition.plain paint area) }
{
    put_front(text, sink, paint, area);
    text.put(sink, b"</rect>\n");
}

/// Begins a picture of this height, which shows this.
pub(crate) fn begin_picture<K: Sink>(text: &mut TextBuffer, sink: &mut K, height: u64, title: &[u8])
    ensures { Adds K.held K.faults sink.old sink.new text.old text.new (definition.picture_front height title.now) }
{
    text.put(sink, b"<svg role=\"img\" viewBox=\"0 0 10400 ");
    text.put_number(sink, height);
    text.put(sink, b"\">\n<title>");
    text.put(sink, title);
    text.put(sink, b"</title>\n");
}

/// Ends it.
pub(crate) fn end_picture<K: Sink>(text: &mut TextBuffer, sink: &mut K)
    ensures { Adds K.held K.faults sink.old sink.new text.old text.new definition.picture_end }
{
    text.put(sink, b"</svg>\n");
}
