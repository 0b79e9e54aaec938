//! The texts of boxes and words.
ghost use Rattle.bus_outer.specs.Texts.{Adds};
ghost use Rattle.bus_pen.specs.Shapes as definition;

use crate::area::Area;
use crate::class::{Class, put_name};
use bus_outer::{Sink, TextBuffer};

/// A box up to its end.
fn put_front<K: Sink>(text: &mut TextBuffer, sink: &mut K, class: Class, area: Area)
    ensures { Adds K.held K.faults sink.old sink.new text.old text.new (definition.box_front class area) }
{
    text.put(sink, b"<rect class=\"");
    put_name(text, sink, class);
    text.put(sink, b"\" x=\"");
    text.put_number(sink, area.left);
    text.put(sink, b"\" y=\"");
    text.put_number(sink, area.top);
    text.put(sink, b"\" width=\"");
    text.put_number(sink, area.width);
    text.put(sink, b"\" height=\"");
    text.put_number(sink, area.height);
    text.put_byte(sink, b'"');
}

/// Puts a box.
pub fn put_box<K: Sink>(text: &mut TextBuffer, sink: &mut K, class: Class, area: Area)
    ensures { Adds K.held K.faults sink.old sink.new text.old text.new (definition.box_text class area) }
{
    put_front(text, sink, class, area);
    text.put(sink, b"/>\n");
}

/// Begins a box with words that are shown under the pointer; these come next, and then [`end_titled`].
pub fn begin_titled<K: Sink>(text: &mut TextBuffer, sink: &mut K, class: Class, area: Area)
    ensures { Adds K.held K.faults sink.old sink.new text.old text.new (definition.titled_front class area) }
{
    put_front(text, sink, class, area);
    text.put(sink, b"><title>");
}

/// Ends a box with words.
pub fn end_titled<K: Sink>(text: &mut TextBuffer, sink: &mut K)
    ensures { Adds K.held K.faults sink.old sink.new text.old text.new definition.titled_end }
{
    text.put(sink, b"</title></rect>\n");
}

/// Begins words that are of a class and at a place; the words come next, and then [`end_words`].
pub fn begin_words<K: Sink>(text: &mut TextBuffer, sink: &mut K, class: Class, left: u64, line: u64)
    ensures { Adds K.held K.faults sink.old sink.new text.old text.new (definition.words_front class left line) }
{
    text.put(sink, b"<text class=\"");
    put_name(text, sink, class);
    text.put(sink, b"\" x=\"");
    text.put_number(sink, left);
    text.put(sink, b"\" y=\"");
    text.put_number(sink, line);
    text.put(sink, b"\">");
}

/// Ends words.
pub fn end_words<K: Sink>(text: &mut TextBuffer, sink: &mut K)
    ensures { Adds K.held K.faults sink.old sink.new text.old text.new definition.words_end }
{
    text.put(sink, b"</text>\n");
}

/// Puts words.
pub fn put_words<K: Sink>(
    text: &mut TextBuffer,
    sink: &mut K,
    class: Class,
    left: u64,
    line: u64,
    words: &[u8],
)
    ensures { Adds K.held K.faults sink.old sink.new text.old text.new (definition.words_text class left line words.now) }
{
    begin_words(text, sink, class, left, line);
    text.put(sink, words);
    end_words(text, sink);
}
