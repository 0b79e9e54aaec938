//! What a page ends with: the text that was given, and what stands behind the page.
ghost use Rattle.std.specs.Prelude.{◌≡◌, ◌<◌, codes};
ghost use Rattle.bus_outer.specs.Texts.{Adds};
ghost use Rattle.bus_outer.specs.Sinks.{WritesText};
ghost use Rattle.bus_pen.specs.Numbers.{plainly_counted};
ghost use Rattle.bus_page.specs.Feet as definition;

use crate::checksum::checksum;
use crate::heading::{begin_figure, end_figure, put_section};
use bus_outer::{Sink, TextBuffer, WriteFault};
use bus_text::four_digits;

/// On what the sentences of an accepted table rest.
fn premises() -> &'static [u8]
    ensures { result.now ≡ definition.premises_text }
{
    b"<ul>
<li>The rules are those of this project's profile of the bus: that it is the real bus is not proved.</li>
<li>Each sender keeps to its SEND lines, and nobody else sends.</li>
<li>Cycle, spare, load, waits, and ages without delays rest on exact clocks, no delay, the settled start, and as many
messages for each sender.</li>
<li>The tolerance, and ages with delays up to it, rest on exact clocks and as many messages for each sender; in aperiodic
mode on power-ups within the tolerance of one another, in periodic mode on the settled start.</li>
<li>The level is of a bus within the bounds that stand with it, on which nothing else is heard, as long as messages are
left. At a common start all are powered up within that delay of the first sender, with as many messages for each.</li>
</ul>
"
}

/// Puts on what the sentences of an accepted table rest.
pub(crate) fn put_premises<K: Sink>(text: &mut TextBuffer, sink: &mut K)
    ensures { Adds K.held K.faults sink.old sink.new text.old text.new definition.resting_text }
{
    put_section(text, sink, b"What this rests on");
    text.put(sink, premises());
}

/// Puts a byte of a text as HTML shows it.
fn put_shown<K: Sink>(text: &mut TextBuffer, sink: &mut K, byte: u8)
    ensures { Adds K.held K.faults sink.old sink.new text.old text.new (definition.shown byte) }
{
    if byte == b'&' {
        text.put(sink, b"&amp;");
    } else if byte == b'<' {
        text.put(sink, b"&lt;");
    } else if byte == b'>' {
        text.put(sink, b"&gt;");
    } else {
        text.put_byte(sink, byte);
    }
}

/// Puts all bytes of a text so.
fn put_shown_text<K: Sink>(text: &mut TextBuffer, sink: &mut K, bytes: &[u8])
    ensures { Adds K.held K.faults sink.old sink.new text.old text.new (definition.shown_text bytes.now) }
{
    for byte in bytes {
        put_shown(text, sink, *byte);
    }
}

/// Puts the text that was given.
fn put_given<K: Sink>(text: &mut TextBuffer, sink: &mut K, bytes: &[u8])
    ensures { Adds K.held K.faults sink.old sink.new text.old text.new (definition.given_text bytes.now) }
{
    put_section(text, sink, b"The text of the table");
    text.put(sink, b"<pre class=\"table\">\n");
    put_shown_text(text, sink, bytes);
    text.put(sink, b"</pre>\n");
}

/// Puts a number in eight hexadecimal digits.
fn put_eight<K: Sink>(text: &mut TextBuffer, sink: &mut K, number: u32)
    ensures { Adds K.held K.faults sink.old sink.new text.old text.new (definition.eight_digits number) }
{
    text.put(sink, &four_digits((number / 65536) as u16));
    text.put(sink, &four_digits((number % 65536) as u16));
}

/// Puts what wrote a page.
fn put_program<K: Sink>(text: &mut TextBuffer, sink: &mut K, program: &[u8])
    ensures { Adds K.held K.faults sink.old sink.new text.old text.new (definition.program_figure program.now) }
{
    begin_figure(text, sink, b"written by");
    text.put(sink, program);
    end_figure(text, sink);
}

/// Puts so many bytes.
fn put_byte_count<K: Sink>(text: &mut TextBuffer, sink: &mut K, count: usize)
    ensures { Adds K.held K.faults sink.old sink.new text.old text.new (plainly_counted count (codes "byte")) }
{
    text.put_number(sink, count);
    if count == 1 {
        text.put(sink, b" byte");
    } else {
        text.put(sink, b" bytes");
    }
}

/// Puts how long the text is.
fn put_length<K: Sink>(text: &mut TextBuffer, sink: &mut K, bytes: &[u8])
    ensures { Adds K.held K.faults sink.old sink.new text.old text.new (definition.length_figure bytes.now) }
{
    begin_figure(text, sink, b"length of the text");
    put_byte_count(text, sink, bytes.len());
    end_figure(text, sink);
}

/// Puts its checksum.
fn put_checksum<K: Sink>(text: &mut TextBuffer, sink: &mut K, bytes: &[u8])
    ensures { Adds K.held K.faults sink.old sink.new text.old text.new (definition.checksum_figure bytes.now) }
{
    begin_figure(text, sink, b"CRC-32 of its bytes");
    put_eight(text, sink, checksum(bytes));
    end_figure(text, sink);
}

/// What can't be known of the program that wrote a page, and who says it.
fn build() -> &'static [u8]
    ensures { result.now ≡ definition.build_text }
{
    b"<p>That a page is exactly the text defined of its table is proved of the sources of this program. Neither that the program
was built of them nor by which version of its kit, Rattle, can a page tell: in the project's folder <code>./bus629-view</code>
says on standard error where it runs a quick build, of which nothing is proved.</p>
"
}

/// Puts what stands behind a page.
fn put_source<K: Sink>(text: &mut TextBuffer, sink: &mut K, program: &[u8], bytes: &[u8])
    ensures { Adds K.held K.faults sink.old sink.new text.old text.new (definition.source_text program.now bytes.now) }
{
    put_section(text, sink, b"What stands behind this page");
    text.put(sink, b"<dl>\n");
    put_program(text, sink, program);
    put_length(text, sink, bytes);
    put_checksum(text, sink, bytes);
    text.put(sink, b"</dl>\n");
    text.put(sink, build());
}

/// Writes the end of a page, behind the sentences.
pub(crate) fn write_foot<K: Sink>(
    program: &[u8],
    bytes: &[u8],
    sink: &mut K,
) -> Result<(), WriteFault>
    ensures { WritesText K.held K.faults sink.old sink.new result (definition.foot_text program.now bytes.now) }
{
    let mut text = TextBuffer::new();
    text.put(sink, b"</pre>\n");
    put_given(&mut text, sink, bytes);
    put_source(&mut text, sink, program, bytes);
    text.put(sink, b"</body>\n</html>\n");
    text.finish(sink)
}
