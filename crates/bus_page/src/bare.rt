//! The page of a text that gives no valid table.
ghost use Rattle.std.specs.Prelude.{◌≡◌, ◌++◌};
ghost use Rattle.bus_outer.specs.Sinks.{WritesText};
ghost use Rattle.bus_table.specs.Stops.{stop_of};
ghost use Rattle.bus_explain.specs.Unread.{unread_text};
ghost use Rattle.bus_explain.specs.Wholes.{whole_text};
ghost use Rattle.bus_page.specs.Feet.{foot_text};
ghost use Rattle.bus_page.specs.Pages as definition;

use crate::foot::write_foot;
use crate::heading::{put_bare_head, put_bare_heading, put_section};
use bus_explain::{write_unread, write_whole};
use bus_outer::{Sink, TextBuffer, WriteFault};
use bus_table::{Stop, WholeReason};
use bus_text::Reason;

/// Writes what stands before the sentences.
fn write_bare_front<K: Sink>(sink: &mut K) -> Result<(), WriteFault>
    ensures { WritesText K.held K.faults sink.old sink.new result definition.bare_front }
{
    let mut text = TextBuffer::new();
    put_bare_head(&mut text, sink);
    put_bare_heading(&mut text, sink);
    put_section(&mut text, sink, b"Why, and what to change");
    text.put(sink, b"<pre>");
    text.finish(sink)
}

/// Writes the sentences on a text of which a line is refused, and the end of its page.
fn write_unread_end<K: Sink>(
    program: &[u8],
    bytes: &[u8],
    line: u64,
    reason: Reason,
    stop: &Stop,
    sink: &mut K,
) -> Result<(), WriteFault>
    ensures { WritesText K.held K.faults sink.old sink.new result
        (unread_text line reason stop.now ++ foot_text program.now bytes.now) }
{
    write_unread(line, reason, stop, sink)?;
    write_foot(program, bytes, sink)
}

/// Writes the page of a text of which this line is refused for this reason, where its reading stops so. `program` and `bytes` are as those
/// of [`write_page`](crate::write_page). It takes no memory.
///
/// At `WriteFault` the sink has taken a front of the text, and its count of faults rose.
pub fn write_unread_page<K: Sink>(
    program: &[u8],
    bytes: &[u8],
    line: u64,
    reason: Reason,
    stop: &Stop,
    sink: &mut K,
) -> Result<(), WriteFault>
    requires { stop.now ≡ stop_of bytes.now }
    ensures { WritesText K.held K.faults sink.old sink.new result (definition.unread_page program.now bytes.now line reason) }
{
    write_bare_front(sink)?;
    write_unread_end(program, bytes, line, reason, stop, sink)
}

/// Writes the sentences on a table that is wrong as a whole, and the end of its page.
fn write_whole_end<K: Sink>(
    program: &[u8],
    bytes: &[u8],
    reason: WholeReason,
    sink: &mut K,
) -> Result<(), WriteFault>
    ensures { WritesText K.held K.faults sink.old sink.new result (whole_text reason ++ foot_text program.now bytes.now) }
{
    write_whole(reason, sink)?;
    write_foot(program, bytes, sink)
}

/// Writes the page of a table that is wrong as a whole for this reason. `program` and `bytes` are as those of
/// [`write_page`](crate::write_page). It takes no memory.
///
/// At `WriteFault` the sink has taken a front of the text, and its count of faults rose.
pub fn write_whole_page<K: Sink>(
    program: &[u8],
    bytes: &[u8],
    reason: WholeReason,
    sink: &mut K,
) -> Result<(), WriteFault>
    ensures { WritesText K.held K.faults sink.old sink.new result (definition.whole_page program.now bytes.now reason) }
{
    write_bare_front(sink)?;
    write_whole_end(program, bytes, reason, sink)
}
