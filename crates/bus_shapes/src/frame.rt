//! What stands around each picture.
ghost use Rattle.std.specs.Prelude.{◌≡◌, length};
ghost use Rattle.bus_outer.specs.Texts.{Adds};
ghost use Rattle.bus_regime.specs.Lines.{verdict_words};
ghost use Rattle.bus_shapes.specs.Frames.{frame_text};
ghost use Rattle.bus_shapes.specs.Frames as definition;
ghost use Rattle.bus_shapes.specs.Headings.{told_words};
ghost use Rattle.bus_shapes.specs.Sayings.{summary_words, table_words};

use crate::counts::Counts;
use crate::heading::{put_told, put_told_heading, put_verdict_heading, verdict_class};
use crate::on_cable::put_as_sent;
use crate::told::Told;
use bus_outer::{Sink, TextBuffer};
use bus_pen::measures::{
    ANSWER_LINE, FACTS_LINE, HEAD_LINE, LEFT_MARGIN, PICTURE_WIDTH, PIXEL, RIGHT_MARGIN,
};
use bus_pen::{
    Area, Class, begin_words, end_words, put_box, put_counted, put_fault_style, put_parted,
    put_style,
};
use bus_regime::{TableVerdict, put_verdict};
use bus_strings::Transmission;
use bus_table::{Mode, Table, put_mode};

/// The size of a picture of this height.
fn put_size<K: Sink>(text: &mut TextBuffer, sink: &mut K, height: u64)
    ensures { Adds K.held K.faults sink.old sink.new text.old text.new (definition.size_text height) }
{
    text.put(
        sink,
        b"<svg xmlns=\"http://www.w3.org/2000/svg\" role=\"img\" width=\"1040\" height=\"",
    );
    text.put_number(sink, height / PIXEL);
    text.put(
        sink,
        b"\" style=\"width:100%;height:auto\" viewBox=\"0 0 10400 ",
    );
    text.put_number(sink, height);
    text.put(sink, b"\">\n");
}

/// The title.
fn put_title<K: Sink>(text: &mut TextBuffer, sink: &mut K, verdict: &TableVerdict, told: &Told)
    ensures { Adds K.held K.faults sink.old sink.new text.old text.new
        (definition.title_text (verdict_words verdict.now) (told_words told.now)) }
{
    text.put(sink, b"<title>");
    put_verdict(text, sink, verdict);
    text.put(sink, b"; ");
    put_told(text, sink, told);
    text.put(sink, b"</title>\n");
}

/// How many senders the table has.
fn sender_count(table: &Table) -> u64
    ensures { result ≡ length table.now.senders }
{
    table.senders().len() as u64
}

/// A mode, the transmit interval, the synchronization gap, and how many senders there are.
fn put_summary<K: Sink>(
    text: &mut TextBuffer,
    sink: &mut K,
    mode: Mode,
    ti: u32,
    sg: u32,
    senders: u64,
)
    ensures { Adds K.held K.faults sink.old sink.new text.old text.new (summary_words mode ti sg senders) }
{
    put_mode(text, sink, mode);
    text.put(sink, b" TI ");
    put_parted(text, sink, u64::from(ti));
    text.put(sink, b" SG ");
    put_parted(text, sink, u64::from(sg));
    text.put(sink, b", ");
    put_counted(text, sink, senders, b"sender");
}

/// The words of a table.
fn put_table<K: Sink>(text: &mut TextBuffer, sink: &mut K, table: &Table)
    ensures { Adds K.held K.faults sink.old sink.new text.old text.new (table_words table.now) }
{
    let (ti, sg) = (table.ti(), table.sg());
    let senders = sender_count(table);
    put_summary(text, sink, table.mode(), ti, sg, senders);
}

/// The counts.
fn put_counts<K: Sink>(text: &mut TextBuffer, sink: &mut K, told: &Told, counts: &Counts)
    ensures { Adds K.held K.faults sink.old sink.new text.old text.new (definition.counts_words told.now counts.now) }
{
    text.put(sink, b"moments ");
    put_parted(text, sink, counts.from);
    text.put(sink, b" to ");
    put_parted(text, sink, counts.to);
    text.put(sink, b" of ");
    put_parted(text, sink, counts.horizon);
    text.put(sink, b": ");
    put_counted(text, sink, counts.shown, b"transmission");
    text.put(sink, b", ");
    put_parted(text, sink, counts.garbled);
    text.put(sink, b" garbled");
    put_as_sent(text, sink, told);
}

/// The words of the verdict, and of what is told of the trace.
fn put_heads<K: Sink>(
    text: &mut TextBuffer,
    sink: &mut K,
    verdict: &TableVerdict,
    told: &Told,
    list: &[Transmission],
)
    ensures { Adds K.held K.faults sink.old sink.new text.old text.new
        (definition.heads_text verdict.now told.now list.now) }
{
    begin_words(text, sink, verdict_class(verdict), LEFT_MARGIN, HEAD_LINE);
    put_verdict_heading(text, sink, verdict);
    end_words(text, sink);
    begin_words(text, sink, Class::Answer, LEFT_MARGIN, ANSWER_LINE);
    put_told_heading(text, sink, told, list);
    end_words(text, sink);
}

/// The words of the table, and the counts.
fn put_facts<K: Sink>(
    text: &mut TextBuffer,
    sink: &mut K,
    told: &Told,
    table: &Table,
    counts: &Counts,
)
    ensures { Adds K.held K.faults sink.old sink.new text.old text.new (definition.facts_text told.now table.now counts.now) }
{
    begin_words(text, sink, Class::Note, LEFT_MARGIN, FACTS_LINE);
    put_table(text, sink, table);
    end_words(text, sink);
    begin_words(text, sink, Class::Counts, RIGHT_MARGIN, FACTS_LINE);
    put_counts(text, sink, told, counts);
    end_words(text, sink);
}

/// The style of the marks of findings, where they are told.
fn put_told_style<K: Sink>(text: &mut TextBuffer, sink: &mut K, told: &Told)
    ensures { Adds K.held K.faults sink.old sink.new text.old text.new (definition.told_style told.now) }
{
    match told {
        Told::Audit(_) | Told::OnCable { .. } => text.put(sink, b""),
        Told::Findings { .. } => put_fault_style(text, sink),
    }
}

/// Puts all that stands before the plot of a picture of this height, in units of a tenth of a pixel: its head, whose title has the words
/// of the verdict and of what is told of the trace, whose list this is, its background, the headings of both, the words of the table, and
/// the counts. It goes over the list up to a late start.
pub fn put_frame<K: Sink>(
    text: &mut TextBuffer,
    sink: &mut K,
    height: u64,
    verdict: &TableVerdict,
    told: &Told,
    table: &Table,
    list: &[Transmission],
    counts: &Counts,
)
    ensures { Adds K.held K.faults sink.old sink.new text.old text.new
        (frame_text height verdict.now told.now table.now list.now counts.now) }
{
    put_size(text, sink, height);
    put_title(text, sink, verdict, told);
    put_style(text, sink);
    put_told_style(text, sink, told);
    let area = Area {
        left: 0,
        top: 0,
        width: PICTURE_WIDTH,
        height,
    };
    put_box(text, sink, Class::Background, area);
    put_heads(text, sink, verdict, told, list);
    put_facts(text, sink, told, table, counts);
}

/// Puts the end of a picture.
pub fn put_tail<K: Sink>(text: &mut TextBuffer, sink: &mut K)
    ensures { Adds K.held K.faults sink.old sink.new text.old text.new definition.tail_text }
{
    text.put(sink, b"</svg>\n");
}
