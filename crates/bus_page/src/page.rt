//! The page of a table.
ghost use Rattle.std.specs.Prelude.{◌≡◌, ◌++◌};
ghost use Rattle.bus_outer.specs.Sinks.{WritesText};
ghost use Rattle.bus_outer.specs.Texts.{Adds};
ghost use Rattle.bus_page.specs.Findings.{AreFigures, AreFindings};
ghost use Rattle.bus_page.specs.Feet.{foot_text};
ghost use Rattle.bus_page.specs.Pages as definition;

use crate::bars::put_bars;
use crate::cycles::{Times, put_cycles};
use crate::finding::{Figures, Findings};
use crate::foot::{put_premises, write_foot};
use crate::heading::{
    bounds_of, put_figures, put_head, put_heading, put_section, put_verdict_line,
};
use crate::interval::put_interval;
use crate::latencies::put_latencies;
use crate::refused::write_refused_page;
use crate::rooms::put_rooms;
use crate::sentences::{write_asked, write_sentences};
use crate::slot::begin_of;
use crate::waits::{put_waits, put_waits_legend};
use bus_bounds::Bounds;
use bus_outer::{Sink, TextBuffer, WriteFault};
use bus_table::laws::table_is_valid;
use bus_table::{Mode, Table};
use bus_takes::put_matrix;

/// Puts the picture of the cycles of an aperiodic table.
fn put_both_cycles<K: Sink>(text: &mut TextBuffer, sink: &mut K, table: &Table, figures: &Figures)
    requires own { AreFigures table.now figures.now }
    requires mode { table.now.mode ≡ Mode.Aperiodic }
    ensures { Adds K.held K.faults sink.old sink.new text.old text.new
        (definition.cycle_picture table.now.mode table.now figures.now.least figures.now.most) }
{
    let times = Times {
        ti: u64::from(table.ti()),
        sg: u64::from(table.sg()),
        least: figures.least,
        most: figures.most,
    };
    put_section(
        text,
        sink,
        b"The shortest and the longest cycle, on one axis",
    );
    put_cycles(text, sink, times, &figures.turns);
}

/// Puts the picture of the interval of a periodic table.
fn put_one_interval<K: Sink>(text: &mut TextBuffer, sink: &mut K, table: &Table, figures: &Figures)
    requires own { AreFigures table.now figures.now }
    requires mode { table.now.mode ≡ Mode.Periodic }
    ensures { Adds K.held K.faults sink.old sink.new text.old text.new
        (definition.cycle_picture table.now.mode table.now figures.now.least figures.now.most) }
{
    let begin = begin_of(table);
    let ti = u64::from(table.ti());
    put_section(text, sink, b"One interval, with longest messages");
    put_interval(text, sink, begin, ti, &figures.slots);
}

/// Puts the picture of the cycle of a table.
fn put_cycle_picture<K: Sink>(text: &mut TextBuffer, sink: &mut K, table: &Table, figures: &Figures)
    requires { AreFigures table.now figures.now }
    ensures { Adds K.held K.faults sink.old sink.new text.old text.new
        (definition.cycle_picture table.now.mode table.now figures.now.least figures.now.most) }
{
    match table.mode() {
        Mode::Aperiodic => put_both_cycles(text, sink, table, figures),
        Mode::Periodic => put_one_interval(text, sink, table, figures),
    }
}

/// Puts what limits the tolerance of a table.
fn put_limits<K: Sink>(text: &mut TextBuffer, sink: &mut K, table: &Table, figures: &Figures)
    requires { AreFigures table.now figures.now }
    ensures { Adds K.held K.faults sink.old sink.new text.old text.new (definition.limits_picture table.now) }
{
    table_is_valid(table);
    put_section(text, sink, b"Which rule limits the tolerance");
    put_bars(text, sink, figures.tolerance, &figures.limits);
}

/// Puts how long data wait.
fn put_waiting<K: Sink>(text: &mut TextBuffer, sink: &mut K, table: &Table, figures: &Figures)
    requires { AreFigures table.now figures.now }
    ensures { Adds K.held K.faults sink.old sink.new text.old text.new (definition.waits_picture table.now figures.now.most) }
{
    put_section(
        text,
        sink,
        b"How long data wait: those that just miss a start, until their message is sent, without delays",
    );
    put_waits_legend(text, sink, figures.most);
    put_waits(text, sink, figures.most, table.senders());
}

/// Puts how old data are when they have been received.
fn put_ages<K: Sink>(text: &mut TextBuffer, sink: &mut K, table: &Table, figures: &Figures)
    requires { AreFigures table.now figures.now }
    ensures { Adds K.held K.faults sink.old sink.new text.old text.new (definition.latencies_section table.now figures.now.most) }
{
    table_is_valid(table);
    put_section(
        text,
        sink,
        b"How old data are at most when they have been received",
    );
    put_latencies(text, sink, table, figures.most, figures.tolerance);
}

/// Puts who sends and who takes.
fn put_takers<K: Sink>(text: &mut TextBuffer, sink: &mut K, table: &Table)
    ensures { Adds K.held K.faults sink.old sink.new text.old text.new (definition.takers_section table.now) }
{
    put_section(text, sink, b"Who takes what");
    put_matrix(text, sink, table);
}

/// Puts all pictures of an accepted table.
fn put_pictures<K: Sink>(
    text: &mut TextBuffer,
    sink: &mut K,
    table: &Table,
    asked: &Option<Bounds>,
    figures: &Figures,
)
    requires { AreFigures table.now figures.now }
    ensures { Adds K.held K.faults sink.old sink.new text.old text.new
        (definition.pictures_text asked.now table.now figures.now.least figures.now.most) }
{
    put_cycle_picture(text, sink, table, figures);
    put_limits(text, sink, table, figures);
    put_rooms(text, sink, table, asked);
    put_waiting(text, sink, table, figures);
    put_ages(text, sink, table, figures);
    put_takers(text, sink, table);
}

/// Writes what stands before the sentences of an accepted table.
fn write_accepted_front<K: Sink>(
    table: &Table,
    asked: &Option<Bounds>,
    figures: &Figures,
    sink: &mut K,
) -> Result<(), WriteFault>
    requires { AreFigures table.now figures.now }
    ensures { WritesText K.held K.faults sink.old sink.new result
        (definition.accepted_front asked.now table.now figures.now.least figures.now.most) }
{
    table_is_valid(table);
    let mut text = TextBuffer::new();
    put_head(&mut text, sink, &figures.verdict);
    put_heading(&mut text, sink, true);
    put_verdict_line(&mut text, sink, &figures.verdict);
    put_figures(
        &mut text,
        sink,
        table,
        bounds_of(asked),
        figures.least,
        figures.most,
        figures.tolerance,
    );
    put_pictures(&mut text, sink, table, asked, figures);
    put_premises(&mut text, sink);
    put_section(&mut text, sink, b"What it means");
    text.put(sink, b"<pre class=\"said\">");
    text.finish(sink)
}

/// Writes what `margins` tells where bounds are asked for, and the end of the page.
fn write_accepted_end<K: Sink>(
    program: &[u8],
    bytes: &[u8],
    table: &Table,
    asked: &Option<Bounds>,
    sink: &mut K,
) -> Result<(), WriteFault>
    ensures { WritesText K.held K.faults sink.old sink.new result
        (definition.asked_text asked.now table.now ++ foot_text program.now bytes.now) }
{
    write_asked(table, asked, sink)?;
    write_foot(program, bytes, sink)
}

/// Writes the sentences of an accepted table, and all behind them.
fn write_accepted_rest<K: Sink>(
    program: &[u8],
    bytes: &[u8],
    table: &Table,
    asked: &Option<Bounds>,
    figures: &Figures,
    sink: &mut K,
) -> Result<(), WriteFault>
    requires { AreFigures table.now figures.now }
    ensures { WritesText K.held K.faults sink.old sink.new result
        (definition.accepted_sentences table.now figures.now.least figures.now.most
        ++ (definition.asked_text asked.now table.now ++ foot_text program.now bytes.now)) }
{
    write_sentences(table, figures, sink)?;
    write_accepted_end(program, bytes, table, asked, sink)
}

/// Writes the page of an accepted table.
fn write_accepted_page<K: Sink>(
    program: &[u8],
    bytes: &[u8],
    table: &Table,
    asked: &Option<Bounds>,
    figures: &Figures,
    sink: &mut K,
) -> Result<(), WriteFault>
    requires { AreFigures table.now figures.now }
    ensures { WritesText K.held K.faults sink.old sink.new result
        (definition.accepted_page program.now bytes.now asked.now table.now figures.now.least figures.now.most) }
{
    write_accepted_front(table, asked, figures, sink)?;
    write_accepted_rest(program, bytes, table, asked, figures, sink)
}

/// Writes the page of a table: one HTML text that needs nothing else. `program` is what writes it, with its version, as it is to stand in
/// HTML; `bytes` are those of the table's text as it was given; `asked` are the bounds within which its margins are told, where some are;
/// and `findings` are what [`find`](crate::find) tells of the table. It takes no memory.
///
/// At `WriteFault` the sink has taken a front of the text, and its count of faults rose.
pub fn write_page<K: Sink>(
    program: &[u8],
    bytes: &[u8],
    table: &Table,
    asked: &Option<Bounds>,
    findings: &Findings,
    sink: &mut K,
) -> Result<(), WriteFault>
    requires { AreFindings table.now findings.now }
    ensures { WritesText K.held K.faults sink.old sink.new result (definition.table_page program.now bytes.now asked.now table.now) }
{
    match findings {
        Findings::Accepted(figures) => {
            write_accepted_page(program, bytes, table, asked, figures, sink)
        }
        Findings::Refused(refusal) => write_refused_page(program, bytes, table, refusal, sink),
    }
}
