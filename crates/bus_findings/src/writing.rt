//! The findings of a recording.
ghost use Rattle.std.specs.Prelude.{◌≡◌, ℕ, ◌<◌, ◌≤◌, ◌^◌, length, min, is_some, IfOk};
ghost use Rattle.std.specs.List.{flat_map};
ghost use Rattle.bus_outer.specs.Sinks.{WritesText};
ghost use Rattle.bus_outer.specs.Texts.{Adds};
ghost use Rattle.bus_strings.specs.Transmissions.{IsAscending};
ghost use Rattle.bus_findings.specs.Terminals as counts;
ghost use Rattle.bus_findings.specs.Terminals.{has_fault, totals_among};
ghost use Rattle.bus_findings.specs.Texts as texts;
ghost use Rattle.bus_findings.specs.Texts.{findings_text};
ghost use Rattle.bus_findings.specs.inside.Sound.{AreLong};
ghost use Rattle.bus_findings.specs.inside.Standing.{AreFew, AreWatched};

use crate::heard::Heard;
use crate::judging::judge;
use crate::lacks::shortest_sync;
use crate::lengths::settled;
use crate::lines::{put_judgement, put_silence};
use crate::numbers::{put_terminal, put_totals, put_unjudged};
use crate::silences::silence;
use crate::totals::{Totals, once};
use crate::watch::Watch;
use crate::within::put_head;
use bus_bounds::Bounds;
use bus_outer::{Sink, TextBuffer, WriteFault};
use bus_strings::laws::neighbours_tell;
use bus_strings::{Marks, Transmission};
use bus_table::{MOST_SENDERS, Table};
use bus_trace::Trace;

/// Puts what is found at each transmission, and counts it. The watches are those of before the first.
fn put_judged<K: Sink>(
    text: &mut TextBuffer,
    sink: &mut K,
    table: &Table,
    list: &[Transmission],
    bounds: Bounds,
    watches: &mut [Watch],
) -> Totals
    requires near { bounds.delay ≤ 9 }
    requires order { IsAscending list.now }
    requires sound { AreLong bounds list.now }
    requires few { (i : ℕ) → i < length list.now → i < 2 ^ 50 }
    requires watched { AreWatched bounds table.now list.now 0 watches.old }
    ensures adds { Adds K.held K.faults sink.old sink.new text.old text.new
        (flat_map (texts.entry_lines bounds table.now list.now) list.now) }
    ensures totals { result ≡ totals_among bounds table.now list.now list.now }
    ensures few { AreFew result (2 ^ 52) }
    ensures watched { AreWatched bounds table.now list.now (length list.now) watches.new }
{
    let settled = settled(bounds, table);
    let mut heard = Heard::nothing(bounds, shortest_sync(bounds, table), list);
    let mut totals = Totals::none();
    for i in 0..list.len() {
        let x = &list[i];
        heard = heard.at_moment(bounds, list, x.moment);
        let found = judge(bounds, table, settled, watches, heard, list, i);
        put_judgement(text, sink, x.moment, x.terminal, found);
        totals = totals.with(&found);
        heard = heard.with(bounds, list, i);
    }
    totals
}

/// Puts who was due for certain and doesn't start any more, and counts them.
fn put_silences<K: Sink>(
    text: &mut TextBuffer,
    sink: &mut K,
    table: &Table,
    trace: &Trace,
    bounds: Bounds,
    watches: &[Watch],
) -> u64
    requires watched { AreWatched bounds table.now trace.now.list (length trace.now.list) watches.now }
    ensures adds { Adds K.held K.faults sink.old sink.new text.old text.new
        (flat_map (texts.silent_lines bounds table.now trace.now) table.now.senders) }
    ensures count { result ≡ counts.silent_count bounds table.now trace.now }
{
    let settled = settled(bounds, table);
    let senders = table.senders();
    let mut silent = 0;
    for k in 0..senders.len() {
        let sender = &senders[k];
        let due = silence(bounds, table, settled, trace, sender, watches[k]);
        put_silence(text, sink, trace.horizon(), sender.number(), due);
        silent += once(due.is_some());
    }
    silent
}

/// Puts the lines of all senders.
fn put_terminals<K: Sink>(
    text: &mut TextBuffer,
    sink: &mut K,
    table: &Table,
    trace: &Trace,
    bounds: Bounds,
    watches: &[Watch],
)
    requires watched { AreWatched bounds table.now trace.now.list (length trace.now.list) watches.now }
    ensures { Adds K.held K.faults sink.old sink.new text.old text.new
        (flat_map (texts.terminal_line bounds table.now trace.now.list) table.now.senders) }
{
    let senders = table.senders();
    for k in 0..senders.len() {
        let watch = watches[k];
        put_terminal(
            text,
            sink,
            senders[k].number(),
            watch.starts,
            watch.faults,
            watch.least,
            watch.most,
        );
    }
}

/// How many senders have started.
fn first_count(table: &Table, trace: &Trace, bounds: Bounds, watches: &[Watch]) -> u64
    requires watched { AreWatched bounds table.now trace.now.list (length trace.now.list) watches.now }
    ensures { result ≡ counts.first_count table.now trace.now }
{
    let mut firsts = 0;
    for k in 0..table.senders().len() {
        firsts += once(watches[k].starts > 0);
    }
    firsts
}

/// How many transmissions are garbled.
fn garbled_count(list: &[Transmission]) -> u64
    requires { IsAscending list.now }
    ensures { result ≡ counts.garbled_count list.now }
{
    neighbours_tell();
    let _count = list.len();
    Marks::new(list).filter(|mark| *mark).count() as u64
}

/// Puts what is found behind the last transmission, and the numbers.
fn put_closing<K: Sink>(
    text: &mut TextBuffer,
    sink: &mut K,
    table: &Table,
    trace: &Trace,
    bounds: Bounds,
    watches: &[Watch],
    totals: Totals,
)
    requires watched { AreWatched bounds table.now trace.now.list (length trace.now.list) watches.now }
    requires totals { totals ≡ totals_among bounds table.now trace.now.list trace.now.list }
    ensures { Adds K.held K.faults sink.old sink.new text.old text.new (texts.closing_lines bounds table.now trace.now) }
{
    let silent = put_silences(text, sink, table, trace, bounds, watches);
    put_terminals(text, sink, table, trace, bounds, watches);
    let until = settled(bounds, table).min(trace.horizon());
    put_unjudged(
        text,
        sink,
        until,
        first_count(table, trace, bounds, watches),
    );
    put_totals(text, sink, totals, garbled_count(trace.list()), silent);
}

/// Puts the whole text, and says whether a fault is found.
fn put_findings<K: Sink>(
    text: &mut TextBuffer,
    sink: &mut K,
    table: &Table,
    trace: &Trace,
    bounds: Bounds,
) -> bool
    requires near { bounds.delay ≤ 9 }
    ensures adds { Adds K.held K.faults sink.old sink.new text.old text.new (findings_text bounds table.now trace.now) }
    ensures fault { result ≡ has_fault bounds table.now trace.now }
{
    let _valid = table.senders();
    let _ranges = bounds.clocks();
    let mut watches = [Watch::NEW; MOST_SENDERS];
    put_head(text, sink, bounds);
    let totals = put_judged(text, sink, table, trace.list(), bounds, &mut watches);
    put_closing(text, sink, table, trace, bounds, &watches, totals);
    totals.faults() > 0
}

/// Writes what is found in a recording of a bus of this table, and says whether there is a fault. The bounds are in bit times.
///
/// It goes over the recording once, and takes no memory. Of a bus within its bounds nearly every start is judged at once, by the last
/// long stretch in which nobody was heard; else by what was sent since its terminal's last one. At `WriteFault`, which comes only where
/// the sink's count of faults rose, the sink has taken a front of the text.
pub fn write_findings<K: Sink>(
    table: &Table,
    trace: &Trace,
    bounds: Bounds,
    sink: &mut K,
) -> Result<bool, WriteFault>
    requires near { bounds.delay ≤ 9 }
    ensures text { WritesText K.held K.faults sink.old sink.new result (findings_text bounds table.now trace.now) }
    ensures fault { IfOk result (λ fault. fault ≡ has_fault bounds table.now trace.now) }
{
    let mut text = TextBuffer::new();
    let fault = put_findings(&mut text, sink, table, trace, bounds);
    match text.finish(sink) {
        Ok(()) => Ok(fault),
        Err(WriteFault) => Err(WriteFault),
    }
}
