//! The text of a dump.
ghost use Rattle.std.specs.Prelude.{◌≡◌, ◌≤◌, ◌<◌, ◌^◌, None};
ghost use Rattle.bus_outer.specs.Sinks.{WritesText};
ghost use Rattle.bus_outer.specs.Texts.{Adds};
ghost use Rattle.bus_dump.specs.Doubled.{doubled};
ghost use Rattle.bus_dump.specs.DumpTexts.{end_of_dump, first_values, last_stamp, verdict_dump};
ghost use Rattle.bus_dump.specs.inside.Layouts.{bit_times_put, layout_signals};
ghost use Rattle.bus_dump.specs.inside.Walks.{IsWalkable};
ghost use Rattle.bus_dump.specs.inside.TimerWalks.{IsReady, IsTold, IsTimerWalk, Keeping, scene_of};
ghost use Rattle.bus_dump.specs.Scenes.{timed};

use crate::change::put_stamp;
use crate::dump::Dump;
use crate::head::put_head;
use crate::layout::Layout;
use crate::scene::Scene;
use crate::timer_walk::TimerWalk;
use bus_outer::{Sink, TextBuffer, WriteFault};
use bus_regime::TableVerdict;
use bus_strings::Transmission;
use bus_strings::laws::neighbours_tell;
use bus_table::Table;
use bus_timers::laws::test_decides;
use bus_trace::{Trace, Window};

/// The values at bit time t.
fn put_first<K: Sink>(text: &mut TextBuffer, sink: &mut K, layout: &Layout, scene: &Scene, t: u64)
    requires { t < 2 ^ 60 }
    ensures { Adds K.held K.faults sink.old sink.new text.old text.new
        (first_values (layout_signals layout.now) (scene_of scene.now) t) }
{
    put_stamp(text, sink, t);
    text.put(sink, b"$dumpvars\n");
    layout.put_lines(text, sink, scene);
    text.put(sink, b"$end\n");
}

/// A walk with timers over a list at a bit time, and what it saw last.
fn timer_walk_from<'a>(
    dump: Dump,
    breach: Option<u64>,
    table: &Table,
    list: &'a [Transmission],
    from: u64,
    now: &mut Scene,
) -> TimerWalk<'a>
    requires walkable { IsWalkable list.now }
    requires low { from ≤ 2 ^ 40 }
    ensures list { result.walk.list.now ≡ list.now }
    ensures breach { result.breach ≡ breach }
    ensures timer_walk { IsTimerWalk from result }
    ensures ready { IsReady from result }
    ensures timers { result.since < from → IsTold table.now (timed dump table.now) result now.new.timers.items }
    ensures keeping { Keeping table.now (timed dump table.now) result }
{
    let mut timer_walk = TimerWalk::new(dump, breach, table, list);
    let mut t = 0;
    while t < from {
        let until = timer_walk.look(t, from, now);
        timer_walk.go_on(t, until);
        t = until;
    }
    timer_walk
}

/// The values at bit time `from`, and what changes behind it to below `end`.
fn put_bit_times<K: Sink>(
    text: &mut TextBuffer,
    sink: &mut K,
    layout: &Layout,
    breach: Option<u64>,
    table: &Table,
    list: &[Transmission],
    from: u64,
    end: u64,
)
    requires walkable { IsWalkable list.now }
    requires low { from < 2 ^ 40 }
    requires ends { end ≤ 2 ^ 40 }
    ensures { Adds K.held K.faults sink.old sink.new text.old text.new
        (bit_times_put breach table.now list.now from end layout.now) }
{
    test_decides();
    let limit = end.max(from + 1);
    let mut before = Scene::new();
    let mut now = Scene::new();
    let mut timer_walk = timer_walk_from(layout.dump, breach, table, list, from, &mut now);
    let mut t = from;
    let mut until = timer_walk.look(t, limit, &mut now);
    put_first(text, sink, layout, &now, t);
    now.told = true;
    while until < end {
        if text.has_failed() {
            return;
        }
        before.take_over(&now);
        timer_walk.go_on(t, until);
        t = until;
        until = timer_walk.look(t, limit, &mut now);
        layout.put_changes(text, sink, &before, &now, t);
    }
}

/// The stamp of the end, where that isn't the first.
fn put_last<K: Sink>(text: &mut TextBuffer, sink: &mut K, from: u64, end: u64)
    requires { end ≤ 2 ^ 40 }
    ensures { Adds K.held K.faults sink.old sink.new text.old text.new (last_stamp from end) }
{
    if from < end {
        put_stamp(text, sink, end);
    }
}

/// The end of the dump of a window of a trace with this horizon.
pub(crate) fn end_in(window: &Window, horizon: u64) -> u64
    ensures { result ≡ end_of_dump window.now horizon }
{
    window.to().min(horizon).max(window.from())
}

/// Writes the dump of a window of a trace on a table, in which no entry is doubled ([`doubled`](crate::doubled)). It goes over the trace
/// twice, once for the terminals that send in it and once from change to change up to the end of the window, and takes no memory. The
/// words of the verdict stand in its head, as a comment; the wire of the breach is 1 at the moment that is given, where the window has it.
///
/// At `WriteFault` the sink has taken a front of the text, and its count of faults rose.
pub fn write_dump<K: Sink>(
    dump: Dump,
    window: &Window,
    breach: Option<u64>,
    verdict: &TableVerdict,
    table: &Table,
    trace: &Trace,
    sink: &mut K,
) -> Result<(), WriteFault>
    requires single { doubled trace.now.list ≡ None }
    ensures { WritesText K.held K.faults sink.old sink.new result
        (verdict_dump dump window.now breach verdict.now table.now trace.now) }
{
    neighbours_tell();
    let list = trace.list();
    let from = window.from();
    let end = end_in(window, trace.horizon());
    let layout = Layout::new(dump, table, list);
    let mut text = TextBuffer::new();
    put_head(&mut text, sink, verdict);
    layout.put_declarations(&mut text, sink);
    text.put(sink, b"$upscope $end\n$enddefinitions $end\n");
    put_bit_times(&mut text, sink, &layout, breach, table, list, from, end);
    put_last(&mut text, sink, from, end);
    text.finish(sink)
}
