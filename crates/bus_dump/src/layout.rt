//! The signals of a dump by lanes, so that only what may change is looked at.
ghost use Rattle.std.specs.Prelude.{◌≡◌, ◌<◌, ◌^◌, ◌||◌, true};
ghost use Rattle.std.specs.List.{flat_map, list_any};
ghost use Rattle.bus_outer.specs.Texts.{Adds};
ghost use Rattle.bus_dump.specs.DumpTexts as texts;
ghost use Rattle.bus_dump.specs.Lanes.{lanes};
ghost use Rattle.bus_dump.specs.inside.Layouts as layouts;
ghost use Rattle.bus_dump.specs.inside.Layouts.{IsStill, LeavesStill};
ghost use Rattle.bus_dump.specs.Signals as signals;
ghost use Rattle.bus_dump.specs.inside.Walks.{change_put};
ghost use Rattle.bus_dump.specs.inside.TimerWalks.{TellsAs, scene_of};

use crate::change::{any_changed, put_changed, put_lines, put_stamp};
use crate::declaration::put_declarations;
use crate::dump::Dump;
use crate::lane::Lane;
use crate::lanes::{MOST_LANES, bus_signals, lane_signals, lanes_of};
use crate::scene::Scene;
use crate::shown::Seen;
use crate::touched::{NUMBERS, touched};
use crate::value::elapsed;
use arrayvec::ArrayVec;
use bus_outer::{Sink, TextBuffer};
use bus_strings::Transmission;
use bus_table::Table;

/// The signals of a dump: those of the bus, then those of each lane.
#[derive(Drop)]
pub(crate) struct Layout {
    /// The dump.
    pub dump: Dump,
    /// The lanes, in their order.
    pub lanes: ArrayVec<Lane, MOST_LANES>,
}

/// Whether a transmission of a terminal is seen.
fn is_there(seen: &[Seen], terminal: u8) -> bool
    ensures { result ≡ list_any (signals.is_of terminal) seen.now }
{
    seen.iter().any(|one| one.terminal == terminal)
}

/// Whether nothing changes in the lane of a terminal, since none of its transmissions is seen and its timers tell the same.
fn is_still(before: &Scene, now: &Scene, terminal: u8) -> bool
    ensures { result ≡ true → IsStill (scene_of before.now) (scene_of now.now) terminal }
{
    let was = elapsed(before.timers.as_slice(), terminal);
    let is = elapsed(now.timers.as_slice(), terminal);
    !is_there(before.seen.as_slice(), terminal)
        && !is_there(now.seen.as_slice(), terminal)
        && was.is_same(is)
}

/// Whether a signal of a lane changes.
fn lane_changes(dump: Dump, lane: Lane, before: &Scene, now: &Scene) -> bool
    ensures { result ≡ list_any (texts.changes (scene_of before.now) (scene_of now.now)) (signals.lane_signals dump lane) }
{
    if is_still(before, now, lane.terminal) {
        return false;
    }
    any_changed(lane_signals(dump, lane).as_slice(), before, now)
}

/// The dump of which the signals of a lane are looked at: no timer's where the timers weren't asked.
fn asked_dump(dump: Dump, told: bool) -> Dump
    ensures { result ≡ layouts.asked_dump dump told }
{
    match dump {
        Dump::Vcd => Dump::Vcd,
        Dump::Wires => Dump::Wires,
        Dump::Timers if told => Dump::Timers,
        Dump::Timers => Dump::Vcd,
    }
}

/// The lines of the signals of a lane that change.
fn put_lane_changes<K: Sink>(
    text: &mut TextBuffer,
    sink: &mut K,
    dump: Dump,
    lane: Lane,
    touched: &[bool; NUMBERS],
    before: &Scene,
    now: &Scene,
)
    requires touched { LeavesStill (scene_of before.now) (scene_of now.now) touched.now }
    requires tells { TellsAs before.now now.now }
    ensures { Adds K.held K.faults sink.old sink.new text.old text.new
        (flat_map (change_put (scene_of before.now) (scene_of now.now)) (signals.lane_signals dump lane)) }
{
    if !touched[lane.terminal as usize] {
        return;
    }
    let dump = asked_dump(dump, now.told);
    put_changed(text, sink, lane_signals(dump, lane).as_slice(), before, now);
}

/// Whether a signal of any of these lanes changes.
fn any_lane_changes(dump: Dump, lanes: &[Lane], before: &Scene, now: &Scene) -> bool
    ensures { result
        ≡ list_any (λ lane. list_any (texts.changes (scene_of before.now) (scene_of now.now)) (signals.lane_signals dump lane)) lanes.now }
{
    lanes
        .iter()
        .any(|lane| lane_changes(dump, *lane, before, now))
}

/// The lines of the signals of these lanes that change.
fn put_all_changes<K: Sink>(
    text: &mut TextBuffer,
    sink: &mut K,
    dump: Dump,
    lanes: &[Lane],
    before: &Scene,
    now: &Scene,
)
    requires { TellsAs before.now now.now }
    ensures { Adds K.held K.faults sink.old sink.new text.old text.new
        (flat_map (layouts.lane_put dump (scene_of before.now) (scene_of now.now)) lanes.now) }
{
    let touched = touched(before, now);
    for lane in lanes {
        put_lane_changes(text, sink, dump, *lane, &touched, before, now);
    }
}

/// The declarations of the signals of these lanes.
fn declare_lanes<K: Sink>(text: &mut TextBuffer, sink: &mut K, dump: Dump, lanes: &[Lane])
    ensures { Adds K.held K.faults sink.old sink.new text.old text.new (flat_map (layouts.lane_declarations dump) lanes.now) }
{
    for lane in lanes {
        put_declarations(text, sink, lane_signals(dump, *lane).as_slice());
    }
}

/// The lines of the values of these lanes.
fn put_lane_lines<K: Sink>(
    text: &mut TextBuffer,
    sink: &mut K,
    dump: Dump,
    lanes: &[Lane],
    scene: &Scene,
)
    ensures { Adds K.held K.faults sink.old sink.new text.old text.new (flat_map (layouts.lane_lines dump (scene_of scene.now)) lanes.now) }
{
    for lane in lanes {
        put_lines(text, sink, lane_signals(dump, *lane).as_slice(), scene);
    }
}

impl Layout {
    /// The signals of a dump of a list on a table.
    pub fn new(dump: Dump, table: &Table, list: &[Transmission]) -> Self
        ensures dump { result.dump ≡ dump }
        ensures signals { layouts.layout_signals result ≡ signals.signals dump (lanes table.now list.now) }
    {
        Layout {
            dump,
            lanes: lanes_of(table, list),
        }
    }

    /// The declarations of the signals.
    pub fn put_declarations<K: Sink>(&self, text: &mut TextBuffer, sink: &mut K)
        ensures { Adds K.held K.faults sink.old sink.new text.old text.new (flat_map texts.declaration (layouts.layout_signals self.now)) }
    {
        put_declarations(text, sink, bus_signals(self.dump).as_slice());
        declare_lanes(text, sink, self.dump, self.lanes.as_slice());
    }

    /// The lines of the values of the signals in a scene.
    pub fn put_lines<K: Sink>(&self, text: &mut TextBuffer, sink: &mut K, scene: &Scene)
        ensures { Adds K.held K.faults sink.old sink.new text.old text.new
            (flat_map (texts.value_line (scene_of scene.now)) (layouts.layout_signals self.now)) }
    {
        put_lines(text, sink, bus_signals(self.dump).as_slice(), scene);
        put_lane_lines(text, sink, self.dump, self.lanes.as_slice(), scene);
    }

    /// Whether any signal changes.
    fn any_changed(&self, before: &Scene, now: &Scene) -> bool
        ensures { result ≡ list_any (texts.changes (scene_of before.now) (scene_of now.now)) (layouts.layout_signals self.now) }
    {
        any_changed(bus_signals(self.dump).as_slice(), before, now)
            || any_lane_changes(self.dump, self.lanes.as_slice(), before, now)
    }

    /// The stamp of bit time t and the lines of the signals that change there.
    fn put_some<K: Sink>(
        &self,
        text: &mut TextBuffer,
        sink: &mut K,
        before: &Scene,
        now: &Scene,
        t: u64,
    )
        requires low { t < 2 ^ 60 }
        requires tells { TellsAs before.now now.now }
        ensures { Adds K.held K.faults sink.old sink.new text.old text.new
            (texts.some_changes (layouts.layout_signals self.now) (scene_of before.now) (scene_of now.now) t) }
    {
        put_stamp(text, sink, t);
        put_changed(text, sink, bus_signals(self.dump).as_slice(), before, now);
        put_all_changes(text, sink, self.dump, self.lanes.as_slice(), before, now);
    }

    /// The stamp of bit time t and the lines of the signals that change there; nothing where none does.
    pub fn put_changes<K: Sink>(
        &self,
        text: &mut TextBuffer,
        sink: &mut K,
        before: &Scene,
        now: &Scene,
        t: u64,
    )
        requires low { t < 2 ^ 60 }
        requires tells { TellsAs before.now now.now }
        ensures { Adds K.held K.faults sink.old sink.new text.old text.new
            (texts.changes_text (layouts.layout_signals self.now) (scene_of before.now) (scene_of now.now) t) }
    {
        if self.any_changed(before, now) {
            self.put_some(text, sink, before, now, t);
        }
    }
}
