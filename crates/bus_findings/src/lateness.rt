//! When a start is too late.
ghost use Rattle.std.specs.Prelude.{◌≡◌, ◌+◌, ◌^◌, ◌<◌, ◌≤◌, ◌&&◌, nat_le, nat_lt, length, slice_get, Some, None, IsTrue};
ghost use Rattle.std.specs.Prelude.{count_by, option_map};
ghost use Rattle.bus_strings.specs.Messages.{Entry};
ghost use Rattle.bus_strings.specs.Transmissions.{IsAscending};
ghost use Rattle.bus_bounds.specs.Bounds as lengths;
ghost use Rattle.bus_findings.specs.Dues.{due_of};
ghost use Rattle.bus_findings.specs.Judging.{late_by};
ghost use Rattle.bus_findings.specs.Recorded.{seen, recorded, timers_of, monitor_of, settled_of};
ghost use Rattle.bus_findings.specs.inside.Standing.{IsHeard, IsLastAt, IsLastTo, IsStretch};

use crate::dues::due;
use crate::heard::Heard;
use crate::judgement::{Due, Late};
use crate::lengths::{latest, long, reach};
use crate::quiet::Over;
use crate::timers::{sg_of, tg_of, ti_of};
use crate::watch::Last;
use bus_bounds::Bounds;
use bus_recording::laws::walks_find;
use bus_strings::Transmission;
use bus_table::{Sender, Table};

/// When a sender was due for certain behind its last start, before a moment, if it was. What was sent in between ends at place `to`.
pub(crate) fn due_behind(
    bounds: Bounds,
    table: &Table,
    settled: u64,
    sender: &Sender,
    list: &[Transmission],
    last: Last,
    to: usize,
    start: u64,
) -> Option<Due>
    requires settled { settled ≡ settled_of bounds table.now }
    requires low { settled < 2 ^ 40 }
    requires last { IsLastAt bounds list.now sender.now.number last }
    requires stretch { IsStretch list.now sender.now.number last.place to start }
    ensures { (o : Entry) → slice_get list.now last.place ≡ Some o
        → result ≡ due_of (timers_of bounds table.now sender.now) (monitor_of bounds table.now) (recorded bounds list.now)
        (seen bounds o) start }
{
    walks_find();
    let o = &list[last.place];
    let from = settled.max(latest(bounds, o)).max(last.latest);
    let between = &list[last.place + 1..to];
    let over = o.moment + long(bounds, ti_of(table));
    let (sg, tg) = (long(bounds, sg_of(table)), long(bounds, tg_of(sender)));
    due(bounds, between, from, sg, tg, over, start)
}

/// How many of these begin from one moment on and before another.
fn begun_within(between: &[Transmission], from: u64, to: u64) -> u64
    ensures { result ≡ count_by (λ x. nat_le from x.moment && nat_lt x.moment to) between.now }
{
    between
        .iter()
        .filter(|x| from <= x.moment && x.moment < to)
        .count() as u64
}

/// When the timers of a sender are over for certain behind a start.
fn over_behind(bounds: Bounds, table: &Table, sender: &Sender, start: u64) -> Over
    requires { start < 2 ^ 40 }
    ensures interval { result.interval ≡ start + lengths.long bounds table.now.ti }
    ensures sync { result.sync_gap ≡ lengths.long bounds table.now.sg }
    ensures sync_bound { result.sync_gap ≤ 2 ^ 20 }
    ensures gap { result.terminal_gap ≡ lengths.long bounds sender.now.tg }
    ensures gap_bound { result.terminal_gap ≤ 2 ^ 20 }
{
    Over {
        interval: start + long(bounds, ti_of(table)),
        sync_gap: long(bounds, sg_of(table)),
        terminal_gap: long(bounds, tg_of(sender)),
    }
}

/// Whether it is plain that a sender wasn't due before a start.
fn is_plain(
    bounds: Bounds,
    table: &Table,
    sender: &Sender,
    heard: Heard,
    list: &[Transmission],
    last: Last,
    i: usize,
) -> bool
    requires order { IsAscending list.now }
    requires heard { IsHeard bounds list.now i heard }
    requires last { IsLastTo bounds list.now sender.now.number i last }
    requires here { i < length list.now }
    ensures { (o y : Entry) → slice_get list.now last.place ≡ Some o → slice_get list.now i ≡ Some y → IsTrue result
        → due_of (timers_of bounds table.now sender.now) (monitor_of bounds table.now) (recorded bounds list.now)
        (seen bounds o) y.moment ≡ None }
{
    walks_find();
    let _some = (ti_of(table), sg_of(table), tg_of(sender));
    let (o, x) = (&list[last.place], &list[i]);
    let over = over_behind(bounds, table, sender, o.moment);
    let end = heard.latest.saturating_sub(reach(bounds));
    heard.quiet.rules_out(list, last.place, over, end, x.moment)
}

/// That a start is too late, if it is.
pub(crate) fn late_behind(
    bounds: Bounds,
    table: &Table,
    settled: u64,
    sender: &Sender,
    heard: Heard,
    list: &[Transmission],
    last: Last,
    i: usize,
) -> Option<Late>
    requires settled { settled ≡ settled_of bounds table.now }
    requires low { settled < 2 ^ 40 }
    requires order { IsAscending list.now }
    requires heard { IsHeard bounds list.now i heard }
    requires last { IsLastTo bounds list.now sender.now.number i last }
    requires here { i < length list.now }
    ensures { (o y : Entry) → slice_get list.now last.place ≡ Some o → slice_get list.now i ≡ Some y
        → result ≡ option_map (late_by (recorded bounds list.now) (seen bounds y)) (due_of (timers_of bounds table.now sender.now)
        (monitor_of bounds table.now) (recorded bounds list.now) (seen bounds o) y.moment) }
{
    if is_plain(bounds, table, sender, heard, list, last, i) {
        return None;
    }
    let _some = ti_of(table);
    let x = &list[i];
    let start = x.moment;
    let due = due_behind(bounds, table, settled, sender, list, last, i, start)?;
    Some(Late {
        timer: due.timer,
        amount: start.saturating_sub(due.moment),
        passed: begun_within(&list[last.place + 1..i], due.moment, start),
    })
}
