//! What a start lacks of its timers.
ghost use Rattle.std.specs.Prelude.{◌≡◌, ◌^◌, ◌<◌, ◌≤◌, length, slice_get, Some};
ghost use Rattle.bus_strings.specs.Messages.{Entry};
ghost use Rattle.bus_strings.specs.Transmissions.{IsAscending};
ghost use Rattle.bus_table.specs.Tables as tables;
ghost use Rattle.bus_bounds.specs.Bounds as lengths;
ghost use Rattle.bus_findings.specs.Lacks as lacks;
ghost use Rattle.bus_findings.specs.Recorded.{seen, recorded, timers_of, monitor_of};
ghost use Rattle.bus_findings.specs.inside.Walked as walked;
ghost use Rattle.bus_findings.specs.inside.Sound.{AreLong};
ghost use Rattle.bus_findings.specs.inside.Standing.{IsHeard, HasReached, IsLastTo, IsWatch};

use crate::heard::Heard;
use crate::lengths::{short, soonest};
use crate::rooms::longest_room;
use crate::timers::{sg_of, tg_of, ti_of};
use crate::watch::{Last, Watch};
use bus_bounds::Bounds;
use bus_recording::laws::walks_find;
use bus_strings::Transmission;
use bus_strings::limits::INNER_GAP;
use bus_table::{Sender, Table};

/// How short the synchronization gap may be.
pub(crate) fn shortest_sync(bounds: Bounds, table: &Table) -> u64
    ensures value { result ≡ lengths.short bounds table.now.sg }
    ensures bound { result ≤ 2 ^ 18 }
{
    short(bounds, sg_of(table))
}

/// What lacks of the shortest transmit interval since the last start.
pub(crate) fn interval_lack(bounds: Bounds, table: &Table, last: u64, start: u64) -> u64
    requires { last < 2 ^ 40 }
    ensures { (sender : tables.Sender) (o y : Entry) → o.moment ≡ last → y.moment ≡ start
        → result ≡ lacks.interval_lack (timers_of bounds table.now sender) (seen bounds o) (seen bounds y) }
{
    (last + short(bounds, ti_of(table))).saturating_sub(start)
}

/// What the longest stretch lacks of the shortest synchronization gap that the sender can have heard quiet in time.
pub(crate) fn sync_lack(
    bounds: Bounds,
    table: &Table,
    sender: &Sender,
    heard: Heard,
    list: &[Transmission],
    last: Last,
    i: usize,
) -> u64
    requires near { bounds.delay ≤ 9 }
    requires sound { AreLong bounds list.now }
    requires order { IsAscending list.now }
    requires heard { IsHeard bounds list.now i heard }
    requires last { IsLastTo bounds list.now sender.now.number i last }
    requires here { i < length list.now }
    ensures { (o y : Entry) → slice_get list.now last.place ≡ Some o → slice_get list.now i ≡ Some y → y.terminal ≡ sender.now.number
        → result ≡ lacks.sync_lack (timers_of bounds table.now sender.now) (monitor_of bounds table.now) (recorded bounds list.now)
        (seen bounds o) (seen bounds y) }
{
    walks_find();
    let sync = shortest_sync(bounds, table);
    let gap = short(bounds, tg_of(sender));
    let x = &list[i];
    let until = x.moment.saturating_sub(gap);
    if heard.quiet.has_room(bounds, list, last.place, sync, until) {
        return 0;
    }
    let from = soonest(bounds, &list[last.place]).max(last.others);
    let between = &list[last.place + 1..i];
    let room = longest_room(bounds, between, from, gap, x.moment);
    sync.saturating_sub(room.max(u64::from(INNER_GAP)))
}

/// What lacks of the shortest terminal gap behind an end; 0 where there is none, or where the gap fits into a message.
fn lack_behind(gap: u64, end: u64, start: u64) -> u64
    requires gap { gap ≤ 2 ^ 20 }
    requires end { end < 2 ^ 41 }
    ensures { result ≡ walked.gap_lack gap end start }
{
    if end == 0 || gap <= u64::from(INNER_GAP) {
        return 0;
    }
    (end + gap).saturating_sub(start)
}

/// What lacks of the shortest terminal gap at a start behind what the sender has heard begin for certain.
pub(crate) fn gap_lack(
    bounds: Bounds,
    table: &Table,
    sender: &Sender,
    watch: Watch,
    heard: Heard,
    list: &[Transmission],
    i: usize,
) -> u64
    requires sound { AreLong bounds list.now }
    requires order { IsAscending list.now }
    requires here { i < length list.now }
    requires heard { (y : Entry) → slice_get list.now i ≡ Some y → HasReached bounds list.now y.moment heard }
    requires watch { IsWatch bounds table.now list.now sender.now.number i watch }
    ensures { (y : Entry) → slice_get list.now i ≡ Some y → y.terminal ≡ sender.now.number
        → result ≡ lacks.gap_lack (timers_of bounds table.now sender.now) (monitor_of bounds table.now) (recorded bounds list.now)
        (seen bounds y) }
{
    let x = &list[i];
    lack_behind(
        short(bounds, tg_of(sender)),
        heard.begun_end.max(watch.own_end),
        x.moment,
    )
}
