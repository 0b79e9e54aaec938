//! What is found at a transmission.
ghost use Rattle.std.specs.Prelude.{◌≡◌, ◌+◌, ◌^◌, ◌<◌, ◌≤◌, length, slice_get, Some, None};
ghost use Rattle.bus_strings.specs.Messages.{Entry};
ghost use Rattle.bus_strings.specs.Transmissions.{IsAscending};
ghost use Rattle.bus_findings.specs.Judging as judged;
ghost use Rattle.bus_findings.specs.Judging.{judgement_of};
ghost use Rattle.bus_findings.specs.Recorded.{seen, recorded, settled_of};
ghost use Rattle.bus_findings.specs.inside.Sound.{AreLong};
ghost use Rattle.bus_findings.specs.inside.Standing.{AreWatched, IsHeard, HasReached, IsLastTo, IsWatch};

use crate::heard::Heard;
use crate::judgement::Judgement;
use crate::lacks::{gap_lack, interval_lack, sync_lack};
use crate::lateness::late_behind;
use crate::watch::{Last, Watch};
use bus_bounds::Bounds;
use bus_strings::Transmission;
use bus_table::{Sender, Table, message_fits, place_of};

/// For how long those before a transmission last beyond its beginning.
fn overlap(bounds: Bounds, heard: Heard, list: &[Transmission], i: usize) -> u64
    requires order { IsAscending list.now }
    requires here { i < length list.now }
    requires heard { IsHeard bounds list.now i heard }
    ensures { (x : Entry) → slice_get list.now i ≡ Some x → result ≡ judged.overlap list.now x }
{
    let x = &list[i];
    heard.end.saturating_sub(x.moment)
}

/// What is found at a transmission of a terminal that is no sender.
fn of_stranger(bounds: Bounds, heard: Heard, list: &[Transmission], i: usize) -> Judgement
    requires order { IsAscending list.now }
    requires here { i < length list.now }
    requires heard { IsHeard bounds list.now i heard }
    ensures { (x : Entry) → slice_get list.now i ≡ Some x → result ≡ judged.of_stranger list.now x }
{
    Judgement {
        stranger: true,
        interval: 0,
        sync_gap: 0,
        terminal_gap: 0,
        late: None,
        misfit: false,
        overlap: overlap(bounds, heard, list, i),
    }
}

/// What is found at the first transmission of a sender; of a later one what needs no earlier start.
fn of_first(
    bounds: Bounds,
    table: &Table,
    sender: &Sender,
    watch: Watch,
    heard: Heard,
    list: &[Transmission],
    i: usize,
) -> Judgement
    requires sound { AreLong bounds list.now }
    requires order { IsAscending list.now }
    requires here { i < length list.now }
    requires heard { IsHeard bounds list.now i heard }
    requires reached { (y : Entry) → slice_get list.now i ≡ Some y → HasReached bounds list.now y.moment heard }
    requires watch { IsWatch bounds table.now list.now sender.now.number i watch }
    ensures { (x : Entry) → slice_get list.now i ≡ Some x → x.terminal ≡ sender.now.number
        → result ≡ judged.of_sender bounds table.now list.now sender.now x None }
{
    let x = &list[i];
    Judgement {
        stranger: false,
        interval: 0,
        sync_gap: 0,
        terminal_gap: gap_lack(bounds, table, sender, watch, heard, list, i),
        late: None,
        misfit: !message_fits(sender, &x.message),
        overlap: overlap(bounds, heard, list, i),
    }
}

/// The same of one behind another, where `first` is what is found at it were it the first.
fn of_next(
    bounds: Bounds,
    table: &Table,
    settled: u64,
    sender: &Sender,
    first: Judgement,
    heard: Heard,
    list: &[Transmission],
    last: Last,
    i: usize,
) -> Judgement
    requires near { bounds.delay ≤ 9 }
    requires sound { AreLong bounds list.now }
    requires settled { settled ≡ settled_of bounds table.now }
    requires low { settled < 2 ^ 40 }
    requires order { IsAscending list.now }
    requires heard { IsHeard bounds list.now i heard }
    requires last { IsLastTo bounds list.now sender.now.number i last }
    requires here { i < length list.now }
    requires first { (x : Entry) → slice_get list.now i ≡ Some x → x.terminal ≡ sender.now.number
        → first ≡ judged.of_sender bounds table.now list.now sender.now x None }
    ensures { (o x : Entry) → slice_get list.now last.place ≡ Some o → slice_get list.now i ≡ Some x → x.terminal ≡ sender.now.number
        → result ≡ judged.of_sender bounds table.now list.now sender.now x (Some (seen bounds o)) }
{
    let (o, x) = (&list[last.place], &list[i]);
    Judgement {
        interval: interval_lack(bounds, table, o.moment, x.moment),
        sync_gap: sync_lack(bounds, table, sender, heard, list, last, i),
        late: late_behind(bounds, table, settled, sender, heard, list, last, i),
        ..first
    }
}

/// What is found at a transmission of a sender.
fn of_sender(
    bounds: Bounds,
    table: &Table,
    settled: u64,
    sender: &Sender,
    watch: Watch,
    heard: Heard,
    list: &[Transmission],
    i: usize,
) -> Judgement
    requires near { bounds.delay ≤ 9 }
    requires sound { AreLong bounds list.now }
    requires settled { settled ≡ settled_of bounds table.now }
    requires low { settled < 2 ^ 40 }
    requires order { IsAscending list.now }
    requires here { i < length list.now }
    requires heard { IsHeard bounds list.now i heard }
    requires reached { (y : Entry) → slice_get list.now i ≡ Some y → HasReached bounds list.now y.moment heard }
    requires watch { IsWatch bounds table.now list.now sender.now.number i watch }
    ensures { (x : Entry) → slice_get list.now i ≡ Some x → x.terminal ≡ sender.now.number
        → result ≡ judged.of_sender bounds table.now list.now sender.now x
        (judged.last_start (recorded bounds list.now) x.terminal x.moment) }
{
    let first = of_first(bounds, table, sender, watch, heard, list, i);
    match watch.last {
        None => first,
        Some(last) => of_next(bounds, table, settled, sender, first, heard, list, last, i),
    }
}

/// What is found at the transmission that stands at a place of the list; it is kept with its sender, if it has one.
pub(crate) fn judge(
    bounds: Bounds,
    table: &Table,
    settled: u64,
    watches: &mut [Watch],
    heard: Heard,
    list: &[Transmission],
    i: usize,
) -> Judgement
    requires near { bounds.delay ≤ 9 }
    requires sound { AreLong bounds list.now }
    requires settled { settled ≡ settled_of bounds table.now }
    requires low { settled < 2 ^ 40 }
    requires order { IsAscending list.now }
    requires here { i < length list.now }
    requires few { i < 2 ^ 50 }
    requires heard { IsHeard bounds list.now i heard }
    requires reached { (y : Entry) → slice_get list.now i ≡ Some y → HasReached bounds list.now y.moment heard }
    requires watched { AreWatched bounds table.now list.now i watches.old }
    ensures value { (x : Entry) → slice_get list.now i ≡ Some x → result ≡ judgement_of bounds table.now list.now x }
    ensures watched { AreWatched bounds table.now list.now (i + 1) watches.new }
{
    let x = &list[i];
    let senders = table.senders();
    let Some(k) = place_of(senders, x.terminal) else {
        return of_stranger(bounds, heard, list, i);
    };
    let judgement = of_sender(
        bounds,
        table,
        settled,
        &senders[k],
        watches[k],
        heard,
        list,
        i,
    );
    watches[k] = watches[k].started(bounds, table, heard, list, i, &judgement);
    judgement
}
