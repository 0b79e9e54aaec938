//! What limits how much delay a table bears: its conditions one by one, each with what it alone bears.
ghost use Rattle.std.specs.Prelude.{◌≡◌, ◌≢◌, ◌++◌, ◌+◌, ◌<◌, ◌≤◌, [], drop, map, length, Some, IfOk, OnOk, IsTrue};
ghost use Rattle.bus_strings.specs.Members.{In};
ghost use Rattle.bus_table.specs.Turned.{AreTurned};
ghost use Rattle.bus_table.specs.Turns.{turn_order};
ghost use Rattle.bus_table.specs.declared.mode.Mode.TheVariants.{Aperiodic, Periodic};
ghost use Rattle.bus_regime.specs.Ends.{AreEnds};
ghost use Rattle.bus_regime.specs.Gaps.{gaps};
ghost use Rattle.bus_regime.specs.Verdicts.{verdict_of, is_accepted};
ghost use Rattle.bus_reach.specs.Limits as limited;

use crate::aperiodic::room_between;
use crate::limit::{Limit, Rule};
use crate::periodic::sync_limit;
use bus_regime::{TurnGap, gap_at, turn_ends};
use bus_table::{MOST_SENDERS, Mode, Sender, Table, turn_at, turn_places};
use std::alloc::{AllocError, Global};

/// What the least terminal gap of a table bears, which is that of this sender.
fn least_limit(table: &Table, first: &Sender) -> Limit
    requires { In first.now table.now.senders }
    ensures { result ≡ limited.least_limit table.now first.now }
{
    let _valid = table.ti();
    Limit {
        rule: Rule::LeastGap {
            terminal: first.number(),
        },
        bears: Some(u64::from(first.tg())),
    }
}

/// The next longer gap than that of the `k`-th sender in turn order: that of the next sender, or behind the last the synchronization gap.
fn next_gap(table: &Table, places: &[usize; MOST_SENDERS], k: usize) -> u32
    requires turned { AreTurned table.now places.now }
    requires place { k < length table.now.senders }
    ensures { result ≡ limited.next_gap table.now.sg (drop (k + 1) (turn_order table.now)) }
{
    let count = table.senders().len();
    if k + 1 < count {
        turn_at(table, places, k + 1).tg()
    } else {
        table.sg()
    }
}

/// What it bears that the next longer gap is longer than a sender's.
fn next_limit(table: &Table, sender: &Sender, next: u32) -> Limit
    requires longer { sender.now.tg < next }
    requires most { next ≤ table.now.sg }
    ensures { result ≡ limited.next_limit table.now sender.now next }
{
    let _valid = table.ti();
    Limit {
        rule: Rule::NextGap {
            terminal: sender.number(),
        },
        bears: Some(room_between(u64::from(sender.tg()), u64::from(next))),
    }
}

/// The limits of an aperiodic table of several senders.
fn aperiodic_limits(alloc: Global, table: &Table) -> Result<Vec<Limit>, AllocError>
    requires { table.now.mode ≡ Aperiodic }
    ensures { IfOk result (λ limits. limits.items ≡ limited.limits_in Aperiodic table.now) }
{
    let count = table.senders().len();
    let places = turn_places(table);
    let mut limits = Vec::new(alloc);
    limits.push(least_limit(table, turn_at(table, &places, 0)))?;
    for k in 0..count {
        let sender = turn_at(table, &places, k);
        limits.push(next_limit(table, sender, next_gap(table, &places, k)))?;
    }
    Ok(limits)
}

/// What the gap before a sender bears.
fn gap_limit(table: &Table, gap: &TurnGap<'_>) -> Limit
    requires wide { gap.now.from + gap.now.sender.tg ≤ gap.now.to }
    requires most { gap.now.to < limited.farthest table.now }
    ensures { result ≡ limited.gap_limit table.now gap.now }
{
    let sender = gap.sender();
    Limit {
        rule: Rule::OwnGap {
            terminal: sender.number(),
        },
        bears: Some(gap.end() - gap.begin() - u64::from(sender.tg())),
    }
}

/// Adds what the gaps of a periodic table bear, in turn order.
fn add_gaps(
    limits: &mut Vec<Limit>,
    table: &Table,
    places: &[usize; MOST_SENDERS],
    ends: &[u64; MOST_SENDERS],
) -> Result<(), AllocError>
    requires turned { AreTurned table.now places.now }
    requires ends { AreEnds table.now ends.now }
    requires several { length table.now.senders ≢ 1 }
    requires mode { table.now.mode ≡ Periodic }
    requires accepted { IsTrue (is_accepted (verdict_of table.now)) }
    ensures { OnOk result (limits.new.items ≡ limits.old.items ++ map (limited.gap_limit table.now) (gaps table.now)) }
{
    for k in 0..table.senders().len() {
        limits.push(gap_limit(table, &gap_at(table, places, ends, k)))?;
    }
    Ok(())
}

/// Adds with what delays the senders of a periodic table stay in sync, in turn order.
fn add_syncs(
    limits: &mut Vec<Limit>,
    table: &Table,
    places: &[usize; MOST_SENDERS],
    ends: &[u64; MOST_SENDERS],
) -> Result<(), AllocError>
    requires turned { AreTurned table.now places.now }
    requires ends { AreEnds table.now ends.now }
    requires several { length table.now.senders ≢ 1 }
    requires mode { table.now.mode ≡ Periodic }
    requires accepted { IsTrue (is_accepted (verdict_of table.now)) }
    ensures { OnOk result (limits.new.items ≡ limits.old.items ++ limited.sync_limits table.now [] (gaps table.now)) }
{
    for k in 0..table.senders().len() {
        limits.push(sync_limit(table, places, ends, k))?;
    }
    Ok(())
}

/// The limits of a periodic table of several senders.
fn periodic_limits(alloc: Global, table: &Table) -> Result<Vec<Limit>, AllocError>
    requires several { length table.now.senders ≢ 1 }
    requires mode { table.now.mode ≡ Periodic }
    requires accepted { IsTrue (is_accepted (verdict_of table.now)) }
    ensures { IfOk result (λ limits. limits.items ≡ limited.limits_in Periodic table.now) }
{
    let places = turn_places(table);
    let ends = turn_ends(table, &places);
    let mut limits = Vec::new(alloc);
    add_gaps(&mut limits, table, &places, &ends)?;
    add_syncs(&mut limits, table, &places, &ends)?;
    Ok(limits)
}

/// What limits how much delay an accepted table bears: each of its conditions, with the greatest delay that it alone bears, in turn order.
/// The table bears exactly what all of them bear, so that its tolerance is the least of them. A table of one sender has none. Fails only
/// where memory runs out.
pub fn limits(alloc: Global, table: &Table) -> Result<Vec<Limit>, AllocError>
    requires { IsTrue (is_accepted (verdict_of table.now)) }
    ensures { IfOk result (λ limits. limits.items ≡ limited.limits_of table.now) }
{
    if table.senders().len() == 1 {
        return Ok(Vec::new(alloc));
    }
    match table.mode() {
        Mode::Aperiodic => aperiodic_limits(alloc, table),
        Mode::Periodic => periodic_limits(alloc, table),
    }
}
