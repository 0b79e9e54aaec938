//! Advices on a periodic table whose gaps are refused: a greater transmit interval, and other offsets.
ghost use Rattle.std.specs.Prelude.{◌≡◌, ◌≤◌, false, IfOk};
ghost use Rattle.bus_table.specs.Turned.{AreTurned};
ghost use Rattle.bus_table.specs.declared.mode.Mode.TheVariants.{Periodic};
ghost use Rattle.bus_regime.specs.Ends.{AreEnds};
ghost use Rattle.bus_regime.specs.Verdicts.{verdict_of, is_accepted};
ghost use Rattle.bus_advice.specs.declared.advice.Advice.TheVariants.{Plan};
ghost use Rattle.bus_advice.specs.Advices as advised;
ghost use Rattle.bus_advice.specs.inside.InnerGaps as inside;
ghost use Rattle.bus_table.specs.Ranges.{most_sg, most_tg};

use crate::advice::Advice;
use crate::cycles::add;
use crate::plans::planned_interval;
use bus_regime::{gap_at, turn_ends};
use bus_table::ranges::MOST_TI;
use bus_table::{MOST_SENDERS, Table, turn_places};
use std::alloc::{AllocError, Global};

/// What the first gap needs, by whether an inner gap has room for a synchronization gap and its sender's terminal gap, and by how many
/// inner gaps have a synchronization gap.
fn width_for(sg: u32, tg: u32, room: bool, wide: usize) -> u32
    requires sg { sg ≤ most_sg }
    requires tg { tg ≤ most_tg }
    ensures value { result ≡ inside.width_for sg tg room wide }
    ensures bound { result ≤ 1280 }
{
    if room || wide >= 2 {
        tg
    } else if wide >= 1 {
        sg
    } else {
        sg + tg
    }
}

/// The bit times that the first gap needs so that the table is accepted. None where no number is enough, since another gap is small.
fn needed_width(
    table: &Table,
    places: &[usize; MOST_SENDERS],
    ends: &[u64; MOST_SENDERS],
    tg: u32,
) -> Option<u32>
    requires turned { AreTurned table.now places.now }
    requires ends { AreEnds table.now ends.now }
    requires tg { tg ≤ most_tg }
    ensures { result ≡ inside.needed_width table.now.sg tg (inside.inner_gaps table.now) }
{
    let sg = table.sg();
    let mut room = false;
    let mut wide: usize = 0;
    for k in 1..table.senders().len() {
        let gap = gap_at(table, places, ends, k);
        let own = gap.sender().tg();
        if !gap.has_width(own) {
            return None;
        }
        room = room || gap.has_width(sg + own);
        wide += usize::from(gap.has_width(sg));
    }
    Some(width_for(sg, tg, room, wide))
}

/// The least greater transmit interval with which the offsets that stand are accepted.
fn greater_interval(table: &Table) -> Option<u32>
    requires periodic { table.now.mode ≡ Periodic }
    requires refused { is_accepted (verdict_of table.now) ≡ false }
    ensures { result ≡ advised.greater_interval table.now }
{
    let _valid = table.ti();
    let places = turn_places(table);
    let ends = turn_ends(table, &places);
    let first = gap_at(table, &places, &ends, 0);
    let sender = first.sender();
    let needed = needed_width(table, &places, &ends, sender.tg())?;
    let ti = (first.begin() + u64::from(needed)).saturating_sub(u64::from(sender.at()));
    if ti <= u64::from(MOST_TI) {
        Some(ti as u32)
    } else {
        None
    }
}

/// The advices on a periodic table that is refused. Fails only where memory runs out.
pub(crate) fn gap_advices(alloc: Global, table: &Table) -> Result<Vec<Advice>, AllocError>
    requires periodic { table.now.mode ≡ Periodic }
    requires refused { is_accepted (verdict_of table.now) ≡ false }
    ensures { IfOk result (λ advices. advices.items ≡ advised.advices_in Periodic table.now) }
{
    let mut advices = Vec::new(alloc);
    add(
        &mut advices,
        greater_interval(table).map(|ti| Advice::Interval { ti }),
    )?;
    add(
        &mut advices,
        planned_interval(table).map(|ti| Advice::Plan { ti }),
    )?;
    Ok(advices)
}
