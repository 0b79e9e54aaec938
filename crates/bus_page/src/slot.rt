//! The slots of a periodic table: the gap before each sender, and its longest message.
ghost use Rattle.std.specs.Prelude.{◌≡◌, ◌≤◌, ◌<◌, ◌^◌, IfOk};
ghost use Rattle.bus_page.specs.Slots as definition;

use crate::turn::Stretch;
use bus_regime::{TurnGap, gap_at, turn_ends};
use bus_table::laws::table_is_valid;
use bus_table::{Table, longest, turn_at, turn_places};
use std::alloc::{AllocError, Global};

/// Whom a gap synchronizes.
#[derive(Clone, Copy, Debug, PartialEq, Eq)]
pub enum Synced {
    /// All senders: it has room for a synchronization gap and its own sender's terminal gap.
    All,
    /// All but the sender behind it: it has room for a synchronization gap.
    Others,
    /// Nobody.
    Nobody,
}

/// The gap before a sender, and its longest message. All moments are bit times from the beginning of an interval of the table.
#[derive(Clone, Copy, Debug, PartialEq, Eq)]
pub struct Slot {
    /// The number of the terminal: 1 to 128.
    pub number: u8,
    /// Where the gap begins, in the interval that is drawn.
    pub from: u64,
    /// Where it ends.
    pub to: u64,
    /// Whom it synchronizes.
    pub synced: Synced,
    /// The longest message.
    pub message: Stretch,
}

/// Where the interval that is drawn begins: at the first sender's offset.
pub(crate) fn begin_of(table: &Table) -> u64
    ensures value { result ≡ definition.begin_of table.now }
    ensures bound { result ≤ 2 ^ 32 }
{
    table_is_valid(table);
    let places = turn_places(table);
    u64::from(turn_at(table, &places, 0).at())
}

/// Whom a gap synchronizes, where the synchronization gap has so many bit times.
fn synced_by(sg: u32, gap: &TurnGap<'_>) -> Synced
    requires { sg ≤ 1024 }
    ensures { result ≡ definition.synced_by sg gap.now }
{
    if gap.has_width(sg + gap.sender().tg()) {
        Synced::All
    } else if gap.has_width(sg) {
        Synced::Others
    } else {
        Synced::Nobody
    }
}

/// Where a gap is drawn, where the drawn interval begins at `begin`.
fn gap_from(table: &Table, begin: u64, gap: &TurnGap<'_>) -> u64
    requires own { begin ≡ definition.begin_of table.now }
    requires bound { begin ≤ 2 ^ 32 }
    ensures value { result ≡ definition.gap_from table.now gap.now }
    ensures short { result ≤ 2 ^ 40 }
{
    let ti = u64::from(table.ti());
    if gap.end() == ti + begin {
        gap.begin()
    } else {
        gap.begin().saturating_sub(ti)
    }
}

/// The slot of a gap, and of the sender behind it.
fn slot_of(table: &Table, begin: u64, gap: &TurnGap<'_>) -> Slot
    requires own { begin ≡ definition.begin_of table.now }
    requires bound { begin ≤ 2 ^ 32 }
    ensures { result ≡ definition.slot_of table.now gap.now }
{
    let sender = gap.sender();
    let at = u64::from(sender.at());
    let from = gap_from(table, begin, gap);
    Slot {
        number: sender.number(),
        from,
        to: from + gap.end().saturating_sub(gap.begin()),
        synced: synced_by(table.sg(), gap),
        message: Stretch {
            gap: at,
            from: at,
            to: at + u64::from(longest(sender)),
        },
    }
}

/// The slots of a table, in turn order. Fails only where memory runs out.
pub(crate) fn slots(alloc: Global, table: &Table) -> Result<Vec<Slot>, AllocError>
    ensures { IfOk result (λ slots. slots.items ≡ definition.slots_of table.now) }
{
    let places = turn_places(table);
    let ends = turn_ends(table, &places);
    let begin = begin_of(table);
    let mut slots = Vec::new(alloc);
    for k in 0..table.senders().len() {
        let gap = gap_at(table, &places, &ends, k);
        slots.push(slot_of(table, begin, &gap))?;
    }
    Ok(slots)
}
