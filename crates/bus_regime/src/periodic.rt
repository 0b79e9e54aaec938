//! The verdict on a periodic table, in two passes over its gaps and without memory.
ghost use Rattle.std.specs.Prelude.{◌≡◌, ◌+◌, ◌<◌, cond, IfOk, IfErr, None, Some};
ghost use Rattle.std.specs.List.{count_by, find};
ghost use Rattle.bus_strings.specs.Members.{In};
ghost use Rattle.bus_table.specs.Turned.{AreTurned};
ghost use Rattle.bus_table.specs.declared.mode.Mode.TheVariants.{Periodic};
ghost use Rattle.bus_regime.specs.Ends.{AreEnds};
ghost use Rattle.bus_regime.specs.Gaps.{gaps, has_width};
ghost use Rattle.bus_regime.specs.Verdicts as verdicts;

use crate::gaps::{TurnGap, gap_at, turn_ends};
use crate::table_verdict::TableVerdict;
use bus_table::{MOST_SENDERS, Mode, Table, turn_places};

/// One, where the test is passed, and else none.
fn one_if(test: bool) -> usize
    ensures { result ≡ cond test 1 0 }
{
    if test { 1 } else { 0 }
}

/// How many gaps have at least one synchronization gap, unless one is small: then the first of those.
fn wide_gaps<'a>(
    table: &'a Table,
    places: &[usize; MOST_SENDERS],
    ends: &[u64; MOST_SENDERS],
) -> Result<usize, TurnGap<'a>>
    requires turned { AreTurned table.now places.now }
    requires ends { AreEnds table.now ends.now }
    ensures small { IfErr result (λ gap. find verdicts.is_small (gaps table.now) ≡ Some gap) }
    ensures none { IfOk result (λ _. find verdicts.is_small (gaps table.now) ≡ None) }
    ensures wide { IfOk result (λ wide. wide ≡ count_by (has_width table.now.sg) (gaps table.now)) }
{
    let mut wide = 0;
    for k in 0..table.senders().len() {
        let gap = gap_at(table, places, ends, k);
        if gap.is_small() {
            return Err(gap);
        }
        wide += one_if(gap.has_width(table.sg()));
    }
    Ok(wide)
}

/// Whether a gap's sender lacks sync, where so many gaps have at least one synchronization gap: its own gap is not enough, and
/// no gap but its own has one.
fn lacks_sync(table: &Table, wide: usize, gap: &TurnGap<'_>) -> bool
    requires among { In gap.now (gaps table.now) }
    requires wide { wide ≡ count_by (has_width table.now.sg) (gaps table.now) }
    ensures { result ≡ verdicts.lacks_sync table.now.sg (gaps table.now) gap.now }
{
    let sg = table.sg();
    !gap.has_sync(sg) && wide == one_if(gap.has_width(sg))
}

/// The first gap in turn order whose sender lacks sync.
fn unsynchronized<'a>(
    table: &'a Table,
    places: &[usize; MOST_SENDERS],
    ends: &[u64; MOST_SENDERS],
    wide: usize,
) -> Option<TurnGap<'a>>
    requires turned { AreTurned table.now places.now }
    requires ends { AreEnds table.now ends.now }
    requires wide { wide ≡ count_by (has_width table.now.sg) (gaps table.now) }
    ensures { result ≡ find (verdicts.lacks_sync table.now.sg (gaps table.now)) (gaps table.now) }
{
    for k in 0..table.senders().len() {
        let gap = gap_at(table, places, ends, k);
        if lacks_sync(table, wide, &gap) {
            return Some(gap);
        }
    }
    None
}

/// The verdict on the gaps of a table.
pub(crate) fn by_gaps(table: &Table) -> TableVerdict
    ensures { result ≡ verdicts.by_gaps table.now }
{
    let places = turn_places(table);
    let ends = turn_ends(table, &places);
    let wide = match wide_gaps(table, &places, &ends) {
        Ok(wide) => wide,
        Err(gap) => return gap.small_gap(),
    };
    match unsynchronized(table, &places, &ends, wide) {
        Some(gap) => gap.no_sync(table.sg()),
        None => TableVerdict::Accept {
            mode: Mode::Periodic,
            least: u64::from(table.ti()),
            most: u64::from(table.ti()),
        },
    }
}
