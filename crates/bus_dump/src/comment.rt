//! The comment of a dump: the words of a verdict, which hold no line feed.
ghost use Rattle.bus_regime.specs.Lines.{verdict_words};
ghost use Rattle.bus_regime.specs.declared.table_verdict.TableVerdict.TheVariants as verdicts;
ghost use Rattle.bus_trace.specs.Runs.{HasNoFeed};

use bus_regime::TableVerdict;
use bus_table::Mode;

fn accept(mode: Mode, least: u64, most: u64)
    ensures { HasNoFeed (verdict_words (verdicts.Accept mode least most)) }
{}

fn short_cycle(least: u64, ti: u64)
    ensures { HasNoFeed (verdict_words (verdicts.ShortCycle least ti)) }
{}

fn small_gap(terminal: u8, gap: i64, needed: u64)
    ensures { HasNoFeed (verdict_words (verdicts.SmallGap terminal gap needed)) }
{}

fn no_sync(terminal: u8, gap: u64, needed: u64)
    ensures { HasNoFeed (verdict_words (verdicts.NoSync terminal gap needed)) }
{}

/// The words of a verdict hold no line feed, whatever its numbers are.
pub(crate) fn holds_no_feed(verdict: TableVerdict)
    ensures { HasNoFeed (verdict_words verdict) }
{
    match verdict {
        TableVerdict::Accept { mode, least, most } => accept(mode, least, most),
        TableVerdict::ShortCycle { least, ti } => short_cycle(least, ti),
        TableVerdict::SmallGap {
            terminal,
            gap,
            needed,
        } => small_gap(terminal, gap, needed),
        TableVerdict::NoSync {
            terminal,
            gap,
            needed,
        } => no_sync(terminal, gap, needed),
    }
}
