//! What the figures are good for.
ghost use Rattle.bus_explain.specs.Aligned.{RowsAreAligned};
ghost use Rattle.bus_explain.specs.Laws.{GapsAreTold, LoadIsOfLongestCycle, SpareIsFall, SpareIsRise};

use bus_plan::laws::{feasible_exactly, short_is_refused};
use bus_strings::laws::shares_are_nearest;

/// An accepted aperiodic table with its transmit interval changed alone is accepted exactly up to its own and the spare.
pub fn spare_is_rise()
    ensures { SpareIsRise }
{}

/// With its transmit interval changed to any in its range, some offsets of an accepted periodic table, each below it, are accepted
/// exactly down to its own less the spare, whatever offsets it has.
pub fn spare_is_fall()
    ensures { SpareIsFall }
{
    feasible_exactly();
    short_is_refused();
}

/// A longest message of each sender of an accepted table and the gaps are its longest cycle, to the bit time, and its load is the nearest
/// number of tenths of a percent of that cycle that is messages.
pub fn load_is_of_longest_cycle()
    ensures { LoadIsOfLongestCycle }
{
    shares_are_nearest();
}

/// The gaps that are told of an accepted periodic table are one for each sender in turn order, each that of the verdict, and no less than
/// its sender's terminal gap.
pub fn gaps_are_told()
    ensures { GapsAreTold }
{}

/// The lines of the senders of a valid table are aligned: each fills its columns, whatever its numbers are.
pub fn rows_are_aligned()
    ensures { RowsAreAligned }
{}
