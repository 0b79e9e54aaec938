//! Laws of the time line: its boxes, marks, overlap bands and numbers. Each is the contract of a function that does nothing.
ghost use Rattle.bus_picture.specs.GapLaws.{GapsAreAll, GapsAreTrue, LastGapsAreTrue, SyncGapsAreTrue};
ghost use Rattle.bus_picture.specs.GapLaws.{IntervalsAreAll, IntervalsAreTrue, LastIntervalsAreTrue};
ghost use Rattle.bus_picture.specs.FaultLaws.{CableIsUnmarked, FaultsAreMarked, FaultsHaveLanes, NoneIsMarked};
ghost use Rattle.bus_picture.specs.OffsetLaws.{OffsetsAreMarked};
ghost use Rattle.bus_picture.specs.Laws.{BoxesCoverNoQuiet, BoxesHoldRows, BoxesHoldTheirs, BoxesLieInRows, BreachesHideNoBox};
ghost use Rattle.bus_picture.specs.Laws.{BusIsCounted, EachIsOnTheBus, IntervalWordsHideNoBox, LoadIsAShare, StrokesLieWithin};
ghost use Rattle.bus_picture.specs.Laws.{TailsAreQuiet};
ghost use Rattle.bus_picture.specs.Laws.{EachIsInOneLane, GarbledAreUncovered, HatchedAreGarbled, LanesAreCounted, LeftOutAreSilent};
ghost use Rattle.bus_picture.specs.LegendLaws.{LegendListsWhatIsDrawn};
ghost use Rattle.bus_picture.specs.TakingLaws.{NamedReceive, ReceivesStrings};
ghost use Rattle.bus_picture.specs.OverlapBandLaws.{BandsAreOverlaps, OverlapsHaveBands};

use bus_dump::laws::lanes_are_terminals;
use bus_pen::laws::places_keep_order;
use bus_shapes::laws::sents_are_told;

/// Each transmission that a row shows is in exactly one box of it.
pub fn boxes_hold_rows()
    ensures { BoxesHoldRows }
{}

/// A box is hatched exactly where its transmissions, all of them entries of the list, are garbled: another one of the list overlaps them.
pub fn hatched_are_garbled()
    ensures { HatchedAreGarbled }
{
    sents_are_told();
}

/// No box covers quiet between two transmissions that takes a pixel: each of its transmissions begins less than that behind the end of
/// those before it.
pub fn boxes_cover_no_quiet()
    ensures { BoxesCoverNoQuiet }
{}

/// A box covers with its stroke what it has of the scale and of its row, hatched or not, and nothing beyond: so no stroke covers quiet.
pub fn strokes_lie_within()
    ensures { StrokesLieWithin }
{}

/// A box goes from the begin of its first transmission to the end of one of them, and all lie between.
pub fn boxes_hold_theirs()
    ensures { BoxesHoldTheirs }
{}

/// All rows that are drawn after one of what is garbled lie below it, and each box lies within its row. Boxes of the same row and timers
/// may lie over a box.
pub fn garbled_are_uncovered()
    ensures rows { GarbledAreUncovered }
    ensures boxes { BoxesLieInRows }
{}

/// Neither the line at the first breach or at a fault nor its words above the plot hide a box.
pub fn breaches_hide_no_box()
    ensures { BreachesHideNoBox }
{}

/// The words of transmit intervals hide no box.
pub fn interval_words_hide_no_box()
    ensures { IntervalWordsHideNoBox }
{}

/// Each transmission that meets the window is shown by exactly one row of the bus, and by exactly one of all lanes that are drawn: so it is
/// in exactly one box of the bus, and in exactly one of its lane.
pub fn each_is_in_one_row()
    ensures bus { EachIsOnTheBus }
    ensures lanes { EachIsInOneLane }
{
    lanes_are_terminals();
    sents_are_told();
}

/// The load of the bus counts no more bit times than the window has; and behind the last end there is no carrier, so that the load up to
/// there counts the same bit times.
pub fn load_is_a_share()
    ensures share { LoadIsAShare }
    ensures tail { TailsAreQuiet }
{}

/// The counts above the plot are those of the boxes of the bus, and those of the boxes of all lanes that are drawn.
pub fn counts_are_shown()
    ensures bus { BusIsCounted }
    ensures lanes { LanesAreCounted }
{
    each_is_in_one_row();
}

/// Each terminal gap that is drawn is that of the timers: it counts from there, after all that its sender has heard, it has no carrier, and
/// it is over or ends where carrier begins, or at the horizon. Each bit time at which one counts, while no transmission runs, is in one of
/// those. Each transmit interval that is drawn is that of the timers at each of its moments, and it is over or ends with the next start;
/// and one is drawn from each start. Each synchronization gap on the bus begins where carrier ends, and is quiet.
pub fn timers_are_true()
    ensures gaps { GapsAreTrue }
    ensures last_gaps { LastGapsAreTrue }
    ensures all_gaps { GapsAreAll }
    ensures intervals { IntervalsAreTrue }
    ensures last_intervals { LastIntervalsAreTrue }
    ensures all_intervals { IntervalsAreAll }
    ensures sync_gaps { SyncGapsAreTrue }
{
    sents_are_told();
}

/// In periodic mode the ticks of a sender whose timers are drawn are those of each moment of the window at which it should start, as often
/// as it held a message, and of no other.
pub fn offsets_are_marked()
    ensures { OffsetsAreMarked }
{}

/// Each bit time of the window at which two transmissions are sent is in an overlap band; and at each bit time of such a band two are sent,
/// or at one behind it that is less than a pixel away.
pub fn bands_are_overlaps()
    ensures banded { OverlapsHaveBands }
    ensures overlaps { BandsAreOverlaps }
{
    sents_are_told();
    places_keep_order();
}

/// Each lane of the table and the trace that isn't drawn is that of a terminal that sends nothing in the window, and that the first breach
/// doesn't name.
pub fn left_out_are_silent()
    ensures { LeftOutAreSilent }
{}

/// The terminals that the title of a wordstring names are those that receive words of it, and what a terminal receives of a list is what it
/// receives of each wordstring.
pub fn receivers_are_named()
    ensures named { NamedReceive }
    ensures strings { ReceivesStrings }
{}

/// The faults that are marked are those of the transmissions that begin in the window, each in exactly one of the lanes that are drawn; and
/// where the heading counts none, none is.
pub fn faults_are_marked()
    ensures marked { FaultsAreMarked }
    ensures lanes { FaultsHaveLanes }
    ensures none { NoneIsMarked }
{
    lanes_are_terminals();
}

/// In a time line of what was recorded on a cable nothing is marked: but for its frame it is that of a lawful trace.
pub fn cable_is_unmarked()
    ensures { CableIsUnmarked }
{}

/// The legend lists each kind of marks exactly where the picture has one: a box of what isn't garbled or of what is, an overlap band, what
/// lies behind the horizon, the line of a gap or of a transmit interval, the tick of an offset, and a box of what takes less than a pixel.
pub fn legend_lists_what_is_drawn()
    ensures { LegendListsWhatIsDrawn }
{}
