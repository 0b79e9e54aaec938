//! Laws of the picture with a row for each cycle: its rows, boxes, marks and numbers. Each is the contract of a function that does
//! nothing.
ghost use Rattle.bus_cycles.specs.Laws.{CountsAreOfRows, CutAreOpen, EachIsDueOnce, EndsAreNamed, HatchedAreDrawnLast, HatchedAreGarbled};
ghost use Rattle.bus_cycles.specs.Laws.{KeptAreDrawn, LastEndsAreOfRows, LeftOutAreCovered, LoadsAreShares, NeighboursDiffer};
ghost use Rattle.bus_cycles.specs.Laws.{OpenHidesNone, RowsAreAPartition, RowsAreCounted, RowsAreCycles, RowsAreIntervals};
ghost use Rattle.bus_cycles.specs.Laws.{RowsAreNumbered, RowsAscend, RowsHaveLastEnds, SlotsAreKept, ThreeAreKept, ThreeLieApart};
ghost use Rattle.bus_cycles.specs.Laws.{WholeAreCounted};
ghost use Rattle.bus_cycles.specs.Laws.{WholeAreSeen};
ghost use Rattle.bus_cycles.specs.MarkLaws.{BreachHidesNone, BreachIsAtItsMoment, BreachWordHidesNone, CableIsUnmarked, FaultHidesNone};
ghost use Rattle.bus_cycles.specs.MarkLaws.{FaultsAreMarked, NoFaultIsMarked, TheLastRowIsMarked};
ghost use Rattle.bus_cycles.specs.PictureLaws.{BoxesBeginWhereDue, BreachIsListed, CutAreListed, DuesAreListed, DuesAreMarked};
ghost use Rattle.bus_cycles.specs.PictureLaws.{FaultsAreListed, GarbledAreListed, MarksHideNoBox, PlainAreListed};

use bus_pen::laws::places_keep_order;

/// The rows of a window are a partition: their transmissions, one behind the other, are exactly those that begin in the window, in order.
pub fn rows_are_a_partition()
    ensures { RowsAreAPartition }
{}

/// Each transmission of a row is an entry of the list, and is hatched exactly where that is garbled.
pub fn hatched_are_garbled()
    ensures { HatchedAreGarbled }
{}

/// Of the two walks over the rows the first draws no hatched box, and the second no plain one: no plain box lies over a hatched one.
pub fn hatched_are_drawn_last()
    ensures { HatchedAreDrawnLast }
{}

/// Each transmission is due in exactly one of the two walks.
pub fn each_is_due_once()
    ensures { EachIsDueOnce }
{}

/// A walk draws of a row exactly those transmissions that aren't left out and are due in it, each once and in order.
pub fn kept_are_drawn()
    ensures { KeptAreDrawn }
{}

/// In periodic mode each transmission of a row begins in the interval that begins with the row.
pub fn rows_are_intervals()
    ensures { RowsAreIntervals }
{}

/// In aperiodic mode a row begins where a synchronization gap or more is quiet, and at no other transmission but the first.
pub fn rows_are_cycles()
    ensures { RowsAreCycles }
{}

/// The place of a row says which one it is, from 0.
pub fn rows_are_numbered()
    ensures { RowsAreNumbered }
{}

/// Each row begins later than all before it.
pub fn rows_ascend()
    ensures { RowsAscend }
{}

/// The counts above the plot are those of the rows.
pub fn counts_are_of_rows()
    ensures { CountsAreOfRows }
{}

/// Each transmission of a row that is left out lies under the box of an earlier one of its row and shade.
pub fn left_out_are_covered()
    ensures { LeftOutAreCovered }
{
    places_keep_order();
}

/// A first breach that is drawn stands at its moment, in a row that has begun by then, and in periodic mode in the row of its interval.
pub fn breach_is_at_its_moment()
    ensures { BreachIsAtItsMoment }
{}

/// The line of a first breach hides no box of its row.
pub fn breach_hides_none()
    ensures { BreachHidesNone }
{}

/// The word of a first breach hides no box of any row.
pub fn breach_word_hides_none()
    ensures { BreachWordHidesNone }
{
    places_keep_order();
}

/// Each transmission of a drawn row at which a fault is found has its mark there, with what is found.
pub fn faults_are_marked()
    ensures { FaultsAreMarked }
{}

/// Where the heading counts no fault, none is marked.
pub fn no_fault_is_marked()
    ensures { NoFaultIsMarked }
{}

/// In a picture of what was recorded on a cable nothing is marked: but for its frame it is that of a lawful trace.
pub fn cable_is_unmarked()
    ensures { CableIsUnmarked }
{}

/// The mark of a fault hides no box of its row: something of each is seen between its two parts.
pub fn fault_hides_none()
    ensures { FaultHidesNone }
{}

/// All transmissions of a whole row have ended no fewer bit times behind the row's begin than the words above the rows tell at least, and
/// no more than they tell at most.
pub fn last_ends_are_of_rows()
    ensures { LastEndsAreOfRows }
{}

/// Where some row is told to be whole, all transmissions of a whole one have ended as many bit times behind its begin as the words above
/// the rows tell at least, and those of one as many as they tell at most. And these words tell how many rows there are, and how many of
/// them are whole.
pub fn rows_have_last_ends()
    ensures last_ends { RowsHaveLastEnds }
    ensures count { RowsAreCounted }
    ensures whole { WholeAreCounted }
{}

/// In aperiodic mode a whole row has all of its cycle: a synchronization gap or more lies before its first transmission and behind an
/// earlier one of the list, and one is seen behind its end.
pub fn whole_are_seen()
    ensures { WholeAreSeen }
{}

/// A row is drawn open exactly where it is cut, which hides none of its boxes.
pub fn cut_are_open()
    ensures open { CutAreOpen }
    ensures boxes { OpenHidesNone }
{
    places_keep_order();
}

/// In periodic mode each sender has a line where it is due in a row, at which the box of a transmission begins that begins then. The line
/// goes over exactly those of the drawn rows in which a start of it is due, as often as the trace says that it held a message.
pub fn dues_are_marked()
    ensures marked { DuesAreMarked }
    ensures boxes { BoxesBeginWhereDue }
{}

/// A row says which terminals send the first and the last of its transmissions.
pub fn ends_are_named()
    ensures { EndsAreNamed }
{}

/// No row is busy for more bit times than it has.
pub fn loads_are_shares()
    ensures { LoadsAreShares }
{}

/// The boxes of two senders that follow one another in turn order have different shades.
pub fn neighbours_differ()
    ensures { NeighboursDiffer }
{}

/// A terminal keeps its slot wherever that is free: so what of it is garbled lies at the same height in all rows.
pub fn slots_are_kept()
    ensures { SlotsAreKept }
{}

/// What is garbled is drawn, and meets no box of what is garbled before it in its row, as long as at most two of these reach behind its
/// beginning: of three that collide each is seen, whoever sends them.
pub fn three_lie_apart()
    ensures apart { ThreeLieApart }
    ensures kept { ThreeAreKept }
{}

/// Where rows take the moment of the first breach, which the window has, one is marked, and none of them begins later.
pub fn the_last_row_is_marked()
    ensures { TheLastRowIsMarked }
{}

/// No mark of the table hides a box: in the text all boxes of transmissions come behind these marks, and so lie over them.
pub fn marks_hide_no_box()
    ensures { MarksHideNoBox }
{}

/// The legend lists plain boxes, garbled ones, the first breach, faults, rows that are cut, and offsets, each exactly where one is drawn:
/// what only rows have that aren't drawn isn't listed.
pub fn legend_lists_what_is_drawn()
    ensures plain { PlainAreListed }
    ensures garbled { GarbledAreListed }
    ensures breach { BreachIsListed }
    ensures faults { FaultsAreListed }
    ensures cut { CutAreListed }
    ensures dues { DuesAreListed }
{}
