//! Laws of what is found in a recording, each the contract of a function that does nothing.
ghost use Rattle.bus_recording.specs.Alarms.{CourseIsClean, HeardCourseIsClean};
ghost use Rattle.bus_recording.specs.Alarms.{HeardIsClean, HeardIsRecorded, PlacedIsClean, PlacedIsRecorded};
ghost use Rattle.bus_recording.specs.Amounts.{GapIsNear, GapIsTrue, IntervalIsExact, IntervalIsTrue, LateIsTrue, NextAreInRow, SyncIsTrue};
ghost use Rattle.bus_recording.specs.Bounded.{AdmissibleKeepsBounds, CoursesKeepBounds};
ghost use Rattle.bus_recording.specs.Exact.{CleanStartIsDue, CleanStartIsLawful};
ghost use Rattle.bus_recording.specs.FileAmounts.{FileAmountsAreTrue, FileGapIsTrue};
ghost use Rattle.bus_recording.specs.Files.{CourseFileIsClean, FileIsClean, FileIsRecorded, UntilHeardKeepsBounds, UntilHearsWithin};
ghost use Rattle.bus_recording.specs.Files.{UntilIsPlaced, UntilKeepsBounds};
ghost use Rattle.bus_recording.specs.Found.{LateStartIsFound, PlacedIsSteady, ShortGapIsFound, ShortIntervalIsFound, ShortSyncIsFound};
ghost use Rattle.bus_recording.specs.Just.{FindingsAreJust};
ghost use Rattle.bus_recording.specs.Monitors.{ThereAreRecordings};
ghost use Rattle.bus_recording.specs.Names.{NamesAreFree};
ghost use Rattle.bus_recording.specs.Places.{StraightIsClean, StraightIsPlaced};
ghost use Rattle.bus_recording.specs.Rounding.{EndsAreNoted, NotedCourseIsClean, NotedIsClean, RoundedIsClean, RoundedIsRecorded};
ghost use Rattle.bus_recording.specs.Rounding.{GapInTicks, IntervalInTicks, LateInTicks, NextInTicks, SyncInTicks};
ghost use Rattle.bus_recording.specs.Shifts.{CountsFromAnywhere, GapLater, IntervalLater, LateLater, NextLater, SyncLater};
ghost use Rattle.bus_recording.specs.Walk.{GapAmount, IntervalAmount, LateAmount};
ghost use Rattle.bus_recording.specs.Walk.{WalkFindsDue, WalkFindsElapsed, WalkFindsNoSync, WalkFindsNotDue, WalkFindsSync};
ghost use Rattle.bus_recording.specs.Windows.{WindowIsFile, WindowIsTold};

/// A finding is just: a terminal that keeps its bounds has none, whatever the others do.
pub fn findings_are_just()
    ensures { FindingsAreJust }
{}

/// The senders of a bus within bounds keep their bounds: in all that is admissible, and in every course, in both modes, from any state.
pub fn senders_keep_bounds()
    ensures courses { CoursesKeepBounds }
    ensures admissible { AdmissibleKeepsBounds }
{}

/// What a monitor records at a place on a cable, or where all hear what they like within a reach, is a recording for each terminal.
pub fn monitors_record()
    ensures some { ThereAreRecordings }
    ensures placed { PlacedIsRecorded }
    ensures heard { HeardIsRecorded }
    ensures straight { StraightIsPlaced }
{}

/// So a terminal that keeps its bounds has no finding, whatever the others do; where delays vary, by bounds that are wider by as much.
pub fn keeping_is_clean()
    ensures placed { PlacedIsClean }
    ensures heard { HeardIsClean }
    ensures straight { StraightIsClean }
{}

/// So it is in whole bit times, rounded down, by bounds that are wider by less than one.
pub fn rounding_is_clean()
    ensures any { RoundedIsClean }
    ensures ends { EndsAreNoted }
    ensures noted { NotedIsClean }
{}

/// What is found in whole bit times is found in ticks, with its amount, of a recording whose delays sway by less than a bit time more.
pub fn rounding_keeps_amounts()
    ensures recorded { RoundedIsRecorded }
    ensures next { NextInTicks }
    ensures interval { IntervalInTicks }
    ensures gap { GapInTicks }
    ensures sync { SyncInTicks }
    ensures late { LateInTicks }
{}

/// Findings are the same, with their amounts, where the recording counts from its own beginning; and a terminal that has none has none
/// where terminals are told by other numbers.
pub fn recordings_count_from_anywhere()
    ensures next { NextLater }
    ensures interval { IntervalLater }
    ensures gap { GapLater }
    ensures sync { SyncLater }
    ensures late { LateLater }
    ensures moments { CountsFromAnywhere }
    ensures names { NamesAreFree }
{}

/// And no sender of a bus within bounds has a finding, from any state.
pub fn there_is_no_false_alarm()
    ensures placed { CourseIsClean }
    ensures noted { NotedCourseIsClean }
    ensures heard { HeardCourseIsClean }
{}

/// A terminal on a cable keeps its bounds by what a monitor hears begin before it stops; so it has no finding in a file of whole bit times
/// that begins and ends while the bus goes on, and counts from its own beginning; nor has a sender of a bus within bounds.
pub fn files_are_clean()
    ensures kept { UntilKeepsBounds }
    ensures placed { UntilIsPlaced }
    ensures heard { UntilHeardKeepsBounds }
    ensures within { UntilHearsWithin }
    ensures file { FileIsClean }
    ensures recorded { FileIsRecorded }
    ensures course { CourseFileIsClean }
{}

/// The amounts are true of the terminal that they are told of, whatever it and the others did.
pub fn amounts_are_true()
    ensures row { NextAreInRow }
    ensures interval { IntervalIsTrue }
    ensures exact { IntervalIsExact }
    ensures near { GapIsNear }
    ensures gap { GapIsTrue }
    ensures sync { SyncIsTrue }
    ensures late { LateIsTrue }
{}

/// So are the amounts that are found in a file, in whole bit times, of the bus that was recorded, in ticks, but for the rounding.
pub fn file_amounts_are_true()
    ensures next { FileAmountsAreTrue }
    ensures gap { FileGapIsTrue }
{}

/// Faults that are greater than the margins are found, with their amounts, where delays are steady and nothing is rounded: an interval
/// whatever the cable, a terminal gap beyond the way from the monitor and back, a synchronization gap and a late start beyond twice that
/// way.
pub fn great_faults_are_found()
    ensures steady { PlacedIsSteady }
    ensures interval { ShortIntervalIsFound }
    ensures gap { ShortGapIsFound }
    ensures sync { ShortSyncIsFound }
    ensures late { LateStartIsFound }
{}

/// Where all clocks are exact and nothing is delayed, a start behind another has no finding exactly where it is the lawful one.
pub fn clean_starts_are_lawful()
    ensures due { CleanStartIsDue }
    ensures lawful { CleanStartIsLawful }
{}

/// How amounts are computed of what a walk finds.
pub fn amounts_are_computed()
    ensures interval { IntervalAmount }
    ensures gap { GapAmount }
    ensures late { LateAmount }
{}

/// A walk over the transmissions between two starts finds how much of a synchronization gap is missing, where the first lasts no less than
/// the reach, and since when a terminal was due, exactly where it is so.
pub fn walks_find()
    ensures sync { WalkFindsSync }
    ensures no_sync { WalkFindsNoSync }
    ensures due { WalkFindsDue }
    ensures not_due { WalkFindsNotDue }
    ensures elapsed { WalkFindsElapsed }
{}

/// A window of a file, what begins at a bit time or later, is a file too, of a monitor that began then: so what is proved of files is true of
/// each window of them.
pub fn windows_are_files()
    ensures file { WindowIsFile }
    ensures told { WindowIsTold }
{}
