//! Laws of findings, each the contract of a function that does nothing.
ghost use Rattle.bus_findings.specs.Laws.{IntervalLackIsAmount, GapLackIsAmount, SyncLackIsAmount, DueIsFirst, NotDueIsNever};
ghost use Rattle.bus_findings.specs.Laws.{LatenessIsAmount};
ghost use Rattle.bus_findings.specs.Laws.{DueIsTold, LateIsTold};
ghost use Rattle.bus_findings.specs.Laws.{KeepersAreUnblamed, AmountsAreTold, GapIsTold, FaultSumIsTold};
ghost use Rattle.bus_findings.specs.Laws.{CleanIsUnblamed, UnblamedIsClean, FilesAreUnblamed, CourseFilesAreUnblamed};
ghost use Rattle.bus_findings.specs.Laws.{SilentIsDue, NotSilentIsNotDue};
ghost use Rattle.bus_findings.specs.Laws.{GoodBusHasNoFault, NoFaultIsGoodBus, GoodFileHasNoFault, CourseFileHasNoFault};
ghost use Rattle.bus_findings.specs.Fronts.{FrontsTell};
ghost use Rattle.bus_findings.specs.Windows.{WindowsAreOfCourses, WindowsKeep};
ghost use Rattle.bus_findings.specs.Meanings.{FileAmountsAreMeant, FileGapIsMeant};

use bus_recording::laws::{
    file_amounts_are_true, files_are_clean, findings_are_just, recordings_count_from_anywhere,
    windows_are_files,
};

/// A start is told to be too early, or late, exactly where it is so in the words of `bus_recording`, and by just as much.
pub fn findings_are_exact()
    ensures interval { IntervalLackIsAmount }
    ensures gap { GapLackIsAmount }
    ensures sync { SyncLackIsAmount }
    ensures due { DueIsFirst }
    ensures not_due { NotDueIsNever }
    ensures told { DueIsTold }
    ensures late { LatenessIsAmount }
{}

/// No false alarm: a sender that keeps its bounds is told no fault by a timer, whatever the other terminals do. And what is told of a start
/// behind another is as much as `bus_recording` says, of which it is proved that it is true of that sender.
pub fn faults_are_just()
    ensures unblamed { KeepersAreUnblamed }
    ensures amounts { AmountsAreTold }
    ensures gap { GapIsTold }
    ensures late { LateIsTold }
{
    findings_are_just();
}

/// A sender has no finding in the words of `bus_recording` exactly where it is told no fault by a timer. So there is no false alarm of a
/// real bus: in a file of whole bit times that begins and ends while the bus goes on, a sender that keeps its bounds is told none, whatever
/// the other terminals do; nor is a sender of a bus within bounds.
pub fn files_are_unblamed()
    ensures clean { CleanIsUnblamed }
    ensures back { UnblamedIsClean }
    ensures keepers { FilesAreUnblamed }
    ensures courses { CourseFilesAreUnblamed }
{
    files_are_clean();
    recordings_count_from_anywhere();
}

/// What is told of a start in such a file, whether its sender keeps its bounds or not, means as much of the bus that was recorded, in
/// ticks, but for less than a bit time, or two: by how much its timers were too short, and how long it had been due.
pub fn amounts_are_meant()
    ensures next { FileAmountsAreMeant }
    ensures gap { FileGapIsMeant }
{
    file_amounts_are_true();
}

/// A sender that is told to be silent was due behind its last start, since the moment and by the timer that are told; and one that isn't
/// told so never was.
pub fn silences_are_told()
    ensures due { SilentIsDue }
    ensures not_due { NotSilentIsNotDue }
{}

/// A bus has no fault exactly where each transmission is of a sender of the table, and fits, and no sender has a finding in the words of
/// `bus_recording`. So it is in the file of a monitor where all senders keep their bounds, and in that of each bus within bounds.
pub fn good_buses_have_no_fault()
    ensures clean { GoodBusHasNoFault }
    ensures back { NoFaultIsGoodBus }
    ensures keepers { GoodFileHasNoFault }
    ensures courses { CourseFileHasNoFault }
{
    files_are_unblamed();
}

/// The list of all that is found has as many faults as the text of findings tells of all transmissions.
pub fn fault_sums_are_told()
    ensures { FaultSumIsTold }
{}

/// What is found at a transmission depends on nothing behind it: of a front of a list it is what is found in the whole list, so that it can
/// be told as soon as the transmission has come.
pub fn fronts_tell()
    ensures { FrontsTell }
{}

/// A window of a trace, what begins at a bit time or later, stands in a file as the trace does: so that no window, too, has a false alarm.
pub fn windows_stand_in_files()
    ensures keep { WindowsKeep }
    ensures courses { WindowsAreOfCourses }
{
    windows_are_files();
}
