//! Laws of buses whose clocks aren't exact, each the contract of a function that does nothing.
ghost use Rattle.bus_clocks.specs.Apart.{ClearIsHeardApart};
ghost use Rattle.bus_clocks.specs.Existing.{CoursesExist, OneCourse};
ghost use Rattle.bus_clocks.specs.Faults.{CoursesGoOn, FaultsAreCourses, FaultsSettle};
ghost use Rattle.bus_clocks.specs.Growing.{JoiningIsOrderly};
ghost use Rattle.bus_clocks.specs.Needing.{FirstIsNeeded, JoiningIsNeeded, OpeningIsNeeded, SyncIsNeeded, TurnsAreNeeded};
ghost use Rattle.bus_clocks.specs.Order.{RealClocksKeepOrder};
ghost use Rattle.bus_clocks.specs.Parts.{AliveSettle, PartsHaveCourses, PartsHaveRoom};
ghost use Rattle.bus_clocks.specs.Settling.{AnyStartSettles};
ghost use Rattle.bus_clocks.specs.Unsettled.{Unsettled};
ghost use Rattle.bus_clocks.specs.Windows.{AllowedStart, CoursesAreAdmissible, ExactTimersAgree, StartsAreAllowed};

/// Whenever its senders were powered up, whatever state their timers were in at first, and whatever they heard and sent before: a bus
/// with room that starts itself comes into order by itself once it is left alone, and stays there.
pub fn any_start_settles()
    ensures { AnyStartSettles }
{}

/// Each part of the senders has room, and starts itself, where the bus does; so whoever is alive comes into order by itself, where the
/// others are silent for good.
pub fn alive_settle()
    ensures room { PartsHaveRoom }
    ensures courses { PartsHaveCourses }
    ensures alive { AliveSettle }
{}

/// What a bus does behind a fault that left the timers of all terminals in any state, and messages on the way, is a course that is left
/// alone once the fault is over: so it comes into order by itself. Where a fault changes nothing it is the course that goes on.
pub fn faults_settle()
    ensures courses { FaultsAreCourses }
    ensures order { FaultsSettle }
    ensures none { CoursesGoOn }
{}

/// Senders that are powered up at about the same time, with as many messages each, are in order from the beginning, where the bounds
/// leave room.
pub fn real_clocks_keep_order()
    ensures { RealClocksKeepOrder }
{}

/// Where the first sender is there from the beginning, the others join whenever they are powered up, and nobody is disturbed.
pub fn joining_is_orderly()
    ensures { JoiningIsOrderly }
{}

/// Transmissions that are clear are heard apart by every terminal.
pub fn clear_is_heard_apart()
    ensures { ClearIsHeardApart }
{}

/// There is one such course, whatever the timers take, whatever is heard, and however long each transmission lasts.
pub fn courses_exist()
    ensures exist { CoursesExist }
    ensures one { OneCourse }
{}

/// A sender starts where its short timers allow it, by the rule of `bus_timers`, and where its long timers do; with exact timers
/// the two rules are one. So every course that begins cold is admissible.
pub fn timers_agree()
    ensures short { StartsAreAllowed }
    ensures long { AllowedStart }
    ensures exact { ExactTimersAgree }
    ensures admissible { CoursesAreAdmissible }
{}

/// Where the bounds leave less room, there is a course that isn't in order.
pub fn room_is_needed()
    ensures first { FirstIsNeeded }
    ensures opening { OpeningIsNeeded }
    ensures sync { SyncIsNeeded }
    ensures joining { JoiningIsNeeded }
    ensures turns { TurnsAreNeeded }
{}

/// Short and long timers alone aren't enough: where it is left open whether a quiet has synchronized a sender, a bus with room that
/// starts itself needn't come into order.
pub fn windows_do_not_settle()
    ensures { Unsettled }
{}
