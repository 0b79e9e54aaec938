//! Laws of dumps, their lanes and their save files. Each is the contract of a function that does nothing.
ghost use Rattle.bus_dump.specs.Laws.{BitsArePulses, BreachIsTold, CarrierIsTold, ClearListsShowNone, DumpsAreRead};
ghost use Rattle.bus_dump.specs.Laws.{GarbledAreTold};
ghost use Rattle.bus_dump.specs.Laws.{IdentifiersDiffer, LabelsAreTold, LanesAreTerminals, MessagesAreTold};
ghost use Rattle.bus_dump.specs.TimerLaws.{LawfulIsSingle};
ghost use Rattle.bus_dump.specs.Laws.{NamesAreDeclared, NothingIsIdle, NothingIsLost, NothingWrittenIsLost, OverlapsAreTold};
ghost use Rattle.bus_dump.specs.Laws.{OverlapsGarble, PulsesAreTold, StampsAreTold, SyncIsTold};
ghost use Rattle.bus_dump.specs.TimerLaws.{StartsAreSeen, StartsAreTold};
ghost use Rattle.bus_dump.specs.Laws.{WordIsTold, WrittenDumpsAreRead, WrittenStampsAreTold};
ghost use Rattle.bus_dump.specs.TimerLaws.{TimersAreTold};
ghost use Rattle.bus_dump.specs.SaveLaws.{AllAreShown, BreachIsFirst, BreachIsOpen, FewAreOpen, FirstAreOpen, OpensOnAll};

use crate::comment::holds_no_feed;
use bus_regime::verdict;
use bus_strings::laws::neighbours_tell;
use bus_table::Table;
use bus_timers::laws::test_decides;

/// A reader of Value Change Dumps (`specs/Reading.antt`) finds in a dump, by the name of each of its signals, exactly the value that this
/// signal has at each bit time of its window below the horizon.
pub fn dumps_are_read()
    ensures { DumpsAreRead }
{}

/// So it is of each dump that is written of a trace on this table: the words of a verdict, its comment, hold no line feed.
pub fn written_dumps_are_read(table: &Table)
    ensures { WrittenDumpsAreRead table.now }
{
    holds_no_feed(verdict(table));
}

/// A dump declares the identifier of each of its signals beside the name of it, and no two of them have the same identifier.
pub fn names_are_declared()
    ensures names { NamesAreDeclared }
    ensures differ { IdentifiersDiffer }
{}

/// The stamps of a dump rise strictly: five times its first bit time, each at which something changes, and last its end.
pub fn stamps_are_told()
    ensures { StampsAreTold }
{}

/// So do those of each dump that is written of a trace on this table.
pub fn written_stamps_are_told(table: &Table)
    ensures { WrittenStampsAreTold table.now }
{
    holds_no_feed(verdict(table));
}

/// At each bit time behind the first either no signal has another value than before, and nothing is written; or one has, and the stamp
/// is written and the value of each signal that has another than before.
pub fn nothing_is_idle()
    ensures { NothingIsIdle }
{}

/// Each sender of a table and each terminal that sends in a trace has one lane, and no other terminal has any.
pub fn lanes_are_terminals()
    ensures { LanesAreTerminals }
{}

/// The wires of the bus and of a lane in the words of pulses and spans, and that of the breach, which is 1 at its moment alone.
pub fn wires_are_told()
    ensures carrier { CarrierIsTold }
    ensures pulses { PulsesAreTold }
    ensures overlaps { OverlapsAreTold }
    ensures garbled { GarbledAreTold }
    ensures sync { SyncIsTold }
    ensures breach { BreachIsTold }
{}

/// The word on the bus: nothing where no transmission has a pulse, the word of the one that has, and no one can tell where two or more
/// have one.
pub fn word_is_told()
    ensures word { WordIsTold }
    ensures bits { BitsArePulses }
{}

/// The label word of the wordstring that a terminal has on the bus, and the number of its transmission.
pub fn numbers_are_told()
    ensures labels { LabelsAreTold }
    ensures messages { MessagesAreTold }
{}

/// A dump shows an overlap at some bit time below the horizon exactly if it shows a terminal garbled at some bit time below it, and exactly
/// if the trace has a garbled transmission.
pub fn overlaps_garble()
    ensures { OverlapsGarble }
{
    neighbours_tell();
}

/// Of a list in which no two transmissions overlap a dump shows none: no overlap, no garbled terminal, and no word that can't be told.
pub fn clear_lists_show_none()
    ensures { ClearListsShowNone }
{}

/// The wires of the timers of a sender: what the definition of *may start* says after the past that the list makes.
pub fn timers_are_told()
    ensures starts { StartsAreTold }
    ensures timers { TimersAreTold }
{
    test_decides();
}

/// Of what the senders of a table send by their timers, a sender starts at a bit time below the horizon exactly where the wire of its
/// timers says that it may, and it has a message left.
pub fn starts_are_seen()
    ensures { StartsAreSeen }
{
    test_decides();
}

/// What the senders of a table send by their timers is never doubled, whatever hands they have: so each trace that is run or observed has
/// a dump.
pub fn lawful_is_single()
    ensures { LawfulIsSingle }
{}

/// The save file has a line that shows each signal of each dump.
pub fn all_are_shown()
    ensures { AllAreShown }
{}

/// The viewer that opens a save file beside the dump of the same window shows the whole dump at first.
pub fn save_files_open_on_all()
    ensures { OpensOnAll }
{}

/// Which groups of lanes are open when the viewer opens a save file. Where the window holds the first breach, the lane of the terminal that
/// this names is, and of more than two lanes it stands first. Where the window holds none, the first eight are. More than eight never are.
pub fn save_files_open_on_breaches()
    ensures breach { BreachIsOpen }
    ensures before { BreachIsFirst }
    ensures first { FirstAreOpen }
    ensures few { FewAreOpen }
{}

/// Two traces on a table, of which no two transmissions overlap and all have ended by the horizon, have the same dump of all of them with
/// words only where they have the same horizon and the same list.
pub fn nothing_is_lost()
    ensures { NothingIsLost }
{}

/// So it is of the dumps that are written of traces on this table.
pub fn nothing_written_is_lost(table: &Table)
    ensures { NothingWrittenIsLost table.now }
{
    holds_no_feed(verdict(table));
}
