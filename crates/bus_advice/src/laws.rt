//! Laws of advices: each works, and where one is missing none of its kind would. Each is the contract of a function that does nothing.
ghost use Rattle.bus_advice.specs.Laws.{AdvicesWork, NoneMissing, NoStartMissing};

/// The table with the number of an advice in place of its own is valid and accepted; with none that is nearer to its own, greater or
/// lesser, it is. Of a plan, also in periodic mode: with its offsets it is, and with no offsets at an interval from its own up to the
/// advised one. Of a start: with it the table is valid, accepted and starts itself, and with no greater transmit interval it does.
pub fn advices_work()
    ensures { AdvicesWork }
{}

/// Where a change of one number of a refused table, greater or lesser, makes it valid and accepted, there is an advice of that kind: a
/// number of which none is given can't help. Nor can any offsets, at no interval from its own on, where no plan is advised, of an aperiodic
/// table in periodic mode. In periodic mode only the transmit interval and offsets are advised. Where there is a transmit interval with
/// which an accepted aperiodic table starts itself that doesn't, one is advised.
pub fn none_missing()
    ensures refused { NoneMissing }
    ensures accepted { NoStartMissing }
{}
