//! Laws of late starts and of transmissions in a picture. Each is the contract of a function that does nothing.
ghost use Rattle.bus_shapes.specs.LaterLaws.{LaterIsNext, NoneIsLater};
ghost use Rattle.bus_shapes.specs.Laws.{SentsAreTold};

/// Where a heading says that a terminal is due, and in how many bit times its next start is, it starts then and not between; and where it
/// says that it doesn't start, it doesn't from there on.
pub fn late_starts_are_next()
    ensures later { LaterIsNext }
    ensures none { NoneIsLater }
{}

/// All that [`Sents`](crate::Sents) tell of a list is told of entries of it: each has the terminal, the moments and the mark of one.
pub fn sents_are_told()
    ensures { SentsAreTold }
{}
