//! Laws of what is received, each the contract of a function that does nothing.
ghost use Rattle.bus_filter.specs.FilterLaws.{KeepsSelection, ReceivesByNumber};

/// Over the words of one wordstring a receiver keeps the selection of its line: a law, with no work.
pub fn kept_words_are_selected()
    ensures { KeepsSelection }
{}

/// What the terminal of a number receives is what its receive lines take: a law, with no work.
pub fn received_by_number()
    ensures { ReceivesByNumber }
{}
