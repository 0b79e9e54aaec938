//! Laws of when a terminal may start, each the contract of a function that does nothing.
ghost use Rattle.bus_timers.specs.MayStartTest.{TestDecides};
ghost use Rattle.bus_timers.specs.GapLaws.{SettledPlace, StartedPlace, QuietPlace, CarrierPlace, WaitingCarrierPlace, OnePlace};
ghost use Rattle.bus_timers.specs.GapLaws.{QuietsPlace, CarriersPlace, WaitingCarriersPlace, PlaceDecides};

/// The test of `specs/MayStartTest.antt`, which computes, says when a terminal may start.
pub fn test_decides()
    ensures { TestDecides }
{}

/// How the place from which the terminal gap counts moves, and that it tells when a terminal may start.
pub fn gap_place_moves()
    ensures settled { SettledPlace }
    ensures started { StartedPlace }
    ensures quiet { QuietPlace }
    ensures carrier { CarrierPlace }
    ensures waiting_carrier { WaitingCarrierPlace }
    ensures one { OnePlace }
    ensures quiets { QuietsPlace }
    ensures carriers { CarriersPlace }
    ensures waiting_carriers { WaitingCarriersPlace }
    ensures decides { PlaceDecides }
{}
