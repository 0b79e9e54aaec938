//! Laws of places and marks. Each is the contract of a function that does nothing.
ghost use Rattle.bus_pen.specs.Laws.{MarksAreExact, PlacesLieWithin, PlacesRise};

/// Places of moments: they don't fall as moments rise, and lie between the edges of the scale.
pub fn places_keep_order()
    ensures rise { PlacesRise }
    ensures within { PlacesLieWithin }
{}

/// The number at each mark of an axis is exact: the mark is at so many of the units that the axis counts.
pub fn marks_are_exact()
    ensures { MarksAreExact }
{}
