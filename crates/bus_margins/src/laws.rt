//! What a level says of the bus of its table. Each law is a statement that doesn't speak of the call, which does nothing.
ghost use Rattle.bus_margins.specs.Laws.{AnyIsRoom, AnyJoins, AnySettles, ApartIsARound, LevelIsRoom, LevelKeepsOrder};

/// Level `Any` is exactly that the bus of the table has room and starts itself: so it comes into order by itself, whatever it did before,
/// and lets senders join that are powered up later.
pub fn any_settles()
    ensures exact { AnyIsRoom }
    ensures settles { AnySettles }
    ensures joins { AnyJoins }
{}

/// To have a level is exactly that the bus of the table has room, and no transmit interval outlasts its shortest cycle: so from a common
/// start order is kept, and successive starts are as far apart as the margins say.
pub fn level_keeps_order()
    ensures exact { LevelIsRoom }
    ensures order { LevelKeepsOrder }
    ensures apart { ApartIsARound }
{}
