//! What a level says of the bus of a periodic table. Each law is the contract of a function that does nothing.
ghost use Rattle.bus_margins_periodic.specs.Laws.{LeadsFollowOne, LeadsIsRoom, TurnsIsRoom, TurnsKeepTurns};

/// Level `Turns` is exactly that the bus of the table leaves room for turns. So in every course all take turns for ever, and keep pace.
pub fn turns_keep_turns()
    ensures room { TurnsIsRoom }
    ensures turns { TurnsKeepTurns }
{}

/// Level `Leads` is exactly that the bus of the table leaves room for its first sender to lead alone. So in every course all follow it.
pub fn leads_follow_one()
    ensures room { LeadsIsRoom }
    ensures lead { LeadsFollowOne }
{}
