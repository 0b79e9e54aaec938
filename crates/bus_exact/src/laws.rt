//! Laws of exact clocks, a case of those that are not. Each is the contract of a function that does nothing.
ghost use Rattle.bus_exact.specs.Exact.{LawfulIsCourse, LawfulIsInOrder};
ghost use Rattle.bus_exact.specs.Settling.{AnyStartSettlesOnCable, LongHandsLast};

/// What the senders of an aperiodic table do on a cable with their exact timers, whatever they have to send and whenever they are powered
/// up, is a course whose timers each take their one length, and which begins cold. So where the verdict accepts the table and it bears the
/// delays, that course is in order by the law of all clocks (`bus_clocks::laws::real_clocks_keep_order`).
pub fn lawful_list_is_a_course()
    ensures course { LawfulIsCourse }
    ensures order { LawfulIsInOrder }
{}

/// A bus without a master stabilizes itself on a cable too. With delays between its senders that an aperiodic table bears which starts
/// itself, whenever they were powered up, and whatever they sent until then: as long as their hands have messages left, from a moment on
/// what they send is rounds in turn order, with nothing missing and no two at once (`specs/Settling.antt`). That moment comes at most a
/// longest cycle, a synchronization gap and a delay for each sender behind the last power-up. Hands with as many messages as there are
/// bit times before the horizon have some left.
pub fn any_start_settles_on_cable()
    ensures settles { AnyStartSettlesOnCable }
    ensures long { LongHandsLast }
{}
