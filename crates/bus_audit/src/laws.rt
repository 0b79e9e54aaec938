//! Laws of audits, each the contract of a function that does nothing.
ghost use Rattle.bus_audit.specs.Breaches.{OneAnswer, TheAnswer};
ghost use Rattle.bus_audit.specs.Meaning.{NoBreachIsRight, LawfulIsRight};
ghost use Rattle.bus_audit.specs.Observed.{ObservedIsRight, ObservedIsClean, LawfulIsObserved};

use bus_table::laws::filling_messages_fit;
use bus_timers::laws::test_decides;

/// A trace has no breach exactly where its messages fit and it is the lawful list for the hands that it states; and
/// exactly there the answer is that it is lawful. A law, with no work.
pub fn no_breach_is_right()
    ensures breach { NoBreachIsRight }
    ensures answer { LawfulIsRight }
{
    test_decides();
}

/// A trace has one answer, the one that `answer_of` computes by trying every pair. A law, with no work.
pub fn one_answer()
    ensures once { OneAnswer }
    ensures computed { TheAnswer }
{
    test_decides();
}

/// What the senders of a valid table do with any fitting hands, seen up to any horizon, has no breach, whatever
/// collides: so an audit accepts what is observed, always. A law, with no work.
pub fn observed_is_lawful()
    ensures right { ObservedIsRight }
    ensures clean { ObservedIsClean }
{
    test_decides();
    no_breach_is_right();
}

/// A trace of a valid table that has no breach is observed of hands that fit, those that its HOLD lines give: what it
/// shows of them in order, and filling messages for those that it doesn't show. So an audit accepts only what is
/// observed of some fitting hands with just these counts. A law, with no work.
pub fn lawful_is_observed()
    ensures hands { LawfulIsObserved }
{
    no_breach_is_right();
    filling_messages_fit();
}
