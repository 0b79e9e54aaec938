//! What is said where a rule lacks, which the definitions cite: `#0`, `#1` and `#2` are its terminals, and `~3` what it lacks.

/// The first turn is late, and one behind it is due.
pub(crate) const LATE: &[u8] =
    b"terminal #0 may be late by so much that terminal #2 is due before it is heard: there lacks ~3.\n";

/// It is late, and holds another back.
pub(crate) const HELD: &[u8] =
    b"terminal #0 may be late, and hold terminal #1 back until terminal #2 is due too: there lacks ~3. A longer terminal gap of terminal \
    #2 or a shorter one of terminal #1 may mend that.\n";

/// Sync comes late.
pub(crate) const WAITING: &[u8] =
    b"a sender may wait for a synchronization gap that comes late. It would be enough against that if the transmit interval were \
    longer by ~3, to hold one for each sender; something else may lack then.\n";

/// Within the first round the next one is due behind the first.
pub(crate) const APART: &[u8] =
    b"the first starts of terminals #0 and #1 may be too close. It would be enough against that if they were farther apart by ~3; \
    something else may lack then.\n";

/// Over its end the first is the last of the round, and the second due in the next one.
pub(crate) const ROUND: &[u8] =
    b"the first start of terminal #0 may be too close to the second of terminal #1. It would be enough against that if the offset of \
    terminal #0 were less by ~3, or if the transmit interval were longer by as much; something else may lack then.\n";

/// A message isn't heard out.
pub(crate) const UNHEARD: &[u8] =
    b"a message may not be heard out. It would be enough against that if the terminal gap of terminal #0 were longer by ~3; \
    something else may lack then.\n";

/// The senders keep their turns.
pub(crate) const TURNS: &[u8] =
    b"the senders take turns for ever, with as many messages for each and however long these are, though their offsets may drift.\n";

/// They do so behind the first.
pub(crate) const LEADS: &[u8] =
    b"the senders take turns for ever behind the first of them, with as many messages for each and however long these are.\n";

/// Nothing is promised.
pub(crate) const NEITHER: &[u8] = b"nothing is promised of the senders' turns: ";

/// What stands before all of them.
pub(crate) const WHERE: &[u8] =
    b"Where oscillators are off by up to 50 millionths and nothing else is inexact, from power-ups at one moment and with no delay \
    on the way, ";
