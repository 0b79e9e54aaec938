//! What is said, which the definitions cite: sentences with holes for numbers (`bus_say`).

// ---- an accepted table

/// It is accepted.
pub(crate) const ACCEPTED: &[u8] =
    b"The table is accepted: from a settled start, with no delay on the way and as many messages for each, its senders take turns \
    and no two of them talk over each other.\n";

/// The cycles of an aperiodic table, from `@0` to `@1`, and its spare, `@2`: the interval may rise up to `@4`.
pub(crate) const CYCLES: &[u8] =
    b"The shortest cycle, of the shortest messages, takes @0, and the longest takes @1.\n\
    The spare is @2: by so much the transmit interval, TI, could rise, though never above @4, and the table would still be accepted.\n";

/// Each cycle of a periodic table, `@1`, and its spare, `@2`: the interval may fall down to `@3`.
pub(crate) const CYCLE: &[u8] =
    b"Each cycle takes @1, the transmit interval, whether messages are short or long.\n\
    The spare is @2: by so much the transmit interval, TI, could fall, though never below @3, if the offsets were planned anew.\n";

/// What stands before the load.
pub(crate) const LOAD: &[u8] = b"The load is ";

/// What it means.
pub(crate) const LOAD_MEANS: &[u8] =
    b": so much of the longest cycle is messages, each as long as it may be; the rest is gaps.\n";

/// A load that rounds to none: in an accepted table somebody sends.
pub(crate) const LITTLE_LOAD: &[u8] = b"less than 0.1 %";

/// One sender alone bears every delay.
pub(crate) const BEARS_EACH: &[u8] =
    b"The tolerance has no end: one sender alone keeps its times, however long the cable is.\n";

/// The tolerance of an aperiodic table, `@0`. Its second line tells that there is no greater one, in the words of the laws by which that
/// is so: more of what happens then isn't known in general.
pub(crate) const BEARS_POWER_UPS: &[u8] =
    b"The tolerance is @0: where all senders are powered up within that time of one another, and no terminal hears another later \
    than that, with as many messages for each, they take turns, each starting as soon as its gaps are over, and no terminal hears \
    two messages overlap.\n\
    With one bit time more for both, there are places on a straight cable and moments of power-up with which they don't, whatever \
    they send, two messages or more each.\n";

/// That of a periodic table, in the same way.
pub(crate) const BEARS_DELAY: &[u8] =
    b"The tolerance is @0: from a settled start, where no terminal hears another later than that, with as many messages for each, \
    the senders start at their offsets in each cycle, and no terminal hears two messages overlap.\n\
    With one bit time more, there are places on a straight cable with which they don't, where each sends its longest message twice.\n";

// ---- its senders

/// What comes before the rows of an aperiodic table, of whose sender two starts are at most `@0` apart: what the senders have in common,
/// the names of the columns, and their units.
pub(crate) const TURNS: &[u8] =
    b"The senders speak in this order; from one start to its next each waits, without delays, at most @0:
            terminal gap, TG    shortest message     longest message
terminal  bit times       \xc2\xb5s  bit times       \xc2\xb5s  bit times       \xc2\xb5s\n";

/// The same of a periodic one. The gap is from the end of the longest message of the sender before it.
pub(crate) const OFFSETS: &[u8] =
    b"The senders speak in this order; each starts its offset into each cycle, and from one start to its next waits, without delays, \
    at most @0:
                  offset, AT    least gap before    terminal gap, TG    shortest message     longest message
terminal  bit times       \xc2\xb5s  bit times       \xc2\xb5s  bit times       \xc2\xb5s  bit times       \xc2\xb5s  bit times       \
\xc2\xb5s\n";

// ---- its start

/// It starts itself, and what that means.
pub(crate) const STARTS: &[u8] =
    b"On exact clocks the table starts itself: whenever its terminals are powered up, with delays up to the tolerance too, its senders \
    come to take turns by themselves, as long as each has messages left.\n";

/// It doesn't, and its senders never part once they all start at once.
pub(crate) const NEVER_PARTS: &[u8] =
    b"The table doesn't start itself: there are moments of power-up with which, on exact clocks and without delays, all senders start \
    at once and collide in every cycle, for ever.\n";

/// It doesn't, and they may part.
pub(crate) const MAY_START: &[u8] =
    b"The table doesn't start itself: where its terminals are powered up at any moments, nothing is promised of their order.\n";

/// There is no advice to start.
pub(crate) const NO_START: &[u8] =
    b"No transmit interval makes it start itself, if nothing else is changed.\n";

// ---- on clocks that are off

/// Its order comes by itself.
pub(crate) const DRIFTING_ANY: &[u8] =
    b"Where oscillators are off by up to 50 millionths, its order comes about by itself too, whenever its terminals are powered up, as \
    long as each has messages left.\n";

/// It stands from a common start alone.
pub(crate) const DRIFTING_COMMON: &[u8] =
    b"Where oscillators are off by up to 50 millionths, its order stands where all terminals are powered up at once and have as many \
    messages each; of other starts nothing is promised then.\n";

/// Nothing is known of it.
pub(crate) const DRIFTING_NONE: &[u8] =
    b"Where oscillators are off by up to 50 millionths, nothing is promised of its order: margins tells which rule lacks room.\n";

/// The greatest delay, `@0`, that any offsets bear.
pub(crate) const MOST_DELAY: &[u8] =
    b"The greatest delay that any offsets bear at this interval is @0: the word best behind plan and the file chooses such offsets.\n";

// ---- a refused table

/// The shortest cycle, `@0`, is below the transmit interval, `@2`, by `@1`.
pub(crate) const SHORT_CYCLE: &[u8] =
    b"The table is refused: the shortest cycle takes @0, which is @1 less than the transmit interval, TI, of @2.\n\
    In such a cycle a turn comes before its sender's transmit interval is over: that sender can't start in time, and nothing is \
    promised of what follows.\n";

/// The gap before terminal `#0` is below its terminal gap, `@2`, by `@1`.
pub(crate) const SMALL_GAP: &[u8] =
    b"The table is refused: the gap before terminal #0 is @1 shorter than its terminal gap, TG, of @2.\n\
    The gap lasts from the end of the longest message of the sender before it to its own next start; an overlap counts below zero.\n";

/// Terminal `#0` lacks sync: the gap before it is by `@1` below what it needs, `@2`.
pub(crate) const NO_SYNC: &[u8] =
    b"The table is refused: the gap before terminal #0 is @1 shorter than the synchronization gap, SG, and its terminal gap, TG, \
    together, which are @2.\n\
    Nor is there a gap of SG before another sender, so this terminal can start late, or miss its turn.\n";

/// What stands before a table that an advice makes.
pub(crate) const MADE: &[u8] = b"The table in periodic mode, ready to copy:\n";

// ---- advices

/// What stands before some.
pub(crate) const ADVICES: &[u8] = b"Each of these changes alone makes the table accepted:\n";

/// There are none.
pub(crate) const NO_ADVICES: &[u8] =
    b"There is no advice: none of the changes that explain looks for makes the table accepted.\n";

/// Another transmit interval.
pub(crate) const INTERVAL: &[u8] =
    b"TI #0: change the transmit interval to @0, the nearest that is accepted.\n";

/// Another synchronization gap.
pub(crate) const SYNCHRONIZATION: &[u8] =
    b"SG #0: raise the synchronization gap to @0, the least that is accepted.\n";

/// Another terminal gap of terminal `#0`.
pub(crate) const GAP: &[u8] =
    b"TG #0 #1: raise the terminal gap of terminal #0 to @1, the least that is accepted and that no other sender has.\n";

/// Another least number of data words of SEND line `#1` of terminal `#0`, counted from 1.
pub(crate) const LEAST: &[u8] =
    b"LEAST #0 #1 #2: raise the least number of data words on SEND line #1 of terminal #0 to #2, the least that is accepted.\n";

/// Other offsets.
pub(crate) const PLAN: &[u8] =
    b"PLAN #0: plan the offsets anew, with a transmit interval of @0, the least from the present one on for which there are offsets.\n";

/// Another mode.
pub(crate) const PERIODIC: &[u8] =
    b"PERIODIC #0: make the table periodic, with the offsets of a plan and a transmit interval of @0, the least from the present one \
    on for which there are offsets.\n";

/// Another transmit interval, for a table that doesn't start itself.
pub(crate) const START: &[u8] =
    b"START #0: change the transmit interval to @0, the greatest with which the table starts itself.\n";
