//! What is said, which the definitions cite: sentences with holes for numbers (`bus_say`), and texts without holes.

// ---- messages

/// They are `#0` for each of `#1` senders, and the closed schedule ends at `@2`.
pub(crate) const RUNS: &[u8] =
    b"The messages text fits the table: #0 message$0 for each of #1 sender$1; the closed schedule ends @2 behind the settled start.\n";

/// The closed schedule ends at `@0`, above the limit of `@1`.
pub(crate) const TOO_LONG: &[u8] =
    b"The closed schedule ends @0 behind the settled start, and may end @1 behind it at most: take fewer messages.\n";

/// Terminal `#0` has `#1` messages, and terminal `#2` another number, `#3`.
pub(crate) const UNEVEN: &[u8] =
    b"The senders haven't as many messages each: terminal #0 has #1 message$1, and terminal #2 has #3 message$3.\n\
    run and schedule ask for as many of each; observe and cable take any numbers.\n";

/// Item `#0`, in line `#1`, of terminal `#2` doesn't fit, and why comes behind this.
pub(crate) const ITEM: &[u8] = b"Item #0, in line #1, doesn't fit the table: it is of terminal #2";

/// The table has no such sender.
pub(crate) const STRANGER: &[u8] = b", which is no sender of the table.\n";

/// It has `#0` wordstrings, and its sender another number of SEND lines, `#1`.
pub(crate) const STRINGS: &[u8] =
    b" and has #0 wordstring$0, where its sender has #1 SEND line$1.\n";

/// Its wordstring `#0` has `#1` data words, and its SEND line allows `#2` to `#3`.
pub(crate) const WORDS: &[u8] =
    b" and has #1 data word$1 in wordstring #0, where its SEND line allows #2 to #3.\n";

// ---- a cable

/// It has `#0` messages for each of `#1` senders.
pub(crate) const CABLE_FITS: &[u8] =
    b"The cable text fits the table: #0 message$0 for each of #1 sender$1.\n";

/// Terminal `#0` is `@1` from the sender `#2`.
pub(crate) const APART: &[u8] =
    b"The farthest from a sender is terminal #0, @1 from terminal #2.\n";

/// No terminal is apart from a sender.
pub(crate) const TOGETHER: &[u8] = b"All terminals of the table stand at one place.\n";

/// The last sender wakes at `@0`.
pub(crate) const WAKES_LATE: &[u8] = b"The last sender wakes @0 behind the settled start.\n";

/// None wakes late.
pub(crate) const WAKE_TOGETHER: &[u8] = b"All senders wake at the settled start.\n";

/// The table bears it.
pub(crate) const BORNE: &[u8] = b"The table bears this: its senders take turns.\n";

/// An aperiodic table of the tolerance `@0` doesn't.
pub(crate) const FAR_OR_LATE: &[u8] =
    b"The table doesn't bear this: no terminal may be farther from a sender, and no sender wake later, than its tolerance, @0.\n";

/// A periodic one doesn't.
pub(crate) const FAR: &[u8] =
    b"The table doesn't bear this: no terminal may be farther from a sender than its tolerance, @0, and all senders have to wake at \
    the settled start.\n";

/// One of one sender doesn't.
pub(crate) const LATE: &[u8] =
    b"The table doesn't bear this: its sender has to wake at the settled start.\n";

// ---- a trace

/// It has `#0` transmissions up to its horizon, `@1`, of which the last to start ends at `@2`.
pub(crate) const RECORDED: &[u8] =
    b"In its @1 the trace has #0 transmission$0, of which the last to start ends @2 behind the settled start.\n";

/// It has none.
pub(crate) const SILENT: &[u8] = b"In its @1 the trace has #0 transmission$0.\n";
