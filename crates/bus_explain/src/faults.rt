//! What is said of a text that is refused, and of a table that is wrong as a whole, which the definitions cite: sentences with holes for
//! numbers (`bus_say`).

// ---- a line that is refused

/// Which line, `#0`.
pub(crate) const LINE: &[u8] = b"Line #0 of the table text is refused: ";

/// The text ends early.
pub(crate) const ENDED: &[u8] = b"the text ends before the table is whole.\n";

/// No line with such a keyword can stand there.
pub const MISPLACED: &[u8] = b"a line that begins so can't stand here.\n";

/// A sender has as many SEND lines as it may have, `#0`.
pub(crate) const ALL_SENT: &[u8] = b"a sender has at most #0 SEND lines, and this one has them.\n";

/// A terminal has as many TAKE lines as it may have, `#1`.
pub(crate) const ALL_TAKEN: &[u8] =
    b"a terminal has at most #1 TAKE lines, and this one has them.\n";

/// It has other fields.
pub const FIELDS: &[u8] = b"it hasn't the fields of its form.\n";

/// A field is spelled otherwise.
pub const SPELLING: &[u8] =
    b"a field isn't written as its form asks; numbers are decimal digits, without a sign or a leading zero.\n";

/// A number is out of its range.
pub const RANGE: &[u8] = b"a number isn't within what its form allows.\n";

// ---- what may stand there

/// What stands before some forms.
pub(crate) const MAY_STAND: &[u8] = b"Here may stand:\n";

/// The end of the text.
pub(crate) const END: &[u8] = b"the end of the text\n";

/// What stands before the one form.
pub(crate) const HAS_TO_BE: &[u8] = b"The line has to be:\n";

/// The first line.
pub(crate) const TABLE_FORM: &[u8] = b"TABLE 1: the first line of every table text\n";

/// The mode.
pub(crate) const MODE_FORM: &[u8] =
    b"MODE m: m is aperiodic, where gaps tell who may start, or periodic, where offsets do\n";

/// The transmit interval, from `@0` to `@1`.
pub(crate) const TI_FORM: &[u8] = b"TI n: n is the transmit interval, @0 to @1\n";

/// The synchronization gap, from `@2` to `@3`.
pub(crate) const SG_FORM: &[u8] = b"SG n: n is the synchronization gap, @2 to @3\n";

/// A sender of an aperiodic table, whose gap is from `@4` to `@5`.
pub(crate) const SENDER_FORM: &[u8] =
    b"SENDER n TG g: n is the number of a terminal that sends, 1 to 128, and g its terminal gap, @4 to @5\n";

/// One of a periodic table, whose offset is from `@6` to `@7`.
pub(crate) const OFFSET_FORM: &[u8] =
    b"SENDER n TG g AT a: n is the number of a terminal that sends, 1 to 128, g its terminal gap, @4 to @5, and a its offset, @6 to \
    @7\n";

/// A wordstring that is sent.
pub(crate) const SEND_FORM: &[u8] =
    b"SEND l e least most: a wordstring that it sends, with the label l, three hexadecimal digits, the extension e, one hexadecimal \
    digit, and at least and at most so many data words, 0 to 256, least not above most\n";

/// Words that are taken.
pub(crate) const TAKE_FORM: &[u8] =
    b"TAKE l e first count: data words that it takes, of the label l, three hexadecimal digits, and the extension e, one hexadecimal \
    digit, or * for any, from the word first on, counted from 0 to 255, and count words, 1 to 256\n";

/// A terminal that only receives.
pub(crate) const LISTENER_FORM: &[u8] =
    b"LISTENER n: n is the number of a terminal that only receives, 1 to 128\n";

// ---- a table that is wrong as a whole

/// It is, and why comes behind this.
pub(crate) const WHOLE: &[u8] = b"The table is wrong as a whole: ";

/// Nobody sends.
pub(crate) const NO_SENDER: &[u8] = b"no terminal sends.\n\
    Add a SENDER line, and behind it a SEND line for each wordstring of its messages.\n";

/// Two terminals have the number `#0`.
pub(crate) const NUMBER_TWICE: &[u8] = b"two terminals have the number #0.\n\
    Give one of them another number, from 1 to 128.\n";

/// Another sender has the gap of terminal `#0`.
pub(crate) const GAP_TWICE: &[u8] = b"an earlier sender has the terminal gap, TG, of terminal #0.\n\
    Give one of them a terminal gap that no other sender has.\n";

/// The gap of terminal `#0` is too long.
pub(crate) const GAP_NOT_SHORT: &[u8] =
    b"the synchronization gap, SG, isn't above the terminal gap, TG, of terminal #0.\n\
    Lower this terminal gap, or raise the synchronization gap.\n";

/// The offset of terminal `#0` is too late.
pub(crate) const OFFSET_RANGE: &[u8] =
    b"the transmit interval, TI, isn't above the offset, AT, of terminal #0.\n\
    Lower this offset, or raise the transmit interval.\n";

/// Two SEND lines have the label `^0` and the extension `_1`.
pub(crate) const PAIR_TWICE: &[u8] = b"two SEND lines have the label ^0 with the extension _1.\n\
    Give one of them another label or another extension.\n";
